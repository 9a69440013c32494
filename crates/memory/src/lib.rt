// What every crate does with lent memory: numbers of a record, elements written at a place.
#![tactic(auto)]

ghost use Rattle.std.specs.Prelude.{◌≡◌, ◌+◌, ◌*◌, ◌/◌, ◌≤◌, ◌<◌, [], ◌∷◌, length, take, drop, get_or};
ghost use Rattle.laws.specs.Puts.{puts};

use scheme::{DATA_LEN, RECORD_LEN};

// The numbers of a record: flag, number of bits, number of references, and from the last on the references.
pub const EXOTIC: usize = 0;

pub const BITS_LEN: usize = 1;

pub const REFS_COUNT: usize = 2;

pub const FIRST_REF: usize = 3;

// Number f of record i.
pub fn field(table: &[u32], i: usize, f: usize) -> usize
    requires i_in_bounds { i * 7 + 7 ≤ length table.now }
    requires f_bound { f < 7 }
    ensures { result ≡ get_or table.now (i * 7 + f) 0 }
{
    table[i * RECORD_LEN + f] as usize
}

// A store as it is read: how many cells it has, seven numbers for each record, and 128 data bytes for each.
#[derive(Clone, Copy)]
pub struct Cells<'a> {
    pub count: usize,
    pub table: &'a [u32],
    pub bytes: &'a [u8],
}

impl<'a> Cells<'a> {
    // The records that the table has room for.
    pub fn room(self) -> usize
        ensures { result ≡ length self.entry.table.now / 7 }
    {
        self.table.len() / RECORD_LEN
    }

    // Number f of record i.
    pub fn field(self, i: usize, f: usize) -> usize
        requires i_in_bounds { i * 7 + 7 ≤ length self.table.now }
        requires f_bound { f < 7 }
        ensures { result ≡ get_or self.entry.table.now (i * 7 + f) 0 }
    {
        field(self.table, i, f)
    }

    // The 128 data bytes of record i.
    pub fn data(self, i: usize) -> &'a [u8]
        requires { i * 128 + 128 ≤ length self.bytes.now }
        ensures value { result.now ≡ take 128 (drop (i * 128) self.entry.bytes.now) }
        ensures len { length result.now ≡ 128 }
    {
        let from = i * DATA_LEN;
        &self.bytes[from..from + DATA_LEN]
    }
}

// Number i of the scratch.
pub fn entry(scratch: &[u32], i: usize) -> usize
    requires { i < length scratch.now }
    ensures { result ≡ get_or scratch.now i 0 }
{
    scratch[i] as usize
}

// Writes one byte, and answers the next place.
pub fn put_byte(out: &mut [u8], at: usize, b: u8) -> usize
    requires { at + 1 ≤ length out.old }
    ensures { (result ≡ at + 1) × (out.new ≡ puts out.old at (b ∷ [])) }
{
    out[at] = b;
    at + 1
}

// Writes the elements, and answers the next place.
pub fn put<T: Copy>(src: &[T], out: &mut [T], at: usize) -> usize
    requires { at + length src.now ≤ length out.old }
    ensures { (result ≡ at + length src.now) × (out.new ≡ puts out.old at src.now) }
{
    let mut to = at;
    for x in src {
        out[to] = *x;
        to += 1;
    }
    to
}
