// Reading a bag into a store: the bytes first, by `bag`, then the cells are placed, the last one first, as by `store::add`.
#![tactic(auto)]

ghost use Rattle.std.specs.Prelude.{◌≡◌, Bool, true, false, ℕ, ◌+◌, ◌*◌, ◌≤◌, ◌<◌, length, take, get_or};
ghost use mathlib.Core.List.{List, Memᴰ as Mem};
ghost use Rattle.scheme.specs.Res.{then};
ghost use Rattle.scheme.specs.Bag.{read};
ghost use Rattle.scheme.specs.Memory.{capacity, cells_of, sound, held};
ghost use Rattle.laws.specs.Puts.{puts};
ghost use Rattle.laws.specs.Accept.{Whole};
ghost use Rattle.bits.specs.Field.{numbers_at};
ghost use Rattle.store.specs.Paper.{Places};
ghost use Rattle.bag.specs.Places.{IsCell, cell_at};
ghost use Rattle.bag.specs.Paper.{Kept, bag_of};
ghost use Rattle.reader.specs.Filled.{numbers_of, numbered};
ghost use Rattle.reader.specs.Paper.{Ready, PlacesAll, stored, Stores, Reads};

use bag::{OpenBag, open_bag};
use bits::read_field;
use raw_cell::{copy_data, raw_cell};
use scheme::{DATA_LEN, MAX_REFS_COUNT, Reason, Refusal};
use store::{Cells, Content, is_sound, place, take_back};

// What a read answers: the bytes used, the bag's cells and roots, and the cells that are new in the store.
#[derive(Clone, Copy, Debug, PartialEq, Eq)]
pub struct Counts {
    pub used: usize,
    pub cells: usize,
    pub roots: usize,
    pub added: usize,
}

// The store numbers of the `count` bag places at `at`, written from the front; the scratch has them behind the places of the cells.
fn fill_numbers(reply: &[u8], o: OpenBag, at: usize, count: usize, scratch: &[u32], out: &mut [u32])
    requires size_bound { (o.size ≤ 4) × (at + count * o.size ≤ length reply.now) }
    requires cells_bound { (o.cells ≤ 4096) × (2 * o.cells ≤ length scratch.now) × (count ≤ length out.old) }
    requires by_index { (r : ℕ) → Mem r (numbers_at reply.now o.size count at) → r < o.cells }
    ensures { out.new ≡ puts out.old 0 (numbers_of scratch.now o.cells (numbers_at reply.now o.size count at)) }
{
    let mut place = at;
    for k in 0..count {
        let (v, next) = read_field(reply, place, o.size).unwrap();
        out[k] = scratch[o.cells + v as usize];
        place = next;
    }
}

// Places the cell whose bytes start at `at`; the scratch has the store numbers of the cells that it refers to.
// The store's count, table and bytes stay apart for the reason that stands above `store::place`.
fn place_cell(
    reply: &[u8],
    o: OpenBag,
    at: u32,
    count: &mut usize,
    table: &mut [u32],
    bytes: &mut [u8],
    scratch: &[u32],
) -> Result<usize, Refusal>
    requires bytes_value { sound count.old table.old bytes.old ≡ true }
    requires size_bound { (o.size ≤ 4) × (o.cells ≤ 4096) × (2 * o.cells ≤ length scratch.now) × IsCell reply.now o.size at }
    requires by_index { (r : ℕ) → Mem r (cell_at reply.now o.size at).refs → (r < o.cells) × (get_or scratch.now (o.cells + r) 0 < count.old) }
    ensures { Places count.old table.old bytes.old (numbered scratch.now o.cells (cell_at
        reply.now o.size at)) result count.new table.new bytes.new }
{
    let f = raw_cell(reply, at as usize, o.size)?;
    let mut block = [0; DATA_LEN];
    copy_data(reply, f.body, f.bits, &mut block);
    let n = usize::from(f.refs);
    let mut refs = [0; MAX_REFS_COUNT];
    fill_numbers(reply, o, f.links, n, scratch, &mut refs);
    let content = Content {
        flag: u32::from(f.exotic),
        bits: f.bits,
        block: &block,
        refs: &refs[..n],
    };
    place(count, table, bytes, content)
}

// Places all cells, the last one first; each one's number is left in the scratch, behind the places of the cells.
fn place_cells(
    reply: &[u8],
    o: OpenBag,
    count: &mut usize,
    table: &mut [u32],
    bytes: &mut [u8],
    scratch: &mut [u32],
) -> Result<(), Refusal>
    requires { Ready reply.now o.size o.cells count.old table.old bytes.old scratch.old }
    ensures { PlacesAll reply.now o.size o.cells count.old table.old bytes.old scratch.old result
        count.new table.new bytes.new scratch.new }
{
    for i in (0..o.cells).rev() {
        let at = scratch[i];
        let n = place_cell(reply, o, at, count, table, bytes, scratch)?;
        scratch[o.cells + i] = n as u32;
    }
    Ok(())
}

// Stores the cells of a bag that is opened, and names its roots. Where the store is too small, what was placed is taken back.
fn store_bag(
    reply: &[u8],
    o: OpenBag,
    count: &mut usize,
    table: &mut [u32],
    bytes: &mut [u8],
    scratch: &mut [u32],
    roots: &mut [u32],
) -> Result<Counts, Refusal>
    requires bytes_value { sound count.old table.old bytes.old ≡ true }
    requires kept { Kept reply.now (length roots.old) scratch.old o }
    requires whole { Whole (bag_of reply.now scratch.old o) }
    ensures { Stores count.old table.old bytes.old scratch.old
        roots.old (stored (capacity table.old) (cells_of count.old table.old bytes.old) (bag_of
        reply.now scratch.old o)) result count.new table.new bytes.new scratch.new
        roots.new }
{
    let old = *count;
    if let Err(r) = place_cells(reply, o, count, table, bytes, scratch) {
        take_back(count, table, bytes, old);
        return Err(r);
    }
    fill_numbers(reply, o, o.list, o.roots, scratch, roots);
    Ok(Counts {
        used: o.used,
        cells: o.cells,
        roots: o.roots,
        added: *count - old,
    })
}

// A read, with the places of the cells left in the scratch.
fn read_in(
    reply: &[u8],
    whole: bool,
    count: &mut usize,
    table: &mut [u32],
    bytes: &mut [u8],
    scratch: &mut [u32],
    roots: &mut [u32],
) -> Result<Counts, Refusal>
    ensures { Stores count.old table.old bytes.old scratch.old roots.old (then (held
        count.old table.old bytes.old) λ s. read whole (length scratch.old) (length
        roots.old) (capacity table.old) s reply.now) result count.new table.new bytes.new
        scratch.new roots.new }
{
    let store = Cells {
        count: *count,
        table,
        bytes,
    };
    if !is_sound(store) {
        return Err(Reason::Store.at(0));
    }
    let o = open_bag(reply, whole, roots.len(), scratch)?;
    store_bag(reply, o, count, table, bytes, scratch, roots)
}

// A read after which the scratch is all 0.
fn read_bag(
    reply: &[u8],
    whole: bool,
    count: &mut usize,
    table: &mut [u32],
    bytes: &mut [u8],
    scratch: &mut [u32],
    roots: &mut [u32],
) -> Result<Counts, Refusal>
    ensures { Reads whole count.old table.old bytes.old scratch.old roots.old
        reply.now result count.new table.new bytes.new scratch.new roots.new }
{
    let answer = read_in(reply, whole, count, table, bytes, scratch, roots);
    scratch.fill(0);
    answer
}

// Reads the bag that the reply begins with; bytes may follow it. The two readings have the names that docs/RULES.md gives them.
pub fn deserialize(
    reply: &[u8],
    count: &mut usize,
    table: &mut [u32],
    bytes: &mut [u8],
    scratch: &mut [u32],
    roots: &mut [u32],
) -> Result<Counts, Refusal>
    ensures { Reads false count.old table.old bytes.old scratch.old roots.old
        reply.now result count.new table.new bytes.new scratch.new roots.new }
{
    read_bag(reply, false, count, table, bytes, scratch, roots)
}

// Reads the bag that the whole reply is: no byte may follow it.
pub fn unpack_fully(
    reply: &[u8],
    count: &mut usize,
    table: &mut [u32],
    bytes: &mut [u8],
    scratch: &mut [u32],
    roots: &mut [u32],
) -> Result<Counts, Refusal>
    ensures { Reads true count.old table.old bytes.old scratch.old roots.old
        reply.now result count.new table.new bytes.new scratch.new roots.new }
{
    read_bag(reply, true, count, table, bytes, scratch, roots)
}
