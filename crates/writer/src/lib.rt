// The bag writer: the bytes of the cells that one root of a store reaches.
#![tactic(auto)]

ghost use Rattle.std.specs.Prelude.{◌≡◌, ℕ, ◌+◌, ◌-◌, ◌*◌, ◌^◌, ◌≤◌, ◌<◌, true, cond, length};
ghost use mathlib.Core.List.{Memᴰ as Mem};
ghost use Rattle.std.proofs.Math.Seq.{slice};
ghost use Rattle.scheme.specs.Bytes.{be, width as width_of};
ghost use Rattle.scheme.specs.Bits.{bit_of};
ghost use Rattle.scheme.specs.Memory.{cell_at, sound};
ghost use Rattle.scheme.specs.Write.{bits_descriptor, padded, all_be, cell_bytes, all_bytes};
ghost use Rattle.laws.specs.Puts.{puts};
ghost use Rattle.laws.specs.Records.{refs_at, RecordOk, Linked, CellOk, CellsOk};
ghost use Rattle.writer.specs.Bytes.{cell_size, sizes, index_of, places_of, placed_cell, placed_cells, head_bytes};
ghost use Rattle.writer.specs.Bag.{index_if, body_of, checksum_of, sealed_of, needed_of};
ghost use Rattle.writer.specs.Paper.{Writes, Serialized};

use crc32c::crc32c;
pub use memory::Cells;
use memory::{BITS_LEN, EXOTIC, FIRST_REF, REFS_COUNT, entry, put, put_byte};
use order::order;
use scheme::{Reason, Refusal};
use sound::is_sound;

const GENERIC_BOC_TAG: u32 = 0xb5ee_9c72;
// The bytes of a checksum.
const CRC_LEN: usize = 4;
// Scratch entries for each stored cell.
const SCRATCH_LEN: usize = 4;
// The level that is written for every cell.
const LEVEL: usize = 0;

// What a bag has besides its cells.
#[derive(Clone, Copy, Debug, PartialEq, Eq)]
pub struct BagOfCellsArgs {
    pub has_idx: bool,
    pub has_crc32c: bool,
}

// The numbers of a bag: the cells that are listed, the bytes of a reference and of an index entry, and those of all cells listed.
#[derive(Clone, Copy)]
struct Shape {
    listed: usize,
    size: usize,
    off: usize,
    total: usize,
    ghost few: { listed ≤ 4096 },
    ghost size_bound: { size ≤ 3 },
    ghost off_bound: { off ≤ 3 },
}

// The fewest bytes that hold n.
fn width(n: usize) -> usize
    requires { n < 16777216 }
    ensures { (result ≡ width_of 8 n) × (result ≤ 3) }
{
    match n {
        0 => 0,
        1..=0xff => 1,
        0x100..=0xffff => 2,
        _ => 3,
    }
}

// Writes n in k bytes, the high one first, and answers the next place.
fn put_be(out: &mut [u8], at: usize, k: usize, n: usize) -> usize
    requires k_bound { k ≤ 8 }
    requires k_in_bounds { at + k ≤ length out.old }
    ensures { (result ≡ at + k) × (out.new ≡ puts out.old at (be k n)) }
{
    let bytes = n.to_be_bytes();
    put(&bytes[bytes.len() - k..], out, at)
}

// The bit behind the first r bits of a byte.
fn bit_after(r: usize) -> u8
    requires { r < 8 }
    ensures { result ≡ 2 ^ (7 - r) }
{
    0x80 >> r
}

// d1 of a cell.
fn refs_descriptor(refs: usize, exotic: usize, level: usize) -> u8
    requires refs_bound { refs ≤ 4 }
    requires exotic_bound { exotic ≤ 1 }
    requires level_bound { level ≤ 3 }
    ensures { result ≡ refs + 8 * exotic + 32 * level }
{
    (refs + 8 * exotic + 32 * level) as u8
}

// d2 of a cell of len bits.
fn bits_descriptor(len: usize) -> u8
    requires { len ≤ 1023 }
    ensures { result ≡ bits_descriptor len }
{
    (len / 8 + len.div_ceil(8)) as u8
}

// The length of cell x in the bag.
#[tactic(auto, unfolding(crate::specs::Bytes::cell_size))]
fn cell_size(cells: Cells, x: usize, size: usize) -> usize
    requires record_ok { RecordOk cells.table.now x }
    requires size_bound { size ≤ 3 }
    ensures { (result ≡ cell_size cells.entry.table.now size x) × (result ≤ 142) }
{
    let len = cells.field(x, BITS_LEN);
    let k = cells.field(x, REFS_COUNT);
    2 + len.div_ceil(8) + k * size
}

// The length of the m cells listed.
fn total_size(cells: Cells, m: usize, size: usize, scratch: &[u32]) -> usize
    requires linked { Linked cells.table.now cells.count }
    requires m_bound { m ≤ 4096 }
    requires m_in_bounds { cells.count + m ≤ length scratch.now }
    requires size_bound { size ≤ 3 }
    requires by_index { (x : ℕ) → Mem x (slice cells.count (cells.count + m) scratch.now) → x < cells.count }
    ensures { (result ≡ sizes cells.entry.table.now size (slice cells.entry.count (cells.entry.count + m) scratch.now)) × (result ≤ 142 * m) }
{
    let mut sum = 0;
    for p in 0..m {
        let x = entry(scratch, cells.count + p);
        sum += cell_size(cells, x, size);
    }
    sum
}

// Writes the index of the cells listed, where it is asked for: where each begins, counted from the first one.
fn put_index(
    args: BagOfCellsArgs,
    cells: Cells,
    shape: Shape,
    scratch: &[u32],
    out: &mut [u8],
    at: usize,
) -> usize
    requires linked { Linked cells.table.now cells.count }
    requires shape_in_bounds { cells.count + shape.listed ≤ length scratch.now }
    requires by_index { (x : ℕ) → Mem x (slice cells.count (cells.count + shape.listed) scratch.now) → x < cells.count }
    requires out_in_bounds { at + length (index_if args.has_idx cells.table.now shape.size shape.off
        (slice cells.count (cells.count + shape.listed) scratch.now)) ≤ length out.old }
    ensures { (result ≡ at + length (index_if args.has_idx cells.entry.table.now shape.size shape.off
        (slice cells.entry.count (cells.entry.count + shape.listed) scratch.now)))
        × (out.new ≡ puts out.old at (index_if args.has_idx cells.entry.table.now shape.size shape.off
        (slice cells.entry.count (cells.entry.count + shape.listed) scratch.now))) }
{
    let mut to = at;
    if args.has_idx {
        let mut start = 0;
        for p in 0..shape.listed {
            let x = entry(scratch, cells.count + p);
            let end = start + cell_size(cells, x, shape.size);
            to = put_be(out, to, shape.off, start);
            start = end;
        }
    }
    to
}

// Writes the places of the references of cell x.
fn put_refs(
    cells: Cells,
    x: usize,
    shape: Shape,
    scratch: &[u32],
    out: &mut [u8],
    at: usize,
) -> usize
    requires record_ok { RecordOk cells.table.now x }
    requires x_lt_cells { x < cells.count }
    requires shape_in_bounds { 3 * cells.count ≤ length scratch.now }
    requires x_in_bounds { at + length (all_be shape.size (places_of scratch.now cells.count (refs_at cells.table.now x))) ≤ length out.old }
    ensures { (result ≡ at + length (all_be shape.size (places_of scratch.now cells.entry.count (refs_at cells.entry.table.now x))))
        × (out.new ≡ puts out.old at (all_be shape.size (places_of scratch.now cells.entry.count (refs_at cells.entry.table.now x)))) }
{
    let k = cells.field(x, REFS_COUNT);
    let mut to = at;
    for j in 0..k {
        let r = cells.field(x, FIRST_REF + j);
        let p = entry(scratch, 2 * cells.count + r);
        to = put_be(out, to, shape.size, p);
    }
    to
}

// Writes the data of cell x, with the bit behind it where its last byte is not whole.
fn put_data(cells: Cells, x: usize, out: &mut [u8], at: usize) -> usize
    requires cell_ok { CellOk cells.table.now cells.bytes.now x }
    requires x_in_bounds { at + length (padded (cell_at cells.table.now cells.bytes.now x)) ≤ length out.old }
    ensures { (result ≡ at + length (padded (cell_at cells.entry.table.now cells.entry.bytes.now x)))
        × (out.new ≡ puts out.old at (padded (cell_at cells.entry.table.now cells.entry.bytes.now x))) }
{
    let len = cells.field(x, BITS_LEN);
    let data = cells.data(x);
    let whole = len / 8;
    let next = put(&data[..whole], out, at);
    let r = len % 8;
    if r == 0 {
        return next;
    }
    put_byte(out, next, data[whole] + bit_after(r))
}

// Writes cell x.
fn put_cell(
    cells: Cells,
    x: usize,
    shape: Shape,
    scratch: &[u32],
    out: &mut [u8],
    at: usize,
) -> usize
    requires cell_ok { CellOk cells.table.now cells.bytes.now x }
    requires x_lt_cells { x < cells.count }
    requires shape_in_bounds { 3 * cells.count ≤ length scratch.now }
    requires x_in_bounds { at + length (cell_bytes shape.size (placed_cell cells.table.now cells.bytes.now scratch.now cells.count x)) ≤ length out.old }
    ensures { (result ≡ at + length (cell_bytes shape.size (placed_cell cells.entry.table.now cells.entry.bytes.now scratch.now cells.entry.count x)))
        × (out.new ≡ puts out.old at (cell_bytes shape.size (placed_cell cells.entry.table.now cells.entry.bytes.now scratch.now cells.entry.count x))) }
{
    let flag = cells.field(x, EXOTIC);
    let len = cells.field(x, BITS_LEN);
    let k = cells.field(x, REFS_COUNT);
    let a = put_byte(out, at, refs_descriptor(k, flag, LEVEL));
    let b = put_byte(out, a, bits_descriptor(len));
    let d = put_data(cells, x, out, b);
    put_refs(cells, x, shape, scratch, out, d)
}

// Writes the cells listed.
fn put_cells(cells: Cells, shape: Shape, scratch: &[u32], out: &mut [u8], at: usize) -> usize
    requires cells_ok { CellsOk cells.table.now cells.bytes.now cells.count }
    requires among { shape.listed ≤ cells.count }
    requires shape_in_bounds { 3 * cells.count ≤ length scratch.now }
    requires by_index { (x : ℕ) → Mem x (slice cells.count (cells.count + shape.listed) scratch.now) → x < cells.count }
    requires out_in_bounds { at + length (all_bytes shape.size
        (placed_cells cells.table.now cells.bytes.now scratch.now cells.count (slice cells.count (cells.count + shape.listed) scratch.now))) ≤ length out.old }
    ensures { (result ≡ at + length (all_bytes shape.size
        (placed_cells cells.entry.table.now cells.entry.bytes.now scratch.now cells.entry.count
        (slice cells.entry.count (cells.entry.count + shape.listed) scratch.now))))
        × (out.new ≡ puts out.old at (all_bytes shape.size
        (placed_cells cells.entry.table.now cells.entry.bytes.now scratch.now cells.entry.count
        (slice cells.entry.count (cells.entry.count + shape.listed) scratch.now)))) }
{
    let mut to = at;
    for p in 0..shape.listed {
        let x = entry(scratch, cells.count + p);
        to = put_cell(cells, x, shape, scratch, out, to);
    }
    to
}

// Writes the header.
fn put_header(out: &mut [u8], flags: u8, shape: Shape) -> usize
    requires { length (head_bytes flags shape.listed shape.size shape.off shape.total) ≤ length out.old }
    ensures { (result ≡ length (head_bytes flags shape.listed shape.size shape.off shape.total))
        × (out.new ≡ puts out.old 0 (head_bytes flags shape.listed shape.size shape.off shape.total)) }
{
    let a = put(&GENERIC_BOC_TAG.to_be_bytes(), out, 0);
    let b = put(&[flags, shape.off as u8], out, a);
    let d = put_be(out, b, shape.size, shape.listed);
    let e = put_be(out, d, shape.size, 1);
    let f = put_be(out, e, shape.size, 0);
    let g = put_be(out, f, shape.off, shape.total);
    put_be(out, g, shape.size, 0)
}

// The byte of flags.
fn flags_of(args: BagOfCellsArgs, size: usize) -> u8
    requires { size ≤ 3 }
    ensures { result ≡ 128 * bit_of args.has_idx + 64 * bit_of args.has_crc32c + size }
{
    128 * u8::from(args.has_idx) + 64 * u8::from(args.has_crc32c) + size as u8
}

// The length of the bag.
fn needed(args: BagOfCellsArgs, shape: Shape) -> usize
    requires { shape.total ≤ 1048576 }
    ensures { result ≡ needed_of args.has_idx args.has_crc32c shape.listed shape.size shape.off shape.total }
{
    let head = 6 + 4 * shape.size + shape.off;
    let index = if args.has_idx {
        shape.off * shape.listed
    } else {
        0
    };
    let tail = if args.has_crc32c { CRC_LEN } else { 0 };
    head + index + shape.total + tail
}

// Writes the checksum of the bytes before, where it is asked for.
fn put_checksum(has_crc32c: bool, out: &mut [u8], at: usize)
    requires { at + cond has_crc32c 4 0 ≤ length out.old }
    ensures { out.new ≡ puts out.old at (checksum_of has_crc32c out.old at) }
{
    if has_crc32c {
        put(&crc32c(&out[..at]).to_le_bytes(), out, at);
    }
}

// Writes the bag without its checksum, and answers its length.
fn put_body(
    args: BagOfCellsArgs,
    cells: Cells,
    shape: Shape,
    scratch: &[u32],
    out: &mut [u8],
) -> usize
    requires cells_ok { CellsOk cells.table.now cells.bytes.now cells.count }
    requires among { shape.listed ≤ cells.count }
    requires shape_in_bounds { 3 * cells.count ≤ length scratch.now }
    requires by_index { (x : ℕ) → Mem x (slice cells.count (cells.count + shape.listed) scratch.now) → x < cells.count }
    requires total_value { shape.total ≡ sizes cells.table.now shape.size (slice cells.count (cells.count + shape.listed) scratch.now) }
    requires out_in_bounds { length (body_of args.has_idx args.has_crc32c cells.table.now cells.bytes.now scratch.now
        cells.count shape.listed shape.size shape.off) ≤ length out.old }
    ensures { (result ≡ length (body_of args.has_idx args.has_crc32c cells.entry.table.now cells.entry.bytes.now scratch.now
        cells.entry.count shape.listed shape.size shape.off))
        × (out.new ≡ puts out.old 0 (body_of args.has_idx args.has_crc32c cells.entry.table.now cells.entry.bytes.now scratch.now
        cells.entry.count shape.listed shape.size shape.off)) }
{
    let flags = flags_of(args, shape.size);
    let a = put_header(out, flags, shape);
    let b = put_index(args, cells, shape, scratch, out, a);
    put_cells(cells, shape, scratch, out, b)
}

// Writes the bag.
fn put_bag(args: BagOfCellsArgs, cells: Cells, shape: Shape, scratch: &[u32], out: &mut [u8])
    requires cells_ok { CellsOk cells.table.now cells.bytes.now cells.count }
    requires among { shape.listed ≤ cells.count }
    requires shape_in_bounds { 3 * cells.count ≤ length scratch.now }
    requires by_index { (x : ℕ) → Mem x (slice cells.count (cells.count + shape.listed) scratch.now) → x < cells.count }
    requires total_value { shape.total ≡ sizes cells.table.now shape.size (slice cells.count (cells.count + shape.listed) scratch.now) }
    requires out_in_bounds { length (sealed_of args.has_crc32c
        (body_of args.has_idx args.has_crc32c cells.table.now cells.bytes.now scratch.now cells.count shape.listed shape.size shape.off)) ≤ length out.old }
    ensures { out.new ≡ puts out.old 0 (sealed_of args.has_crc32c
        (body_of args.has_idx args.has_crc32c cells.entry.table.now cells.entry.bytes.now scratch.now cells.entry.count shape.listed shape.size shape.off)) }
{
    let at = put_body(args, cells, shape, scratch, out);
    put_checksum(args.has_crc32c, out, at);
}

// Writes the bag of the cells that cell `root` of a sound store reaches to out's start; the scratch is left as it comes.
fn write(
    cells: Cells,
    root: usize,
    args: BagOfCellsArgs,
    scratch: &mut [u32],
    out: &mut [u8],
) -> Result<usize, Refusal>
    requires { sound cells.count cells.table.now cells.bytes.now ≡ true }
    ensures { Writes args.has_idx args.has_crc32c cells.entry.count cells.entry.table.now cells.entry.bytes.now root
        scratch.old out.old result out.new }
{
    let n = cells.count;
    if n <= root {
        return Err(Reason::NoCell.at(0));
    }
    if scratch.len() < SCRATCH_LEN * n {
        return Err(Reason::Scratch.at(SCRATCH_LEN * n));
    }
    let m = order(cells.table, n, root, scratch);
    let size = width(m);
    let total = total_size(cells, m, size, scratch);
    let off = width(total);
    let shape = Shape {
        listed: m,
        size,
        off,
        total,
    };
    let long = needed(args, shape);
    if out.len() < long {
        return Err(Reason::NoRoom.at(long));
    }
    put_bag(args, cells, shape, scratch, out);
    Ok(long)
}

// Writes the bag of the cells that cell n of the store reaches to out's start. A refusal writes nothing; the scratch, 4 entries for each stored cell, is
// all 0 afterwards.
pub fn serialize(
    store: Cells,
    n: usize,
    args: BagOfCellsArgs,
    scratch: &mut [u32],
    out: &mut [u8],
) -> Result<usize, Refusal>
    ensures { Serialized args store.entry.count store.entry.table.now store.entry.bytes.now n scratch.old out.old
        result scratch.new out.new }
{
    let answer = if is_sound(store) {
        write(store, n, args, scratch, out)
    } else {
        Err(Reason::Store.at(0))
    };
    scratch.fill(0);
    answer
}
