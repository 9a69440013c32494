// The cell store, on lent memory: a count, a flat table with one record of seven numbers a cell, and 128 data bytes for each record.
#![tactic(auto)]

ghost use Rattle.std.specs.Prelude.{◌≡◌, true, [], ◌++◌, ℕ, ◌+◌, ◌-◌, ◌*◌, ◌/◌, ◌≤◌, ◌<◌, length, get_or, replicate};
ghost use Rattle.scheme.specs.Cells.{find};
ghost use Rattle.scheme.specs.Res.{mapped};
ghost use Rattle.scheme.specs.Memory.{cells_of, sound, row_of, block_of};
ghost use Rattle.scheme.specs.Bits.{bytes_for, cropped};
ghost use Rattle.scheme.specs.Calls.{asking, data_of};
ghost use Rattle.builder.specs.Paper.{builder_of};
ghost use Rattle.laws.specs.Puts.{puts};
ghost use Rattle.laws.specs.Records.{unused_in};
ghost use Rattle.store.specs.Search.{Fields, cell_of, same_head};
ghost use Rattle.store.specs.Paper.{head_numbers, record_at, Places, TakesBack, Clears, Adds};

use builder::CellBuilder;
pub use memory::Cells;
use memory::{BITS_LEN, EXOTIC, FIRST_REF, REFS_COUNT, entry, field, put};
use scheme::{DATA_LEN, MAX_BITS_LEN, MAX_REFS_COUNT, RECORD_LEN, Reason, Refusal};
pub use sound::is_sound;
use sound::{is_sized, unused_in};

// A cell's flag, bit length, number of references, and references; unused ones are 0. Its data is lent by `cell_data`.
#[derive(Clone, Copy, Debug, PartialEq, Eq)]
pub struct CellHead {
    pub exotic: bool,
    pub len: usize,
    pub count: usize,
    pub refs: [u32; MAX_REFS_COUNT],
}

// A cell that is looked for or appended: its flag, bit length, data bytes, of which the bits are the first, and references.
#[derive(Clone, Copy)]
pub struct Content<'a> {
    pub flag: u32,
    pub bits: usize,
    pub block: &'a [u8],
    pub refs: &'a [u32],
}

// Whether record i has the cell's flag, as many bits and as many references: what differs most is tested first.
#[tactic(auto, unfolding(crate::specs::Search::same_head))]
fn same_head(cells: Cells, i: usize, cell: Content) -> bool
    requires { i * 7 + 7 ≤ length cells.table.now }
    ensures { result ≡ same_head cells.entry.table.now i cell.entry.flag cell.entry.bits (length cell.entry.refs.now) }
{
    cells.field(i, BITS_LEN) == cell.bits
        && cells.field(i, REFS_COUNT) == cell.refs.len()
        && cells.field(i, EXOTIC) == cell.flag as usize
}

// One more than the greatest of the numbers, or 0 of none: at most what all of them are below.
fn above(xs: &[u32]) -> usize
    ensures { (m : ℕ) → ((k : ℕ) → k < length xs.now → get_or xs.now k 0 < m) → result ≤ m }
{
    xs.iter().max().map_or(0, |x| *x as usize + 1)
}

// The lowest number of a stored cell that equals this one, or the count of cells. It is none of the first start.
// Compiled by itself: as a part of `place` the search would keep in memory, and not in registers, what it compares.
#[inline(never)]
fn find_cell(cells: Cells, start: usize, cell: Content) -> usize
    requires fields { Fields cells.count cells.table.now cells.bytes.now }
    requires bits_bound { (cell.bits ≤ 1023) × (length cell.refs.now ≤ 4) × (bytes_for cell.bits ≤ length cell.block.now) }
    requires start_le_count { (start ≤ cells.count)
        × (find (cells_of start cells.table.now cells.bytes.now) (cell_of cell.flag cell.bits cell.block.now cell.refs.now) ≡ start) }
    ensures { result ≡ find (cells_of cells.entry.count cells.entry.table.now cells.entry.bytes.now)
        (cell_of cell.entry.flag cell.entry.bits cell.entry.block.now cell.entry.refs.now) }
{
    let n = cell.bits.div_ceil(8);
    let mut next = start;
    // The loop yields the number by a break, and a reference that differs goes on with the next cell by the label.
    'cells: loop {
        let i = next;
        if cells.count <= i {
            break cells.count;
        }
        next = i + 1;
        if !same_head(cells, i, cell) {
            continue;
        }
        for k in 0..cell.refs.len() {
            if cells.field(i, FIRST_REF + k) != entry(cell.refs, k) {
                continue 'cells;
            }
        }
        if &cells.data(i)[..n] == &cell.block[..n] {
            break i;
        }
    }
}

// The same, of a cell whose references are held. An equal cell has a greater number than its references, so the search starts above them:
// where the last cell is one of them, there is none to look at.
fn number_of(cells: Cells, cell: Content) -> usize
    requires cells_value { sound cells.count cells.table.now cells.bytes.now ≡ true }
    requires bits_bound { (cell.bits ≤ 1023) × (length cell.refs.now ≤ 4) × (bytes_for cell.bits ≤ length cell.block.now) }
    requires by_index { (k : ℕ) → k < length cell.refs.now → get_or cell.refs.now k 0 < cells.count }
    ensures { result ≡ find (cells_of cells.entry.count cells.entry.table.now cells.entry.bytes.now)
        (cell_of cell.entry.flag cell.entry.bits cell.entry.block.now cell.entry.refs.now) }
{
    let start = above(cell.refs);
    if start < cells.count {
        return find_cell(cells, start, cell);
    }
    cells.count
}

// Number k, or 0 past the end.
fn number_at(xs: &[u32], k: usize) -> u32
    ensures { result ≡ get_or xs.now k 0 }
{
    xs.get(k).copied().unwrap_or(0)
}

// Writes the seven numbers of a record. The references are taken one by one, which is faster than a copy of so few.
fn put_row(table: &mut [u32], row: usize, cell: Content)
    requires { (row + 7 ≤ length table.old) × ((cell.bits ≤ 1023) × (length cell.refs.now ≤ 4)) }
    ensures { table.new ≡ puts table.old row (row_of [] (cell_of cell.entry.flag cell.entry.bits [] cell.entry.refs.now)) }
{
    let refs = cell.refs;
    let numbers = [
        cell.flag,
        cell.bits as u32,
        refs.len() as u32,
        number_at(refs, 0),
        number_at(refs, 1),
        number_at(refs, 2),
        number_at(refs, 3),
    ];
    put(&numbers, table, row);
}

// A store that is written: one struct of three `&mut` was tried, and each contract then has to say besides that they are still the caller's
// slices. So count, table and bytes stay apart.

// Interface between crates: finds a cell in a sound store, or appends it. Its block is its 128 data bytes.
#[tactic(auto, using(crate::proofs::Room::room))]
pub fn place(
    count: &mut usize,
    table: &mut [u32],
    bytes: &mut [u8],
    cell: Content,
) -> Result<usize, Refusal>
    requires bytes_value { sound count.old table.old bytes.old ≡ true }
    requires flag_bound { (cell.flag ≤ 1) × (cell.bits ≤ 1023) × (length cell.block.now ≡ 128) × (length cell.refs.now ≤ 4) }
    requires block_value { cell.block.now ≡ block_of (cell_of cell.flag cell.bits cell.block.now cell.refs.now) }
    requires by_index { (k : ℕ) → k < length cell.refs.now → get_or cell.refs.now k 0 < count.old }
    ensures { Places count.old table.old bytes.old
        (cell_of cell.entry.flag cell.entry.bits cell.entry.block.now cell.entry.refs.now)
        result count.new table.new bytes.new }
{
    let n = *count;
    let cells = Cells {
        count: n,
        table,
        bytes,
    };
    let number = number_of(cells, cell);
    if number < n {
        return Ok(number);
    }
    if table.len() / RECORD_LEN <= n {
        return Err(Reason::Full.at(0));
    }
    put_row(table, n * RECORD_LEN, cell);
    // Of a length that the compiler knows: the copy is no loop then.
    put(&cell.block[..DATA_LEN], bytes, n * DATA_LEN);
    *count = n + 1;
    Ok(n)
}

// Interface between crates: takes back every cell of a sound store from number old on.
#[tactic(auto, using(crate::proofs::Room::room))]
pub fn take_back(count: &mut usize, table: &mut [u32], bytes: &mut [u8], old: usize)
    requires bytes_value { sound count.old table.old bytes.old ≡ true }
    requires le_count { old ≤ count.old }
    ensures { TakesBack table.old bytes.old old count.new table.new bytes.new }
{
    table[old * RECORD_LEN..].fill(0);
    bytes[old * DATA_LEN..].fill(0);
    *count = old;
}

// Empties a store: count is 0 and every number and byte is 0 from here on. STORE where the lengths are not those of a store.
pub fn clear(count: &mut usize, table: &mut [u32], bytes: &mut [u8]) -> Result<(), Refusal>
    ensures { Clears count.old table.old bytes.old result count.new table.new bytes.new }
{
    if !is_sized(table, bytes) {
        return Err(Reason::Store.at(0));
    }
    *count = 0;
    table.fill(0);
    bytes.fill(0);
    Ok(())
}

// x with the bits that the last byte of these bits does not use set to 0.
fn keep_used(x: u8, bits: usize) -> u8
    ensures { result ≡ x / unused_in bits * unused_in bits }
{
    let unused = unused_in(bits);
    (u32::from(x) / unused * unused) as u8
}

// Sets the bits past the first bits to 0.
fn clean(block: &mut [u8], bits: usize)
    requires { (bits ≤ 1023) × (length block.old ≡ 128) }
    ensures { block.new ≡ cropped bits block.old ++ replicate (128 - bytes_for bits) 0 }
{
    let last = bits / 8;
    block[last] = keep_used(block[last], bits);
    block[bits.div_ceil(8)..].fill(0);
}

// Interface between crates: adds a cell to a store that is known to be sound.
pub fn add_in(
    count: &mut usize,
    table: &mut [u32],
    bytes: &mut [u8],
    cell: CellBuilder,
) -> Result<usize, Refusal>
    requires { sound count.old table.old bytes.old ≡ true }
    ensures { Adds count.old table.old bytes.old (builder_of cell)
        result count.new table.new bytes.new }
{
    let bits = cell.len;
    if bits > MAX_BITS_LEN {
        return Err(Reason::Bits.at(0));
    }
    if cell.count > MAX_REFS_COUNT {
        return Err(Reason::Refs.at(0));
    }
    // A copy, so that the cell itself need not be in memory.
    let all = cell.refs;
    let refs = &all[..cell.count];
    if let Some(k) = refs.iter().position(|r| *count <= *r as usize) {
        return Err(Reason::NoCell.at(k));
    }
    let mut block = cell.bytes;
    clean(&mut block, bits);
    let content = Content {
        flag: u32::from(cell.exotic),
        bits,
        block: &block,
        refs,
    };
    place(count, table, bytes, content)
}

// Adds a cell, as a builder hands it over: the number of the lowest-numbered cell equal to it in flag, bits and references, or else it is appended.
// Bits past the length and unused references count as 0. Refuses STORE, BITS, REFS, NOCELL (place: the reference's position), FULL, in this order.
#[tactic(auto, using(crate::proofs::Ways::adds_store))]
pub fn add(
    count: &mut usize,
    table: &mut [u32],
    bytes: &mut [u8],
    cell: CellBuilder,
) -> Result<usize, Refusal>
    ensures { Adds count.old table.old bytes.old (builder_of cell)
        result count.new table.new bytes.new }
{
    let store = Cells {
        count: *count,
        table,
        bytes,
    };
    if !is_sound(store) {
        return Err(Reason::Store.at(0));
    }
    add_in(count, table, bytes, cell)
}

// The numbers of record n.
fn head_at(cells: Cells, n: usize) -> CellHead
    requires { (n * 7 + 7 ≤ length cells.table.now) × (get_or cells.table.now (n * 7) 0 ≤ 1) }
    ensures { head_numbers result ≡ record_at cells.entry.table.now n }
{
    let mut refs = [0; MAX_REFS_COUNT];
    let row = n * RECORD_LEN;
    refs.copy_from_slice(&cells.table[row + FIRST_REF..row + RECORD_LEN]);
    CellHead {
        exotic: cells.field(n, EXOTIC) == 1,
        len: cells.field(n, BITS_LEN),
        count: cells.field(n, REFS_COUNT),
        refs,
    }
}

// Cell n of a store: its flag, bit length and references. Refuses STORE, NOCELL.
#[tactic(auto, using(crate::proofs::Asked::asked))]
pub fn cell(store: Cells, n: usize) -> Result<CellHead, Refusal>
    ensures { mapped head_numbers result ≡ mapped (row_of []) (asking store.entry.count store.entry.table.now store.entry.bytes.now n) }
{
    if !is_sound(store) {
        return Err(Reason::Store.at(0));
    }
    if n >= store.count {
        return Err(Reason::NoCell.at(0));
    }
    Ok(head_at(store, n))
}

// The data bytes of cell n of a store, as a part of the store's bytes: none where `cell` refuses. They are held while the bytes are, and the table may
// change meanwhile, so the two are lent apart.
#[tactic(auto, using(crate::proofs::Asked::asked), unfolding(scheme::specs::Memory::cell_at))]
pub fn cell_data<'a>(count: usize, table: &[u32], bytes: &'a [u8], n: usize) -> &'a [u8]
    ensures { result.now ≡ data_of (asking count table.now bytes.now n) }
{
    let store = Cells {
        count,
        table,
        bytes,
    };
    if !is_sound(store) || n >= count {
        return &bytes[..0];
    }
    let from = n * DATA_LEN;
    &bytes[from..from + field(table, n, BITS_LEN).div_ceil(8)]
}
