// A table with one record a cell, as a lent slice of records. The core works on the flat table of numbers; these functions read, write and copy.
#![tactic(auto)]

ghost use Rattle.std.specs.Prelude.{◌≡◌, ◌≤◌, ◌+◌, ◌*◌, min, ltb, length, set, get_or};
ghost use Rattle.records.specs.Answers.{read_of, added_of};
ghost use Rattle.records.specs.Record.{blank, record_of, put_flat, room_for, export_recs, import_recs};

use scheme::{MAX_REFS_COUNT, RECORD_LEN, Reason, Refusal};

// A cell's flag, bit length, number of references, and references; unused ones are 0. All are numbers, as in the flat table.
#[derive(Clone, Copy, Debug, PartialEq, Eq)]
pub struct CellRecord {
    pub exotic: u32,
    pub len: u32,
    pub count: u32,
    pub refs: [u32; MAX_REFS_COUNT],
}

// How many records the table has.
pub fn record_count(table: &[CellRecord]) -> usize
    ensures { result ≡ length table.now }
{
    table.len()
}

// One record, or `other` where the table has none there.
pub fn record_or(table: &[CellRecord], at: usize, other: CellRecord) -> CellRecord
    ensures { result ≡ get_or table.now at other }
{
    table.get(at).copied().unwrap_or(other)
}

// One record, written where the table has the place. Whether it was.
pub fn store_record(table: &mut [CellRecord], at: usize, r: CellRecord) -> bool
    ensures { (result ≡ ltb at (length table.old)) × (table.new ≡ set table.old at r) }
{
    if at >= table.len() {
        return false;
    }
    table[at] = r;
    true
}

// Record n of the flat table, which has seven numbers a record, by value.
fn record_of(flat: &[u32], n: usize) -> CellRecord
    requires { 7 * n + 7 ≤ length flat.now }
    ensures { result ≡ record_of flat.now n }
{
    let at = RECORD_LEN * n;
    let mut refs = [0; MAX_REFS_COUNT];
    refs.copy_from_slice(&flat[at + 3..at + RECORD_LEN]);
    CellRecord {
        exotic: flat[at],
        len: flat[at + 1],
        count: flat[at + 2],
        refs,
    }
}

// A record by value into the flat table.
fn put_flat(flat: &mut [u32], n: usize, r: CellRecord)
    requires { 7 * n + 7 ≤ length flat.old }
    ensures { flat.new ≡ put_flat flat.old n r }
{
    let at = RECORD_LEN * n;
    let [a, b, c, d] = r.refs;
    flat[at..at + RECORD_LEN].copy_from_slice(&[r.exotic, r.len, r.count, a, b, c, d]);
}

// How many records can be copied.
fn room_for(numbers: usize, places: usize, n: usize) -> usize
    ensures { result ≡ room_for numbers places n }
{
    n.min(numbers / RECORD_LEN).min(places)
}

// The first records of the flat table, at most `n`, into a lent table of records. How many.
pub fn export_records(flat: &[u32], n: usize, table: &mut [CellRecord]) -> usize
    ensures { (result ≡ room_for (length flat.now) (length table.old) n)
        × (table.new ≡ export_recs flat.now (room_for (length flat.now) (length table.old) n) table.old) }
{
    let m = room_for(flat.len(), table.len(), n);
    for i in 0..m {
        table[i] = record_of(flat, i);
    }
    m
}

// The first records of a lent table, at most `n`, into the flat table. How many.
pub fn import_records(table: &[CellRecord], n: usize, flat: &mut [u32]) -> usize
    ensures { (result ≡ room_for (length flat.old) (length table.now) n)
        × (flat.new ≡ import_recs table.now (room_for (length flat.old) (length table.now) n) flat.old) }
{
    let m = room_for(flat.len(), table.len(), n);
    for i in 0..m {
        put_flat(flat, i, table[i]);
    }
    m
}

// Record n of a table of which the first count are in use: NOCELL from count on, and past the end of the table.
pub fn read_record(table: &[CellRecord], n: usize, count: usize) -> Result<CellRecord, Refusal>
    ensures { result ≡ read_of n (min count (length table.now)) (get_or table.now n blank) }
{
    let used = &table[..count.min(table.len())];
    used.get(n).copied().ok_or(Reason::NoCell.at(0))
}

// A record behind the first count of a table, which are in use: FULL where the table has no more.
pub fn append_record(
    table: &mut [CellRecord],
    count: usize,
    r: CellRecord,
) -> Result<usize, Refusal>
    ensures { (result ≡ added_of (ltb count (length table.old)) count) × (table.new ≡ set table.old count r) }
{
    if !store_record(table, count, r) {
        return Err(Reason::Full.at(0));
    }
    Ok(count)
}
