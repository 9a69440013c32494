// Runs the record form on real memory: a store's flat table copied to records, each record read, one appended, and the records copied back.
#![tactic(auto)]

ghost use Rattle.std.specs.Prelude.{◌≡◌, ltb, min, ◌++◌, ◌*◌, ◌≤◌, length, get_or, set, take, drop};
ghost use Rattle.records.specs.Answers.{read_of, added_of};
ghost use Rattle.records.specs.Record.{blank, room_for, export_recs, import_recs};

use builder::CellBuilder;
use records::CellRecord;
use scheme::{DATA_LEN, RECORD_LEN, Refusal};
use std::io;
use std::io::Write;
use store::Cells;

// The records of the store, and of the array that is lent.
const PLACES: usize = 4;

const NUMBERS: usize = RECORD_LEN * PLACES;

const BYTES: usize = DATA_LEN * PLACES;

// More records than there are places.
const TOO_MANY: usize = 9;

// The numbers of a flat table in which one record is whole.
const SHORT: usize = 13;

// What an array of records holds after a copy, and how many were copied.
#[derive(Drop)]
struct Exported {
    count: usize,
    table: [CellRecord; PLACES],
}

// What an array of records holds after an append, and the answer.
#[derive(Drop)]
struct Appended {
    answer: Result<usize, Refusal>,
    table: [CellRecord; PLACES],
}

// This function and the next four each lend an array of records for one call.
fn places(table: [CellRecord; PLACES]) -> usize
    ensures { result ≡ length table }
{
    records::record_count(&table)
}

fn read(table: [CellRecord; PLACES], n: usize, count: usize) -> Result<CellRecord, Refusal>
    ensures { result ≡ read_of n (min count (length table)) (get_or table n blank) }
{
    records::read_record(&table, n, count)
}

fn import(table: [CellRecord; PLACES], n: usize, flat: &mut [u32]) -> usize
    ensures { (result ≡ room_for (length flat.old) (length table) n)
        × (flat.new ≡ import_recs table (room_for (length flat.old) (length table) n) flat.old) }
{
    records::import_records(&table, n, flat)
}

fn export(flat: &[u32], n: usize, mut table: [CellRecord; PLACES]) -> Exported
    ensures { (result.count ≡ room_for (length flat.now) (length table) n)
        × (result.table ≡ export_recs flat.now (room_for (length flat.now) (length table) n) table) }
{
    let count = records::export_records(flat, n, &mut table);
    Exported { count, table }
}

fn append(mut table: [CellRecord; PLACES], count: usize, r: CellRecord) -> Appended
    ensures { (result.answer ≡ added_of (ltb count (length table)) count) × (result.table ≡ set table count r) }
{
    let answer = records::append_record(&mut table, count, r);
    Appended { answer, table }
}

fn show_line<W: Write>(to: &mut W, xs: &[u32]) -> io::Result<()> {
    show::numbers(to, xs)?;
    show::end(to)
}

fn try_clear<W: Write>(
    to: &mut W,
    count: &mut usize,
    table: &mut [u32],
    bytes: &mut [u8],
) -> io::Result<()> {
    match store::clear(count, table, bytes) {
        Ok(()) => writeln!(to, "clear: done"),
        Err(r) => writeln!(to, "clear: {r}"),
    }
}

fn try_add<W: Write>(
    to: &mut W,
    count: &mut usize,
    table: &mut [u32],
    bytes: &mut [u8],
    cell: CellBuilder,
) -> io::Result<()> {
    match store::add(count, table, bytes, cell) {
        Ok(n) => writeln!(to, "add: {n}"),
        Err(r) => writeln!(to, "add: {r}"),
    }
}

// A cell whose data is the byte `first` and zeros.
fn cell_of(exotic: bool, len: usize, first: u8, count: usize, refs: [u32; 4]) -> CellBuilder {
    let mut bytes = [0u8; DATA_LEN];
    bytes[0] = first;
    CellBuilder {
        exotic,
        len,
        bytes,
        count,
        refs,
    }
}

fn adds<W: Write>(
    to: &mut W,
    count: &mut usize,
    table: &mut [u32],
    bytes: &mut [u8],
) -> io::Result<()> {
    try_add(
        to,
        count,
        table,
        bytes,
        cell_of(false, 8, 171, 0, [0, 0, 0, 0]),
    )?;
    try_add(
        to,
        count,
        table,
        bytes,
        cell_of(false, 12, 207, 2, [0, 0, 0, 0]),
    )?;
    try_add(
        to,
        count,
        table,
        bytes,
        cell_of(true, 5, 248, 4, [1, 0, 0, 1]),
    )
}

fn show_record<W: Write>(to: &mut W, r: CellRecord) -> io::Result<()> {
    show::numbers(to, &[r.exotic, r.len, r.count])?;
    show_line(to, &r.refs)
}

fn try_read<W: Write>(
    to: &mut W,
    table: [CellRecord; PLACES],
    n: usize,
    count: usize,
) -> io::Result<()> {
    write!(to, "record {n} of {count}:")?;
    match read(table, n, count) {
        Ok(r) => show_record(to, r),
        Err(r) => writeln!(to, " {r}"),
    }
}

fn try_export<W: Write>(
    to: &mut W,
    flat: &[u32],
    n: usize,
    table: [CellRecord; PLACES],
) -> io::Result<[CellRecord; PLACES]> {
    let exported = export(flat, n, table);
    let count = exported.count;
    writeln!(to, "export {n}: {count}")?;
    Ok(exported.table)
}

fn try_append<W: Write>(
    to: &mut W,
    table: [CellRecord; PLACES],
    count: usize,
    r: CellRecord,
) -> io::Result<[CellRecord; PLACES]> {
    let appended = append(table, count, r);
    match appended.answer {
        Ok(n) => writeln!(to, "append: {n}")?,
        Err(r) => writeln!(to, "append: {r}")?,
    }
    Ok(appended.table)
}

fn try_import<W: Write>(
    to: &mut W,
    table: [CellRecord; PLACES],
    n: usize,
    flat: &mut [u32],
) -> io::Result<()> {
    let count = import(table, n, flat);
    writeln!(to, "import {n}: {count}")?;
    write!(to, "flat:")?;
    show_line(to, flat)
}

fn compare<W: Write>(to: &mut W, a: &[u32], b: &[u32]) -> io::Result<()> {
    if a == b {
        writeln!(to, "the same")
    } else {
        writeln!(to, "not the same")
    }
}

fn record_of(len: u32, count: u32, r0: u32, r1: u32) -> CellRecord {
    CellRecord {
        exotic: 0,
        len,
        count,
        refs: [r0, r1, 0, 0],
    }
}

fn blanks() -> [CellRecord; PLACES] {
    [record_of(0, 0, 0, 0); PLACES]
}

fn try_cell<W: Write>(to: &mut W, store: Cells, n: usize) -> io::Result<()> {
    match store::cell(store, n) {
        Ok(head) => {
            let len = head.len;
            write!(to, "cell {n}: {len} bits,")?;
            show_line(to, &head.refs)
        }
        Err(r) => writeln!(to, "cell {n}: {r}"),
    }
}

// The first records of a flat table, at most `n`, by way of records into another. How many.
fn there_and_back(flat: &[u32], n: usize, again: &mut [u32]) -> usize
    ensures { length flat.now ≤ length again.old
        → again.new ≡ take (7 * result) flat.now ++ drop (7 * result) again.old }
{
    let exported = export(flat, n, blanks());
    let table = exported.table;
    import(table, exported.count, again)
}

// The flat table, copied to records, read there, and copied back.
fn round_trip<W: Write>(
    to: &mut W,
    count: usize,
    flat: &[u32],
) -> io::Result<[CellRecord; PLACES]> {
    let table = try_export(to, flat, count, blanks())?;
    try_read(to, table, 0, count)?;
    try_read(to, table, 1, count)?;
    try_read(to, table, 2, count)?;
    try_read(to, table, count, count)?;
    let mut again = [0u32; NUMBERS];
    let copied = there_and_back(flat, count, &mut again);
    writeln!(to, "there and back {count}: {copied}")?;
    write!(to, "flat:")?;
    show_line(to, &again)?;
    compare(to, flat, &again)?;
    Ok(table)
}

// The records with one more, and the cell that it is.
fn grow<W: Write>(
    to: &mut W,
    count: usize,
    flat: &[u32],
    bytes: &[u8],
    table: [CellRecord; PLACES],
) -> io::Result<()> {
    let grown = try_append(to, table, count, record_of(0, 2, 2, 1))?;
    let full = try_append(to, grown, PLACES, record_of(1, 0, 0, 0))?;
    try_read(to, full, count, PLACES)?;
    try_read(to, full, PLACES, TOO_MANY)?;
    let mut again = [0u32; NUMBERS];
    try_import(to, full, PLACES, &mut again)?;
    compare(to, flat, &again)?;
    let store = Cells {
        count: PLACES,
        table: &again,
        bytes,
    };
    try_cell(to, store, count)
}

// Copies of as many records as fit.
fn short<W: Write>(to: &mut W, flat: &[u32]) -> io::Result<()> {
    let table = try_export(to, flat, TOO_MANY, blanks())?;
    let mixed = try_export(to, &[7u32; SHORT], TOO_MANY, table)?;
    try_read(to, mixed, 0, PLACES)?;
    try_read(to, mixed, 1, PLACES)?;
    let mut again = [5u32; SHORT];
    try_import(to, table, TOO_MANY, &mut again)
}

fn main(rt: HostRuntime) -> io::Result<()> {
    let mut to = rt.stdout();
    let mut count = TOO_MANY;
    let mut flat = [3u32; NUMBERS];
    let mut bytes = [3u8; BYTES];
    try_clear(&mut to, &mut count, &mut flat, &mut bytes)?;
    adds(&mut to, &mut count, &mut flat, &mut bytes)?;
    write!(to, "flat:")?;
    show_line(&mut to, &flat)?;
    let places = places(blanks());
    writeln!(to, "places: {places}")?;
    let table = round_trip(&mut to, count, &flat)?;
    grow(&mut to, count, &flat, &bytes, table)?;
    short(&mut to, &flat)
}
