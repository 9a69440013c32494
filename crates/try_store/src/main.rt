// Runs the store on real memory: clear, add (a new cell, a held one, each refusal), cell and its data; a batch.
#![tactic(auto)]

use builder::CellBuilder;
use scheme::DATA_LEN;
use std::io;
use std::io::Write;
use store::Cells;

fn after<W: Write>(to: &mut W, count: usize) -> io::Result<()> {
    writeln!(to, ", count {count}")
}

fn try_clear<W: Write>(
    to: &mut W,
    count: &mut usize,
    table: &mut [u32],
    bytes: &mut [u8],
) -> io::Result<()> {
    match store::clear(count, table, bytes) {
        Ok(()) => write!(to, "clear: done")?,
        Err(r) => write!(to, "clear: {r}")?,
    }
    after(to, *count)
}

fn try_add<W: Write>(
    to: &mut W,
    count: &mut usize,
    table: &mut [u32],
    bytes: &mut [u8],
    cell: CellBuilder,
) -> io::Result<()> {
    match store::add(count, table, bytes, cell) {
        Ok(n) => write!(to, "add: number {n}")?,
        Err(r) => write!(to, "add: {r}")?,
    }
    after(to, *count)
}

fn try_cell<W: Write>(to: &mut W, store: Cells, n: usize) -> io::Result<()> {
    write!(to, "cell {n}: ")?;
    match store::cell(store, n) {
        Ok(head) => {
            if head.exotic {
                write!(to, "exotic ")?;
            }
            let len = head.len;
            let references = head.count;
            write!(to, "{len} bits, {references} references")?;
            show::numbers(to, &head.refs)?;
        }
        Err(r) => write!(to, "{r}")?,
    }
    write!(to, ", data ")?;
    show::bytes(
        to,
        store::cell_data(store.count, store.table, store.bytes, n),
    )?;
    show::end(to)
}

// A cell whose first two data bytes and references are given, and whose other bytes are all ones.
fn cell_of(exotic: bool, len: usize, b0: u8, b1: u8, count: usize, refs: [u32; 4]) -> CellBuilder {
    let mut bytes = [255u8; DATA_LEN];
    bytes[0] = b0;
    bytes[1] = b1;
    CellBuilder {
        exotic,
        len,
        bytes,
        count,
        refs,
    }
}

fn new_and_held<W: Write>(
    to: &mut W,
    count: &mut usize,
    table: &mut [u32],
    bytes: &mut [u8],
) -> io::Result<()> {
    try_add(
        to,
        count,
        table,
        bytes,
        cell_of(false, 0, 9, 9, 0, [7, 7, 7, 7]),
    )?;
    try_add(
        to,
        count,
        table,
        bytes,
        cell_of(false, 0, 5, 5, 0, [0, 1, 2, 3]),
    )
}

fn stale_and_exotic<W: Write>(
    to: &mut W,
    count: &mut usize,
    table: &mut [u32],
    bytes: &mut [u8],
) -> io::Result<()> {
    try_add(
        to,
        count,
        table,
        bytes,
        cell_of(false, 12, 171, 207, 2, [0, 0, 6, 6]),
    )?;
    try_add(
        to,
        count,
        table,
        bytes,
        cell_of(false, 12, 171, 192, 2, [0, 0, 5, 5]),
    )?;
    try_add(
        to,
        count,
        table,
        bytes,
        cell_of(true, 12, 171, 192, 2, [0, 1, 0, 0]),
    )
}

fn not_fit<W: Write>(
    to: &mut W,
    count: &mut usize,
    table: &mut [u32],
    bytes: &mut [u8],
) -> io::Result<()> {
    try_add(
        to,
        count,
        table,
        bytes,
        cell_of(false, 1024, 0, 0, 5, [9, 9, 9, 9]),
    )?;
    try_add(
        to,
        count,
        table,
        bytes,
        cell_of(false, 1023, 0, 0, 5, [9, 9, 9, 9]),
    )?;
    try_add(
        to,
        count,
        table,
        bytes,
        cell_of(false, 8, 1, 0, 4, [2, 1, 3, 9]),
    )
}

fn full<W: Write>(
    to: &mut W,
    count: &mut usize,
    table: &mut [u32],
    bytes: &mut [u8],
) -> io::Result<()> {
    try_add(
        to,
        count,
        table,
        bytes,
        cell_of(false, 1023, 1, 0, 1, [2, 0, 0, 0]),
    )?;
    try_add(
        to,
        count,
        table,
        bytes,
        cell_of(true, 12, 171, 192, 2, [0, 1, 0, 0]),
    )
}

fn adds<W: Write>(
    to: &mut W,
    count: &mut usize,
    table: &mut [u32],
    bytes: &mut [u8],
) -> io::Result<()> {
    new_and_held(to, count, table, bytes)?;
    stale_and_exotic(to, count, table, bytes)?;
    not_fit(to, count, table, bytes)?;
    full(to, count, table, bytes)
}

fn store_of<'a>(count: usize, table: &'a [u32], bytes: &'a [u8]) -> Cells<'a> {
    Cells {
        count,
        table,
        bytes,
    }
}

fn asks<W: Write>(to: &mut W, store: Cells) -> io::Result<()> {
    try_cell(to, store, 0)?;
    try_cell(to, store, 1)?;
    try_cell(to, store, 2)?;
    try_cell(to, store, 3)
}

fn try_many<W: Write>(
    to: &mut W,
    count: &mut usize,
    table: &mut [u32],
    bytes: &mut [u8],
    heads: &[u32],
) -> io::Result<()> {
    let mut blocks = [255u8; 384];
    blocks[0] = 171;
    blocks[128] = 207;
    let mut numbers = [99u32; 4];
    match add_many::add_many(count, table, bytes, heads, &blocks, &mut numbers) {
        Ok(()) => write!(to, "many: all")?,
        Err(stop) => {
            let cell = stop.cell;
            let r = stop.refusal;
            write!(to, "many: cell {cell} {r}")?;
        }
    }
    write!(to, ", numbers")?;
    show::numbers(to, &numbers)?;
    after(to, *count)
}

fn main(rt: HostRuntime) -> io::Result<()> {
    let mut to = rt.stdout();
    let mut count = 9;
    let mut table = [3u32; 21];
    let mut bytes = [3u8; 384];
    let mut short = [3u8; 383];
    try_add(
        &mut to,
        &mut count,
        &mut table,
        &mut bytes,
        cell_of(false, 0, 0, 0, 0, [0, 0, 0, 0]),
    )?;
    try_clear(&mut to, &mut count, &mut table, &mut short)?;
    try_clear(&mut to, &mut count, &mut table, &mut bytes)?;
    adds(&mut to, &mut count, &mut table, &mut bytes)?;
    asks(&mut to, store_of(count, &table, &bytes))?;
    // The last record is no longer in use and not 0: the store is not sound.
    count = 2;
    try_add(
        &mut to,
        &mut count,
        &mut table,
        &mut bytes,
        cell_of(false, 0, 0, 0, 0, [0, 0, 0, 0]),
    )?;
    try_cell(&mut to, store_of(count, &table, &bytes), 0)?;
    try_clear(&mut to, &mut count, &mut table, &mut bytes)?;
    try_cell(&mut to, store_of(count, &table, &bytes), 0)?;
    try_many(
        &mut to,
        &mut count,
        &mut table,
        &mut bytes,
        &[0, 8, 0, 7, 7, 7, 7, 5, 4, 1, 0, 9, 9, 9],
    )?;
    try_many(
        &mut to,
        &mut count,
        &mut table,
        &mut bytes,
        &[
            0, 8, 0, 0, 0, 0, 0, 0, 8, 2, 1, 2, 0, 0, 0, 8, 0, 0, 0, 0, 0,
        ],
    )
}
