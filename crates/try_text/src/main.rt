// Runs text and depth on real memory at their limits: a path of 256 references and of 257, budgets, room, a pruned branch, each refusal.
#![tactic(auto)]

use builder::CellBuilder;
use scheme::{DATA_LEN, MAX_CELLS, RECORD_LEN};
use std::io;
use std::io::Write;
use store::Cells;

// The records of the store.
const CELLS: usize = 300;

const TABLE_LEN: usize = CELLS * RECORD_LEN;

const BYTES_LEN: usize = CELLS * DATA_LEN;

// The references of the longest path that is built.
const PATH: u32 = 257;

// The scratch entries and the bytes of output that are lent: as many as the text of a path of 256 needs.
const ENTRIES: usize = 300;

const ROOM: usize = 2821;

// The cells that refer to the one before twice.
const TWICE: u32 = 16;

// The memory of the store, and the output. Each comes from a function, so that its type says its length and no proof counts its elements.
fn table_room() -> [u32; TABLE_LEN] {
    [0u32; TABLE_LEN]
}

fn bytes_room() -> [u8; BYTES_LEN] {
    [0u8; BYTES_LEN]
}

fn out_room() -> [u8; ROOM] {
    [0u8; ROOM]
}

fn add<W: Write>(
    to: &mut W,
    count: &mut usize,
    table: &mut [u32],
    bytes: &mut [u8],
    cell: CellBuilder,
) -> io::Result<u32> {
    match store::add(count, table, bytes, cell) {
        Ok(n) if n < MAX_CELLS => Ok(n as u32),
        Ok(_) => Ok(0),
        Err(r) => {
            write!(to, "{r}")?;
            Ok(0)
        }
    }
}

// A chain from cell 0 on: each cell refers to the one before.
fn add_path<W: Write>(
    to: &mut W,
    count: &mut usize,
    table: &mut [u32],
    bytes: &mut [u8],
) -> io::Result<u32> {
    let mut last = add(to, count, table, bytes, CellBuilder::new(false))?;
    for _ in 0..PATH {
        last = add(
            to,
            count,
            table,
            bytes,
            CellBuilder::new(false).store_reference(last).builder,
        )?;
    }
    Ok(last)
}

// A chain whose cells refer to the one before twice, so that each unfolds to more than twice as many.
fn add_twice<W: Write>(
    to: &mut W,
    count: &mut usize,
    table: &mut [u32],
    bytes: &mut [u8],
) -> io::Result<u32> {
    let mut last = 0;
    for _ in 0..TWICE {
        let half = CellBuilder::new(false).store_reference(last).builder;
        last = add(to, count, table, bytes, half.store_reference(last).builder)?;
    }
    Ok(last)
}

fn store_of<'a>(count: usize, table: &'a [u32], bytes: &'a [u8]) -> Cells<'a> {
    Cells {
        count,
        table,
        bytes,
    }
}

fn try_text<W: Write>(
    to: &mut W,
    store: Cells,
    n: usize,
    budget: usize,
    entries: usize,
    room: usize,
) -> io::Result<()> {
    if entries > ENTRIES {
        return Ok(());
    }
    if room > ROOM {
        return Ok(());
    }
    let mut scratch = [0u32; ENTRIES];
    let mut out = out_room();
    match text::debug_text(store, n, budget, &mut scratch[..entries], &mut out[..room]) {
        Ok(p) => {
            let written = p.written;
            let cells = p.cells;
            writeln!(to, "text: bytes {written}, cells {cells}")
        }
        Err(r) => writeln!(to, "text: {r}"),
    }
}

fn try_depth<W: Write>(to: &mut W, store: Cells, n: usize, entries: usize) -> io::Result<()> {
    if entries > ENTRIES {
        return Ok(());
    }
    let mut scratch = [0u32; ENTRIES];
    match depth::max_depth(store, n, &mut scratch[..entries]) {
        Ok(d) => writeln!(to, "depth: {d}"),
        Err(r) => writeln!(to, "depth: {r}"),
    }
}

// A pruned branch of one level that names the greatest depth.
fn pruned() -> CellBuilder {
    let mut own = [0u8; 36];
    own[0] = 1;
    own[1] = 1;
    own[34] = 0xff;
    own[35] = 0xff;
    CellBuilder::new(true).write_bits(288, &own).builder
}

// Each case. `path`, `twice`, `branch` and `above` are the numbers of the last cell of each chain, of the pruned branch and of the cell over it.
fn run<W: Write>(
    to: &mut W,
    store: Cells,
    path: usize,
    twice: usize,
    branch: usize,
    above: usize,
) -> io::Result<()> {
    let count = store.count;
    writeln!(to, "{count} cells")?;
    try_text(to, store, 256, 1000, ENTRIES, ROOM)?;
    try_text(to, store, path, 1000, ENTRIES, ROOM)?;
    try_text(to, store, 256, 257, ENTRIES, ROOM)?;
    try_text(to, store, 256, 256, ENTRIES, ROOM)?;
    try_text(to, store, 256, 257, ENTRIES, ROOM - 1)?;
    try_text(to, store, 0, 0, ENTRIES, ROOM)?;
    try_text(to, store, twice, usize::MAX, ENTRIES, ROOM)?;
    try_text(to, store, count, 1, ENTRIES, ROOM)?;
    try_text(to, store, 0, 1, 200, ROOM)?;
    try_depth(to, store, path, ENTRIES)?;
    try_depth(to, store, twice, ENTRIES)?;
    try_depth(to, store, branch, ENTRIES)?;
    try_depth(to, store, above, ENTRIES)?;
    try_depth(to, store, count, ENTRIES)?;
    try_depth(to, store, 0, 200)?;
    let boundless = Cells {
        count: usize::MAX,
        ..store
    };
    try_depth(to, boundless, 0, ENTRIES)
}

fn main(rt: HostRuntime) -> io::Result<()> {
    let mut to = rt.stdout();
    let mut count: usize = 0;
    let mut table = table_room();
    let mut bytes = bytes_room();
    let path = add_path(&mut to, &mut count, &mut table, &mut bytes)?;
    let twice = add_twice(&mut to, &mut count, &mut table, &mut bytes)?;
    let branch = add(&mut to, &mut count, &mut table, &mut bytes, pruned())?;
    let over = CellBuilder::new(false).store_reference(branch).builder;
    let above = add(&mut to, &mut count, &mut table, &mut bytes, over)?;
    let store = store_of(count, &table, &bytes);
    run(
        &mut to,
        store,
        path as usize,
        twice as usize,
        branch as usize,
        above as usize,
    )
}
