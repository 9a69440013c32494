// Replays a list of bags from standard input: each case says the memory that is lent and gives a reply, and has one line of what the read answers and
// of the memory afterwards. A case: u8 whole (1: unpack_fully, else deserialize), u16 records of the store, u16 cells held before, u16 scratch entries,
// u16 root places, u32 reply length, all big-endian, and the reply. A line: `ok` used cells roots added count roots.. sum, or `refused` number place
// count sum, where sum is the CRC-32C of the table, the data, the scratch and the root places, numbers as four little-endian bytes.
#![tactic(auto)]

ghost use Rattle.std.specs.Prelude.{◌≤◌};

use bits::read_field;
use builder::CellBuilder;
use crc32c::crc32c;
use memory::put;
use reader::{Counts, deserialize, unpack_fully};
use scheme::{DATA_LEN, MAX_CELLS, RECORD_LEN, Refusal};
use std::io;
use std::io::{ErrorKind, Read, Write};
use store::{add, clear};

// Bytes of a case before its reply.
const HEAD_LEN: usize = 13;
// The memory at most: the reply, the table of 4,096 records, their data, the scratch, the root places, and all but the reply as bytes.
const MAX_REPLY: usize = 131072;

const MAX_ROWS: usize = 28672;

const MAX_BLOCKS: usize = 524288;

const MAX_ENTRIES: usize = 8192;

const MAX_ROOMS: usize = 64;

const MAX_ALL: usize = 672000;
// What the scratch and the root places are filled with before a read.
const SCRATCH_FILL: u32 = 9;

const ROOT_FILL: u32 = 7;

// The number of n bytes at `at`, and `most` at most.
fn number(head: &[u8], at: usize, n: usize, most: usize) -> usize
    ensures { result ≤ most }
{
    match read_field(head, at, n) {
        Ok((v, _)) => most.min(v as usize),
        Err(_) => 0,
    }
}

// A number as four bytes, the low one first: the place behind it.
fn pack_number(out: &mut [u8], at: usize, x: u32) -> usize {
    pack_bytes(&x.to_le_bytes(), out, at)
}

fn pack_numbers(xs: &[u32], out: &mut [u8], at: usize) -> usize {
    let mut place = at;
    for x in xs {
        place = pack_number(out, place, *x);
    }
    place
}

fn pack_bytes(xs: &[u8], out: &mut [u8], at: usize) -> usize {
    if out.len() < at || out.len() - at < xs.len() {
        return at;
    }
    put(xs, out, at)
}

// The checksum of all lent memory, which is packed into `all`.
fn memory_sum(table: &[u32], bytes: &[u8], scratch: &[u32], roots: &[u32], all: &mut [u8]) -> u32 {
    let a = pack_numbers(table, all, 0);
    let b = pack_bytes(bytes, all, a);
    let c = pack_numbers(scratch, all, b);
    let d = pack_numbers(roots, all, c);
    let end = d.min(all.len());
    crc32c(&all[..end])
}

// The cell of the 16 bits of i, with no references.
fn cell_of(i: usize) -> CellBuilder {
    let two = [(i / 256 % 256) as u8, (i % 256) as u8];
    let built = CellBuilder::new(false).write_bits(16, &two);
    built.builder
}

// Adds `held` cells.
fn add_cells(count: &mut usize, table: &mut [u32], bytes: &mut [u8], held: usize) {
    for i in 0..held {
        let _ = add(count, table, bytes, cell_of(i));
    }
}

// A store of `held` cells.
fn prepare(count: &mut usize, table: &mut [u32], bytes: &mut [u8], held: usize) {
    let _ = clear(count, table, bytes);
    add_cells(count, table, bytes, held);
}

fn print_roots<W: Write>(to: &mut W, roots: &[u32], n: usize) -> io::Result<()> {
    let most = n.min(roots.len());
    show::numbers(to, &roots[..most])
}

fn print_line<W: Write>(
    to: &mut W,
    answer: Result<Counts, Refusal>,
    count: usize,
    roots: &[u32],
    sum: u32,
) -> io::Result<()> {
    match answer {
        Ok(counts) => {
            let Counts {
                used,
                cells,
                roots: listed,
                added,
            } = counts;
            write!(to, "ok {used} {cells} {listed} {added} {count}")?;
            print_roots(to, roots, listed)?;
        }
        Err(r) => write!(to, "{r} {count}")?,
    }
    writeln!(to, " {sum}")
}

// The line of a case.
fn report<W: Write>(
    to: &mut W,
    answer: Result<Counts, Refusal>,
    count: usize,
    table: &[u32],
    bytes: &[u8],
    scratch: &[u32],
    roots: &[u32],
    all: &mut [u8],
) -> io::Result<()> {
    let sum = memory_sum(table, bytes, scratch, roots, all);
    print_line(to, answer, count, roots, sum)
}

// Fills the scratch and the root places, and reads.
fn read_case(
    whole: bool,
    reply: &[u8],
    count: &mut usize,
    table: &mut [u32],
    bytes: &mut [u8],
    scratch: &mut [u32],
    roots: &mut [u32],
) -> Result<Counts, Refusal> {
    scratch.fill(SCRATCH_FILL);
    roots.fill(ROOT_FILL);
    if whole {
        return unpack_fully(reply, count, table, bytes, scratch, roots);
    }
    deserialize(reply, count, table, bytes, scratch, roots)
}

// One case on memory of its sizes.
fn run_case<W: Write>(
    to: &mut W,
    whole: bool,
    held: usize,
    reply: &[u8],
    table: &mut [u32],
    bytes: &mut [u8],
    scratch: &mut [u32],
    roots: &mut [u32],
    all: &mut [u8],
) -> io::Result<()> {
    let mut count: usize = 0;
    prepare(&mut count, table, bytes, held);
    let answer = read_case(whole, reply, &mut count, table, bytes, scratch, roots);
    report(to, answer, count, table, bytes, scratch, roots, all)
}

// Fills the room from the input; whether there was so much.
fn read_whole<R: Read>(from: &mut R, room: &mut [u8]) -> io::Result<bool> {
    match from.read_exact(room) {
        Ok(()) => Ok(true),
        Err(e) if e.kind() == ErrorKind::UnexpectedEof => Ok(false),
        Err(e) => Err(e),
    }
}

// The next case; whether there was one.
fn next_case<R: Read, W: Write>(
    from: &mut R,
    to: &mut W,
    reply: &mut [u8],
    table: &mut [u32],
    bytes: &mut [u8],
    scratch: &mut [u32],
    roots: &mut [u32],
    all: &mut [u8],
) -> io::Result<bool> {
    let mut head = [0u8; HEAD_LEN];
    if !read_whole(from, &mut head)? {
        return Ok(false);
    }
    let whole = head[0] == 1;
    let records = number(&head, 1, 2, MAX_CELLS);
    let held = number(&head, 3, 2, MAX_CELLS);
    let entries = number(&head, 5, 2, scratch.len());
    let rooms = number(&head, 7, 2, roots.len());
    let len = number(&head, 9, 4, reply.len());
    if !read_whole(from, &mut reply[..len])? {
        return Ok(false);
    }
    let rows = table.len().min(records * RECORD_LEN);
    let blocks = bytes.len().min(records * DATA_LEN);
    run_case(
        to,
        whole,
        held,
        &reply[..len],
        &mut table[..rows],
        &mut bytes[..blocks],
        &mut scratch[..entries],
        &mut roots[..rooms],
        all,
    )?;
    Ok(true)
}

// All cases. Nothing says that the input ends, so there is a number of turns, which no run uses up.
fn run_cases<R: Read, W: Write>(
    from: &mut R,
    to: &mut W,
    reply: &mut [u8],
    table: &mut [u32],
    bytes: &mut [u8],
    scratch: &mut [u32],
    roots: &mut [u32],
    all: &mut [u8],
) -> io::Result<()> {
    for _ in 0..u64::MAX {
        if !next_case(from, to, reply, table, bytes, scratch, roots, all)? {
            break;
        }
    }
    Ok(())
}

// The memory at most. Each part comes from a function, so that its type says its length and no proof counts its elements.
fn reply_room() -> [u8; MAX_REPLY] {
    [0u8; MAX_REPLY]
}

fn table_room() -> [u32; MAX_ROWS] {
    [0u32; MAX_ROWS]
}

fn bytes_room() -> [u8; MAX_BLOCKS] {
    [0u8; MAX_BLOCKS]
}

fn scratch_room() -> [u32; MAX_ENTRIES] {
    [0u32; MAX_ENTRIES]
}

fn all_room() -> [u8; MAX_ALL] {
    [0u8; MAX_ALL]
}

fn main(rt: HostRuntime) -> io::Result<()> {
    let mut from = rt.stdin();
    let mut to = rt.stdout();
    let mut reply = reply_room();
    let mut table = table_room();
    let mut bytes = bytes_room();
    let mut scratch = scratch_room();
    let mut roots = [0u32; MAX_ROOMS];
    let mut all = all_room();
    run_cases(
        &mut from,
        &mut to,
        &mut reply,
        &mut table,
        &mut bytes,
        &mut scratch,
        &mut roots,
        &mut all,
    )
}
