// Reads cases from standard input and prints the report of each. A case is two bytes, the cells of the store; four bytes, the length of a reply;
// and the reply. Numbers have the high byte first. A store or a reply that is longer than the memory here ends the run.
#![tactic(auto)]

ghost use Rattle.std.specs.Prelude.{◌≡◌, ◌*◌, ◌≤◌, length};

use scheme::{DATA_LEN, RECORD_LEN};
use std::io;
use std::io::{Read, Write};
use tell::{ROOTS_LEN, SCRATCH_PER_CELL, input_room, out_room, read_full, tell};

// The bytes in front of a reply.
const HEAD_LEN: usize = 6;

// The cells of a store at most.
const CELLS: usize = 512;

const TABLE_LEN: usize = CELLS * RECORD_LEN;

const BYTES_LEN: usize = CELLS * DATA_LEN;

const SCRATCH_LEN: usize = CELLS * SCRATCH_PER_CELL;

// What stands in front of a reply: the cells of the store, and the length; or none at the end of the cases.
fn read_head<R: Read>(from: &mut R) -> io::Result<Option<(usize, usize)>> {
    let mut head = [0u8; HEAD_LEN];
    if read_full(from, &mut head)? < HEAD_LEN {
        return Ok(None);
    }
    let cells = u16::from_be_bytes([head[0], head[1]]);
    let len = u32::from_be_bytes([head[2], head[3], head[4], head[5]]);
    Ok(Some((usize::from(cells), len as usize)))
}

// Prints the report of a reply, with the memory of a store of so many cells.
fn tell_in<W: Write>(
    to: &mut W,
    reply: &[u8],
    cells: usize,
    table: &mut [u32],
    bytes: &mut [u8],
    scratch: &mut [u32],
    roots: &mut [u32],
    out: &mut [u8],
) -> io::Result<()>
    requires { (cells * 7 ≤ length table.old) × (cells * 128 ≤ length bytes.old) × (cells * 2 ≤ length scratch.old) }
{
    let table_len = cells * RECORD_LEN;
    let bytes_len = cells * DATA_LEN;
    let scratch_len = cells * SCRATCH_PER_CELL;
    tell(
        to,
        reply,
        &mut table[..table_len],
        &mut bytes[..bytes_len],
        &mut scratch[..scratch_len],
        roots,
        out,
    )
}

// Reads a case, prints its report, and answers whether to go on. What an earlier case left in the memory is cleared.
fn tell_next<R: Read, W: Write>(
    from: &mut R,
    to: &mut W,
    input: &mut [u8],
    table: &mut [u32],
    bytes: &mut [u8],
    scratch: &mut [u32],
    roots: &mut [u32],
    out: &mut [u8],
) -> io::Result<bool>
    requires { (length table.old ≡ 512 * 7) × (length bytes.old ≡ 512 * 128) × (length scratch.old ≡ 512 * 2) }
{
    let Some((cells, len)) = read_head(from)? else {
        return Ok(false);
    };
    if input.len() < len || CELLS < cells {
        return Ok(false);
    }
    let n = read_full(from, &mut input[..len])?;
    tell_in(to, &input[..n], cells, table, bytes, scratch, roots, out)?;
    Ok(true)
}

// The memory of the largest store. Each part comes from a function, so that its type says its length and no proof counts its elements.
fn table_room() -> [u32; TABLE_LEN] {
    [0u32; TABLE_LEN]
}

fn bytes_room() -> [u8; BYTES_LEN] {
    [0u8; BYTES_LEN]
}

fn scratch_room() -> [u32; SCRATCH_LEN] {
    [0u32; SCRATCH_LEN]
}

// A loop that is proved has to end, so it has a number of turns, which no run uses up.
fn main(rt: HostRuntime) -> io::Result<()> {
    let mut from = rt.stdin();
    let mut to = rt.stdout();
    let mut input = input_room();
    let mut table = table_room();
    let mut bytes = bytes_room();
    let mut scratch = scratch_room();
    let mut roots = [0u32; ROOTS_LEN];
    let mut out = out_room();
    for _ in 0..u64::MAX {
        if !tell_next(
            &mut from,
            &mut to,
            &mut input,
            &mut table,
            &mut bytes,
            &mut scratch,
            &mut roots,
            &mut out,
        )? {
            break;
        }
    }
    Ok(())
}
