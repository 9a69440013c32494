// Reads one bag from standard input and prints what is in it: `ok` used cells roots and each root's text, or why it is refused.
#![tactic(auto)]

use scheme::{DATA_LEN, RECORD_LEN};
use std::io;
use tell::{ROOTS_LEN, SCRATCH_PER_CELL, input_room, out_room, read_full, tell};

// The cells of the store, and those of a bag at most.
const CELLS: usize = 128;

const TABLE_LEN: usize = CELLS * RECORD_LEN;

const BYTES_LEN: usize = CELLS * DATA_LEN;

const SCRATCH_LEN: usize = CELLS * SCRATCH_PER_CELL;

// From a function, so that its type says its length and no proof counts its bytes.
fn bytes_room() -> [u8; BYTES_LEN] {
    [0u8; BYTES_LEN]
}

fn main(rt: HostRuntime) -> io::Result<()> {
    let mut input = input_room();
    let mut table = [0u32; TABLE_LEN];
    let mut bytes = bytes_room();
    let mut scratch = [0u32; SCRATCH_LEN];
    let mut roots = [0u32; ROOTS_LEN];
    let mut out = out_room();
    let n = read_full(&mut rt.stdin(), &mut input)?;
    tell(
        &mut rt.stdout(),
        &input[..n],
        &mut table,
        &mut bytes,
        &mut scratch,
        &mut roots,
        &mut out,
    )
}
