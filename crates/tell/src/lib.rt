// Reads a reply and prints its report, with memory that is lent.
#![tactic(auto)]

ghost use Rattle.std.specs.Prelude.{◌≤◌, [], leb, cond, take, IfOk, OnOk, length};
ghost use Rattle.std.specs.Io.KnownBytes.{Appends};
ghost use Rattle.scheme.specs.Program.{reporting};

use report::{FIRST_LINE_LEN, LINE_LEN, MAX_INPUT, report};
use std::io;
use std::io::{Read, Write};

// The bytes of a reply at most, and one more, by which one that is too long is known.
pub const INPUT_LEN: usize = MAX_INPUT + 1;

// The scratch entries that a read takes for each cell.
pub const SCRATCH_PER_CELL: usize = 2;

// The root places that the programs lend, and the bytes of a report with so many at most.
pub const ROOTS_LEN: usize = 16;

pub const OUT_LEN: usize = FIRST_LINE_LEN + ROOTS_LEN * LINE_LEN;

// The memory of a reply and of its report. Each comes from a function, so that its type says its length and no proof counts its bytes.
pub fn input_room() -> [u8; INPUT_LEN] {
    [0u8; INPUT_LEN]
}

pub fn out_room() -> [u8; OUT_LEN] {
    [0u8; OUT_LEN]
}

// Reads until `room` is full or the input ends, and answers how many bytes there are.
pub fn read_full<R: Read>(input: &mut R, room: &mut [u8]) -> io::Result<usize>
    ensures { IfOk result (λ n. n ≤ length room.new) }
{
    let mut done = 0;
    // How far a turn gets is for the input to say.
    while done < room.len() {
        let n = input.read(&mut room[done..])?;
        if n == 0 {
            break;
        }
        done += n;
    }
    Ok(done)
}

// Writes the report of a reply, or nothing if it does not fit out. The store's parts stay apart for the reason that stands above `store::place`.
pub fn tell<W: Write>(
    to: &mut W,
    reply: &[u8],
    table: &mut [u32],
    bytes: &mut [u8],
    scratch: &mut [u32],
    roots: &mut [u32],
    out: &mut [u8],
) -> io::Result<()>
    ensures { OnOk result (let r = reporting 0 table.old bytes.old scratch.old roots.old out.old reply.now in
        Appends (W.contents to.old) (W.contents to.new) (cond (leb r.len (length out.old)) (take r.len r.out) [])) }
{
    let mut count = 0;
    let len = report(reply, &mut count, table, bytes, scratch, roots, out);
    if len <= out.len() {
        to.write_all(&out[..len])?;
    }
    Ok(())
}
