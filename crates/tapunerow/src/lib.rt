// The calls of the C interface: `include/tapunerow.h` declares them, and the crate `tapunerow_c` exports them. Each is a thin face of a call of the
// library: the result is 0 or the refusal's number, and the lent answer takes the values, or the refusal's place in its first entry and 0 in the others.
#![tactic(auto)]

ghost use Rattle.std.specs.Prelude.{◌≡◌, List, ℕ, ◌-◌, ◌<◌};
ghost use Rattle.scheme.specs.Crc.{crc_of};
ghost use Rattle.reader.specs.Paper.{totals_of, Reads};
ghost use Rattle.store.specs.Paper.{head_numbers};
ghost use Rattle.text.specs.Paper.{printed_of};
ghost use Rattle.tapunerow.specs.Answers.{number_of, entries_of, nothing, single, counts, lengths};
ghost use Rattle.tapunerow.specs.Promises.{WireClears, WireAdds, WireAsks, WireCopies, WireReads, WireWrites, WireMeasures, WirePrints, Copies};

use crc32c::crc32c;
use depth::max_depth;
use memory::put;
use reader::{Counts, deserialize, unpack_fully};
use scheme::{Reason, Refusal};
use store::{CellHead, Cells, add, cell, cell_data, clear};
use text::{Printed, debug_text};
use wire::{holds, is_set, wire_cell};
use writer::{BagOfCellsArgs, serialize};

// An outcome as C takes it: its number is answered, and its entries go to the lent answer.
fn hand_over<const N: usize>(outcome: Result<[usize; N], Refusal>, answer: &mut [usize; N]) -> u32
    requires { 0 < N }
    ensures number { result ≡ number_of outcome.entry }
    ensures entries { answer.new ≡ entries_of (N - 1) (λ (xs : List ℕ). xs) outcome.entry }
{
    match outcome {
        Ok(values) => {
            *answer = values;
            0
        }
        Err(r) => {
            answer.fill(0);
            answer[0] = r.place;
            r.reason.number()
        }
    }
}

// The entries that each call hands over.
fn nothing(_done: ()) -> [usize; 1]
    ensures { result ≡ nothing tt }
{
    [0]
}

fn single(n: usize) -> [usize; 1]
    ensures { result ≡ single n }
{
    [n]
}

fn fields(h: CellHead) -> [usize; 7]
    ensures { result ≡ head_numbers h }
{
    let [r0, r1, r2, r3] = h.refs;
    [
        usize::from(h.exotic),
        h.len,
        h.count,
        r0 as usize,
        r1 as usize,
        r2 as usize,
        r3 as usize,
    ]
}

fn counts(c: Counts) -> [usize; 4]
    ensures { result ≡ counts (totals_of c) }
{
    [c.used, c.cells, c.roots, c.added]
}

fn lengths(p: Printed) -> [usize; 2]
    ensures { result ≡ lengths (printed_of p) }
{
    [p.written, p.cells]
}

// Empties the store.
pub fn tapunerow_clear(
    count: &mut usize,
    table: &mut [u32],
    bytes: &mut [u8],
    answer: &mut [usize; 1],
) -> u32
    ensures { WireClears count.old table.old bytes.old
        result count.new table.new bytes.new answer.new }
{
    hand_over(clear(count, table, bytes).map(nothing), answer)
}

// Adds the cell of the first bits of own and of these references. The answer: its number. Refuses CUT where own holds fewer bits, then as `store::add`.
#[tactic(auto, unfolding(crate::specs::Outcomes::offering))]
pub fn tapunerow_add(
    count: &mut usize,
    table: &mut [u32],
    bytes: &mut [u8],
    exotic: u32,
    bits: usize,
    own: &[u8],
    refs: &[u32],
    answer: &mut [usize; 1],
) -> u32
    ensures { WireAdds count.old table.old bytes.old exotic bits own.now refs.now
        result count.new table.new bytes.new answer.new }
{
    if !holds(own.len(), bits) {
        return hand_over(Err(Reason::Cut.at(0)), answer);
    }
    let added = add(count, table, bytes, wire_cell(exotic, bits, own, refs));
    hand_over(added.map(single), answer)
}

// The answer: the exotic flag, the bit length, the number of references, the four references.
pub fn tapunerow_cell(
    count: usize,
    table: &[u32],
    bytes: &[u8],
    n: usize,
    answer: &mut [usize; 7],
) -> u32
    ensures { WireAsks count table.now bytes.now n result answer.new }
{
    let store = Cells {
        count,
        table,
        bytes,
    };
    hand_over(cell(store, n).map(fields), answer)
}

// Copies the data of cell n to the front of out, and answers how many bytes.
fn copy_cell_data(store: Cells, n: usize, out: &mut [u8]) -> Result<usize, Refusal>
    ensures { Copies store.entry.count store.entry.table.now store.entry.bytes.now n out.old result out.new }
{
    let own = cell_data(store.count, store.table, store.bytes, n);
    // Without data `cell` tells a cell that has none from a refusal; with data there is nothing more to ask.
    if own.is_empty() {
        cell(store, n)?;
    }
    if out.len() < own.len() {
        return Err(Reason::NoRoom.at(own.len()));
    }
    Ok(put(own, out, 0))
}

// Copies the data of cell n to the front of out. The answer: the bytes copied.
pub fn tapunerow_cell_data(
    count: usize,
    table: &[u32],
    bytes: &[u8],
    n: usize,
    out: &mut [u8],
    answer: &mut [usize; 1],
) -> u32
    ensures { WireCopies count table.now bytes.now n out.old result out.new answer.new }
{
    let store = Cells {
        count,
        table,
        bytes,
    };
    hand_over(copy_cell_data(store, n, out).map(single), answer)
}

// Reads a bag by one of the two readings, which C names by a flag.
fn read(
    reply: &[u8],
    whole: bool,
    count: &mut usize,
    table: &mut [u32],
    bytes: &mut [u8],
    scratch: &mut [u32],
    roots: &mut [u32],
) -> Result<Counts, Refusal>
    ensures { Reads whole count.old table.old bytes.old scratch.old roots.old reply.now
        result count.new table.new bytes.new scratch.new roots.new }
{
    if whole {
        return unpack_fully(reply, count, table, bytes, scratch, roots);
    }
    deserialize(reply, count, table, bytes, scratch, roots)
}

// Reads a bag into the store; if whole is set, no byte may follow it. The answer: bytes used, bag cells, roots, cells added.
pub fn tapunerow_read(
    reply: &[u8],
    whole: u32,
    count: &mut usize,
    table: &mut [u32],
    bytes: &mut [u8],
    scratch: &mut [u32],
    roots: &mut [u32],
    answer: &mut [usize; 4],
) -> u32
    ensures { WireReads whole count.old table.old bytes.old scratch.old roots.old reply.now
        result count.new table.new bytes.new scratch.new roots.new answer.new }
{
    let done = read(reply, is_set(whole), count, table, bytes, scratch, roots);
    hand_over(done.map(counts), answer)
}

// Writes the bag of cell n to the front of out. The answer: the bytes written.
pub fn tapunerow_write(
    count: usize,
    table: &[u32],
    bytes: &[u8],
    n: usize,
    has_idx: u32,
    has_crc32c: u32,
    scratch: &mut [u32],
    out: &mut [u8],
    answer: &mut [usize; 1],
) -> u32
    ensures { WireWrites has_idx has_crc32c count table.now bytes.now n scratch.old out.old
        result scratch.new out.new answer.new }
{
    let args = BagOfCellsArgs {
        has_idx: is_set(has_idx),
        has_crc32c: is_set(has_crc32c),
    };
    let store = Cells {
        count,
        table,
        bytes,
    };
    let wrote = serialize(store, n, args, scratch, out);
    hand_over(wrote.map(single), answer)
}

// The answer: the depth of cell n.
pub fn tapunerow_depth(
    count: usize,
    table: &[u32],
    bytes: &[u8],
    n: usize,
    scratch: &mut [u32],
    answer: &mut [usize; 1],
) -> u32
    ensures { WireMeasures count table.now bytes.now n scratch.old result scratch.new answer.new }
{
    let store = Cells {
        count,
        table,
        bytes,
    };
    let depth = max_depth(store, n, scratch);
    hand_over(depth.map(single), answer)
}

// Writes the text of cell n to the front of out, at most budget cells. The answer: the bytes written, and the cells printed.
pub fn tapunerow_text(
    count: usize,
    table: &[u32],
    bytes: &[u8],
    n: usize,
    budget: usize,
    scratch: &mut [u32],
    out: &mut [u8],
    answer: &mut [usize; 2],
) -> u32
    ensures { WirePrints count table.now bytes.now n budget scratch.old out.old
        result scratch.new out.new answer.new }
{
    let store = Cells {
        count,
        table,
        bytes,
    };
    let text = debug_text(store, n, budget, scratch, out);
    hand_over(text.map(lengths), answer)
}

// CRC-32C of the bytes.
pub fn tapunerow_crc32c(bytes: &[u8]) -> u32
    ensures { result ≡ crc_of bytes.now }
{
    crc32c(bytes)
}
