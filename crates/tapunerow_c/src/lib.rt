// The static library for C and Rust to link: `include/tapunerow.h` declares these functions. Each exports the call of `tapunerow` that has its name, with the
// same parameters and the same contract.
#![tactic(auto)]

ghost use Rattle.std.specs.Prelude.{◌≡◌};
ghost use Rattle.scheme.specs.Crc.{crc_of};
ghost use Rattle.tapunerow.specs.Promises.{WireClears, WireAdds, WireAsks, WireCopies, WireReads, WireWrites, WireMeasures, WirePrints};

// Empties the store.
#[unsafe(no_mangle)]
pub extern "C" fn tapunerow_clear(
    count: &mut usize,
    table: &mut [u32],
    bytes: &mut [u8],
    answer: &mut [usize; 1],
) -> u32
    ensures { WireClears count.old table.old bytes.old
        result count.new table.new bytes.new answer.new }
{
    tapunerow::tapunerow_clear(count, table, bytes, answer)
}

// Adds the cell of the first bits of own and of these references. The answer: its number. Refuses CUT where own holds fewer bits, then as `store::add`.
#[unsafe(no_mangle)]
pub extern "C" fn tapunerow_add(
    count: &mut usize,
    table: &mut [u32],
    bytes: &mut [u8],
    exotic: u32,
    bits: usize,
    own: &[u8],
    refs: &[u32],
    answer: &mut [usize; 1],
) -> u32
    ensures { WireAdds count.old table.old bytes.old exotic bits own.now refs.now
        result count.new table.new bytes.new answer.new }
{
    tapunerow::tapunerow_add(count, table, bytes, exotic, bits, own, refs, answer)
}

// The answer: the exotic flag, the bit length, the number of references, the four references.
#[unsafe(no_mangle)]
pub extern "C" fn tapunerow_cell(
    count: usize,
    table: &[u32],
    bytes: &[u8],
    n: usize,
    answer: &mut [usize; 7],
) -> u32
    ensures { WireAsks count table.now bytes.now n result answer.new }
{
    tapunerow::tapunerow_cell(count, table, bytes, n, answer)
}

// Copies the data of cell n to the front of out. The answer: the bytes copied.
#[unsafe(no_mangle)]
pub extern "C" fn tapunerow_cell_data(
    count: usize,
    table: &[u32],
    bytes: &[u8],
    n: usize,
    out: &mut [u8],
    answer: &mut [usize; 1],
) -> u32
    ensures { WireCopies count table.now bytes.now n out.old result out.new answer.new }
{
    tapunerow::tapunerow_cell_data(count, table, bytes, n, out, answer)
}

// Reads a bag into the store; if whole is set, no byte may follow it. The answer: bytes used, bag cells, roots, cells added.
#[unsafe(no_mangle)]
pub extern "C" fn tapunerow_read(
    reply: &[u8],
    whole: u32,
    count: &mut usize,
    table: &mut [u32],
    bytes: &mut [u8],
    scratch: &mut [u32],
    roots: &mut [u32],
    answer: &mut [usize; 4],
) -> u32
    ensures { WireReads whole count.old table.old bytes.old scratch.old roots.old reply.now
        result count.new table.new bytes.new scratch.new roots.new answer.new }
{
    tapunerow::tapunerow_read(reply, whole, count, table, bytes, scratch, roots, answer)
}

// Writes the bag of cell n to the front of out. The answer: the bytes written.
#[unsafe(no_mangle)]
pub extern "C" fn tapunerow_write(
    count: usize,
    table: &[u32],
    bytes: &[u8],
    n: usize,
    has_idx: u32,
    has_crc32c: u32,
    scratch: &mut [u32],
    out: &mut [u8],
    answer: &mut [usize; 1],
) -> u32
    ensures { WireWrites has_idx has_crc32c count table.now bytes.now n scratch.old out.old
        result scratch.new out.new answer.new }
{
    tapunerow::tapunerow_write(
        count, table, bytes, n, has_idx, has_crc32c, scratch, out, answer,
    )
}

// The answer: the depth of cell n.
#[unsafe(no_mangle)]
pub extern "C" fn tapunerow_depth(
    count: usize,
    table: &[u32],
    bytes: &[u8],
    n: usize,
    scratch: &mut [u32],
    answer: &mut [usize; 1],
) -> u32
    ensures { WireMeasures count table.now bytes.now n scratch.old result scratch.new answer.new }
{
    tapunerow::tapunerow_depth(count, table, bytes, n, scratch, answer)
}

// Writes the text of cell n to the front of out, at most budget cells. The answer: the bytes written, and the cells printed.
#[unsafe(no_mangle)]
pub extern "C" fn tapunerow_text(
    count: usize,
    table: &[u32],
    bytes: &[u8],
    n: usize,
    budget: usize,
    scratch: &mut [u32],
    out: &mut [u8],
    answer: &mut [usize; 2],
) -> u32
    ensures { WirePrints count table.now bytes.now n budget scratch.old out.old
        result scratch.new out.new answer.new }
{
    tapunerow::tapunerow_text(count, table, bytes, n, budget, scratch, out, answer)
}

// CRC-32C of the bytes.
#[unsafe(no_mangle)]
pub extern "C" fn tapunerow_crc32c(bytes: &[u8]) -> u32
    ensures { result ≡ crc_of bytes.now }
{
    tapunerow::tapunerow_crc32c(bytes)
}
