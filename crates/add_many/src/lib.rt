// Cells added in a row with one test of the store: what the single adds, made in turn, give.
#![tactic(auto)]

ghost use Rattle.std.specs.Prelude.{◌≡◌, true, ◌+◌, ◌*◌, ◌≤◌, length};
ghost use Rattle.scheme.specs.Memory.{sound};
ghost use Rattle.builder.specs.Paper.{builder_of};
ghost use Rattle.add_many.specs.Many.{cells_in, builder_at, AddsMany};

use builder::CellBuilder;
use memory::{BITS_LEN, EXOTIC, FIRST_REF, REFS_COUNT, field};
use scheme::{DATA_LEN, MAX_REFS_COUNT, RECORD_LEN, Reason, Refusal};
use store::{Cells, add_in, is_sound};

// Where a batch stopped: the first cell that is refused, by its place in the batch, and why. The cells before it are added.
#[derive(Clone, Copy, Debug, PartialEq, Eq)]
pub struct Stop {
    pub cell: usize,
    pub refusal: Refusal,
}

// How many cells are whole in as many numbers and data bytes, and have a place for their number.
fn cells_in(numbers: usize, bytes: usize, places: usize) -> usize
    ensures { result ≡ cells_in numbers bytes places }
{
    (numbers / RECORD_LEN).min(bytes / DATA_LEN).min(places)
}

// Cell i of a batch: its flag (any number but 0 is exotic), bits, number of references and references in seven numbers, and its 128 data bytes.
#[tactic(auto, unfolding(crate::specs::Many::builder_at))]
fn cell_at(heads: &[u32], blocks: &[u8], i: usize) -> CellBuilder
    requires { (i * 7 + 7 ≤ length heads.now) × (i * 128 + 128 ≤ length blocks.now) }
    ensures { builder_of result ≡ builder_at heads.now blocks.now i }
{
    let mut bytes = [0; DATA_LEN];
    let from = i * DATA_LEN;
    bytes.copy_from_slice(&blocks[from..from + DATA_LEN]);
    let mut refs = [0; MAX_REFS_COUNT];
    let row = i * RECORD_LEN;
    refs.copy_from_slice(&heads[row + FIRST_REF..row + RECORD_LEN]);
    CellBuilder {
        exotic: field(heads, i, EXOTIC) != 0,
        len: field(heads, i, BITS_LEN),
        bytes,
        count: field(heads, i, REFS_COUNT),
        refs,
    }
}

// The first k cells of a batch, added to a store that is known to be sound.
// Its count, table and bytes stay apart for the reason that stands above `store::place`.
fn add_each(
    count: &mut usize,
    table: &mut [u32],
    bytes: &mut [u8],
    heads: &[u32],
    blocks: &[u8],
    k: usize,
    numbers: &mut [u32],
) -> Result<(), Stop>
    requires bytes_value { sound count.old table.old bytes.old ≡ true }
    requires k_in_bounds { (k * 7 ≤ length heads.now) × (k * 128 ≤ length blocks.now) × (k ≤ length numbers.old) }
    ensures { AddsMany heads.now blocks.now k count.old table.old bytes.old numbers.old
        result count.new table.new bytes.new numbers.new }
{
    for i in 0..k {
        let added = add_in(count, table, bytes, cell_at(heads, blocks, i));
        let number = added.map_err(|refusal| Stop { cell: i, refusal })?;
        numbers[i] = number as u32;
    }
    Ok(())
}

// Adds the cells of a batch in turn, as `add` does, and writes each one's number to its place.
// It stops at the first that is refused: those before it stay added.
// heads has seven numbers a cell, blocks 128 data bytes; there are as many cells as are whole in both and have a place in numbers.
pub fn add_many(
    count: &mut usize,
    table: &mut [u32],
    bytes: &mut [u8],
    heads: &[u32],
    blocks: &[u8],
    numbers: &mut [u32],
) -> Result<(), Stop>
    ensures { AddsMany heads.now blocks.now
        (cells_in (length heads.now) (length blocks.now) (length numbers.old))
        count.old table.old bytes.old numbers.old
        result count.new table.new bytes.new numbers.new }
{
    let k = cells_in(heads.len(), blocks.len(), numbers.len());
    if k == 0 {
        return Ok(());
    }
    let store = Cells {
        count: *count,
        table,
        bytes,
    };
    if !is_sound(store) {
        return Err(Stop {
            cell: 0,
            refusal: Reason::Store.at(0),
        });
    }
    add_each(count, table, bytes, heads, blocks, k, numbers)
}
