// The depth of a cell: a pass by number over the stored cells, with one scratch entry a cell.
#![tactic(auto)]

ghost use Rattle.std.specs.Prelude.{◌≡◌, ◌≤◌, ◌<◌, min, length};
ghost use Rattle.std.specs.List.{FoldsTo};
ghost use Rattle.scheme.specs.Res.{mapped};
ghost use Rattle.scheme.specs.Memory.{cell_at};
ghost use Rattle.scheme.specs.Fold.{pick};
ghost use Rattle.scheme.specs.Depth.{over, depth_step};
ghost use Rattle.scheme.specs.Calls.{lent, measuring};
ghost use Rattle.laws.specs.Records.{refs_at, RecordOk, CellOk};
ghost use Rattle.depth.specs.Paper.{Measures};
ghost use Rattle.depth.specs.Pass.{Turns};
ghost use Rattle.depth.specs.Pruned.{pruned_of};

use memory::{BITS_LEN, Cells, EXOTIC, FIRST_REF, REFS_COUNT, field};
use scheme::{DATA_LEN, MAX_DEPTH, Reason, Refusal};
use sound::is_sound;

// Depths are cut one above the greatest that is answered, so that no sum overflows.
const CAP: u32 = 65536;

// The data bytes that a pruned branch has at least; its first byte.
const PRUNED_LEN: usize = 36;

const PRUNED_TYPE: u8 = 1;

// The bytes of a level's hash and depth in a pruned branch: 32 and 2.
const HASH_LEN: usize = 32;

const LEVEL_LEN: usize = 34;

// A pass by number over the first n cells: from 0 up, each gets what the step answers to the numbers so far. Interface between crates.
pub fn pass<F: Fn(&[u32], usize) -> u32>(n: usize, scratch: &mut [u32], step: F)
    requires callable { (s : _) (i : _) → i < n → length s.now ≡ length scratch.old → F.pre step s i }
    requires n_in_bounds { n ≤ length scratch.old }
    ensures { Turns (λ s i r. F.post step s i r) n scratch.old scratch.new }
{
    for i in 0..n {
        scratch[i] = step(scratch, i);
    }
}

// The numbers at record i's references, taken into `start` one by one. Interface between crates.
pub fn fold_refs<F: Fn(u32, u32) -> u32>(
    table: &[u32],
    scratch: &[u32],
    i: usize,
    start: u32,
    step: F,
) -> u32
    requires record_ok { RecordOk table.now i }
    requires i_in_bounds { i ≤ length scratch.now }
    requires callable { F.IsAlwaysCallable step }
    ensures { FoldsTo (λ h x r. F.post step h x r) start (pick 0 scratch.now (refs_at table.now i)) result }
{
    let mut h = start;
    for j in 0..field(table, i, REFS_COUNT) {
        h = step(h, scratch[field(table, i, FIRST_REF + j)]);
    }
    h
}

// One more than the greatest of the numbers at record i's references, 0 without references, and at
// most cap. Interface between crates.
pub fn over_refs(table: &[u32], scratch: &[u32], i: usize, cap: u32) -> u32
    requires record_ok { RecordOk table.now i }
    requires i_in_bounds { i ≤ length scratch.now }
    ensures { result ≡ min cap (over (pick 0 scratch.now (refs_at table.now i))) }
{
    fold_refs(
        table,
        scratch,
        i,
        0,
        |h, x| h.max(x.saturating_add(1).min(cap)),
    )
}

// The depth that cell i names, if it is a pruned branch.
fn pruned_at(cells: Cells, i: usize) -> Option<u32>
    requires { CellOk cells.table.now cells.bytes.now i }
    ensures { result ≡ pruned_of (cell_at cells.entry.table.now cells.entry.bytes.now i) }
{
    let exotic = cells.field(i, EXOTIC);
    if exotic != 1 {
        return None;
    }
    let len = cells.field(i, BITS_LEN).div_ceil(8);
    if len < PRUNED_LEN {
        return None;
    }
    let bytes = cells.bytes;
    let from = i * DATA_LEN;
    if bytes[from] != PRUNED_TYPE {
        return None;
    }
    let levels = bytes[from + 1].count_ones() as usize;
    if len != 2 + LEVEL_LEN * levels {
        return None;
    }
    let p = from + (2 + HASH_LEN * levels);
    Some(u32::from(bytes[p]) * 256 + u32::from(bytes[p + 1]))
}

// The depth of cell i from those of the cells before it, at most cap.
fn depth_step(cells: Cells, scratch: &[u32], i: usize, cap: u32) -> u32
    requires cell_ok { CellOk cells.table.now cells.bytes.now i }
    requires i_in_bounds { i ≤ length scratch.now }
    ensures { result ≡ min cap (depth_step (cell_at cells.entry.table.now cells.entry.bytes.now i)
        (pick 0 scratch.now (refs_at cells.entry.table.now i))) }
{
    match pruned_at(cells, i) {
        Some(x) => x.min(cap),
        None => over_refs(cells.table, scratch, i, cap),
    }
}

// STORE, NOCELL or SCRATCH, unless cell n is one of a sound store and the scratch has an entry for each cell. Interface between crates.
pub fn check_lent(store: Cells, n: usize, scratch_len: usize) -> Result<(), Refusal>
    ensures { result ≡ mapped (λ _. tt) (lent 1 store.entry.count store.entry.table.now store.entry.bytes.now n scratch_len) }
{
    if !is_sound(store) {
        return Err(Reason::Store.at(0));
    }
    let count = store.count;
    if count <= n {
        return Err(Reason::NoCell.at(0));
    }
    if scratch_len < count {
        return Err(Reason::Scratch.at(count));
    }
    Ok(())
}

// The answer of max_depth; the scratch holds anything afterwards.
fn depth_at(store: Cells, n: usize, scratch: &mut [u32]) -> Result<usize, Refusal>
    ensures { result ≡ (measuring store.entry.count store.entry.table.now store.entry.bytes.now n scratch.old).answer }
{
    check_lent(store, n, scratch.len())?;
    pass(
        n + 1,
        scratch,
        |scratch, i| depth_step(store, scratch, i, CAP),
    );
    let h = scratch[n] as usize;
    if MAX_DEPTH < h {
        return Err(Reason::Depth.at(0));
    }
    Ok(h)
}

// The depth of cell n of the store: of a pruned branch the one that it names, of any other 0 without
// references, else one more than the greatest of its references. The scratch needs an entry for
// each stored cell and is all 0 afterwards.
pub fn max_depth(store: Cells, n: usize, scratch: &mut [u32]) -> Result<usize, Refusal>
    ensures { Measures store.entry.count store.entry.table.now store.entry.bytes.now n scratch.old result scratch.new }
{
    let d = depth_at(store, n, scratch);
    scratch.fill(0);
    d
}
