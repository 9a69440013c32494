// The order in which a bag lists the cells that a root reaches, made in the scratch of a store of n cells: from 0 the number of parents that each cell
// waits for, from n the cells listed and behind them those in the queue, from 2 * n the place of each listed cell.
#![tactic(auto)]

ghost use Rattle.std.specs.Prelude.{◌≡◌, ℕ, ◌+◌, ◌*◌, ◌≤◌, ◌<◌, length, take};
ghost use mathlib.Core.List.{[], ◌∷◌, Memᴰ as Mem};
ghost use Rattle.std.proofs.Math.Seq.{slice};
ghost use Rattle.scheme.specs.Order.{memb};
ghost use Rattle.laws.specs.Distinct.{Nodup};
ghost use Rattle.laws.specs.Counts.{bump, count_down, settle as settling};
ghost use Rattle.laws.specs.Records.{refs_at, RecordOk, Linked};
ghost use Rattle.order.specs.Queue.{kids_at, seen_at, Small, wait_mem, wait_end, Joined, Roomy, Listed, Placed, Ordered};

use memory::{FIRST_REF, REFS_COUNT, entry, field};

// Whether x is among the first j references of record i.
fn named(table: &[u32], i: usize, j: usize, x: usize) -> bool
    requires record_ok { RecordOk table.now i }
    requires j_bound { j ≤ 4 }
    ensures { result ≡ memb x (seen_at table.now i j) }
{
    (0..j).any(|k| field(table, i, FIRST_REF + k) == x)
}

// One parent more for each reference of record i, at its first place.
fn count_refs(table: &[u32], i: usize, scratch: &mut [u32])
    requires record_ok { RecordOk table.now i }
    requires i_in_bounds { i ≤ length scratch.old }
    requires small { Small 16380 scratch.old }
    ensures { scratch.new ≡ bump [] scratch.old (refs_at table.now i) }
{
    let k = field(table, i, REFS_COUNT);
    for j in 0..k {
        let r = field(table, i, FIRST_REF + j);
        if !named(table, i, j, r) {
            scratch[r] += 1;
        }
    }
}

// The number of parents of each cell that the root reaches, from the root down.
fn count_parents(table: &[u32], root: usize, scratch: &mut [u32])
    requires linked { Linked table.now (root + 1) }
    requires root_in_bounds { root < length scratch.old }
    requires root_bound { root < 4096 }
    requires small { Small 0 scratch.old }
    ensures { (n : ℕ) → root < n → scratch.new ≡ count_down (kids_at table.now n) root (bump [] scratch.old (kids_at table.now n root)) }
{
    count_refs(table, root, scratch);
    for i in (0..root).rev() {
        if scratch[i] != 0 {
            count_refs(table, i, scratch);
        }
    }
}

// One parent less for cell r, which joins the queue at its end when no other is left.
#[tactic(auto, unfolding(crate::specs::Queue::wait_mem, crate::specs::Queue::wait_end))]
fn wait_less(scratch: &mut [u32], r: usize, end: usize) -> usize
    requires r_bound { r < 4096 }
    requires r_in_bounds { r < length scratch.old }
    requires end_in_bounds { wait_end scratch.old r end ≤ length scratch.old }
    ensures { (result ≡ wait_end scratch.old r end) × (scratch.new ≡ wait_mem scratch.old r end) }
{
    let x = scratch[r];
    if x <= 1 {
        scratch[r] = 0;
        scratch[end] = r as u32;
        end + 1
    } else {
        scratch[r] = x - 1;
        end
    }
}

// The references of record i have one parent less, each at its first place; those with no other parent join the queue.
fn settle(table: &[u32], i: usize, n: usize, tail: usize, scratch: &mut [u32]) -> usize
    requires record_ok { RecordOk table.now i }
    requires i_lt_n { i < n }
    requires n_bound { n ≤ 4096 }
    requires n_le_tail { n ≤ tail }
    requires i_in_bounds { tail + length (settling [] (take n scratch.old) [] (refs_at table.now i)).queue ≤ length scratch.old }
    ensures { Joined table.now i n tail scratch.old scratch.new result }
{
    let k = field(table, i, REFS_COUNT);
    let mut end = tail;
    for j in 0..k {
        let child = field(table, i, FIRST_REF + j);
        if !named(table, i, j, child) {
            end = wait_less(scratch, child, end);
        }
    }
    end
}

// The queue: its front cell is listed by going one on, and its references are settled.
fn list_cells(table: &[u32], n: usize, root: usize, scratch: &mut [u32]) -> usize
    requires linked { Linked table.now n }
    requires root_lt_n { root < n }
    requires n_bound { n ≤ 4096 }
    requires n_in_bounds { 2 * n ≤ length scratch.old }
    requires roomy { Roomy (kids_at table.now n) n n (take n scratch.old) (root ∷ []) 0 }
    ensures { Listed table.now n root scratch.old scratch.new result }
{
    scratch[n] = root as u32;
    let mut head = n;
    let mut tail = n + 1;
    // A queue: each turn may move its end.
    while head < tail {
        let x = entry(scratch, head);
        tail = settle(table, x, n, tail, scratch);
        head += 1;
    }
    tail - n
}

// The place of each of the m cells listed.
fn place_cells(n: usize, m: usize, scratch: &mut [u32])
    requires m_le_n { m ≤ n }
    requires n_bound { n ≤ 4096 }
    requires n_in_bounds { 3 * n ≤ length scratch.old }
    requires nodup { Nodup (slice n (n + m) scratch.old) }
    requires by_index { (x : ℕ) → Mem x (slice n (n + m) scratch.old) → x < n }
    ensures { Placed n m scratch.old scratch.new }
{
    for p in 0..m {
        let x = entry(scratch, n + p);
        scratch[2 * n + x] = p as u32;
    }
}

// Lists the cells that the root reaches in the order of writing, with the place of each, and leaves every other entry 0; answers how many.
// Interface between crates.
pub fn order(table: &[u32], n: usize, root: usize, scratch: &mut [u32]) -> usize
    requires linked { Linked table.now n }
    requires root_lt_n { root < n }
    requires n_bound { n ≤ 4096 }
    requires n_in_bounds { 4 * n ≤ length scratch.old }
    ensures { Ordered table.now n root scratch.new result }
{
    scratch.fill(0);
    count_parents(table, root, scratch);
    let m = list_cells(table, n, root, scratch);
    place_cells(n, m, scratch);
    m
}
