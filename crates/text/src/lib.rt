// The Debug text of a cell. Passes by number find what the text takes; nothing is written before every refusal is ruled out.
#![tactic(auto)]

ghost use Rattle.std.specs.Prelude.{◌≡◌, ℕ, ◌+◌, ◌-◌, ◌*◌, ◌≤◌, ◌<◌, min, List, length, get_or};
ghost use Rattle.scheme.specs.Res.{mapped};
ghost use Rattle.scheme.specs.Memory.{cell_at};
ghost use Rattle.scheme.specs.Fold.{pick};
ghost use Rattle.scheme.specs.Text.{digits, hex_digit, hex, sum, height, tree_size, text_of};
ghost use Rattle.laws.specs.Puts.{puts};
ghost use Rattle.laws.specs.Records.{refs_at, RecordOk, Linked, CellOk, CellsOk};
ghost use Rattle.text.specs.Parts.{around, length_step, own_at, text_at, size_at, refs_text, refs_size};
ghost use Rattle.text.specs.Paper.{page_at, Prints};

use depth::{check_lent, fold_refs, over_refs, pass};
use memory::{BITS_LEN, Cells, FIRST_REF, REFS_COUNT, field, put, put_byte};
use scheme::{DATA_LEN, MAX_BUDGET, MAX_PATH, Reason, Refusal};

// Where heights are cut: one above the longest path that is printed.
const HEIGHT_CAP: u32 = 257;

// Where lengths are cut: above that of every text within a budget.
const LENGTH_CAP: u32 = 0x7fff_ffff;

// The height of cell n, at most cap.
fn height_of(table: &[u32], n: usize, cap: u32, scratch: &mut [u32]) -> u32
    requires linked { Linked table.now (n + 1) }
    requires n_in_bounds { n < length scratch.old }
    ensures { (d : List ℕ) → result ≡ min cap (height (cell_at table.now d) n) }
{
    pass(
        n + 1,
        scratch,
        |scratch, i| over_refs(table, scratch, i, cap),
    );
    scratch[n]
}

// start and the numbers at record i's references, summed, and at most cap.
fn sum_refs(table: &[u32], scratch: &[u32], i: usize, start: u32, cap: u32) -> u32
    requires record_ok { RecordOk table.now i }
    requires i_in_bounds { i ≤ length scratch.now }
    ensures { result ≡ min cap (start + sum (pick 0 scratch.now (refs_at table.now i))) }
{
    fold_refs(
        table,
        scratch,
        i,
        start.min(cap),
        |h, x| h.saturating_add(x).min(cap),
    )
}

// The cells of the unfolded structure of cell n, at most cap.
fn size_of(table: &[u32], n: usize, cap: u32, scratch: &mut [u32]) -> u32
    requires linked { Linked table.now (n + 1) }
    requires n_in_bounds { n < length scratch.old }
    ensures { (d : List ℕ) → result ≡ min cap (tree_size (cell_at table.now d) n) }
{
    pass(
        n + 1,
        scratch,
        |scratch, i| sum_refs(table, scratch, i, 1, cap),
    );
    scratch[n]
}

// The number of decimal digits. Interface between crates.
pub fn width(n: usize) -> usize
    ensures { (result ≡ length (digits 20 n)) × (result ≤ 20) }
{
    if n < 10 {
        return 1;
    }
    width(n / 10) + 1
}

// The length of a cell's own part and of what stands around its references' texts.
fn length_alone(table: &[u32], i: usize) -> u32
    requires { RecordOk table.now i }
    ensures { (d : List ℕ) → i * 128 + 128 ≤ length d → result ≡ length (own_at table.now d i) + around (get_or table.now (i * 7 + 2) 0) }
{
    let len = field(table, i, BITS_LEN);
    let k = field(table, i, REFS_COUNT);
    let own = width(len) + 3 + 2 * len.div_ceil(8) + 1;
    if k == 0 {
        own as u32
    } else {
        (own + 4 + 2 * k) as u32
    }
}

// The text length of cell i from those of the cells before it, at most cap.
fn length_step(table: &[u32], scratch: &[u32], i: usize, cap: u32) -> u32
    requires record_ok { RecordOk table.now i }
    requires i_in_bounds { i ≤ length scratch.now }
    ensures { (d : List ℕ) → i * 128 + 128 ≤ length d
        → result ≡ min cap (length_step (cell_at table.now d i) (pick 0 scratch.now (refs_at table.now i))) }
{
    sum_refs(table, scratch, i, length_alone(table, i), cap)
}

// The text length of cell n, at most cap.
fn length_of(table: &[u32], n: usize, cap: u32, scratch: &mut [u32]) -> u32
    requires linked { Linked table.now (n + 1) }
    requires n_in_bounds { n < length scratch.old }
    ensures { (d : List ℕ) → (n + 1) * 128 ≤ length d → result ≡ min cap (length (text_of (cell_at table.now d) n)) }
{
    pass(
        n + 1,
        scratch,
        |scratch, i| length_step(table, scratch, i, cap),
    );
    scratch[n]
}

// Writes n in decimal at a place, and answers the next place. Interface between crates.
pub fn put_decimal(out: &mut [u8], at: usize, n: usize) -> usize
    requires { at + length (digits 20 n) ≤ length out.old }
    ensures { (result ≡ at + length (digits 20 n)) × (out.new ≡ puts out.old at (digits 20 n)) }
{
    if n < 10 {
        return put_byte(out, at, b'0' + n as u8);
    }
    let last = put_decimal(out, at, n / 10);
    put_byte(out, last, b'0' + (n % 10) as u8)
}

// A digit of upper-case hexadecimal.
#[tactic(auto, unfolding(scheme::specs::Text::hex_digit))]
fn hex_digit(d: u8) -> u8
    requires { d < 16 }
    ensures { result ≡ hex_digit d }
{
    if d < 10 { b'0' + d } else { b'A' + (d - 10) }
}

// Writes the bytes in upper-case hexadecimal.
fn put_hex(src: &[u8], out: &mut [u8], at: usize) -> usize
    requires { at + length (hex src.now) ≤ length out.old }
    ensures next { result ≡ at + length (hex src.now) }
    ensures put { out.new ≡ puts out.old at (hex src.now) }
{
    let mut to = at;
    for b in src {
        out[to] = hex_digit(*b / 16);
        out[to + 1] = hex_digit(*b % 16);
        to += 2;
    }
    to
}

// Writes cell n's own part: bit length, `[0x`, the bytes, `]`.
fn put_own(cells: &Cells, out: &mut [u8], at: usize, n: usize) -> usize
    requires cell_ok { CellOk cells.now.table.now cells.now.bytes.now n }
    requires n_in_bounds { at + length (own_at cells.now.table.now cells.now.bytes.now n) ≤ length out.old }
    ensures next { result ≡ at + length (own_at cells.now.table.now cells.now.bytes.now n) }
    ensures put { out.new ≡ puts out.old at (own_at cells.now.table.now cells.now.bytes.now n) }
{
    let len = cells.field(n, BITS_LEN);
    let a = put_decimal(out, at, len);
    let b = put(b"[0x", out, a);
    let from = n * DATA_LEN;
    let e = put_hex(&cells.bytes[from..from + len.div_ceil(8)], out, b);
    put_byte(out, e, b']')
}

// Where the walk stands: the next place, and the cells that are still allowed.
#[derive(Clone, Copy)]
struct Walked {
    next: usize,
    left: usize,
}

// Writes the text of cell n: its own part, and the texts of its references. Takes the cells that it prints off those allowed.
// A cell and its reference list call each other, with a budget: the form that is asked for.
#[cycle(print_cell_print_refs)]
fn print_cell(cells: &Cells, out: &mut [u8], at: usize, n: usize, left: usize) -> Walked
    requires cells_ok { CellsOk cells.now.table.now cells.now.bytes.now (n + 1) }
    requires n_in_bounds { at + length (text_at cells.now.table.now cells.now.bytes.now n) ≤ length out.old }
    requires n_bound { size_at cells.now.table.now cells.now.bytes.now n ≤ left }
    ensures next { result.next ≡ at + length (text_at cells.now.table.now cells.now.bytes.now n) }
    ensures remains { result.left ≡ left - size_at cells.now.table.now cells.now.bytes.now n }
    ensures put { out.new ≡ puts out.old at (text_at cells.now.table.now cells.now.bytes.now n) }
{
    let rest = left - 1;
    let a = put_own(cells, out, at, n);
    let k = cells.field(n, REFS_COUNT);
    if k == 0 {
        return Walked {
            next: a,
            left: rest,
        };
    }
    let b = put(b" -> {", out, a);
    let p = print_refs(cells, out, b, n, 0, rest);
    Walked {
        next: put_byte(out, p.next, b'}'),
        left: p.left,
    }
}

// Writes the texts of cell n's references from the j-th on, joined by `, `: each from what the one before it left.
#[cycle(print_cell_print_refs)]
fn print_refs(cells: &Cells, out: &mut [u8], at: usize, n: usize, j: usize, left: usize) -> Walked
    requires cells_ok { CellsOk cells.now.table.now cells.now.bytes.now (n + 1) }
    requires j_bound { j < get_or cells.now.table.now (n * 7 + 2) 0 }
    requires j_in_bounds { at + length (refs_text cells.now.table.now cells.now.bytes.now n j) ≤ length out.old }
    requires j_bound_2 { refs_size cells.now.table.now cells.now.bytes.now n j ≤ left }
    ensures next { result.next ≡ at + length (refs_text cells.now.table.now cells.now.bytes.now n j) }
    ensures remains { result.left ≡ left - refs_size cells.now.table.now cells.now.bytes.now n j }
    ensures put { out.new ≡ puts out.old at (refs_text cells.now.table.now cells.now.bytes.now n j) }
{
    let r = cells.field(n, FIRST_REF + j);
    let p = print_cell(cells, out, at, r, left);
    let k = cells.field(n, REFS_COUNT);
    if k <= j + 1 {
        return p;
    }
    let b = put(b", ", out, p.next);
    print_refs(cells, out, b, n, j + 1, p.left)
}

// The refusals in their order; the scratch holds anything afterwards.
fn decide(
    store: Cells,
    n: usize,
    budget: usize,
    scratch: &mut [u32],
    room: usize,
) -> Result<(), Refusal>
    ensures { result ≡ mapped (λ _. tt)
        (page_at store.entry.count store.entry.table.now store.entry.bytes.now n budget (length scratch.old) room) }
{
    check_lent(store, n, scratch.len())?;
    let table = store.table;
    let path = height_of(table, n, HEIGHT_CAP, scratch) as usize;
    if MAX_PATH < path {
        return Err(Reason::Deep.at(0));
    }
    let limit = budget.min(MAX_BUDGET);
    let size = size_of(table, n, limit as u32 + 1, scratch) as usize;
    if limit < size {
        return Err(Reason::Budget.at(limit));
    }
    let len = length_of(table, n, LENGTH_CAP, scratch) as usize;
    if room < len {
        return Err(Reason::NoRoom.at(len));
    }
    Ok(())
}

// The bytes written, and the cells printed.
#[derive(Clone, Copy, Debug, PartialEq, Eq)]
pub struct Printed {
    pub written: usize,
    pub cells: usize,
}

// Writes the text of cell n of the store to the front of out, at most budget cells. The scratch
// needs an entry for each stored cell and is all 0 afterwards; a refusal writes nothing else.
pub fn debug_text(
    store: Cells,
    n: usize,
    budget: usize,
    scratch: &mut [u32],
    out: &mut [u8],
) -> Result<Printed, Refusal>
    ensures { Prints store.entry.count store.entry.table.now store.entry.bytes.now n budget scratch.old out.old
        result scratch.new out.new }
{
    let verdict = decide(store, n, budget, scratch, out.len());
    scratch.fill(0);
    verdict?;
    let limit = budget.min(MAX_BUDGET);
    let p = print_cell(&store, out, 0, n, limit);
    Ok(Printed {
        written: p.next,
        cells: limit - p.left,
    })
}
