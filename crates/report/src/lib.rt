// The whole output of the program for one reply, as a function of its bytes and of the memory that is lent for it.
#![tactic(auto)]

ghost use Rattle.std.specs.Prelude.{◌≡◌, true, [], ◌++◌, ◌+◌, ◌*◌, ◌≤◌, ◌<◌, length};
ghost use Rattle.scheme.specs.Memory.{sound};
ghost use Rattle.scheme.specs.Calls.{zeroed};
ghost use Rattle.scheme.specs.Text.{digits};
ghost use Rattle.scheme.specs.Program.{spaced, refused_line, too_long};
ghost use Rattle.laws.specs.Puts.{puts};
ghost use Rattle.report.specs.Lines.{ok_line, line_of, lines_of, Roots};
ghost use Rattle.report.specs.Paper.{Tells, Reports};

use memory::{Cells, put, put_byte};
use reader::unpack_fully;
use scheme::Refusal;
use store::clear;
use text::{debug_text, put_decimal, width};

// The bytes of a reply at most.
pub const MAX_INPUT: usize = 32768;

// The bytes of a root's text at most, and the cells that it prints at most.
const PAGE_LEN: usize = 8192;

const BUDGET: usize = 1000;

// The bytes of the first line of a report at most, and of a root's line.
pub const FIRST_LINE_LEN: usize = 66;

pub const LINE_LEN: usize = PAGE_LEN + 1;

// The bytes of `too long`.
const TOO_LONG_LEN: usize = 9;

// Writes a number behind a space.
fn put_spaced(out: &mut [u8], at: usize, n: usize) -> usize
    requires { at + (1 + length (digits 20 n)) ≤ length out.old }
    ensures next { result ≡ at + (1 + length (digits 20 n)) }
    ensures put { out.new ≡ puts out.old at (spaced n []) }
{
    let a = put_byte(out, at, b' ');
    put_decimal(out, a, n)
}

// The length of the line of a refusal.
fn refused_len(r: Refusal) -> usize
    ensures { (result ≡ length (refused_line r)) × (result ≤ 50) }
{
    width(r.reason.number() as usize) + width(r.place) + 10
}

// Writes `refused` number place.
fn put_refused(out: &mut [u8], at: usize, r: Refusal) -> usize
    requires { at + length (refused_line r) ≤ length out.old }
    ensures next { result ≡ at + length (refused_line r) }
    ensures put { out.new ≡ puts out.old at (refused_line r) }
{
    let a = put(b"refused", out, at);
    let b = put_spaced(out, a, r.reason.number() as usize);
    let e = put_spaced(out, b, r.place);
    put_byte(out, e, b'\n')
}

// The length of the first line of a bag that is read.
fn ok_len(used: usize, cells: usize, roots: usize) -> usize
    ensures { (result ≡ length (ok_line used cells roots)) × (result ≤ 66) }
{
    width(used) + width(cells) + width(roots) + 6
}

// Writes `ok` used cells roots.
fn put_ok(out: &mut [u8], used: usize, cells: usize, roots: usize) -> usize
    requires { length (ok_line used cells roots) ≤ length out.old }
    ensures next { result ≡ length (ok_line used cells roots) }
    ensures put { out.new ≡ puts out.old 0 (ok_line used cells roots) }
{
    let a = put(b"ok", out, 0);
    let b = put_spaced(out, a, used);
    let d = put_spaced(out, b, cells);
    let e = put_spaced(out, d, roots);
    put_byte(out, e, b'\n')
}

// The length of a root's line.
fn line_len(store: Cells, root: usize, scratch: &mut [u32], page: &mut [u8]) -> usize
    requires bytes_value { (sound store.count store.table.now store.bytes.now ≡ true) × (root < store.count) }
    requires count_in_bounds { (store.count ≤ length scratch.old) × (length page.old ≡ 8192) }
    ensures len { (result ≡ length (line_of store.entry.count store.entry.table.now store.entry.bytes.now root)) × (result ≤ 8193) }
    ensures clean { scratch.new ≡ zeroed scratch.old }
{
    match debug_text(store, root, BUDGET, scratch, page) {
        Ok(p) => p.written + 1,
        Err(r) => refused_len(r),
    }
}

// Writes a root's line.
fn put_line(
    store: Cells,
    root: usize,
    scratch: &mut [u32],
    page: &mut [u8],
    out: &mut [u8],
    at: usize,
) -> usize
    requires bytes_value { (sound store.count store.table.now store.bytes.now ≡ true) × (root < store.count) }
    requires count_in_bounds { (store.count ≤ length scratch.old) × (length page.old ≡ 8192) }
    requires root_in_bounds { at + length (line_of store.count store.table.now store.bytes.now root) ≤ length out.old }
    ensures next { result ≡ at + length (line_of store.entry.count store.entry.table.now store.entry.bytes.now root) }
    ensures put { out.new ≡ puts out.old at (line_of store.entry.count store.entry.table.now store.entry.bytes.now root) }
    ensures clean { scratch.new ≡ zeroed scratch.old }
{
    match debug_text(store, root, BUDGET, scratch, page) {
        Ok(p) => {
            let n = p.written;
            let a = put(&page[..n], out, at);
            put_byte(out, a, b'\n')
        }
        Err(r) => put_refused(out, at, r),
    }
}

// The length of the lines of the first k roots: they are gone through once more to write them, since a report that does not fit writes nothing.
fn lines_len(store: Cells, roots: &[u32], k: usize, scratch: &mut [u32], page: &mut [u8]) -> usize
    requires roots { Roots store.count store.table.now store.bytes.now roots.now k scratch.old }
    requires page_len { length page.old ≡ 8192 }
    ensures len { result ≡ length (lines_of store.entry.count store.entry.table.now store.entry.bytes.now roots.now k) }
    ensures few { result ≤ 8193 * 4096 }
    ensures clean { scratch.new ≡ scratch.old }
{
    let mut total = 0;
    for root in &roots[..k] {
        total += line_len(store, *root as usize, scratch, page);
    }
    total
}

// Writes the lines of the first k roots.
fn put_lines(
    store: Cells,
    roots: &[u32],
    k: usize,
    scratch: &mut [u32],
    page: &mut [u8],
    out: &mut [u8],
    at: usize,
) -> usize
    requires roots { Roots store.count store.table.now store.bytes.now roots.now k scratch.old }
    requires page_len { length page.old ≡ 8192 }
    requires k_in_bounds { at + length (lines_of store.count store.table.now store.bytes.now roots.now k) ≤ length out.old }
    ensures next { result ≡ at + length (lines_of store.entry.count store.entry.table.now store.entry.bytes.now roots.now k) }
    ensures put { out.new ≡ puts out.old at (lines_of store.entry.count store.entry.table.now store.entry.bytes.now roots.now k) }
    ensures clean { scratch.new ≡ scratch.old }
{
    let mut to = at;
    for root in &roots[..k] {
        to = put_line(store, *root as usize, scratch, page, out, to);
    }
    to
}

// The report of a reply that is too long.
fn tell_long(out: &mut [u8]) -> usize
    ensures { Tells too_long out.old result out.new }
{
    if out.len() < TOO_LONG_LEN {
        return TOO_LONG_LEN;
    }
    put(b"too long\n", out, 0)
}

// The report of a read that is refused.
fn tell_refused(r: Refusal, out: &mut [u8]) -> usize
    ensures { Tells (refused_line r) out.old result out.new }
{
    let len = refused_len(r);
    if out.len() < len {
        return len;
    }
    put_refused(out, 0, r)
}

// The report of a bag that is read into the store.
fn tell_bag(
    used: usize,
    cells: usize,
    k: usize,
    store: Cells,
    roots: &[u32],
    scratch: &mut [u32],
    out: &mut [u8],
) -> usize
    requires { Roots store.count store.table.now store.bytes.now roots.now k scratch.old }
    ensures told { Tells (ok_line used cells k ++ lines_of store.entry.count store.entry.table.now store.entry.bytes.now roots.now k)
        out.old result out.new }
    ensures clean { scratch.new ≡ scratch.old }
{
    let mut page = [0u8; PAGE_LEN];
    let first = ok_len(used, cells, k);
    let len = first + lines_len(store, roots, k, scratch, &mut page);
    if out.len() < len {
        return len;
    }
    let at = put_ok(out, used, cells, k);
    put_lines(store, roots, k, scratch, &mut page, out, at)
}

// The report of a reply, which is read into the store once that is cleared: a line of numbers and a line for each root, or why there is none.
// Answers its length, and writes it to the front of out if it fits there. The store's parts stay apart for the reason that stands above
// `store::place`.
pub fn report(
    reply: &[u8],
    count: &mut usize,
    table: &mut [u32],
    bytes: &mut [u8],
    scratch: &mut [u32],
    roots: &mut [u32],
    out: &mut [u8],
) -> usize
    ensures { Reports count.old table.old bytes.old scratch.old roots.old out.old
        reply.now result count.new table.new bytes.new scratch.new roots.new out.new }
{
    if MAX_INPUT < reply.len() {
        scratch.fill(0);
        return tell_long(out);
    }
    // A store that cannot be cleared is refused again by the read.
    let _ = clear(count, table, bytes);
    match unpack_fully(reply, count, table, bytes, scratch, roots) {
        Err(r) => tell_refused(r, out),
        Ok(c) => {
            let store = Cells {
                count: *count,
                table,
                bytes,
            };
            tell_bag(c.used, c.cells, c.roots, store, roots, scratch, out)
        }
    }
}
