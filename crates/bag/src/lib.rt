// The bytes of a bag: header, cells, checksum, links and roots, in the order of a read. Nothing is stored: each cell's place is left in the scratch.
#![tactic(auto)]

ghost use Rattle.std.specs.Prelude.{◌≡◌, ℕ, ◌+◌, ◌*◌, ◌^◌, ◌≤◌, ◌<◌, length, take, drop, get_or};
ghost use Rattle.scheme.specs.Bytes.{unle};
ghost use Rattle.scheme.specs.Bag.{checksum, refs_ok, links, roots_ok};
ghost use Rattle.bits.specs.Field.{numbers_at};
ghost use Rattle.laws.specs.Puts.{puts};
ghost use Rattle.bag.specs.Links.{link_ok, root_ok, extra_ok, AreTested};
ghost use Rattle.bag.specs.Places.{IsCell, cell_at, cells_at, places, scanned};
ghost use Rattle.bag.specs.Paper.{after_scan, OpensCells, Opens};

use bits::{read_field, skip_bytes};
use crc32c::crc32c;
use header::{Header, read_header};
use raw_cell::raw_cell;
use scheme::{Reason, Refusal};

// Bytes of the checksum.
const CRC_LEN: usize = 4;

// The four bytes at `at`, little-endian.
fn little_endian(bytes: &[u8], at: usize) -> u32
    requires { at + 4 ≤ length bytes.now }
    ensures { result ≡ unle (take 4 (drop at bytes.now)) }
{
    u32::from_le_bytes([bytes[at], bytes[at + 1], bytes[at + 2], bytes[at + 3]])
}

// The checksum of all bytes before `at`, if the bag has one: the place behind it.
#[tactic(auto, using(crate::proofs::CrcLaws::crc_at))]
fn check_crc(bytes: &[u8], checked: bool, at: usize) -> Result<usize, Refusal>
    ensures { result ≡ checksum checked bytes.now at }
{
    if !checked {
        return Ok(at);
    }
    let next = skip_bytes(bytes, at, CRC_LEN)?;
    if little_endian(bytes, at) != crc32c(&bytes[..at]) {
        return Err(Reason::Crc.at(at));
    }
    Ok(next)
}

// Where the whole reply is to be the bag, no byte remains behind it.
fn check_extra(whole: bool, end: usize, len: usize) -> Result<(), Refusal>
    ensures { result ≡ extra_ok whole end len }
{
    if whole && end < len {
        return Err(Reason::Extra.at(end));
    }
    Ok(())
}

// One reference v of the cell at bag place i.
#[tactic(auto, unfolding(crate::specs::Links::link_ok))]
fn check_link(cells: usize, i: usize, v: u64) -> Result<(), Refusal>
    ensures { result ≡ link_ok i cells v }
{
    if v as usize <= i {
        return Err(Reason::Back.at(i));
    }
    if cells <= v as usize {
        return Err(Reason::Range.at(i));
    }
    Ok(())
}

// Root k of the list, v.
fn check_root(cells: usize, k: usize, v: u64) -> Result<(), Refusal>
    ensures { result ≡ root_ok cells k v }
{
    if cells <= v as usize {
        return Err(Reason::Root.at(k));
    }
    Ok(())
}

// The `count` numbers at `at`, each with its place in the list: the first that the test refuses is the answer.
fn check_numbers<F: Fn(usize, u64) -> Result<(), Refusal>>(
    bytes: &[u8],
    size: usize,
    at: usize,
    count: usize,
    test: F,
) -> Result<(), Refusal>
    requires size_bound { (size ≤ 4) × (at + count * size ≤ length bytes.now) }
    requires callable { F.IsAlwaysCallable test }
    ensures { AreTested (F.post test) (numbers_at bytes.now size count at) result }
{
    let mut place = at;
    for k in 0..count {
        let (v, next) = read_field(bytes, place, size)?;
        test(k, v)?;
        place = next;
    }
    Ok(())
}

// Reads the cells, and leaves each one's place in the scratch. A place fits an entry: a cell takes at most 282 bytes.
fn scan_cells(bytes: &[u8], h: Header, scratch: &mut [u32]) -> Result<usize, Refusal>
    requires { (h.size ≤ 4) × (h.first + 300 * h.cells < 2 ^ 32) × (h.cells ≤ length scratch.old) }
    ensures result_value { result ≡ scanned bytes.now h.size h.cells h.first }
    ensures scratch_after { scratch.new ≡ puts scratch.old 0 (places bytes.now h.size h.cells h.first) }
{
    let mut place = h.first;
    for i in 0..h.cells {
        scratch[i] = place as u32;
        place = raw_cell(bytes, place, h.size)?.next;
    }
    Ok(place)
}

// The references of the cell at bag place i, whose bytes start at `place`.
fn check_cell(bytes: &[u8], h: Header, i: usize, place: u32) -> Result<(), Refusal>
    requires { (h.size ≤ 4) × IsCell bytes.now h.size place }
    ensures { result ≡ refs_ok i h.cells (cell_at bytes.now h.size place).refs }
{
    let f = raw_cell(bytes, place as usize, h.size)?;
    check_numbers(bytes, h.size, f.links, usize::from(f.refs), |_, v| {
        check_link(h.cells, i, v)
    })
}

// The references of all cells, from the last cell to the first; the scratch begins with the cells' places.
fn check_links(bytes: &[u8], h: Header, scratch: &[u32]) -> Result<(), Refusal>
    requires size_bound { (h.size ≤ 4) × (h.cells ≤ length scratch.now) }
    requires by_index { (k : ℕ) → k < h.cells → IsCell bytes.now h.size (get_or scratch.now k 0) }
    ensures { result ≡ links 0 h.cells (cells_at bytes.now h.size (take h.cells scratch.now)) }
{
    for i in (0..h.cells).rev() {
        check_cell(bytes, h, i, scratch[i])?;
    }
    Ok(())
}

// The roots, in list order.
fn check_roots(bytes: &[u8], h: Header) -> Result<(), Refusal>
    requires { (h.size ≤ 4) × (h.list + h.roots * h.size ≤ length bytes.now) }
    ensures { result ≡ roots_ok 0 h.cells (numbers_at bytes.now h.size h.roots h.list) }
{
    check_numbers(bytes, h.size, h.list, h.roots, |k, v| {
        check_root(h.cells, k, v)
    })
}

// A bag that is opened: the bytes of a bag place, how many cells and roots, the place of the root list, and the bytes used.
#[derive(Clone, Copy, Debug, PartialEq, Eq)]
pub struct OpenBag {
    pub size: usize,
    pub cells: usize,
    pub roots: usize,
    pub list: usize,
    pub used: usize,
}

// What follows the cells: checksum, EXTRA, links, roots; the scratch begins with the cells' places.
#[tactic(auto, unfolding(crate::specs::Paper::after_scan))]
fn after_scan(
    reply: &[u8],
    whole: bool,
    h: Header,
    at: usize,
    scratch: &[u32],
) -> Result<OpenBag, Refusal>
    requires size_bound { (h.size ≤ 4) × (h.cells ≤ length scratch.now) × (h.list + h.roots * h.size ≤ length reply.now) }
    requires by_index { (k : ℕ) → k < h.cells → IsCell reply.now h.size (get_or scratch.now k 0) }
    ensures { result ≡ after_scan reply.now whole h scratch.now at }
{
    let used = check_crc(reply, h.checked, at)?;
    check_extra(whole, used, reply.len())?;
    check_links(reply, h, scratch)?;
    check_roots(reply, h)?;
    Ok(OpenBag {
        size: h.size,
        cells: h.cells,
        roots: h.roots,
        list: h.list,
        used,
    })
}

// The cells and what follows them.
#[tactic(auto, unfolding(crate::specs::Paper::opening_cells, crate::specs::Paper::marks))]
fn open_cells(reply: &[u8], whole: bool, h: Header, scratch: &mut [u32]) -> Result<OpenBag, Refusal>
    requires size_bound { (h.size ≤ 4) × (h.cells ≤ 4096) × (h.first < 2 ^ 20) × (h.cells ≤ length scratch.old) }
    requires size_in_bounds { h.list + h.roots * h.size ≤ length reply.now }
    ensures { OpensCells reply.now whole h scratch.old result scratch.new }
{
    let at = scan_cells(reply, h, scratch)?;
    after_scan(reply, whole, h, at, scratch)
}

// The bytes of a bag, for which `rooms` root places are lent; each cell's place is left in the scratch. Interface between crates.
#[tactic(auto, unfolding(crate::specs::Paper::opening, crate::specs::Paper::marked))]
pub fn open_bag(
    reply: &[u8],
    whole: bool,
    rooms: usize,
    scratch: &mut [u32],
) -> Result<OpenBag, Refusal>
    ensures { Opens reply.now whole rooms scratch.old result scratch.new }
{
    let h = read_header(reply, scratch.len(), rooms)?;
    open_cells(reply, whole, h, scratch)
}
