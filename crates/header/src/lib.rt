// The header of a bag up to its first cell: tag, byte 4, off_bytes, counts, total, root list and index, by place.
#![tactic(auto)]

ghost use Rattle.std.specs.Prelude.{◌≡◌};
ghost use Rattle.scheme.specs.Layout.{generic_tag, tag_ok, layout};
ghost use Rattle.header.specs.Header.{layout_of, flags_at, checked_counts, counts_at, places_at, header_at};

use bits::{MAX_WIDTH, read_byte, read_field, skip_bytes, skip_fields};
use scheme::{MAX_CELLS, Reason, Refusal};

const GENERIC_TAG: u64 = 0xb5ee9c72;

const INDEXED_TAG: u64 = 0x68ff65f3;

const INDEXED_CRC_TAG: u64 = 0xacc3a728;
// The bytes of the tag.
const TAG_LEN: usize = 4;
// The bytes of a bag place, at most.
const MAX_SIZE: usize = 4;
// The places of byte 4, of off_bytes and of the counts.
const FLAGS_AT: usize = 4;

const OFF_AT: usize = 5;

const COUNTS_AT: usize = 6;
// Scratch entries for each bag cell.
const SCRATCH_PER_CELL: usize = 2;

// What follows from the tag and byte 4: the bytes of a bag place, whether an index and whether a checksum is there.
#[derive(Clone, Copy, Debug, PartialEq, Eq)]
pub struct Layout {
    pub size: usize,
    pub indexed: bool,
    pub checked: bool,
}

// The layout, and the bytes of an offset.
#[derive(Clone, Copy, Debug, PartialEq, Eq)]
pub struct Flags {
    pub layout: Layout,
    pub off: usize,
}

// How many cells and roots, and the place behind the counts.
#[derive(Clone, Copy, Debug, PartialEq, Eq)]
pub struct Counts {
    pub cells: usize,
    pub roots: usize,
    pub next: usize,
}

// A header: whether a checksum follows the cells, the bytes of a bag place, how many cells and roots, and the places of the
// root list and of the first cell.
#[derive(Clone, Copy, Debug, PartialEq, Eq)]
pub struct Header {
    pub checked: bool,
    pub size: usize,
    pub cells: usize,
    pub roots: usize,
    pub list: usize,
    pub first: usize,
}

// TAG, INDEXED: of the three tags only the generic one is read.
#[tactic(auto, unfolding(scheme::specs::Layout::tag_ok))]
fn check_tag(tag: u64) -> Result<(), Refusal>
    ensures { result ≡ tag_ok tag }
{
    match tag {
        GENERIC_TAG => Ok(()),
        INDEXED_TAG | INDEXED_CRC_TAG => Err(Reason::Indexed.at(0)),
        _ => Err(Reason::Tag.at(0)),
    }
}

// Byte 4 of the generic tag, high bit first: has_idx, has_crc32c, has_cache_bits, two flag bits, three bits size.
#[tactic(auto, unfolding(scheme::specs::Layout::layout))]
fn layout_of(flags: u8) -> Layout
    ensures { result ≡ layout_of (layout generic_tag flags) }
{
    Layout {
        size: usize::from(flags % 8),
        indexed: flags / 128 % 2 == 1,
        checked: flags / 64 % 2 == 1,
    }
}

// Tag, byte 4, off_bytes.
#[tactic(auto, unfolding(crate::specs::Header::flags_at, scheme::specs::Layout::layout))]
fn read_flags(bytes: &[u8]) -> Result<Flags, Refusal>
    ensures { result ≡ flags_at bytes.now }
{
    let (tag, p) = read_field(bytes, 0, TAG_LEN)?;
    check_tag(tag)?;
    let (flags, q) = read_byte(bytes, p)?;
    let layout = layout_of(flags);
    if layout.size > MAX_SIZE {
        return Err(Reason::Size.at(FLAGS_AT));
    }
    let (off, _) = read_byte(bytes, q)?;
    if usize::from(off) > MAX_WIDTH {
        return Err(Reason::Offset.at(OFF_AT));
    }
    Ok(Flags {
        layout,
        off: usize::from(off),
    })
}

// COUNTS, CELLS, SCRATCH, ROOTROOM. roots + absent is tested by a difference, which is exact.
#[tactic(auto, unfolding(crate::specs::Header::checked_counts))]
fn check_counts(
    cells: u64,
    roots: u64,
    absent: u64,
    next: usize,
    scratch: usize,
    rooms: usize,
) -> Result<Counts, Refusal>
    ensures { result ≡ checked_counts cells roots absent next scratch rooms }
{
    if cells < roots || cells - roots < absent {
        return Err(Reason::Counts.at(COUNTS_AT));
    }
    let cells = cells as usize;
    if cells > MAX_CELLS {
        return Err(Reason::Cells.at(COUNTS_AT));
    }
    let need = SCRATCH_PER_CELL * cells;
    if scratch < need {
        return Err(Reason::Scratch.at(need));
    }
    let roots = roots as usize;
    if rooms < roots {
        return Err(Reason::RootRoom.at(roots));
    }
    Ok(Counts { cells, roots, next })
}

// Cells, roots, absent.
#[tactic(auto, unfolding(crate::specs::Header::counts_at))]
fn read_counts(bytes: &[u8], size: usize, scratch: usize, rooms: usize) -> Result<Counts, Refusal>
    ensures { result ≡ counts_at bytes.now size scratch rooms }
{
    let (cells, p) = read_field(bytes, COUNTS_AT, size)?;
    let (roots, q) = read_field(bytes, p, size)?;
    let (absent, next) = read_field(bytes, q, size)?;
    check_counts(cells, roots, absent, next, scratch, rooms)
}

// Total, root list, index: their values are not looked at here.
#[tactic(auto, unfolding(crate::specs::Header::places_at))]
fn read_places(bytes: &[u8], f: Flags, c: Counts) -> Result<Header, Refusal>
    ensures { result ≡ places_at bytes.now f c }
{
    let list = skip_bytes(bytes, c.next, f.off)?;
    let index = skip_fields(bytes, list, f.layout.size, c.roots)?;
    let entries = if f.layout.indexed { c.cells } else { 0 };
    let first = skip_fields(bytes, index, f.off, entries)?;
    Ok(Header {
        checked: f.layout.checked,
        size: f.layout.size,
        cells: c.cells,
        roots: c.roots,
        list,
        first,
    })
}

// The header of a bag, for which `scratch` entries and `rooms` root places are lent.
#[tactic(auto, unfolding(crate::specs::Header::header_at))]
pub fn read_header(bytes: &[u8], scratch: usize, rooms: usize) -> Result<Header, Refusal>
    ensures { result ≡ header_at bytes.now scratch rooms }
{
    let f = read_flags(bytes)?;
    let c = read_counts(bytes, f.layout.size, scratch, rooms)?;
    read_places(bytes, f, c)
}
