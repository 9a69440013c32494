// One cell of a bag by place: descriptors, hashes, data, references. Nothing is copied while a bag is looked at.
#![tactic(auto)]

ghost use Rattle.std.specs.Prelude.{◌≡◌, ◌+◌, ◌-◌, ◌*◌, ◌/◌, ◌^◌, ◌≤◌, length};
ghost use Rattle.scheme.specs.Bits.{zeros};
ghost use Rattle.scheme.specs.Bag.{hashes};
ghost use Rattle.raw_cell.specs.Frame.{data_at, body_at, frame};
ghost use Rattle.raw_cell.specs.Block.{block_at};

use bits::{read_byte, skip_bytes, skip_fields};
use memory::put;
use scheme::{MAX_REFS_COUNT, Reason, Refusal};

// Bits of a byte.
const BYTE_BITS: usize = 8;
// A hash and a depth, of which a cell with hashes has one more than its level has ones.
const HASH_LEN: usize = 34;

// A cell: its flag, how many references, how many bits, and the places of its data, of its references and behind it.
#[derive(Clone, Copy, Debug, PartialEq, Eq)]
pub struct RawCell {
    pub exotic: u8,
    pub refs: u8,
    pub bits: usize,
    pub body: usize,
    pub links: usize,
    pub next: usize,
}

// The zeros behind the last 1 bit of a byte.
fn padding_bits(b: u8) -> usize
    ensures { result ≡ zeros 8 b }
{
    b.trailing_zeros() as usize
}

// The bits of the data at `at`, and the place behind it. With d2 odd its last byte ends in a 1 bit and zeros, which are no data.
#[tactic(auto, unfolding(crate::specs::Frame::data_at, crate::specs::Frame::bits_in))]
fn read_data(bytes: &[u8], at: usize, d2: u8) -> Result<(usize, usize), Refusal>
    ensures { result ≡ data_at bytes.now at d2 }
{
    let n = (usize::from(d2) + 1) / 2;
    let next = skip_bytes(bytes, at, n)?;
    if d2 % 2 != 1 {
        return Ok((BYTE_BITS * n, next));
    }
    let last = bytes[next - 1];
    if last == 0 {
        return Err(Reason::Padding.at(at));
    }
    Ok((BYTE_BITS * n - 1 - padding_bits(last), next))
}

// The bytes of hashes that d1 says.
fn hash_bytes(d1: u8) -> usize
    ensures { result ≡ hashes d1 }
{
    if d1 / 16 % 2 != 1 {
        return 0;
    }
    let ones = d1 / 32 % 2 + d1 / 64 % 2 + d1 / 128 % 2;
    HASH_LEN * (usize::from(ones) + 1)
}

// What follows d1 and d2: hashes, data, references.
#[tactic(auto, unfolding(crate::specs::Frame::body_at))]
fn read_body(bytes: &[u8], size: usize, d1: u8, d2: u8, at: usize) -> Result<RawCell, Refusal>
    ensures { result ≡ body_at bytes.now size d1 d2 at }
{
    let body = skip_bytes(bytes, at, hash_bytes(d1))?;
    let (bits, links) = read_data(bytes, body, d2)?;
    let next = skip_fields(bytes, links, size, usize::from(d1 % 8))?;
    Ok(RawCell {
        exotic: d1 / 8 % 2,
        refs: d1 % 8,
        bits,
        body,
        links,
        next,
    })
}

// The cell at `at`, in a bag whose references take `size` bytes.
#[tactic(auto, unfolding(crate::specs::Frame::frame))]
pub fn raw_cell(bytes: &[u8], at: usize, size: usize) -> Result<RawCell, Refusal>
    ensures { result ≡ frame bytes.now size at }
{
    let (d1, p) = read_byte(bytes, at)?;
    if usize::from(d1 % 8) > MAX_REFS_COUNT {
        return Err(Reason::Refs.at(at));
    }
    let (d2, q) = read_byte(bytes, p)?;
    read_body(bytes, size, d1, d2, q)
}

// The first r bits of a byte, and 0 behind them.
fn first_bits(b: u8, r: usize) -> u8
    requires { (1 ≤ r) × (r ≤ 7) }
    ensures { result ≡ b / 2 ^ (8 - r) * 2 ^ (8 - r) }
{
    let unit: u8 = 1 << (BYTE_BITS - r);
    b / unit * unit
}

// Interface between crates. The first `bits` bits at `at` into a block of 128 bytes, which is 0 behind them.
pub fn copy_data(bytes: &[u8], at: usize, bits: usize, out: &mut [u8])
    requires bits_bound { bits ≤ 1023 }
    requires bits_in_bounds { at + (bits + 7) / 8 ≤ length bytes.now }
    requires out_len { length out.old ≡ 128 }
    ensures { out.new ≡ block_at bytes.now at bits }
{
    out.fill(0);
    let end = at + (bits + 7) / BYTE_BITS;
    put(&bytes[at..end], out, 0);
    let r = bits % BYTE_BITS;
    if r > 0 {
        let last = bits / BYTE_BITS;
        out[last] = first_bits(out[last], r);
    }
}
