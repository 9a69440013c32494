// Big-endian fields at a place of the bytes of a bag. A field that is not whole is refused with CUT at its first byte.
#![tactic(auto)]

ghost use Rattle.std.specs.Prelude.{◌≡◌, ◌+◌, ◌≤◌, length, take, drop};
ghost use Rattle.scheme.specs.Bytes.{unbe};
ghost use Rattle.bits.specs.Field.{field_at, byte_at, skip_at, skip_fields_at};

use scheme::{Reason, Refusal};

// The bytes of the widest number.
pub const MAX_WIDTH: usize = 8;

// The n bytes at `at`, big-endian.
fn big_endian(bytes: &[u8], at: usize, n: usize) -> u64
    requires { (at + n ≤ length bytes.now) × (n ≤ 8) }
    ensures { result ≡ unbe 0 (take n (drop at bytes.now)) }
{
    let mut value = 0;
    for i in 0..n {
        value = value * 256 + u64::from(bytes[at + i]);
    }
    value
}

// The number of the n bytes at `at`, of more than eight bytes that of the last eight, and the place behind it.
pub fn read_field(bytes: &[u8], at: usize, n: usize) -> Result<(u64, usize), Refusal>
    ensures { result ≡ field_at bytes.now at n }
{
    let next = skip_bytes(bytes, at, n)?;
    let len = n.min(MAX_WIDTH);
    Ok((big_endian(bytes, next - len, len), next))
}

// One byte, and the place behind it.
pub fn read_byte(bytes: &[u8], at: usize) -> Result<(u8, usize), Refusal>
    ensures { result ≡ byte_at bytes.now at }
{
    if at < bytes.len() {
        Ok((bytes[at], at + 1))
    } else {
        Err(Reason::Cut.at(at))
    }
}

// The place behind n bytes, which are one field.
pub fn skip_bytes(bytes: &[u8], at: usize, n: usize) -> Result<usize, Refusal>
    ensures { result ≡ skip_at bytes.now at n }
{
    if at <= bytes.len() && n <= bytes.len() - at {
        Ok(at + n)
    } else {
        Err(Reason::Cut.at(at))
    }
}

// The place behind `count` fields of `width` bytes: CUT is at the first one that is not whole.
pub fn skip_fields(bytes: &[u8], at: usize, width: usize, count: usize) -> Result<usize, Refusal>
    ensures { result ≡ skip_fields_at bytes.now width count at }
{
    let mut place = at;
    for _ in 0..count {
        place = skip_bytes(bytes, place, width)?;
    }
    Ok(place)
}
