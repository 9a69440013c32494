// What the C interface hands over, in the library's terms: a flag, and a cell from numbers and slices.
#![tactic(auto)]

ghost use Rattle.std.specs.Prelude.{◌≡◌, ◌*◌, not, eqb, leb};
ghost use Rattle.builder.specs.Paper.{builder_of};
ghost use Rattle.wire.specs.Wire.{fit, wire_cell};

use builder::CellBuilder;

// Any flag but 0 is set: flags are numbers in C.
pub fn is_set(flag: u32) -> bool
    ensures { result ≡ not (eqb flag 0) }
{
    flag != 0
}

// Whether this many bytes hold the bits: 8 * len may pass the largest number.
pub fn holds(len: usize, bits: usize) -> bool
    ensures { result ≡ leb bits (8 * len) }
{
    bits.div_ceil(8) <= len
}

// The first N elements, with `lacking` for each that is not there.
fn fit<T: Copy, const N: usize>(xs: &[T], lacking: T) -> [T; N]
    ensures { result ≡ fit N lacking xs.now }
{
    let mut fitted = [lacking; N];
    let n = xs.len().min(N);
    fitted[..n].copy_from_slice(&xs[..n]);
    fitted
}

// The cell of this flag, of the first bits of these bytes and of these references. Their number is handed on also where it is more than 4.
#[tactic(auto, unfolding(crate::specs::Wire::wire_cell))]
pub fn wire_cell(flag: u32, bits: usize, own: &[u8], refs: &[u32]) -> CellBuilder
    ensures { builder_of result ≡ wire_cell flag bits own.now refs.now }
{
    CellBuilder {
        exotic: is_set(flag),
        len: bits,
        bytes: fit(own, 0),
        count: refs.len(),
        refs: fit(refs, 0),
    }
}
