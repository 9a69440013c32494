// A cell in the making. Each step takes the builder by value and hands it back with the verdict, unchanged on refusal.
#![tactic(auto)]

ghost use Rattle.std.specs.Prelude.{◌≡◌, ℕ, List, ◌+◌, ◌*◌, ◌/◌, ◌^◌, ◌<◌, ◌≤◌, leb, length, get_or, set, Ok, Err};
ghost use Rattle.scheme.specs.Bits.{bit_of, bits_of};
ghost use Rattle.scheme.specs.Builder.{new_builder, put_bits, with_bits, appended, repeated, referred};
ghost use Rattle.scheme.specs.Res.{refusal};
ghost use Rattle.builder.specs.Paper.{builder_of, Yields, Builds};

use scheme::{DATA_LEN, MAX_BITS_LEN, MAX_REFS_COUNT, Reason, Refusal};

// Bits past `len`, the high one of a byte first, and references past `count` may be anything. Arrays with a length beside them: there is no heap.
#[derive(Clone, Copy, Debug, PartialEq, Eq)]
pub struct CellBuilder {
    pub exotic: bool,
    pub len: usize,
    pub bytes: [u8; DATA_LEN],
    pub count: usize,
    pub refs: [u32; MAX_REFS_COUNT],
}

// What a step hands back: the builder on refusal too, which a Result alone would lose, so that a chain goes on.
#[derive(Clone, Copy, Debug, PartialEq, Eq)]
pub struct Built {
    pub builder: CellBuilder,
    pub verdict: Result<(), Refusal>,
}

// Whether n bits more stay within the limit, by the exact sum: len + n may pass the largest number.
fn bits_fit(len: usize, n: usize) -> bool
    ensures { result ≡ leb (len + n) 1023 }
{
    len <= MAX_BITS_LEN && n <= MAX_BITS_LEN - len
}

// Bit k of a byte, the high one first, alone.
fn mask(k: usize) -> u8
    requires { k < 8 }
    ensures { result ≡ 128 / 2 ^ k }
{
    128 >> k
}

// Bit i of the bytes.
fn bit_at(from: &[u8], i: usize) -> bool
    requires { i < 8 * length from.now }
    ensures { bit_of result ≡ get_or (bits_of from.now) i 0 }
{
    from[i / 8] & mask(i % 8) != 0
}

// Puts a bit at bit `at` of the bytes.
fn write_bit(bytes: &mut [u8], at: usize, bit: bool)
    requires { at < 8 * length bytes.old }
    ensures { bits_of bytes.new ≡ set (bits_of bytes.old) at (bit_of bit) }
{
    let m = mask(at % 8);
    if bit {
        bytes[at / 8] |= m;
    } else {
        bytes[at / 8] &= !m;
    }
}

// Puts n bits in from bit `at` on: bit i of them is `bit(i)`.
fn write_all<F: Fn(usize) -> bool>(bytes: &mut [u8], at: usize, n: usize, bit: F)
    requires bytes_len { length bytes.old ≡ 128 }
    requires n_bound { at + n ≤ 1023 }
    requires asked { (i : ℕ) → i < n → F.pre bit i }
    ensures { (xs : List ℕ) → length xs ≡ n → Yields (F.post bit) xs → bytes.new ≡ put_bits bytes.old at xs }
{
    for i in 0..n {
        write_bit(bytes, at + i, bit(i));
    }
}

impl CellBuilder {
    // An empty cell. The Rust marks an empty builder as exotic; here the flag is given at the start.
    pub fn new(exotic: bool) -> Self
        ensures { builder_of result ≡ new_builder exotic }
    {
        Self {
            exotic,
            len: 0,
            bytes: [0u8; DATA_LEN],
            count: 0,
            refs: [0u32; MAX_REFS_COUNT],
        }
    }

    // Appends the first n bits of `from`.
    #[tactic(auto, unfolding(scheme::specs::Builder::appended))]
    pub fn write_bits(self, n: usize, from: &[u8]) -> Built
        ensures { Builds (builder_of self) (appended (builder_of self) n from.now) result }
    {
        if from.len() < n.div_ceil(8) {
            return self.refused(Reason::Cut);
        }
        if !bits_fit(self.len, n) {
            return self.refused(Reason::Bits);
        }
        self.with_bits(n, |i| bit_at(from, i))
    }

    // Appends a bit n times.
    #[tactic(auto, unfolding(scheme::specs::Builder::repeated))]
    pub fn repeat_bit(self, n: usize, bit: bool) -> Built
        ensures { Builds (builder_of self) (repeated (builder_of self) n bit) result }
    {
        if !bits_fit(self.len, n) {
            return self.refused(Reason::Bits);
        }
        self.with_bits(n, |_| bit)
    }

    // Appends a reference: the number of a cell.
    #[tactic(auto, unfolding(scheme::specs::Builder::referred))]
    pub fn store_reference(self, r: u32) -> Built
        ensures { Builds (builder_of self) (referred (builder_of self) r) result }
    {
        let count = self.count;
        if count >= MAX_REFS_COUNT {
            return self.refused(Reason::Refs);
        }
        let mut refs = self.refs;
        refs[count] = r;
        Built {
            builder: Self {
                count: count + 1,
                refs,
                ..self
            },
            verdict: Ok(()),
        }
    }

    // Handed back as it is.
    fn refused(self, reason: Reason) -> Built
        ensures { Builds (builder_of self) (Err (refusal reason 0)) result }
    {
        Built {
            builder: self,
            verdict: Err(reason.at(0)),
        }
    }

    // With n bits more: bit i of them is `bit(i)`.
    fn with_bits<F: Fn(usize) -> bool>(self, n: usize, bit: F) -> Built
        requires n_bound { self.len + n ≤ 1023 }
        requires asked { (i : ℕ) → i < n → F.pre bit i }
        ensures { (xs : List ℕ) → length xs ≡ n → Yields (F.post bit) xs → Builds (builder_of self) (Ok (with_bits (builder_of self) n xs)) result }
    {
        let mut bytes = self.bytes;
        write_all(&mut bytes, self.len, n, bit);
        Built {
            builder: Self {
                len: self.len + n,
                bytes,
                ..self
            },
            verdict: Ok(()),
        }
    }
}
