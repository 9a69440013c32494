// Whether lent memory is a sound store. Interface between crates: every public call of the library asks it once.
#![tactic(auto)]

ghost use Rattle.std.specs.Prelude.{◌≡◌, ◌+◌, ◌*◌, ◌≤◌, ◌<◌, length};
ghost use Rattle.std.specs.List.{FoldsTo};
ghost use Rattle.scheme.specs.Memory.{all_below, sound_ref, tail_zero, sound_cell, sized, sound};
ghost use Rattle.laws.specs.Records.{unused_in};

use memory::{BITS_LEN, Cells, EXOTIC, FIRST_REF, REFS_COUNT};
use scheme::{DATA_LEN, MAX_BITS_LEN, MAX_CELLS, MAX_REFS_COUNT, RECORD_LEN};
use std::ops::BitOr;

// The numbers joined bit by bit, from 0 on: 0 exactly where all are 0. There is no early way out, so that many are taken at a time.
fn joined<T: Copy + BitOr<T, Output = T>>(xs: &[T], zero: T) -> T
    requires { (a b : _) → T.can_bitor a b }
    ensures { FoldsTo (λ a x b. T.bitor_gives a x b) zero xs.now result }
{
    xs.iter().fold(zero, |any, x| any | *x)
}

// Whether the kth reference of record i is sound: one that is used is below i, another is 0.
#[tactic(auto, unfolding(scheme::specs::Memory::sound_ref))]
fn sound_ref(cells: Cells, i: usize, k: usize) -> bool
    requires { (i * 7 + 7 ≤ length cells.table.now) × (k < 4) }
    ensures { result ≡ sound_ref cells.entry.table.now i k }
{
    let r = cells.field(i, FIRST_REF + k);
    if k < cells.field(i, REFS_COUNT) {
        r < i
    } else {
        r == 0
    }
}

// Whether the references of record i are sound.
fn sound_refs(cells: Cells, i: usize) -> bool
    requires { i * 7 + 7 ≤ length cells.table.now }
    ensures { result ≡ all_below 4 (sound_ref cells.entry.table.now i) }
{
    (0..MAX_REFS_COUNT).all(|k| sound_ref(cells, i, k))
}

// 2 to the number of bits of the last byte that are not used, by the bits that are.
const UNUSED: [u32; 8] = [1, 128, 64, 32, 16, 8, 4, 2];

// The last byte of these bits is a multiple of this when the bits that it does not use are 0. Interface between crates.
pub fn unused_in(bits: usize) -> u32
    ensures { result ≡ unused_in bits }
{
    UNUSED[bits % 8]
}

// Whether a record's data has no bit set past the first bits.
#[tactic(auto, unfolding(scheme::specs::Memory::tail_zero))]
fn tail_zero(block: &[u8], bits: usize) -> bool
    requires { (bits ≤ 1023) × (length block.now ≡ 128) }
    ensures { result ≡ tail_zero bits block.now }
{
    u32::from(block[bits / 8]) % unused_in(bits) == 0 && joined(&block[bits.div_ceil(8)..], 0) == 0
}

// Whether record i is sound by itself.
#[tactic(auto, unfolding(scheme::specs::Memory::sound_cell))]
fn sound_cell(cells: Cells, i: usize) -> bool
    requires { (i * 7 + 7 ≤ length cells.table.now) × (i * 128 + 128 ≤ length cells.bytes.now) }
    ensures { result ≡ sound_cell cells.entry.table.now cells.entry.bytes.now i }
{
    let bits = cells.field(i, BITS_LEN);
    cells.field(i, EXOTIC) <= 1
        && bits <= MAX_BITS_LEN
        && cells.field(i, REFS_COUNT) <= MAX_REFS_COUNT
        && sound_refs(cells, i)
        && tail_zero(cells.data(i), bits)
}

// Whether the first count records are sound.
fn sound_cells(cells: Cells) -> bool
    requires { (cells.count * 7 ≤ length cells.table.now) × (cells.count * 128 ≤ length cells.bytes.now) }
    ensures { result ≡ all_below cells.entry.count (sound_cell cells.entry.table.now cells.entry.bytes.now) }
{
    (0..cells.count).all(|i| sound_cell(cells, i))
}

// Whether the slices have the lengths of a store.
#[tactic(auto, unfolding(scheme::specs::Memory::sized))]
pub fn is_sized(table: &[u32], bytes: &[u8]) -> bool
    ensures { result ≡ sized table.now bytes.now }
{
    let room = table.len() / RECORD_LEN;
    table.len() % RECORD_LEN == 0 && room <= MAX_CELLS && bytes.len() == room * DATA_LEN
}

// Whether this is a sound store. It reads all of them, so its cost grows with the room.
#[tactic(auto, unfolding(scheme::specs::Memory::sound))]
pub fn is_sound(store: Cells) -> bool
    ensures { result ≡ sound store.entry.count store.entry.table.now store.entry.bytes.now }
{
    if !is_sized(store.table, store.bytes) {
        return false;
    }
    if store.count > store.room() {
        return false;
    }
    if !sound_cells(store) {
        return false;
    }
    let row = store.count * RECORD_LEN;
    if joined(&store.table[row..], 0) != 0 {
        return false;
    }
    let from = store.count * DATA_LEN;
    joined(&store.bytes[from..], 0) == 0
}
