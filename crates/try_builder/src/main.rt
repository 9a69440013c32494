// Runs the builder's steps, at odd places of a byte and with each refusal among them. Each step writes a line: the verdict, the flag,
// the bits, the references in use, all four of them, and all data bytes.
#![tactic(auto)]

use builder::{Built, CellBuilder};
use scheme::{DATA_LEN, Refusal};
use std::io;
use std::io::Write;

fn show_verdict<W: Write>(to: &mut W, verdict: Result<(), Refusal>) -> io::Result<()> {
    match verdict {
        Ok(()) => write!(to, "done"),
        Err(r) => write!(to, "{r}"),
    }
}

// Writes what a step hands back, and takes the builder out for the next one.
fn show_step<W: Write>(to: &mut W, built: Built) -> io::Result<CellBuilder> {
    show_verdict(to, built.verdict)?;
    let builder = built.builder;
    let kind = if builder.exotic { "exotic" } else { "plain" };
    let len = builder.len;
    let count = builder.count;
    write!(to, ": {kind} {len} {count}")?;
    show::numbers(to, &builder.refs)?;
    write!(to, " ")?;
    show::bytes(to, &builder.bytes)?;
    show::end(to)?;
    Ok(builder)
}

// Bits behind bits, at odd places of a byte.
fn try_bits<W: Write>(to: &mut W) -> io::Result<CellBuilder> {
    let none = [0u8; 0];
    let few = [0xb7u8, 0x0f];
    let b = show_step(to, CellBuilder::new(false).write_bits(0, &none))?;
    let b = show_step(to, b.write_bits(3, &few))?;
    let b = show_step(to, b.write_bits(11, &few))?;
    let b = show_step(to, b.repeat_bit(5, false))?;
    let b = show_step(to, b.repeat_bit(9, true))?;
    show_step(to, b.write_bits(16, &few))
}

// The bytes hold fewer bits, or the sum passes 1023; then exactly 1023.
fn try_limits<W: Write>(to: &mut W, b: CellBuilder) -> io::Result<CellBuilder> {
    let few = [0xb7u8, 0x0f];
    let many = [0x5au8; 129];
    let b = show_step(to, b.write_bits(17, &few))?;
    let b = show_step(to, b.write_bits(usize::MAX, &few))?;
    let b = show_step(to, b.write_bits(1032, &many))?;
    let b = show_step(to, b.write_bits(1033, &many))?;
    let b = show_step(to, b.repeat_bit(usize::MAX, true))?;
    let b = show_step(to, b.repeat_bit(980, true))?;
    show_step(to, b.write_bits(979, &many))
}

// No bit more, no bits at all, and CUT before BITS.
fn try_full<W: Write>(to: &mut W, b: CellBuilder) -> io::Result<CellBuilder> {
    let none = [0u8; 0];
    let few = [0xb7u8, 0x0f];
    let b = show_step(to, b.repeat_bit(1, false))?;
    let b = show_step(to, b.repeat_bit(0, true))?;
    let b = show_step(to, b.write_bits(1, &few))?;
    let b = show_step(to, b.write_bits(0, &none))?;
    show_step(to, b.write_bits(17, &few))
}

// Four references, and a fifth.
fn try_references<W: Write>(to: &mut W, b: CellBuilder) -> io::Result<CellBuilder> {
    let b = show_step(to, b.store_reference(7))?;
    let b = show_step(to, b.store_reference(0))?;
    let b = show_step(to, b.store_reference(u32::MAX))?;
    let b = show_step(to, b.store_reference(9))?;
    show_step(to, b.store_reference(10))
}

fn try_chain<W: Write>(to: &mut W) -> io::Result<CellBuilder> {
    let few = [0xb7u8, 0x0f];
    let chained = CellBuilder::new(true)
        .write_bits(3, &few)
        .builder
        .repeat_bit(2, true)
        .builder
        .store_reference(3);
    show_step(to, chained)
}

// Bits past the length stay as they were.
fn try_stale<W: Write>(to: &mut W) -> io::Result<CellBuilder> {
    let few = [0xb7u8, 0x0f];
    let stale = CellBuilder {
        exotic: true,
        len: 5,
        bytes: [0xff; DATA_LEN],
        count: 1,
        refs: [1, 2, 3, 4],
    };
    let b = show_step(to, stale.repeat_bit(7, false))?;
    let b = show_step(to, b.write_bits(4, &few))?;
    show_step(to, b.store_reference(8))
}

// A builder that no steps make.
fn try_odd<W: Write>(to: &mut W) -> io::Result<CellBuilder> {
    let none = [0u8; 0];
    let odd = CellBuilder {
        exotic: false,
        len: usize::MAX,
        bytes: [0; DATA_LEN],
        count: usize::MAX,
        refs: [0; 4],
    };
    let b = show_step(to, odd.write_bits(0, &none))?;
    let b = show_step(to, b.write_bits(1, &none))?;
    let b = show_step(to, b.repeat_bit(usize::MAX, false))?;
    show_step(to, b.store_reference(5))
}

fn main(rt: HostRuntime) -> io::Result<()> {
    let mut to = rt.stdout();
    let b = try_bits(&mut to)?;
    let b = try_limits(&mut to, b)?;
    let b = try_full(&mut to, b)?;
    try_references(&mut to, b)?;
    try_chain(&mut to)?;
    try_stale(&mut to)?;
    try_odd(&mut to)?;
    Ok(())
}
