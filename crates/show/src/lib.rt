// What the programs of the gate print.
#![tactic(auto)]

ghost use Rattle.std.specs.Prelude.{[], ◌∷◌, ◌++◌, codes, OnOk};
ghost use Rattle.std.specs.Io.KnownBytes.{Appends};
ghost use Rattle.std.specs.Fmt.{decimal};
ghost use Rattle.std.specs.List.{flat_map};
ghost use Rattle.scheme.specs.Refusals.{refused_text};
ghost use Rattle.show.specs.Shown.{spaced, hex};

use scheme::Refusal;
use std::io;
use std::io::Write;

pub fn text<W: Write>(to: &mut W, bytes: &[u8]) -> io::Result<()>
    ensures { OnOk result (Appends (W.contents to.old) (W.contents to.new) bytes.now) }
{
    to.write_all(bytes)
}

// The end of a line.
pub fn end<W: Write>(to: &mut W) -> io::Result<()>
    ensures { OnOk result (Appends (W.contents to.old) (W.contents to.new) (10 ∷ [])) }
{
    text(to, b"\n")
}

pub fn number<W: Write>(to: &mut W, n: usize) -> io::Result<()>
    ensures { OnOk result (Appends (W.contents to.old) (W.contents to.new) (decimal n)) }
{
    write!(to, "{n}")
}

// A number behind a space.
pub fn spaced<W: Write>(to: &mut W, n: usize) -> io::Result<()>
    ensures { OnOk result (Appends (W.contents to.old) (W.contents to.new) (spaced n)) }
{
    write!(to, " {n}")
}

// Each number behind a space.
pub fn numbers<W: Write>(to: &mut W, xs: &[u32]) -> io::Result<()>
    ensures { OnOk result (Appends (W.contents to.old) (W.contents to.new) (flat_map spaced xs.now)) }
{
    for x in xs {
        write!(to, " {x}")?;
    }
    Ok(())
}

// Bytes in hexadecimal.
pub fn bytes<W: Write>(to: &mut W, xs: &[u8]) -> io::Result<()>
    ensures { OnOk result (Appends (W.contents to.old) (W.contents to.new) (flat_map (hex 2) xs.now)) }
{
    for b in xs {
        write!(to, "{b:02x}")?;
    }
    Ok(())
}

// Four bytes in hexadecimal, the high one first.
pub fn word<W: Write>(to: &mut W, n: u32) -> io::Result<()>
    ensures { OnOk result (Appends (W.contents to.old) (W.contents to.new) (hex 8 n)) }
{
    write!(to, "{n:08x}")
}

// `refused` number place.
pub fn refused<W: Write>(to: &mut W, r: Refusal) -> io::Result<()>
    ensures { OnOk result (Appends (W.contents to.old) (W.contents to.new) (refused_text r)) }
{
    write!(to, "{r}")
}
