// The pieces of an answer, written to any writer. A program buffers its own.
#![tactic(auto)]

ghost use Rattle.std.specs.Prelude.{OnOk, ◌∷◌, [], false, decimal};
ghost use Rattle.std.specs.Fmt.{digits};
ghost use Rattle.std.specs.Io.KnownBytes.{Appends, Keeps};

use std::io::{self, Write};

pub fn byte<W: Write>(out: &mut W, b: u8) -> io::Result<()>
    ensures { OnOk result (Appends (W.contents out.old) (W.contents out.new) (b ∷ [])) }
{
    out.write_all(&[b])
}

pub fn text<W: Write>(out: &mut W, bytes: &[u8]) -> io::Result<()>
    ensures { OnOk result (Appends (W.contents out.old) (W.contents out.new) bytes.now) }
{
    out.write_all(bytes)
}

pub fn hex<W: Write>(out: &mut W, n: u64) -> io::Result<()>
    ensures { OnOk result (Appends (W.contents out.old) (W.contents out.new) (digits 16 false n)) }
{
    write!(out, "{n:x}")
}

pub fn decimal<W: Write>(out: &mut W, n: u64) -> io::Result<()>
    ensures { OnOk result (Appends (W.contents out.old) (W.contents out.new) (decimal n)) }
{
    write!(out, "{n}")
}

// Writes what waits.
pub fn flush<W: Write>(out: &mut W) -> io::Result<()>
    ensures { Keeps (W.contents out.old) (W.contents out.new) }
{
    out.flush()
}
