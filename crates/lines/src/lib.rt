// The lines that the programs write: names, numbers, and the sum of a pool's words, by which a refusal is seen to leave them.
#![tactic(auto)]

ghost use Rattle.std.specs.Prelude.{OnOk, false, decimal, ◌∷◌};
ghost use Rattle.std.specs.Fmt.{digits};
ghost use Rattle.std.specs.List.{flat_map};
ghost use Rattle.std.specs.Io.KnownBytes.{Appends};

use std::io::{self, Write};

// `text` of trace_output, so that a program of lines needs this crate alone.
pub fn text<W: Write>(out: &mut W, bytes: &[u8]) -> io::Result<()>
    ensures { OnOk result (Appends (W.contents out.old) (W.contents out.new) bytes.now) }
{
    trace_output::text(out, bytes)
}

// In hexadecimal.
pub fn number<W: Write>(out: &mut W, n: u64) -> io::Result<()>
    ensures { OnOk result (Appends (W.contents out.old) (W.contents out.new) (32 ∷ digits 16 false n)) }
{
    write!(out, " {n:x}")
}

pub fn numbers<W: Write>(out: &mut W, values: &[u64]) -> io::Result<()>
    ensures { OnOk result (Appends (W.contents out.old) (W.contents out.new) (flat_map (λ n. 32 ∷ digits 16 false n) values.now)) }
{
    for value in values {
        number(out, *value)?;
    }
    Ok(())
}

// In decimal, as refusal numbers are.
pub fn code<W: Write>(out: &mut W, n: u64) -> io::Result<()>
    ensures { OnOk result (Appends (W.contents out.old) (W.contents out.new) (32 ∷ decimal n)) }
{
    write!(out, " {n}")
}

pub fn sum(pool: &[u64]) -> u64 {
    pool.iter()
        .fold(0, |total: u64, word| total.wrapping_add(*word))
}
