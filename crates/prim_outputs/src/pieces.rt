//! Pieces of a report, written on a sink one after another.

ghost use Rattle.std.specs.Prelude.{◌<◌, All};
ghost use Rattle.std.specs.Fmt.{decimal, signed_decimal};
ghost use Rattle.prim_builtins.specs.prim_walks.Pens.{Wrote};

use itoa::Buffer;
use prim_walks::Pen;

/// Writes a piece.
#[tactic(auto, using(prim_walks::proofs::PenSteps::wrote_piece))]
pub(crate) fn write<P: Pen>(pen: &mut P, piece: &[u8])
    requires ascii { All (λ b. b < 128) piece.now }
    ensures { Wrote P.Takes pen.old piece.now pen.new }
{
    pen.put(piece)
}

/// Writes a small number.
pub(crate) fn write_small<P: Pen>(pen: &mut P, n: i32)
    ensures { Wrote P.Takes pen.old (signed_decimal n) pen.new }
{
    let mut buffer = Buffer::new();
    write(pen, buffer.format(n).as_bytes())
}

/// Writes a number.
pub(crate) fn write_number<P: Pen>(pen: &mut P, n: u64)
    ensures { Wrote P.Takes pen.old (decimal n) pen.new }
{
    let mut buffer = Buffer::new();
    write(pen, buffer.format(n).as_bytes())
}
