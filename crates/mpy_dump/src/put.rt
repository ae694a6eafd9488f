//! Pieces that are put one behind another.

ghost use Rattle.std.specs.Prelude.{◌≡◌, ◌++◌, codes};
ghost use Rattle.std.specs.List.{flat_map};
ghost use Rattle.mpy_dump.specs.Puts.{Puts};

use itoa::{Buffer, Integer};
use mpy_io::{Failed, Sink};

/// Puts a piece.
pub(crate) fn put<S: Sink>(out: &mut S, piece: &[u8]) -> Result<(), Failed>
    ensures { Puts S.told S.count out.old out.new piece.now result }
{
    out.put(piece)
}

/// Puts pieces, and stops where a put fails.
pub(crate) fn put_all<S: Sink>(out: &mut S, pieces: &[&[u8]]) -> Result<(), Failed>
    ensures { Puts S.told S.count out.old out.new (flat_map (λ piece. piece.now) pieces.now) result }
{
    for piece in pieces {
        put(out, piece)?;
    }
    Ok(())
}

/// The digits of a number, behind a minus where it is below 0.
pub(crate) fn digits<I: Integer>(buffer: &mut Buffer, n: I) -> &[u8]
    ensures { result.now ≡ I.text n }
{
    buffer.format(n).as_bytes()
}

/// Puts a blank and a number.
pub(crate) fn put_number<S: Sink, I: Integer>(out: &mut S, n: I) -> Result<(), Failed>
    ensures { Puts S.told S.count out.old out.new (codes " " ++ I.text n) result }
{
    let mut buffer = Buffer::new();
    put_all(out, &[b" ", digits(&mut buffer, n)])
}
