//! The line of a file that is no translation of its source.

ghost use Rattle.std.specs.Prelude.{◌++◌, codes, decimal};
ghost use Rattle.trans_parts.specs.Names.{name_of};
ghost use Rattle.mpy_endings.specs.Line.{Puts, difference_line};

use crate::ending::Difference;
use crate::line::put_code;
use crate::put::{put_head, put_three, put_two};
use itoa::Buffer;
use mpy_io::{Failed, Sink};
use trans_parts::What;

/// Puts which part of a code it is.
fn put_part<E: Sink>(say: &mut E, what: What) -> Result<(), Failed>
    ensures { Puts (E.told say.old) (E.told say.new) (E.count say.old) (E.count say.new)
        (codes " " ++ name_of what ++ codes " ") result }
{
    put_three(say, b" ", what.name().as_bytes(), b" ")
}

/// Puts a position and ends the line.
fn put_position<E: Sink>(say: &mut E, at: usize) -> Result<(), Failed>
    ensures { Puts (E.told say.old) (E.told say.new) (E.count say.old) (E.count say.new)
        (decimal at ++ codes "\n") result }
{
    let mut digits = Buffer::new();
    put_two(say, digits.format(at).as_bytes(), b"\n")
}

/// Says where the file of this name differs first from its source.
pub(crate) fn say_difference<E: Sink>(
    say: &mut E,
    name: &str,
    difference: &Difference,
) -> Result<(), Failed>
    ensures { Puts (E.told say.old) (E.told say.new) (E.count say.old) (E.count say.new)
        (difference_line name.now difference.now) result }
{
    put_head(say, name, b": differs")?;
    put_code(say, difference.path.as_slice())?;
    put_part(say, difference.what)?;
    put_position(say, difference.at)
}
