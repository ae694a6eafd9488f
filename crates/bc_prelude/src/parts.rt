//! The parts of a code's own bytes.

ghost use Rattle.std.specs.Prelude.{◌≡◌, ℕ, ◌≤◌, List, length, slice_index};
ghost use Rattle.bc_prelude.specs.declared.prelude.Prelude.{Prelude};
ghost use Rattle.bc_prelude.specs.Names.{AreNames};
ghost use Rattle.bc_prelude.specs.Prelude.{Begins, HasParts};

use crate::prelude::{Prelude, read_prelude};
use mpy_base::read_vuint;

/// What the own bytes of a code are made of.
#[derive(Clone, Copy, Debug)]
pub struct Parts<'a> {
    pub prelude: Prelude,
    /// The indexes of the code's name and of its arguments, as they are spelled.
    pub names: &'a [u8],
    /// The table of lines.
    pub lines: &'a [u8],
    pub instructions: &'a [u8],
}

/// The parts of bytes that begin with a prelude.
pub fn parts_of(code: &[u8]) -> Parts<'_>
    requires { (prelude : Prelude) × Begins code.now prelude }
    ensures { HasParts code.now result.prelude result.names.now result.lines.now result.instructions.now }
{
    let Ok(prelude) = read_prelude(code) else {
        unreachable!();
    };
    let (front, instructions) = code.split_at(prelude.code_at);
    let (front, lines) = front.split_at(prelude.lines_at);
    let (_, names) = front.split_at(prelude.info_at);
    Parts {
        prelude,
        names,
        lines,
        instructions,
    }
}

/// The first of the indexes that are spelled, which is that of a code's name.
pub fn first_index(names: &[u8]) -> u32
    requires { (indexes : List ℕ) × AreNames indexes names.now × (1 ≤ length indexes) }
    ensures { (indexes : List ℕ) → AreNames indexes names.now → result ≡ slice_index indexes 0 }
{
    let Ok((index, _)) = read_vuint(names, 0) else {
        unreachable!();
    };
    index
}
