//! Copies of codes, with those in them.

ghost use Rattle.std.specs.Prelude.{◌≡◌, ℕ, List, IfOk};
ghost use Rattle.image_grammar.specs.mpy_tree.File.{IsCode};

use mpy_base::{Items, NoMemory, Text};
use mpy_tree::RawCode;
use std::alloc::Global;

/// A copy of a code and of those in it, of at most `levels` levels.
pub(crate) fn copy_code(alloc: Global, code: &RawCode, levels: usize) -> Result<RawCode, NoMemory>
    requires { (texts : ℕ) × (text : List ℕ) × IsCode levels texts text code.now }
    ensures { IfOk result (λ copy. copy ≡ code.now) }
{
    let bytes = Text::new(alloc, code.bytes.bytes())?;
    let mut children = Items::new(alloc);
    for child in code.children.as_slice() {
        children.push(copy_code(alloc, child, levels - 1)?)?;
    }
    Ok(RawCode { bytes, children })
}
