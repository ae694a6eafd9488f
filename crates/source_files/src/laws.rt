//! What sources compile to.

ghost use Rattle.std.specs.Prelude.{ℕ, List};
ghost use Rattle.mpy_reader.specs.mpy_tree.Raw.{Module};
ghost use Rattle.mpy_compile.specs.Compiled.{CompilesTo};
ghost use Rattle.library_files.specs.Comes.{IsVerifiedFile};

use mpy_compile::{asked_law, resolved_law, within_law};

/// What a source compiles to is a file of a verified module.
pub fn compiled_law()
    ensures { (level : ℕ) (source stored bytes : List ℕ) → CompilesTo level source stored bytes → (m : Module) × IsVerifiedFile bytes m }
{
    asked_law();
    resolved_law();
    within_law();
    tr_source::compiled_law();
}
