//! What is known of a source of which no text passes a limit, and of its module.

ghost use Rattle.std.specs.Prelude.{◌≡◌, ℕ, []};
ghost use Rattle.mpy_writer.specs.mpy_tree.declared.module.ModuleCode.{ModuleCode};
ghost use Rattle.emit_module.specs.py_tree.declared.stmt.Module.{Module};
ghost use Rattle.emit_module.specs.py_tree.Formed.{IsFormed};
ghost use Rattle.emit_measures.specs.py_scopes.Scopes.{IsFaultless};
ghost use Rattle.emit_module.specs.py_meaning.Tree.{Name};
ghost use Rattle.emit_module.specs.First.{AreWithin};
ghost use Rattle.emit_module.specs.Module.{source_of, IsTranslated};
ghost use Rattle.emit_module.specs.bc_resolved.Verified.{IsVerifiedTree};
ghost use Rattle.emit_module.specs.tr_source.Accepted.{IsAccepted};

use emit_measures::within_law as text_law;
use emit_module::{accepted_law, limits_law};

/// A formed and faultless tree of whose texts none passes a limit is one that translations ask for.
pub fn within_law()
    ensures { (file : Name) (level : ℕ) (tree : Module) → IsFormed tree → IsFaultless tree → AreWithin (source_of file level tree) → IsAccepted level tree }
{
    text_law();
    limits_law();
}

/// A source that translations ask for has one module at most, which resolves to a verified tree.
pub fn module_law()
    ensures one { (file : Name) (level : ℕ) (tree : Module) (m n : ModuleCode) → IsAccepted level tree
        → IsTranslated (source_of file level tree) m → IsTranslated (source_of file level tree) n → m ≡ n }
    ensures verified { (file : Name) (level : ℕ) (tree : Module) (m : ModuleCode) → IsAccepted level tree
        → (is : IsTranslated (source_of file level tree) m) → IsVerifiedTree is.resolved }
{
    accepted_law();
}
