//! An accepted source keeps what translations ask of it.

ghost use Rattle.std.specs.Prelude.{◌≡◌, ℕ, []};
ghost use Rattle.emit_measures.specs.bc_scheme.mpy_tree.Raw as raw;
ghost use Rattle.emit_measures.specs.bc_scheme.mpy_tree.Resolved.{ResolvedModule, Resolves};
ghost use Rattle.py_meaning.specs.py_tree.declared.stmt.Module.{Module};
ghost use Rattle.emit_measures.specs.bc_scheme.py_meaning.Tree.{Name};
ghost use Rattle.emit_measures.specs.bc_scheme.py_meaning.Program.{Unit, source_texts};
ghost use Rattle.emit_measures.specs.bc_scheme.Link.{IsModuleOf};
ghost use Rattle.emit_measures.specs.bc_scheme.Translation.{Translates};
ghost use Rattle.bc_resolved.specs.bc_verify.Verified.{IsVerified};
ghost use Rattle.bc_resolved.specs.Verified.{IsVerifiedTree};
ghost use Rattle.tr_source.specs.Limits.{SourceLimited};
ghost use Rattle.tr_source.specs.Numbered.{SourceNumbered};
ghost use Rattle.tr_source.specs.Within.{AllWithin};
ghost use Rattle.tr_source.specs.Accepted.{source_of, IsAccepted};
ghost use Rattle.tr_source.specs.Units.{IsAcceptedUnit};

use crate::verified::{merge_law, unique_law, verified_law};
use bc_resolved::raw_law;
use py_meaning::{numbers_law, params_law};

/// An accepted source keeps the limits under every name, and wherever its codes begin. Its functions have numbers of their own.
pub fn limits_law()
    ensures within { (file : Name) (level base : ℕ) (tree : Module) → IsAccepted level tree
        → AllWithin (source_texts file (source_of file level tree) base) }
    ensures named { (file : Name) (level base : ℕ) (tree : Module) → AllWithin (source_texts file (source_of file level tree) base)
        → AllWithin (source_texts [] (source_of [] level tree) 0) }
    ensures limited { (file : Name) (level : ℕ) (tree : Module) → IsAccepted level tree → SourceLimited (source_of file level tree) }
    ensures numbered { (file : Name) (level : ℕ) (tree : Module) → IsAccepted level tree → SourceNumbered (source_of file level tree) }
{
    numbers_law();
    params_law();
}

/// A translation of an accepted source is verified, and there is one at most.
pub fn accepted_law()
    ensures verified { (file : Name) (level : ℕ) (tree : Module) (m : ResolvedModule) → IsAccepted level tree
        → Translates (source_of file level tree) m → IsVerifiedTree m }
    ensures one { (file : Name) (level : ℕ) (tree : Module) (m n : ResolvedModule) → IsAccepted level tree
        → Translates (source_of file level tree) m → Translates (source_of file level tree) n → m ≡ n }
{
    limits_law();
    verified_law();
    unique_law();
}

/// The module of a unit of accepted sources, merged or not, is verified, and there is one at most.
pub fn unit_law()
    ensures verified { (unit : Unit) (m : ResolvedModule) → IsAcceptedUnit unit → IsModuleOf unit m → IsVerifiedTree m }
    ensures one { (unit : Unit) (m n : ResolvedModule) → IsAcceptedUnit unit → IsModuleOf unit m → IsModuleOf unit n → m ≡ n }
{
    accepted_law();
    merge_law();
}

/// What a file holds of a translation of an accepted source is verified.
pub fn compiled_law()
    ensures file { (file : Name) (level : ℕ) (tree : Module) (m : ResolvedModule) (held : raw.Module) → IsAccepted level tree
        → Translates (source_of file level tree) m → Resolves held m → IsVerified held }
{
    accepted_law();
    raw_law();
}
