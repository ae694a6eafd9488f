//! A run doesn't depend on the slots and handler entries that codes have room for, and more of them keep a module verified.
#![tactic(auto)]

ghost use Rattle.std.specs.Prelude.{◌≡◌, ◌≤◌, ℕ, List, Option};
ghost use Rattle.tr_source.specs.mpy_base.World.{PortState};
ghost use Rattle.tr_source.specs.bc_scheme.mpy_tree.Raw as raw;
ghost use Rattle.tr_source.specs.bc_scheme.mpy_tree.Resolved.{ResolvedModule, Resolves};
ghost use Rattle.bc_resolved.specs.bc_progress.bc_flow.Code as flow;
ghost use Rattle.bc_resolved.specs.bc_progress.bc_flow.Verified.{Verified};
ghost use Rattle.tr_source.specs.bc_scheme.bc_machine.Library.{Name, module_of};
ghost use Rattle.tr_source.specs.bc_scheme.bc_machine.Machine.{run};
ghost use Rattle.bc_resolved.specs.bc_verify.Verified.{IsVerified};
ghost use Rattle.bc_resolved.specs.Verified.{IsVerifiedTree};
ghost use Rattle.tr_source.specs.py_tree.declared.stmt.Module.{Module};
ghost use Rattle.tr_source.specs.bc_scheme.Translation.{Translates};
ghost use Rattle.tr_source.specs.Accepted.{source_of, IsAccepted};
ghost use Rattle.trans_parts.specs.Comparing.{FitsTree};
ghost use Rattle.trans_laws.specs.Alike.{AlikeModule, AllAlike, library_of};

use bc_resolved::raw_law;
use tr_source::accepted_law;

/// Modules that are the same but for the slots and handler entries of their codes are one module to the machine, and libraries of
/// such run alike. So are a module and one that fits it.
pub fn alike_law()
    ensures modules { (a b : ResolvedModule) → AlikeModule a b → module_of a ≡ module_of b }
    ensures fits { (a b : ResolvedModule) → a.source ≡ b.source → FitsTree a.code b.code → AlikeModule a b }
    ensures runs { (first second : List (Name × Option ResolvedModule)) → AllAlike first second
        → (name : Name) (cells bytes : ℕ) (ports : List PortState) (n : ℕ)
        → run (library_of first) name cells bytes ports n ≡ run (library_of second) name cells bytes ports n }
{}

/// A code that is verified stays so with room for more slots and more handler entries.
pub fn flow_law()
    ensures { (code : flow.Code) (n_state n_exc : ℕ) → code.n_state ≤ n_state → code.n_exc ≤ n_exc → Verified code
        → Verified (record code { n_state = n_state; n_exc = n_exc }) }
{}

/// A tree that fits a verified one, so that it has no fewer slots and handler entries and is otherwise the same, is verified.
pub fn fits_law()
    ensures { (a b : ResolvedModule) → FitsTree a.code b.code → IsVerifiedTree a → IsVerifiedTree b }
{
    flow_law();
}

/// A module that fits the translation of an accepted source is verified.
pub fn fitting_law()
    ensures { (file : Name) (level : ℕ) (tree : Module) (want have : ResolvedModule) (held : raw.Module) → IsAccepted level tree
        → Translates (source_of file level tree) want → FitsTree want.code have.code → Resolves held have → IsVerified held }
{
    fits_law();
    accepted_law();
    raw_law();
}
