//! The translation of sources into modules, and the merge of modules.
#![tactic(auto)]

ghost use Rattle.std.specs.Prelude.{◌≡◌, List};
ghost use Rattle.bc_machine.specs.mpy_tree.Resolved.{ResolvedModule};
ghost use Rattle.bc_scheme.specs.Merge.{merge_of};

pub use py_meaning::{params_law, slots_law};

/// A merge has the name of its first module's source.
pub fn merge_law()
    ensures { (m : ResolvedModule) (ms : List ResolvedModule) → (merge_of m ms).source ≡ m.source }
{}
