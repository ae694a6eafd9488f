//! The merge of modules as a whole, with the faults that keep modules from being merged, in their order.

ghost use Rattle.std.specs.Prelude.{◌≡◌, ◌⊎◌, IfOk, Err};
ghost use Rattle.bc_verify.specs.Verified.{IsVerified};
ghost use Rattle.mpy_writer.specs.mpy_tree.Canonical.{Canonical};
ghost use Rattle.mpy_writer.specs.mpy_tree.File.{IsFile};
ghost use Rattle.mpy_writer.specs.mpy_tree.Raw.{Module};
ghost use Rattle.mpy_merge.specs.AsMerge.{ReadsAsMerge};
ghost use Rattle.mpy_merge.specs.Faults.{FirstFault};
ghost use Rattle.mpy_merge.specs.Merged.{IsMerged};

use crate::fault::MergeFault;
use crate::file::{file_or_fault, modules_law};
use bc_prelude::lines_law;
use bc_verify::Verified;
use mpy_base::Refused;
use std::alloc::Global;
use tr_source::{file_law, merge_law, raw_law, resolves_law, tree_law};

/// The merged file of verified modules, or the fault that comes first.
pub fn merge(alloc: Global, modules: &[Verified]) -> Result<Vec<u8>, Refused<MergeFault>>
    // The file has the modules' codes with their numbers moved below one that calls them in order, and their tables joined.
    ensures merged { IfOk result (λ bytes. IsMerged modules.now bytes.items) }
    ensures canonical { IfOk result (λ bytes. Canonical bytes.items) }

    // It is read as the merge of the modules' trees, and verified.
    ensures reads { IfOk result (λ bytes. ReadsAsMerge modules.now bytes.items) }
    ensures verified { IfOk result (λ bytes. (m : Module) × IsFile bytes.items m × IsVerified m) }

    // A fault comes exactly where it is the first one, unless memory runs out.
    ensures first { (fault : MergeFault) → result ≡ Err (Refused.Fault fault) → FirstFault modules.now fault }
    ensures fault { (fault : MergeFault) → FirstFault modules.now fault
        → (result ≡ Err (Refused.Fault fault)) ⊎ (result ≡ Err Refused.NoMemory) }
{
    lines_law();
    file_law();
    resolves_law();
    tree_law();
    raw_law();
    merge_law();
    modules_law(modules);
    file_or_fault(alloc, modules)
}
