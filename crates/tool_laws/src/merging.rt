//! The command that merges files.

ghost use Rattle.std.specs.Prelude.{◌≡◌, ℕ, List, Option, Some};
ghost use Rattle.mpy_io.specs.Files.{FileOf};
ghost use Rattle.mpy_tree.specs.Raw.{Module};
ghost use Rattle.mpy_merge.specs.declared.fault.MergeFault.{MergeFault};
ghost use Rattle.mpy_merge.specs.Faults.{FirstFault};
ghost use Rattle.mpy_merge.specs.Merged.{IsMerged};
ghost use Rattle.meant_commands.specs.file_commands.Merge.{HoldMerged, HoldModules, Merges};
ghost use Rattle.tool_laws.specs.Once.{EndOnce, IsDone};

use crate::laws::file_laws;

/// Modules have one merged file at most, and one first fault.
pub fn merged_law()
    ensures one_file { (modules : List Module) (one other : List ℕ) → IsMerged modules one → IsMerged modules other → one ≡ other }
    ensures one_fault { (modules : List Module) (one other : MergeFault) → FirstFault modules one → FirstFault modules other → one ≡ other }
{}

/// Where a folder tells its files, merging files ends in one way, the merged file is one, and it is written where each is one of a verified
/// module and no fault keeps these from being merged.
pub fn merge_law()
    ensures one_ending { (files : FileOf) (names : List (List ℕ)) (written : List ℕ) (one other : Option FileOf) (place another : ℕ)
        → EndOnce (Merges names written (Some files) one place) (Merges names written (Some files) other another) }
    ensures one_file { (files : FileOf) (names : List (List ℕ)) (one other : List ℕ) → HoldMerged (Some files) names one
        → HoldMerged (Some files) names other → one ≡ other }
    ensures done { (files : FileOf) (names : List (List ℕ)) (written : List ℕ) (modules : List Module) (after : Option FileOf) (place : ℕ)
        → HoldModules (Some files) names modules → ((fault : MergeFault) → FirstFault modules fault → ⊥)
        → IsDone (Merges names written (Some files) after place) }
{
    file_laws();
    merged_law();
}
