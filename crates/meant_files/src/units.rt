//! Files of units, as they are compiled and merged.

ghost use Rattle.std.specs.Prelude.{ℕ, List};
ghost use Rattle.tr_source.specs.bc_scheme.mpy_tree.File.{IsFile};
ghost use Rattle.tr_source.specs.bc_scheme.mpy_tree.Raw.{Module};
ghost use Rattle.bc_resolved.specs.bc_verify.Verified.{IsVerified};
ghost use Rattle.tr_source.specs.bc_scheme.py_meaning.Program.{Source, Single, Merge, Units};
ghost use Rattle.frozen_files.specs.mpy_compile.Compiled.{CompilesTo};
ghost use Rattle.frozen_files.specs.mpy_compile.Checked.{IsTranslation};
ghost use Rattle.frozen_files.specs.mpy_merge.AsMerge.{ReadsAsMerge};
ghost use Rattle.meant_runs.specs.Units.{IsUnitFile, AreUnitFiles};
ghost use Rattle.meant_files.specs.Readings.{IsReading};

use bc_resolved::resolves_law;
use frozen_files::{resolved_law, within_law};
use meant_runs::fitting_law;
use mpy_reader::file_law;
use py_source::{accepted_law, asked_law};
use tr_source::compiled_law;

/// What a source compiles to under a stored name is a file, and one of the unit that the source is read as. Its module is
/// verified, so that nothing that reads and verifies files refuses it.
pub fn crossed_law()
    ensures reading { (level : ℕ) (text stored bytes : List ℕ) → CompilesTo level text stored bytes
        → (source : Source) × IsReading level text stored source }
    ensures file { (level : ℕ) (text stored bytes : List ℕ) → CompilesTo level text stored bytes → (m : Module) × IsFile bytes m }
    ensures verified { (level : ℕ) (text stored bytes : List ℕ) (m : Module) → CompilesTo level text stored bytes → IsFile bytes m
        → IsVerified m }
    ensures unit { (level : ℕ) (text stored bytes : List ℕ) (source : Source) (m : Module) → CompilesTo level text stored bytes
        → IsReading level text stored source → IsFile bytes m → IsUnitFile (Single source) m }
{
    file_law();
    resolved_law();
    accepted_law();
    asked_law();
    within_law();
    compiled_law();
}

/// A file that is a translation of a source, whoever made it, is one of the unit that the source is read as under the name that the
/// file stores. Its module is verified.
pub fn checked_law()
    ensures reading { (level : ℕ) (text bytes : List ℕ) (t : IsTranslation level text bytes)
        → (source : Source) × IsReading level text t.have.source source }
    ensures file { (level : ℕ) (text bytes : List ℕ) → IsTranslation level text bytes → (m : Module) × IsFile bytes m }
    ensures verified { (level : ℕ) (text bytes : List ℕ) (m : Module) → IsTranslation level text bytes → IsFile bytes m → IsVerified m }
    ensures unit { (level : ℕ) (text bytes : List ℕ) (t : IsTranslation level text bytes) (source : Source) (m : Module)
        → IsReading level text t.have.source source → IsFile bytes m → IsUnitFile (Single source) m }
{
    file_law();
    resolved_law();
    resolves_law();
    accepted_law();
    asked_law();
    within_law();
    compiled_law();
    fitting_law();
}

/// What is read as the merge of units' files is a file of the merged unit. The units may be merges themselves.
pub fn merged_law()
    ensures { (units : Units) (files : List Module) (bytes : List ℕ) (m : Module) → AreUnitFiles units files
        → ReadsAsMerge files bytes → IsFile bytes m → IsUnitFile (Merge units) m }
{
    file_law();
    resolves_law();
}
