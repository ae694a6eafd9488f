//! Files of units, and the libraries that they load to.

ghost use Rattle.std.specs.Prelude.{ℕ, List, length};
ghost use Rattle.meant_runs.specs.mpy_io.Files.{FileOf};
ghost use Rattle.tr_source.specs.bc_scheme.mpy_tree.File.{IsFile};
ghost use Rattle.tr_source.specs.bc_scheme.mpy_tree.Raw.{Module};
ghost use Rattle.bc_resolved.specs.bc_verify.Verified.{IsVerified};
ghost use Rattle.image_open.specs.bc_library.Shelf.{Shelf};
ghost use Rattle.tr_source.specs.bc_scheme.py_meaning.Program.{Unit, Program};
ghost use Rattle.frozen_files.specs.library_files.Loads.{Loaded, LoadsFrom};
ghost use Rattle.meant_runs.specs.Units.{IsUnitFile, AreUnits};
ghost use Rattle.meant_files.specs.Built.{IsBuilt, IsBuiltProgram};

use crate::units::{checked_law, crossed_law, merged_law};
use bc_resolved::{file_law as texts_law, raw_law, resolves_law, tree_law};
use mpy_reader::file_law;
use tr_source::merge_law;

/// What is made of a unit, by compiling and merging, or is a translation of its source, is a file of the unit, and verified, so that
/// nothing that reads and verifies files refuses it.
pub fn made_law()
    ensures file { (unit : Unit) (bytes : List ℕ) → IsBuilt unit bytes → (m : Module) × IsFile bytes m }
    ensures verified { (unit : Unit) (bytes : List ℕ) (m : Module) → IsBuilt unit bytes → IsFile bytes m → IsVerified m }
    ensures unit { (unit : Unit) (bytes : List ℕ) (m : Module) → IsBuilt unit bytes → IsFile bytes m → IsUnitFile unit m }
{
    resolves_law();
    texts_law();
    tree_law();
    raw_law();
    merge_law();
    file_law();
    crossed_law();
    checked_law();
    merged_law();
}

/// The library that such files load to has the units of the program that they are made of.
pub fn built_law()
    ensures { (files : FileOf) (base bytes : List ℕ) (main : Module) (shelf : Shelf) (program : Program) → IsFile bytes main
        → LoadsFrom files base main (length bytes) (Loaded shelf) → IsBuiltProgram files base bytes shelf program → AreUnits program shelf }
{
    made_law();
}
