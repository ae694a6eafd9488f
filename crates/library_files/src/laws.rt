//! What holds of every loading.

ghost use Rattle.std.specs.Prelude.{◌≡◌, ℕ, List};
ghost use Rattle.mpy_io.specs.Files.{FileOf};
ghost use Rattle.mpy_reader.specs.mpy_tree.Raw.{Module};
ghost use Rattle.library_files.specs.Loads.{Loading, LoadsFrom};

use crate::imports::imports_law;
use mpy_reader::file_law;

/// From a main module and files of modules loading ends in one way.
pub fn loads_law()
    ensures { (files : FileOf) (base : List ℕ) (main : Module) (size : ℕ) (some other : Loading)
        → LoadsFrom files base main size some → LoadsFrom files base main size other → some ≡ other }
{
    imports_law();
    file_law();
}
