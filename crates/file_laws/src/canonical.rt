//! Canonical files, of which a module has one.

ghost use Rattle.std.specs.Prelude.{◌≡◌, List, ℕ};
ghost use Rattle.mpy_writer.specs.mpy_tree.declared.module.ModuleCode.{ModuleCode};
ghost use Rattle.mpy_writer.specs.mpy_tree.Resolved.{ResolvedModule, Reads, ReadsAs};
ghost use Rattle.mpy_writer.specs.File.{IsWritten};
ghost use Rattle.file_laws.specs.Canonical.{IsCanonical};

use mpy_reader::file_law;
use mpy_tree::resolving_law;
use mpy_writer::write_law;

/// Two canonical files that are read as one module are equal.
pub fn canonical_law()
    ensures one { (a b : List ℕ) (tree : ResolvedModule) → IsCanonical a → IsCanonical b → Reads a tree → Reads b tree → a ≡ b }

    // What is written of a module is canonical.
    ensures written { (whole : ModuleCode) (bytes : List ℕ) → IsWritten whole bytes → ReadsAs bytes whole → IsCanonical bytes }

    // So a canonical file that is read as a module is what is written of it.
    ensures only { (whole : ModuleCode) (bytes : List ℕ) → IsCanonical bytes → ReadsAs bytes whole → IsWritten whole bytes }
{
    file_law();
    resolving_law();
    write_law();
}
