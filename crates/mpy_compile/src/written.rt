//! The module of a source may be written, and no jump in it is too far.

ghost use Rattle.std.specs.Prelude.{◌≡◌, ℕ, length};
ghost use Rattle.mpy_base.specs.declared.limits.TheConstants.{MAX_DEPTH};
ghost use Rattle.mpy_writer.specs.mpy_tree.declared.module.ModuleCode.{ModuleCode};
ghost use Rattle.mpy_writer.specs.mpy_tree.File.{IsAscii};
ghost use Rattle.mpy_writer.specs.declared.tables.Tables.{Tables};
ghost use Rattle.mpy_writer.specs.Codes.{codes};
ghost use Rattle.mpy_writer.specs.File.{SomeFar};
ghost use Rattle.mpy_writer.specs.Tables.{TablesFit};
ghost use Rattle.mpy_writer.specs.Writable.{IsShallow, IsWritable};
ghost use Rattle.mpy_compile.specs.Texts.{TextsFit};
ghost use Rattle.emit_module.specs.py_tree.declared.stmt.Module.{Module};
ghost use Rattle.emit_module.specs.py_tree.Formed.{IsFormed};
ghost use Rattle.emit_measures.specs.py_scopes.Scopes.{IsFaultless};
ghost use Rattle.emit_module.specs.py_meaning.Tree.{Name};
ghost use Rattle.emit_module.specs.First.{AreWithin, source_sites};
ghost use Rattle.emit_module.specs.Module.{source_of, IsTranslated};

use crate::within::{module_law, within_law};
use emit_measures::lengths_law;
use emit_module::{limits_law, spelled_law};

/// The module of an accepted source of whose texts none passes a limit is one that may be written, where its stored name is ASCII,
/// no text in it is longer than a file, and its codes nest no deeper than a file's.
pub fn written_law()
    ensures { (file : Name) (level : ℕ) (tree : Module) (whole : ModuleCode) → IsFormed tree → IsFaultless tree → AreWithin (source_of file level tree)
        → IsTranslated (source_of file level tree) whole → IsAscii file → IsShallow MAX_DEPTH whole.code → TextsFit whole → IsWritable whole }
{
    lengths_law();
    within_law();
    module_law();
    spelled_law();
    limits_law();
}

/// No jump of the module of such a source is too far, whatever tables that fit it is written with; and it has a code for each text
/// of the source.
pub fn near_law()
    ensures near { (file : Name) (level : ℕ) (tree : Module) (whole : ModuleCode) → IsFormed tree → IsFaultless tree → AreWithin (source_of file level tree)
        → IsTranslated (source_of file level tree) whole → IsShallow MAX_DEPTH whole.code → (tables : Tables) → TablesFit tables
        → SomeFar tables (codes whole) → ⊥ }
    ensures count { (file : Name) (level : ℕ) (tree : Module) (whole : ModuleCode) → AreWithin (source_of file level tree)
        → IsTranslated (source_of file level tree) whole → IsShallow MAX_DEPTH whole.code
        → length (codes whole) ≡ length (source_sites (source_of file level tree)) }
{
    lengths_law();
    within_law();
    module_law();
    spelled_law();
    limits_law();
}
