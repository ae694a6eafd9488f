//! Commands that read one file, or a source.

ghost use Rattle.std.specs.Prelude.{◌≡◌, ℕ, List, Option, Some};
ghost use Rattle.mpy_base.specs.declared.source.SourceFault.{SourceFault};
ghost use Rattle.mpy_io.specs.Files.{FileOf};
ghost use Rattle.command_files.specs.mpy_compile.Compiled.{IsFault};
ghost use Rattle.mpy_endings.specs.declared.ending.Ending.TheVariants.{Done};
ghost use Rattle.meant_commands.specs.file_commands.Check.{Checks, HoldsVerified};
ghost use Rattle.meant_commands.specs.file_commands.CheckAs.{ChecksAs, HoldsTranslation};
ghost use Rattle.meant_commands.specs.file_commands.Cross.{Crosses, HoldsCompiled};
ghost use Rattle.meant_commands.specs.file_commands.Dump.{Dumps, HoldsListed};
ghost use Rattle.tool_laws.specs.Once.{EndOnce, IsDone};

use crate::laws::{file_laws, source_laws};
use mpy_dump::listing_law;

/// Where a folder tells its files, checking a file ends in one way and prints one text, and is done where the file is one of a verified
/// module.
pub fn check_law()
    ensures one_ending { (files : FileOf) (name : List ℕ) (before behind printed after : Option (List ℕ))
        → EndOnce (λ ending. Checks (Some files) name ending before behind) (λ ending. Checks (Some files) name ending printed after) }
    ensures one_text { (files : FileOf) (name printed : List ℕ) (one other : Option (List ℕ))
        → Checks (Some files) name Done (Some printed) one → Checks (Some files) name Done (Some printed) other → one ≡ other }
    ensures done { (files : FileOf) (name : List ℕ) (count : ℕ) (before after : Option (List ℕ)) → HoldsVerified (Some files) name count
        → IsDone (λ ending. Checks (Some files) name ending before after) }
{
    file_laws();
}

/// Where a folder tells its files, listing a file ends in one way and prints one text, and is done where the file is one of a module.
pub fn dump_law()
    ensures one_ending { (files : FileOf) (name : List ℕ) (before behind printed after : Option (List ℕ))
        → EndOnce (λ ending. Dumps (Some files) name ending before behind) (λ ending. Dumps (Some files) name ending printed after) }
    ensures one_text { (files : FileOf) (name printed : List ℕ) (one other : Option (List ℕ))
        → Dumps (Some files) name Done (Some printed) one → Dumps (Some files) name Done (Some printed) other → one ≡ other }
    ensures done { (files : FileOf) (name text : List ℕ) (before after : Option (List ℕ)) → HoldsListed (Some files) name text
        → IsDone (λ ending. Dumps (Some files) name ending before after) }
{
    file_laws();
    listing_law();
}

/// Where a folder tells its files, comparing a file with a source ends in one way, and is done where the file is a translation of it.
pub fn check_as_law()
    ensures one_ending { (level : ℕ) (files : FileOf) (source file : List ℕ) (before behind printed after : Option (List ℕ)) (place another : ℕ)
        → EndOnce (ChecksAs level (Some files) source file before behind place) (ChecksAs level (Some files) source file printed after another) }
    ensures done { (level : ℕ) (files : FileOf) (source file : List ℕ) (count : ℕ) (before behind : Option (List ℕ)) (place : ℕ)
        → HoldsTranslation level (Some files) source file count → IsDone (ChecksAs level (Some files) source file before behind place) }
{
    file_laws();
    source_laws();
}

/// Where a folder tells its files, writing a source's file ends in one way, the file is one, and it is written where the source compiles to it,
/// and where the source has no fault.
pub fn cross_law()
    ensures one_ending { (level : ℕ) (files : FileOf) (name stored written : List ℕ) (one other : Option FileOf)
        → EndOnce (Crosses level name stored written (Some files) one) (Crosses level name stored written (Some files) other) }
    ensures one_file { (level : ℕ) (files : FileOf) (name stored one other : List ℕ) → HoldsCompiled level (Some files) name stored one
        → HoldsCompiled level (Some files) name stored other → one ≡ other }
    ensures done { (level : ℕ) (files : FileOf) (name stored written bytes : List ℕ) (after : Option FileOf)
        → HoldsCompiled level (Some files) name stored bytes → IsDone (Crosses level name stored written (Some files) after) }
    ensures accepted { (level : ℕ) (files : FileOf) (name stored source written : List ℕ) (after : Option FileOf) → files name ≡ Some source
        → ((fault : SourceFault) → IsFault level source stored fault → ⊥) → IsDone (Crosses level name stored written (Some files) after) }
{
    source_laws();
}
