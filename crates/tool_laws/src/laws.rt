//! What lower laws say, in one.

ghost use Rattle.tool_laws.specs.Laws.{FileLaws, ImageLaws, LoadLaws, ManifestLaws, PlanLaws, SourceLaws};
ghost use Rattle.tool_laws.specs.Runs.{RunLaws};

use bc_verify::one_fault;
use board_plan::plan_law;
use frozen_files::compile_law;
use image_freeze::freeze_law;
use image_open::{image_law, over_law};
use library_files::loads_law;
use manifest_files::entries_law;
use meant_commands::{run_law, sources_law};
use mpy_reader::file_law;
use mpy_tree::resolving_law;

/// Bytes are a file of one module or have one fault, and a module is verified or has one first fault.
pub(crate) fn file_laws()
    ensures { FileLaws }
{
    file_law();
    one_fault();
}

/// A module resolves to one tree, and a source compiles to one file or has one first fault.
pub(crate) fn source_laws()
    ensures { SourceLaws }
{
    resolving_law();
    compile_law();
}

/// A manifest has one answer, and modules have one fault for which they have no image.
pub(crate) fn manifest_laws()
    ensures { ManifestLaws }
{
    entries_law();
    freeze_law();
}

/// Over what images are opened as, bytes are opened as one library, or have one first fault.
pub(crate) fn image_laws()
    ensures { ImageLaws }
{
    image_law();
    over_law();
}

/// Lines are one plan or have one fault.
pub(crate) fn plan_laws()
    ensures { PlanLaws }
{
    plan_law();
}

/// A source has one module of one size, and from a main module loading ends in one way.
pub(crate) fn load_laws()
    ensures { LoadLaws }
{
    sources_law();
    loads_law();
}

/// Two whole runs of one library that begin alike end in one way, say the same, and are alike.
pub(crate) fn run_laws()
    ensures { RunLaws }
{
    run_law();
}
