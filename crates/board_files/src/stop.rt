//! What keeps a plan from being run.

use mpy_base::Text;
use std::alloc::AllocError;

/// Why a plan wasn't run.
#[derive(Debug, Drop)]
pub enum BoardStop {
    /// The library lacks or refuses this module, which a task is to run.
    NoModule(Text),
    /// The folder failed to write the output of the task of this number.
    Unwritten(u32),
    /// The sink of the summary failed.
    WriteFault,
    NoMemory,
}

/// Why the output of tasks isn't in their files.
#[derive(Clone, Copy, Debug, PartialEq, Eq)]
pub(crate) enum OutputStop {
    /// The folder failed to write the output of the task of this number.
    Unwritten(u32),
    NoMemory,
}

/// Why the summary wasn't put.
#[derive(Clone, Copy, Debug, PartialEq, Eq)]
pub(crate) enum SummaryStop {
    /// The sink failed.
    WriteFault,
    NoMemory,
}

impl From<AllocError> for OutputStop {
    ghost use Rattle.std.specs.Prelude.{◌≡◌};
    ghost use Rattle.board_files.specs.declared.stop.OutputStop.TheVariants as stops;

    ghost from_gives = { λ _ e. e ≡ stops.NoMemory };

    fn from(_error: AllocError) -> OutputStop {
        OutputStop::NoMemory
    }
}
