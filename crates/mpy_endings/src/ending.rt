//! How a command ended.

ghost use Rattle.std.specs.Prelude.{◌≡◌};
ghost use Rattle.mpy_endings.specs.Ending as spec;
ghost use Rattle.mpy_endings.specs.Ending.{status_of, stop_status};
ghost use Rattle.mpy_endings.specs.Line.{place_in};

use bc_verify::VerifyFault;
use board_plan::PlanFault;
use image_runs::{Limit, MainFault, UnacceptedSource};
use manifest_files::{FrozenFault, SourcesFault};
use mpy_base::{Items, SourceFault, Text};
use mpy_merge::MergeFault;
use mpy_reader::FileFault;
use snap_grammar::SnapFault;
use trans_parts::What;

/// What keeps a file or a source from being run to its end.
#[derive(Debug, Drop)]
pub enum Stop {
    /// Its library passes a limit.
    Past(Limit),
    /// The folder failed to read the file of this name, which may be one of the library.
    LibraryFault(Text),
    /// A source of the library isn't accepted.
    LibraryUnaccepted(UnacceptedSource),
    /// An exception that nothing caught ended the run; its report was said.
    Raised,
    /// A making didn't fit the arena; its line was said.
    Memory,
    /// The run took all its steps, whose number this is, and didn't end.
    Steps(u64),
    /// It took all its steps and didn't end, and its state has no snapshot.
    Unsaved,
    /// It was to go on from a snapshot, and the file of that name is none of a state of the library.
    Unresumed(SnapFault),
}

impl Stop {
    fn status(&self) -> u8
        ensures { result ≡ stop_status self.now }
    {
        match self {
            Stop::Raised => 1,
            Stop::LibraryUnaccepted(_) => 3,
            Stop::Unresumed(_) => 4,
            Stop::Steps(_) => 5,
            Stop::Memory => 6,
            Stop::LibraryFault(_) => 7,
            Stop::Past(_) => 11,
            Stop::Unsaved => 13,
        }
    }
}

/// The status of an image that has no main module.
fn main_status(fault: &MainFault) -> u8
    ensures { result ≡ spec.main_status fault.now }
{
    match fault {
        MainFault::Image(_) => 4,
        MainFault::NoMain(_) => 10,
    }
}

/// The status of a manifest whose sources have no modules.
fn sources_status(fault: &SourcesFault) -> u8
    ensures { result ≡ spec.sources_status fault.now }
{
    match fault {
        SourcesFault::Manifest(_) => 11,
        SourcesFault::Absent(_) => 10,
        SourcesFault::Unaccepted(_, _) => 3,
        SourcesFault::Unread(_) => 7,
    }
}

/// The status of a manifest whose sources have no image.
fn frozen_status(fault: &FrozenFault) -> u8
    ensures { result ≡ spec.frozen_status fault.now }
{
    match fault {
        FrozenFault::Sources(fault) => sources_status(fault),
        FrozenFault::Image(_) => 11,
    }
}

/// What keeps a board from running its plan.
#[derive(Debug, Drop)]
pub enum BoardFault {
    /// The text is no plan.
    Plan(PlanFault),
    /// The image has no module of this name to run, which a task names.
    NoModule(Text),
    /// The folder failed to write the output of the task of this number.
    Unwritten(u32),
}

/// The status of a board that didn't run its plan.
fn board_status(fault: &BoardFault) -> u8
    ensures { result ≡ spec.board_status fault.now }
{
    match fault {
        BoardFault::Plan(_) | BoardFault::NoModule(_) => 11,
        BoardFault::Unwritten(_) => 8,
    }
}

/// Where a file differs first from its source.
#[derive(Debug, Drop)]
pub struct Difference {
    /// The path of the code: 0 for the outermost, and for each level below the place among the children.
    pub path: Items<usize>,
    pub what: What,
    /// The first position where two lists differ, 0 in what is no list.
    pub at: usize,
}

/// How a command ended.
#[derive(Debug, Drop)]
pub enum Ending {
    /// All of it was done.
    Done,
    /// The source isn't accepted.
    Unaccepted(SourceFault),
    /// The file isn't read.
    Unread(FileFault),
    /// The file is read, and its module isn't verified.
    Unverified(VerifyFault),
    /// The modules can't be merged.
    Unmerged(MergeFault),
    /// The image has no main module to run.
    Unopened(MainFault),
    /// There is no image of the manifest's sources.
    Unfrozen(FrozenFault),
    /// The board didn't run its plan.
    Unboarded(BoardFault),
    /// The file is read, the source accepted, and the file is no translation of the source.
    Different(Difference),
    /// The file is verified, or the source accepted, and wasn't run to its end.
    Stopped(Stop),
    /// The folder failed to read the file.
    ReadFault,
    /// The sink failed.
    WriteFault,
    /// The folder failed to write the file.
    Unwritten,
    NoMemory,
    /// The folder has no such file.
    Absent,
}

impl Ending {
    /// The place of the word that the line names, of a command that reads the first named file and writes the second.
    fn place(&self) -> usize
        ensures { result ≡ place_in self.now }
    {
        match self {
            Ending::Unwritten => 2,
            Ending::Done | Ending::Unaccepted(_) | Ending::Unread(_) | Ending::Unverified(_) => 1,
            Ending::Unmerged(_) | Ending::Stopped(_) | Ending::ReadFault => 1,
            Ending::Unopened(_) | Ending::Unfrozen(_) | Ending::Unboarded(_) => 1,
            Ending::Different(_) => 1,
            Ending::WriteFault | Ending::NoMemory | Ending::Absent => 1,
        }
    }

    /// The exit status.
    pub fn status(&self) -> u8
        ensures { result ≡ status_of self.now }
    {
        match self {
            Ending::Done => 0,
            Ending::Unaccepted(_) => 3,
            Ending::Unread(_) | Ending::Unverified(_) => 4,
            Ending::ReadFault => 7,
            Ending::WriteFault | Ending::Unwritten => 8,
            Ending::NoMemory => 9,
            Ending::Absent => 10,
            Ending::Unmerged(_) => 11,
            Ending::Unopened(fault) => main_status(fault),
            Ending::Unfrozen(fault) => frozen_status(fault),
            Ending::Unboarded(fault) => board_status(fault),
            Ending::Different(_) => 12,
            Ending::Stopped(stop) => stop.status(),
        }
    }
}

/// How a command ended, and the place of the word that its line names.
#[derive(Debug, Drop)]
pub struct Ended {
    pub ending: Ending,
    pub place: usize,
}

impl Ended {
    /// How a command ended that reads the first named file and writes the second, and the place of the word that its line names.
    pub fn of_two(ending: Ending) -> Ended
        ensures ending { result.ending ≡ ending }
        ensures place { result.place ≡ place_in ending }
    {
        let place = ending.place();
        Ended { ending, place }
    }
}
