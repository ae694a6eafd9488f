//! Orders, and what keeps words from being one.

ghost use Rattle.std.specs.Prelude.{◌≡◌};
ghost use Rattle.mpy_words.specs.Command as spec;

/// What a first word asks for.
#[derive(Clone, Copy, Debug, PartialEq, Eq)]
pub enum Command {
    /// `go SRC`
    Go,
    /// `check FILE`
    Check,
    /// `check SRC FILE`
    CheckAs,
    /// `dump FILE`
    Dump,
    /// `cross SRC FILE`
    Cross,
    /// `merge OUT FILE..`
    Merge,
    /// `freeze MANIFEST OUT`
    Freeze,
    /// `migrate IN OUT`
    Migrate,
    /// `run FILE`
    Run,
    /// `resume FILE SNAP`
    Resume,
    /// `board IMAGE PLAN`
    Board,
    /// `stress SEED COUNT`
    Stress,
}

/// A word that a command names.
#[derive(Clone, Copy, Debug, PartialEq, Eq)]
pub enum Named {
    Source,
    File,
    /// The image that is written once more.
    Input,
    /// The file that is written.
    Output,
    Manifest,
    Image,
    /// The plan of a board.
    Plan,
    /// The snapshot from which a run goes on.
    Snapshot,
    /// The number from which a made source draws its keys and values.
    Seed,
    /// How many assignments it has.
    Count,
}

/// An option, which stands behind the named words with its value.
#[derive(Clone, Copy, Debug, PartialEq, Eq)]
pub enum Setting {
    /// `-O`, the level of optimization.
    Level,
    /// `-s`, the name that a file stores of its source.
    StoredName,
    /// `-m`, the name of the main module of an image.
    MainName,
    /// `--base`, the image on which another one stands.
    Base,
    /// `--save`, the file that a run's state is written to where it takes all its steps.
    Save,
    /// `--cells`, the cells of the arena of a run.
    Cells,
    /// `--bytes`, the bytes of the texts of its arena.
    Bytes,
    /// `--steps`, the steps that a run may take.
    Steps,
}

/// What words order. A named word stands at its place behind the command, so the first one at 1.
#[derive(Clone, Copy, Debug, PartialEq, Eq)]
pub struct Order {
    pub command: Command,
    /// The number from which a made source draws, 0 where the command names none.
    pub seed: u32,
    /// How many assignments it has, 20,000 at most, 0 where the command names none.
    pub count: u32,
    /// The level of optimization, 0 to 3.
    pub level: u8,
    /// The place of the name that the file is to store of its source, where one was given.
    pub stored_name: Option<usize>,
    /// The place of the name of an image's main module, where one was given.
    pub main_name: Option<usize>,
    /// The place of the name of the image that is the base, where one was given.
    pub base: Option<usize>,
    /// The place of the name of the file that a run's state is written to, where one was given.
    pub save: Option<usize>,
    /// The cells of the arena of a run, 4,194,304 at most.
    pub cells: u32,
    /// The bytes of the texts of its arena, 16,777,216 at most.
    pub bytes: u32,
    /// The steps that a run may take, 1,000,000,000,000 at most.
    pub steps: u64,
}

/// Why words are of no order: the first fault from left to right.
#[derive(Clone, Copy, Debug, PartialEq, Eq)]
pub enum WordFault {
    /// There is no word.
    NoCommand,
    /// No command, no option of this command, or a surplus word, by its place.
    Unknown(usize),
    /// A named word isn't there.
    MissingName(Named),
    /// An option's value isn't there.
    MissingValue(Setting),
    /// A word that is to be a number is none, or one outside its bounds, by its place.
    BadNumber(usize),
    /// An option stands a second time.
    Twice(Setting),
}

impl Named {
    /// The name by which a line names the word.
    pub fn name(self) -> &'static str
        ensures { result.now ≡ spec.name_of self }
    {
        match self {
            Named::Source => "SRC",
            Named::File => "FILE",
            Named::Input => "IN",
            Named::Output => "OUT",
            Named::Manifest => "MANIFEST",
            Named::Image => "IMAGE",
            Named::Plan => "PLAN",
            Named::Snapshot => "SNAP",
            Named::Seed => "SEED",
            Named::Count => "COUNT",
        }
    }
}

impl Setting {
    /// The option as it is spelled.
    pub fn spelling(self) -> &'static str
        ensures { result.now ≡ spec.spelling_of self }
    {
        match self {
            Setting::Level => "-O",
            Setting::StoredName => "-s",
            Setting::MainName => "-m",
            Setting::Base => "--base",
            Setting::Save => "--save",
            Setting::Cells => "--cells",
            Setting::Bytes => "--bytes",
            Setting::Steps => "--steps",
        }
    }
}
