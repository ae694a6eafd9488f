//! The numbers among the named words, and the options that were given.

ghost use Rattle.std.specs.Prelude.{◌≡◌, ◌<◌, ℕ, IfSome};
ghost use Rattle.mpy_words.specs.Given as spec;
ghost use Rattle.mpy_words.specs.Given.{IsBounded};

use crate::number::number;
use crate::order::{Command, Named, Order, Setting};

/// The greatest level of optimization.
const MAX_LEVEL: u64 = 3;

/// The greatest room of an arena, and the room of a run that gives none.
pub const MAX_CELLS: u64 = 4_194_304;

/// The greatest bytes of its texts.
pub const MAX_BYTES: u64 = 16_777_216;

const DEFAULT_CELLS: u32 = 65_536;

const DEFAULT_BYTES: u32 = 262_144;

/// The greatest count of steps, and that of a run that gives none.
pub const MAX_STEPS: u64 = 1_000_000_000_000;

const DEFAULT_STEPS: u64 = 10_000_000;

const MAX_SEED: u64 = 4_294_967_295;

/// The greatest count of assignments of a made source.
pub const MAX_COUNT: u64 = 20_000;

/// The numbers that were named, and the values of the options that were given: numbers, and the places of words.
#[derive(Clone, Copy, Debug, PartialEq, Eq)]
pub struct Given {
    pub seed: Option<u32>,
    pub count: Option<u32>,
    pub level: Option<u8>,
    pub stored_name: Option<usize>,
    pub main_name: Option<usize>,
    pub base: Option<usize>,
    pub save: Option<usize>,
    pub cells: Option<u32>,
    pub bytes: Option<u32>,
    pub steps: Option<u64>,
}

impl Given {
    /// No number and no option.
    pub(crate) fn none() -> Given
        ensures { result ≡ spec.none_given }
    {
        Given {
            seed: None,
            count: None,
            level: None,
            stored_name: None,
            main_name: None,
            base: None,
            save: None,
            cells: None,
            bytes: None,
            steps: None,
        }
    }

    /// Was this option given?
    pub(crate) fn has(self, setting: Setting) -> bool
        ensures { result ≡ spec.is_given self setting }
    {
        match setting {
            Setting::Level => self.level.is_some(),
            Setting::StoredName => self.stored_name.is_some(),
            Setting::MainName => self.main_name.is_some(),
            Setting::Base => self.base.is_some(),
            Setting::Save => self.save.is_some(),
            Setting::Cells => self.cells.is_some(),
            Setting::Bytes => self.bytes.is_some(),
            Setting::Steps => self.steps.is_some(),
        }
    }

    /// What is given with one more of the named words; none where that is no number and is to be one.
    pub(crate) fn with_name(self, named: Named, word: &[u8]) -> Option<Given>
        ensures numbers { result ≡ spec.with_name self named word.now }
        ensures bounded { (count : ℕ) → IsBounded count self → IfSome result (IsBounded count) }
    {
        match named {
            Named::Source | Named::File | Named::Input | Named::Output => Some(self),
            Named::Manifest | Named::Image | Named::Plan | Named::Snapshot => Some(self),
            Named::Seed => match number(MAX_SEED, word) {
                Some(seed) => Some(Given {
                    seed: Some(seed as u32),
                    ..self
                }),
                None => None,
            },
            Named::Count => match number(MAX_COUNT, word) {
                Some(count) => Some(Given {
                    count: Some(count as u32),
                    ..self
                }),
                None => None,
            },
        }
    }

    /// The options with one more, whose value is the word at this place; none where that is no number that it takes.
    pub(crate) fn with(self, setting: Setting, at: usize, word: &[u8]) -> Option<Given>
        ensures options { result ≡ spec.with_option self setting at word.now }
        ensures bounded { (count : ℕ) → IsBounded count self → at < count → IfSome result (IsBounded count) }
    {
        match setting {
            Setting::Level => match number(MAX_LEVEL, word) {
                Some(level) => Some(Given {
                    level: Some(level as u8),
                    ..self
                }),
                None => None,
            },
            Setting::StoredName => Some(Given {
                stored_name: Some(at),
                ..self
            }),
            Setting::MainName => Some(Given {
                main_name: Some(at),
                ..self
            }),
            Setting::Base => Some(Given {
                base: Some(at),
                ..self
            }),
            Setting::Save => Some(Given {
                save: Some(at),
                ..self
            }),
            Setting::Cells => match number(MAX_CELLS, word) {
                Some(cells) => Some(Given {
                    cells: Some(cells as u32),
                    ..self
                }),
                None => None,
            },
            Setting::Bytes => match number(MAX_BYTES, word) {
                Some(bytes) => Some(Given {
                    bytes: Some(bytes as u32),
                    ..self
                }),
                None => None,
            },
            Setting::Steps => match number(MAX_STEPS, word) {
                Some(steps) => Some(Given {
                    steps: Some(steps),
                    ..self
                }),
                None => None,
            },
        }
    }

    /// What these options order of a command.
    pub(crate) fn order(self, command: Command) -> Order
        ensures { result ≡ spec.order_with command self }
    {
        Order {
            command,
            seed: self.seed.unwrap_or(0),
            count: self.count.unwrap_or(0),
            level: self.level.unwrap_or(0),
            stored_name: self.stored_name,
            main_name: self.main_name,
            base: self.base,
            save: self.save,
            cells: self.cells.unwrap_or(DEFAULT_CELLS),
            bytes: self.bytes.unwrap_or(DEFAULT_BYTES),
            steps: self.steps.unwrap_or(DEFAULT_STEPS),
        }
    }
}
