//! Why modules can't be merged.

ghost use Rattle.std.specs.Prelude.{◌≡◌};
ghost use Rattle.mpy_merge.specs.Numbers.{number_of, name_of, place_of};

/// The modules of a merge at most.
pub const MAX_PARTS: usize = 1_000;

/// What the modules have too much of.
#[derive(Clone, Copy, Debug, PartialEq, Eq)]
pub enum MergeFault {
    /// There is no module.
    Empty,
    /// Names or objects together.
    TooManyNames,
    /// Modules.
    TooMany,
    /// The module at the place has a code that is too long with its new numbers, or in which an offset fits no form.
    TooFar(usize),
    /// Bytes of the file, or codes in one another.
    TooBig,
}

impl MergeFault {
    /// The number by which a line names the fault.
    pub fn number(self) -> u8
        ensures { result ≡ number_of self }
    {
        match self {
            MergeFault::Empty => 1,
            MergeFault::TooManyNames => 2,
            MergeFault::TooMany => 3,
            MergeFault::TooFar(_) => 4,
            MergeFault::TooBig => 5,
        }
    }

    /// The name by which a line names it.
    pub fn name(self) -> &'static str
        ensures { result.now ≡ name_of self }
    {
        match self {
            MergeFault::Empty => "Empty",
            MergeFault::TooManyNames => "TooManyNames",
            MergeFault::TooMany => "TooMany",
            MergeFault::TooFar(_) => "TooFar",
            MergeFault::TooBig => "TooBig",
        }
    }

    /// The place of the module that it tells, if it tells one.
    pub fn place(self) -> Option<usize>
        ensures { result ≡ place_of self }
    {
        match self {
            MergeFault::TooFar(place) => Some(place),
            MergeFault::Empty | MergeFault::TooManyNames => None,
            MergeFault::TooMany | MergeFault::TooBig => None,
        }
    }
}
