//! What slots are, and what is asked of them.

/// The kind of a slot.
#[derive(Clone, Copy, Debug, PartialEq, Eq)]
pub enum Kind {
    Value,
    /// Why a finally handler was entered: nothing, an exception, a return or a jump.
    Cause,
    /// None or an entered exception: it may stand for a value and for a cause.
    Either,
    /// The four slots of an iterator, the lowest first.
    Iter1,
    Iter2,
    Iter3,
    Iter4,
    Null,
    /// The upper slot of a method that was looked up.
    Method,
}

/// What an instruction asks of a slot.
#[derive(Clone, Copy, Debug, PartialEq, Eq)]
pub enum Want {
    Value,
    Cause,
    /// What may be thrown away: a value or the top slot of an iterator.
    Top,
    ValueOrNull,
    Iter1,
    Iter2,
    Iter3,
    Iter4,
    Null,
    Method,
}

/// A slot that an instruction gives: a new one, or one that it took, by its place from the top.
#[derive(Clone, Copy, Debug, PartialEq, Eq)]
pub enum Give {
    New(Kind),
    Again(usize),
}

/// The slots that are taken, from the top: `values` values, and the others below them.
#[derive(Clone, Copy)]
pub struct Takes {
    pub values: u32,
    pub others: &'static [Want],
}

/// The slots that are given, from the top: `values` new values, and the others below them.
#[derive(Clone, Copy)]
pub struct Gives {
    pub values: u32,
    pub others: &'static [Give],
}

impl Takes {
    ghost use Rattle.std.specs.Prelude.{◌≡◌, length};
    ghost use Rattle.bc_shapes.specs.Views.{takes_of};

    /// How many slots are taken.
    #[inline(always)]
    pub fn len(self) -> usize
        ensures { result ≡ length (takes_of self) }
    {
        self.values as usize + self.others.len()
    }
}

impl Gives {
    ghost use Rattle.std.specs.Prelude.{◌≡◌, length};
    ghost use Rattle.bc_shapes.specs.Views.{gives_of};

    /// How many slots are given.
    #[inline(always)]
    pub fn len(self) -> usize
        ensures { result ≡ length (gives_of self) }
    {
        self.values as usize + self.others.len()
    }
}
