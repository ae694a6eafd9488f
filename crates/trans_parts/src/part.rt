//! The parts of a code that are compared.

ghost use Rattle.std.specs.Prelude.{◌≡◌};
ghost use Rattle.trans_parts.specs.Names.{name_of};

/// A part of a code that is compared.
#[derive(Clone, Copy, Debug, PartialEq, Eq)]
pub enum What {
    Name,
    Args,
    Defaults,
    /// The slots for locals and the stack.
    State,
    /// The handler entries.
    Handlers,
    /// How many codes there are in the code.
    Children,
    Instr,
    Line,
}

impl What {
    /// The word by which a line names the part.
    pub fn name(self) -> &'static str
        ensures { result.now ≡ name_of self }
    {
        match self {
            What::Name => "name",
            What::Args => "args",
            What::Defaults => "defaults",
            What::State => "state",
            What::Handlers => "handlers",
            What::Children => "children",
            What::Instr => "instr",
            What::Line => "line",
        }
    }
}

/// A part that differs, and where.
#[derive(Clone, Copy, Debug)]
pub struct Part {
    pub what: What,
    pub at: usize,
}
