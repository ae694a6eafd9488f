//! The rules of verified modules, and where one is broken.

ghost use Rattle.std.specs.Prelude.{◌≡◌};
ghost use Rattle.bc_verify.specs.Rule.{number_of, name_of};

use mpy_base::Items;

/// What a verified module keeps.
#[derive(Clone, Copy, Debug, PartialEq, Eq)]
pub enum Rule {
    /// A jump goes to an instruction.
    Jump = 1,
    /// An instruction finds its slots, and shapes that meet agree.
    Height = 2,
    /// Handler entries are there where they are asked, and no more than there may be.
    Handlers = 3,
    /// The flow doesn't pass the last instruction.
    Falls = 4,
    /// A local has a number below n_state.
    Local = 5,
    /// Locals and slots have room, and no operand names too many items.
    State = 6,
    /// A text, an object or a child that is named is there.
    Names = 7,
}

impl Rule {
    /// The number that messages give with the rule's name, from 1 to 7.
    pub fn number(self) -> u8
        ensures { result ≡ number_of self }
    {
        self as u8
    }

    /// The name that messages give with the rule's number: one word, such as `Height`.
    pub fn name(self) -> &'static str
        ensures { result.now ≡ name_of self }
    {
        match self {
            Rule::Jump => "Jump",
            Rule::Height => "Height",
            Rule::Handlers => "Handlers",
            Rule::Falls => "Falls",
            Rule::Local => "Local",
            Rule::State => "State",
            Rule::Names => "Names",
        }
    }
}

/// A rule that is broken, and where.
#[derive(Debug, Drop)]
pub struct VerifyFault {
    pub rule: Rule,
    /// The path of the code: 0 for the outermost, and for each level below the place among the children.
    pub path: Items<usize>,
    /// From where the code's instructions begin.
    pub offset: usize,
}
