//! Why a source isn't accepted.

ghost use Rattle.std.specs.Prelude.{◌≡◌};
ghost use Rattle.mpy_base.specs.Source.{name_of, number_of};

use crate::Text;
use std::alloc::Global;

/// What is wrong with a source.
#[derive(Clone, Copy, Debug, PartialEq, Eq)]
pub enum SourceCode {
    /// A byte that no source holds.
    BadByte = 1,
    /// Bytes that are no token.
    BadToken,
    /// A level of indentation that fits none before it.
    BadIndent,
    /// A number past the small integers.
    TooBigNumber,
    /// Something of Python that this language leaves out. The word names it.
    NotInProfile,
    /// No statement can be read so.
    Syntax,
    /// Brackets, blocks and operators nest too deep.
    TooDeep,
    /// A local name of an enclosing function is used.
    Capture,
    /// `global` behind a use of the name, or of a parameter.
    LateGlobal,
    /// `break` or `continue` with no loop around it.
    OutsideLoop,
    /// `return` with no function around it.
    OutsideFunction,
    /// The source, or what it compiles to, is too long.
    TooLong,
    /// A function needs too many slots, handlers or arguments.
    StateTooBig,
}

impl SourceCode {
    /// The number by which a line names the code.
    pub fn number(self) -> u8
        ensures { result ≡ number_of self }
    {
        self as u8
    }

    /// The name by which a line names the code.
    pub fn name(self) -> &'static str
        ensures { result.now ≡ name_of self }
    {
        match self {
            SourceCode::BadByte => "BadByte",
            SourceCode::BadToken => "BadToken",
            SourceCode::BadIndent => "BadIndent",
            SourceCode::TooBigNumber => "TooBigNumber",
            SourceCode::NotInProfile => "NotInProfile",
            SourceCode::Syntax => "Syntax",
            SourceCode::TooDeep => "TooDeep",
            SourceCode::Capture => "Capture",
            SourceCode::LateGlobal => "LateGlobal",
            SourceCode::OutsideLoop => "OutsideLoop",
            SourceCode::OutsideFunction => "OutsideFunction",
            SourceCode::TooLong => "TooLong",
            SourceCode::StateTooBig => "StateTooBig",
        }
    }
}

/// Why a source isn't accepted, in which line, and the word that the fault names (empty where it names none).
#[derive(Debug, Drop)]
pub struct SourceFault {
    pub code: SourceCode,
    /// Counted from 1.
    pub line: u32,
    pub word: Text,
}

impl SourceFault {
    ghost use Rattle.std.specs.Prelude.{◌≡◌};
    ghost use Rattle.mpy_base.specs.Fault.{too_long};

    /// What is too long is so from its first line on.
    pub fn too_long(alloc: Global) -> SourceFault
        ensures { result ≡ too_long }
    {
        SourceFault {
            code: SourceCode::TooLong,
            line: 1,
            word: Text::empty(alloc),
        }
    }
}
