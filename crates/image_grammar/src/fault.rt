//! Why bytes are no image, or modules have none.

ghost use Rattle.std.specs.Prelude.{◌≡◌, option_copied};
ghost use Rattle.image_grammar.specs.Fault.{number_of, name_of, index_of, word_of};

use mpy_base::Text;

/// What is wrong with the bytes of an image, first in their order, or with modules that are to be in one.
#[derive(Debug, Drop)]
pub enum ImageFault {
    /// It isn't an image of a version that is known.
    BadHeader,
    /// The bytes end inside a part.
    Truncated,
    /// A number of a text means none or comes too early, or a text is none, stands twice or isn't used.
    BadNumber,
    /// The module at this place, from 0, has objects or a code that can't be read, or isn't verified.
    BadModule(u32),
    /// A second module has this name.
    Twice(Text),
    /// Bytes stand behind the last module.
    Trailing,
    /// A number passes its form, or a limit is passed.
    TooBig,
    /// It lies over other texts or modules than those that are there.
    BadBase,
}

impl ImageFault {
    /// The number by which a line names the fault.
    pub fn number(&self) -> u8
        ensures { result ≡ number_of self.now }
    {
        match self {
            ImageFault::BadHeader => 1,
            ImageFault::Truncated => 2,
            ImageFault::BadNumber => 3,
            ImageFault::BadModule(_) => 4,
            ImageFault::Twice(_) => 5,
            ImageFault::Trailing => 6,
            ImageFault::TooBig => 7,
            ImageFault::BadBase => 8,
        }
    }

    /// The name by which a line names it.
    pub fn name(&self) -> &'static str
        ensures { result.now ≡ name_of self.now }
    {
        match self {
            ImageFault::BadHeader => "BadHeader",
            ImageFault::Truncated => "Truncated",
            ImageFault::BadNumber => "BadNumber",
            ImageFault::BadModule(_) => "BadModule",
            ImageFault::Twice(_) => "Twice",
            ImageFault::Trailing => "Trailing",
            ImageFault::TooBig => "TooBig",
            ImageFault::BadBase => "BadBase",
        }
    }

    /// The place of the module that it tells, if it tells one.
    pub fn index(&self) -> Option<u32>
        ensures { result ≡ index_of self.now }
    {
        match self {
            ImageFault::BadModule(index) => Some(*index),
            _ => None,
        }
    }

    /// The name of the module that it tells, if it tells one.
    pub fn word(&self) -> Option<&[u8]>
        ensures { option_copied result ≡ word_of self.now }
    {
        match self {
            ImageFault::Twice(name) => Some(name.bytes()),
            _ => None,
        }
    }
}
