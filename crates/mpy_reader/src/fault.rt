//! Why a file isn't read.

ghost use Rattle.std.specs.Prelude.{◌≡◌};
ghost use Rattle.mpy_reader.specs.Fault.{number_of, name_of, tag_of};

/// What is wrong with a file, first in the order of its bytes.
#[derive(Clone, Copy, Debug, PartialEq, Eq)]
pub enum FileFault {
    /// It isn't a file of this format.
    BadHeader,
    /// It is one of another version, of a machine's own code, or of other small integers.
    Incompatible,
    /// The bytes end inside a part.
    Truncated,
    /// An entry of the table of texts is none, or there is no entry.
    BadQstr,
    /// An object is none that is supported. Its tag, or that of the object in it.
    BadObject(u8),
    /// A code isn't bytecode, or has an instruction that isn't supported.
    BadCode,
    /// A code begins with no prelude that is supported.
    BadPrelude,
    /// Bytes stand behind the last part.
    Trailing,
    /// A number passes its form, or a limit is passed.
    TooBig,
}

impl FileFault {
    /// The number by which a line names the fault.
    pub fn number(self) -> u8
        ensures { result ≡ number_of self }
    {
        match self {
            FileFault::BadHeader => 1,
            FileFault::Incompatible => 2,
            FileFault::Truncated => 3,
            FileFault::BadQstr => 4,
            FileFault::BadObject(_) => 5,
            FileFault::BadCode => 6,
            FileFault::BadPrelude => 7,
            FileFault::Trailing => 8,
            FileFault::TooBig => 9,
        }
    }

    /// The name by which a line names the fault.
    pub fn name(self) -> &'static str
        ensures { result.now ≡ name_of self }
    {
        match self {
            FileFault::BadHeader => "BadHeader",
            FileFault::Incompatible => "Incompatible",
            FileFault::Truncated => "Truncated",
            FileFault::BadQstr => "BadQstr",
            FileFault::BadObject(_) => "BadObject",
            FileFault::BadCode => "BadCode",
            FileFault::BadPrelude => "BadPrelude",
            FileFault::Trailing => "Trailing",
            FileFault::TooBig => "TooBig",
        }
    }

    /// The tag of the object that is none.
    pub fn tag(self) -> Option<u8>
        ensures { result ≡ tag_of self }
    {
        match self {
            FileFault::BadObject(tag) => Some(tag),
            _ => None,
        }
    }
}
