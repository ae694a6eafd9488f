//! The kinds of exceptions, which form a tree.

ghost use Rattle.std.specs.Prelude.{◌≡◌, ◌↔◌, IsTrue};
ghost use Rattle.mpy_base.specs.Kind.{parent_of, IsUnder, kind_name};

/// A kind of exceptions.
#[derive(Clone, Copy, Debug, PartialEq, Eq)]
pub enum Kind {
    BaseException,
    SystemExit,
    KeyboardInterrupt,
    Exception,
    ArithmeticError,
    OverflowError,
    ZeroDivisionError,
    AssertionError,
    AttributeError,
    EofError,
    ImportError,
    LookupError,
    IndexError,
    KeyError,
    MemoryError,
    NameError,
    OsError,
    RuntimeError,
    NotImplementedError,
    StopIteration,
    SyntaxError,
    TypeError,
    ValueError,
}

impl Kind {
    /// How a program calls the kind.
    pub fn name(self) -> &'static str
        ensures { result.now ≡ kind_name self }
    {
        match self {
            Kind::BaseException => "BaseException",
            Kind::SystemExit => "SystemExit",
            Kind::KeyboardInterrupt => "KeyboardInterrupt",
            Kind::Exception => "Exception",
            Kind::ArithmeticError => "ArithmeticError",
            Kind::OverflowError => "OverflowError",
            Kind::ZeroDivisionError => "ZeroDivisionError",
            Kind::AssertionError => "AssertionError",
            Kind::AttributeError => "AttributeError",
            Kind::EofError => "EOFError",
            Kind::ImportError => "ImportError",
            Kind::LookupError => "LookupError",
            Kind::IndexError => "IndexError",
            Kind::KeyError => "KeyError",
            Kind::MemoryError => "MemoryError",
            Kind::NameError => "NameError",
            Kind::OsError => "OSError",
            Kind::RuntimeError => "RuntimeError",
            Kind::NotImplementedError => "NotImplementedError",
            Kind::StopIteration => "StopIteration",
            Kind::SyntaxError => "SyntaxError",
            Kind::TypeError => "TypeError",
            Kind::ValueError => "ValueError",
        }
    }

    /// The kind that this one is a direct subclass of.
    pub fn parent(self) -> Option<Kind>
        ensures { result ≡ parent_of self }
    {
        match self {
            Kind::BaseException => None,
            Kind::SystemExit | Kind::KeyboardInterrupt | Kind::Exception => Some(
                Kind::BaseException,
            ),
            Kind::ArithmeticError
            | Kind::AssertionError
            | Kind::AttributeError
            | Kind::EofError
            | Kind::ImportError
            | Kind::LookupError
            | Kind::MemoryError
            | Kind::NameError
            | Kind::OsError
            | Kind::RuntimeError
            | Kind::StopIteration
            | Kind::SyntaxError
            | Kind::TypeError
            | Kind::ValueError => Some(Kind::Exception),
            Kind::OverflowError | Kind::ZeroDivisionError => Some(Kind::ArithmeticError),
            Kind::IndexError | Kind::KeyError => Some(Kind::LookupError),
            Kind::NotImplementedError => Some(Kind::RuntimeError),
        }
    }

    /// Whether a handler of the other kind takes exceptions of this one.
    pub fn is_under(self, other: Kind) -> bool
        ensures { IsTrue result ↔ IsUnder self other }
    {
        let mut kind = self;
        while kind != other {
            match kind.parent() {
                Some(parent) => kind = parent,
                None => return false,
            }
        }
        true
    }
}
