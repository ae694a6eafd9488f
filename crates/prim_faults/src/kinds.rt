//! The kinds of faults.

ghost use Rattle.std.specs.Prelude.{◌≡◌};
ghost use Rattle.prim_walks.specs.py_primitives.Faults.{number_kind as kind_of_number};
ghost use Rattle.prim_faults.specs.Faults.{IsKindOf};

use crate::fault::Fault;
use prim_walks::{Kind, NumFault};

/// The kind of exception that a fault of arithmetic is.
fn number_kind(fault: NumFault) -> Kind
    ensures { result ≡ kind_of_number fault }
{
    match fault {
        NumFault::Overflow => Kind::OverflowError,
        NumFault::ZeroDivide => Kind::ZeroDivisionError,
        NumFault::NegativeShift | NumFault::NegativePower => Kind::ValueError,
    }
}

/// The kind of exceptions that a fault is.
pub fn fault_kind(fault: Fault) -> Kind
    ensures { IsKindOf fault result }
{
    match fault {
        Fault::Arithmetic(fault) => number_kind(fault),
        Fault::OutOfRange(_) | Fault::EmptyList => Kind::IndexError,
        Fault::NoKey(_) => Kind::KeyError,
        Fault::NoAttribute { .. } => Kind::AttributeError,
        Fault::ZeroStep
        | Fault::NothingToCompare
        | Fault::NoNumeral
        | Fault::NoCode
        | Fault::EmptySeparator
        | Fault::NoSuchPort
        | Fault::UnpacksMore(_)
        | Fault::UnpacksFewer(_)
        | Fault::IncompatibleFile => Kind::ValueError,
        Fault::PortFailed => Kind::OsError,
        Fault::NoSuchName(_) | Fault::Unassigned => Kind::NameError,
        Fault::NotImported(_) | Fault::NoModule { .. } | Fault::RelativeImport => {
            Kind::ImportError
        }
        Fault::NothingToRaise | Fault::TooDeep => Kind::RuntimeError,
        Fault::Unsupported { .. }
        | Fault::UnsupportedOne { .. }
        | Fault::UnsupportedMatch
        | Fault::NotAnException
        | Fault::NotCallable(_)
        | Fault::NotIterable(_)
        | Fault::NotSubscriptable(_)
        | Fault::NotAssignable(_)
        | Fault::NotDeletable(_)
        | Fault::NoLength(_)
        | Fault::NotANumber(_)
        | Fault::NotAnIndex { .. }
        | Fault::WrongCount { .. }
        | Fault::Missing(_)
        | Fault::TooFew { .. }
        | Fault::TooMany { .. }
        | Fault::NoKeywords
        | Fault::KeywordNotAStr
        | Fault::UnknownKeyword(_)
        | Fault::RepeatedKeyword(_)
        | Fault::NotAStr(_)
        | Fault::NoCharacter
        | Fault::NotTypes
        | Fault::JoinsNoStr
        | Fault::BadDefaults => Kind::TypeError,
    }
}
