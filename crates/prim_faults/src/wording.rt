//! The pieces that the texts of faults are made of.

ghost use Rattle.std.specs.Prelude.{◌≡◌, ◌≤◌, ◌+◌, ◌++◌, List, ℕ, codes, length};
ghost use Rattle.std.specs.Fmt.{decimal};
ghost use Rattle.prim_walks.specs.py_primitives.Faults.{between_quotes, object_does as does_text, number_text as text_of_number};
ghost use Rattle.prim_faults.specs.Types.{type_text};
ghost use Rattle.prim_faults.specs.Faults.{method_text};
ghost use Rattle.prim_faults.specs.Pieces.{AreFew, IsWordingOf, wording_text};

use crate::fault::Fault;
use crate::method::SpecialMethod;
use crate::piece::Piece;
use crate::types::ValueType;
use prim_walks::NumFault;

/// The piece without a byte.
const NOTHING: Piece = Piece::Text("");

/// The text of a fault of arithmetic.
fn number_text(fault: NumFault) -> &'static str
    ensures text { result.now ≡ text_of_number fault }
    ensures short { length result.now ≤ 64 }
{
    match fault {
        NumFault::Overflow => "small int overflow",
        NumFault::ZeroDivide => "divide by zero",
        NumFault::NegativeShift => "negative shift count",
        NumFault::NegativePower => "negative power with no float support",
    }
}

/// A text alone.
fn plain(text: &'static str) -> [Piece; 7]
    requires { length text.now ≤ 64 }
    ensures text { (name : List ℕ) → wording_text name result ≡ text.now }
    ensures few { AreFew result }
{
    [
        Piece::Text(text),
        NOTHING,
        NOTHING,
        NOTHING,
        NOTHING,
        NOTHING,
        NOTHING,
    ]
}

/// A text with the name of a type.
fn typed(first: &'static str, of: ValueType, last: &'static str) -> [Piece; 7]
    requires { length first.now + length last.now ≤ 64 }
    ensures text { (name : List ℕ) → wording_text name result ≡ first.now ++ type_text of ++ last.now }
    ensures few { AreFew result }
{
    [
        Piece::Text(first),
        Piece::Text(of.name()),
        Piece::Text(last),
        NOTHING,
        NOTHING,
        NOTHING,
        NOTHING,
    ]
}

/// `object of type 'T' has no len()`.
fn no_length(of: ValueType) -> [Piece; 7]
    ensures text { (name : List ℕ) → wording_text name result ≡ codes "object of type " ++ between_quotes (type_text of) ++ codes " has no len()" }
    ensures few { AreFew result }
{
    [
        Piece::Text("object of type '"),
        Piece::Text(of.name()),
        Piece::Text("' has no len()"),
        NOTHING,
        NOTHING,
        NOTHING,
        NOTHING,
    ]
}

/// `'T' object`, and what it does.
fn object_does(object: ValueType, does: &'static str) -> [Piece; 7]
    requires { length does.now ≤ 64 }
    ensures text { (name : List ℕ) → wording_text name result ≡ does_text (type_text object) does.now }
    ensures few { AreFew result }
{
    [
        Piece::Text("'"),
        Piece::Text(object.name()),
        Piece::Text("' object "),
        Piece::Text(does),
        NOTHING,
        NOTHING,
        NOTHING,
    ]
}

/// `unsupported types for M: 'T', 'U'`.
fn unsupported(method: SpecialMethod, left: ValueType, right: ValueType) -> [Piece; 7]
    ensures text { (name : List ℕ)
        → wording_text name result ≡ codes "unsupported types for " ++ method_text method ++ codes ": " ++ between_quotes (type_text left)
        ++ codes ", " ++ between_quotes (type_text right) }
    ensures few { AreFew result }
{
    [
        Piece::Text("unsupported types for "),
        Piece::Text(method.name()),
        Piece::Text(": '"),
        Piece::Text(left.name()),
        Piece::Text("', '"),
        Piece::Text(right.name()),
        Piece::Text("'"),
    ]
}

/// `unsupported type for M: 'T'`.
fn unsupported_one(method: SpecialMethod, operand: ValueType) -> [Piece; 7]
    ensures text { (name : List ℕ)
        → wording_text name result ≡ codes "unsupported type for " ++ method_text method ++ codes ": "
        ++ between_quotes (type_text operand) }
    ensures few { AreFew result }
{
    [
        Piece::Text("unsupported type for "),
        Piece::Text(method.name()),
        Piece::Text(": '"),
        Piece::Text(operand.name()),
        Piece::Text("'"),
        NOTHING,
        NOTHING,
    ]
}

/// `T indices must be integers, not U`.
fn not_an_index(sequence: ValueType, index: ValueType) -> [Piece; 7]
    ensures text { (name : List ℕ) → wording_text name result ≡ type_text sequence ++ codes " indices must be integers, not " ++ type_text index }
    ensures few { AreFew result }
{
    [
        Piece::Text(sequence.name()),
        Piece::Text(" indices must be integers, not "),
        Piece::Text(index.name()),
        NOTHING,
        NOTHING,
        NOTHING,
        NOTHING,
    ]
}

/// `'T' object has no attribute 'N'`.
fn no_attribute(object: ValueType) -> [Piece; 7]
    ensures text { (name : List ℕ) → wording_text name result ≡ does_text (type_text object) (codes "has no attribute " ++ between_quotes name) }
    ensures few { AreFew result }
{
    [
        Piece::Text("'"),
        Piece::Text(object.name()),
        Piece::Text("' object has no attribute '"),
        Piece::Name,
        Piece::Text("'"),
        NOTHING,
        NOTHING,
    ]
}

/// A text that ends with the fault's name.
fn named(first: &'static str) -> [Piece; 7]
    requires { length first.now ≤ 64 }
    ensures text { (name : List ℕ) → wording_text name result ≡ first.now ++ between_quotes name }
    ensures few { AreFew result }
{
    [
        Piece::Text(first),
        Piece::Text("'"),
        Piece::Name,
        Piece::Text("'"),
        NOTHING,
        NOTHING,
        NOTHING,
    ]
}

/// `name 'N' isn't defined`.
fn no_such_name() -> [Piece; 7]
    ensures text { (name : List ℕ) → wording_text name result ≡ codes "name " ++ between_quotes name ++ codes " isn't defined" }
    ensures few { AreFew result }
{
    [
        Piece::Text("name '"),
        Piece::Name,
        Piece::Text("' isn't defined"),
        NOTHING,
        NOTHING,
        NOTHING,
        NOTHING,
    ]
}

/// `N must be a str`.
fn not_a_str() -> [Piece; 7]
    ensures text { (name : List ℕ) → wording_text name result ≡ name ++ codes " must be a str" }
    ensures few { AreFew result }
{
    [
        Piece::Name,
        Piece::Text(" must be a str"),
        NOTHING,
        NOTHING,
        NOTHING,
        NOTHING,
        NOTHING,
    ]
}

/// A text with a number.
fn counted(first: &'static str, n: u32, last: &'static str) -> [Piece; 7]
    requires { length first.now + length last.now ≤ 64 }
    ensures text { (name : List ℕ) → wording_text name result ≡ first.now ++ decimal n ++ last.now }
    ensures few { AreFew result }
{
    [
        Piece::Text(first),
        Piece::Number(n),
        Piece::Text(last),
        NOTHING,
        NOTHING,
        NOTHING,
        NOTHING,
    ]
}

/// A text with two counts, the second of which was given.
fn given_counts(
    first: &'static str,
    n: u32,
    middle: &'static str,
    given: u32,
    last: &'static str,
) -> [Piece; 7]
    requires { length first.now + length middle.now + length last.now ≤ 128 }
    ensures text { (name : List ℕ) → wording_text name result ≡ first.now ++ decimal n ++ middle.now ++ decimal given ++ last.now }
    ensures few { AreFew result }
{
    [
        Piece::Text(first),
        Piece::Number(n),
        Piece::Text(middle),
        Piece::Number(given),
        Piece::Text(last),
        NOTHING,
        NOTHING,
    ]
}

/// The pieces of a fault's text.
pub(crate) fn wording(fault: Fault) -> [Piece; 7]
    ensures text { IsWordingOf fault result }
    ensures few { AreFew result }
{
    match fault {
        Fault::Unsupported {
            method,
            left,
            right,
        } => unsupported(method, left, right),
        Fault::UnsupportedOne { method, operand } => unsupported_one(method, operand),
        Fault::UnsupportedMatch => plain("unsupported types for exception match"),
        Fault::NotAnException => plain("exceptions must derive from BaseException"),
        Fault::Arithmetic(fault) => plain(number_text(fault)),
        Fault::NotCallable(of) => object_does(of, "isn't callable"),
        Fault::NotIterable(of) => object_does(of, "isn't iterable"),
        Fault::NotSubscriptable(of) => object_does(of, "isn't subscriptable"),
        Fault::NotAssignable(of) => object_does(of, "doesn't support item assignment"),
        Fault::NotDeletable(of) => object_does(of, "doesn't support item deletion"),
        Fault::NoLength(of) => no_length(of),
        Fault::NotANumber(of) => typed("can't convert ", of, " to int"),
        Fault::NotAnIndex { sequence, index } => not_an_index(sequence, index),
        Fault::OutOfRange(of) => typed("", of, " index out of range"),
        Fault::EmptyList => plain("pop from empty list"),
        Fault::NoKey(_) => plain(""),
        Fault::NoAttribute { object, .. } => no_attribute(object),
        Fault::WrongCount { takes, given } => given_counts(
            "function takes ",
            takes,
            " positional arguments but ",
            given,
            " were given",
        ),
        Fault::Missing(count) => counted(
            "function missing ",
            count,
            " required positional arguments",
        ),
        Fault::TooFew { least, given } => given_counts(
            "function expected at least ",
            least,
            " arguments, got ",
            given,
            "",
        ),
        Fault::TooMany { most, given } => given_counts(
            "function expected at most ",
            most,
            " arguments, got ",
            given,
            "",
        ),
        Fault::NoKeywords => plain("function doesn't take keyword arguments"),
        Fault::KeywordNotAStr => plain("keywords must be strings"),
        Fault::UnknownKeyword(_) => named("unexpected keyword argument "),
        Fault::RepeatedKeyword(_) => named("function got multiple values for argument "),
        Fault::NotAStr(_) => not_a_str(),
        Fault::ZeroStep => plain("zero step"),
        Fault::NothingToCompare => plain("arg is an empty sequence"),
        Fault::NoNumeral => plain("invalid syntax for integer with base 10"),
        Fault::NoCharacter => plain("ord() expects a character"),
        Fault::NoCode => plain("chr() arg not in range(128)"),
        Fault::NotTypes => plain("isinstance() arg 2 must be a type or a tuple of types"),
        Fault::JoinsNoStr => plain("join expects a list of str"),
        Fault::EmptySeparator => plain("empty separator"),
        Fault::NoSuchPort => plain("no such port"),
        Fault::PortFailed => plain(""),
        Fault::NoSuchName(_) => no_such_name(),
        Fault::Unassigned => plain("local variable referenced before assignment"),
        Fault::NotImported(_) => named("can't import name "),
        Fault::UnpacksMore(have) => counted("need more than ", have, " values to unpack"),
        Fault::UnpacksFewer(want) => counted("too many values to unpack (expected ", want, ")"),
        Fault::NothingToRaise => plain("no active exception to reraise"),
        Fault::TooDeep => plain("maximum recursion depth exceeded"),
        Fault::NoModule { .. } => named("no module named "),
        Fault::RelativeImport => plain("relative import"),
        Fault::IncompatibleFile => plain("incompatible .mpy file"),
        Fault::BadDefaults => plain("bad defaults"),
    }
}
