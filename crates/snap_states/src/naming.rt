//! Built-ins, kinds of exceptions and texts by their names.

ghost use Rattle.std.specs.Prelude.{◌≡◌, ◌↔◌, Some, IsTrue};
ghost use Rattle.prim_walks.specs.py_values.Names.{builtin_name as name_of_builtin};
ghost use Rattle.mpy_base.specs.Kind.{kind_name};
ghost use Rattle.prim_walks.specs.py_primitives.Builtins.{all_kinds};
ghost use Rattle.snap_states.specs.Decoded.{called, others, builtin_called as builtin_of_name, kind_called as kind_of_name};
ghost use Rattle.bc_library.specs.Texts.{text_numbered};
ghost use Rattle.snap_states.specs.States.{IsName};

use arena_heap::{Constants, StrNo};
use bc_library::Library;
use mpy_base::{Builtin, Kind};
use prim_walks::{builtin_name, global_builtins};

/// The built-ins that no name alone leads to.
const OTHERS: [Builtin; 17] = [
    Builtin::Port,
    Builtin::PortPut,
    Builtin::PortGet,
    Builtin::PortCount,
    Builtin::ListAppend,
    Builtin::ListPop,
    Builtin::ListInsert,
    Builtin::ListExtend,
    Builtin::DictGet,
    Builtin::DictKeys,
    Builtin::DictValues,
    Builtin::DictItems,
    Builtin::DictPop,
    Builtin::StrJoin,
    Builtin::StrFind,
    Builtin::StrStartsWith,
    Builtin::StrSplit,
];

/// All kinds of exceptions.
const KINDS: [Kind; 23] = [
    Kind::BaseException,
    Kind::SystemExit,
    Kind::KeyboardInterrupt,
    Kind::Exception,
    Kind::ArithmeticError,
    Kind::OverflowError,
    Kind::ZeroDivisionError,
    Kind::AssertionError,
    Kind::AttributeError,
    Kind::EofError,
    Kind::ImportError,
    Kind::LookupError,
    Kind::IndexError,
    Kind::KeyError,
    Kind::MemoryError,
    Kind::NameError,
    Kind::OsError,
    Kind::RuntimeError,
    Kind::NotImplementedError,
    Kind::StopIteration,
    Kind::SyntaxError,
    Kind::TypeError,
    Kind::ValueError,
];

fn other_builtins() -> &'static [Builtin]
    ensures { result.now ≡ others }
{
    &OTHERS
}

fn kinds() -> &'static [Kind]
    ensures { result.now ≡ all_kinds }
{
    &KINDS
}

/// The first of these built-ins that is called so.
fn first_builtin(builtins: &[Builtin], name: &[u8]) -> Option<Builtin>
    ensures { result ≡ called name_of_builtin name.now builtins.now }
{
    for b in builtins {
        if builtin_name(*b).as_bytes() == name {
            return Some(*b);
        }
    }
    None
}

/// The first of these kinds that is called so.
fn first_kind(kinds: &[Kind], name: &[u8]) -> Option<Kind>
    ensures { result ≡ called kind_name name.now kinds.now }
{
    for kind in kinds {
        if kind.name().as_bytes() == name {
            return Some(*kind);
        }
    }
    None
}

/// The built-in of a name.
pub fn builtin_called(name: &[u8]) -> Option<Builtin>
    ensures { result ≡ builtin_of_name name.now }
{
    match first_builtin(global_builtins(), name) {
        Some(b) => Some(b),
        None => first_builtin(other_builtins(), name),
    }
}

/// The kind of exceptions of a name.
pub fn kind_called(name: &[u8]) -> Option<Kind>
    ensures { result ≡ kind_of_name name.now }
{
    first_kind(kinds(), name)
}

/// Whether the text is the one of this number.
fn is_text(library: &Library, n: u32, text: &[u8]) -> bool
    ensures { IsTrue result ↔ (text_numbered library.now.pool n ≡ Some text.now) }
{
    match library.text(StrNo::Pool(n)) {
        Some(found) => found == text,
        None => false,
    }
}

/// Whether a text is static or in the library's pool.
pub(crate) fn is_name(library: &Library, text: &[u8]) -> bool
    ensures { IsTrue result ↔ IsName library.now text.now }
{
    match library.number(text) {
        Some(n) => is_text(library, n, text),
        None => false,
    }
}
