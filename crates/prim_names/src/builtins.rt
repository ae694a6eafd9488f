//! What names mean that no namespace has.

ghost use Rattle.std.specs.Prelude.{◌≡◌, map, IsSome};
ghost use Rattle.std.specs.List.{range_with_len};
ghost use Rattle.prim_raising.specs.qstr_pool.declared.table.TheConstants.{FIRST_OWN};
ghost use Rattle.prim_raising.specs.qstr_pool.Static.{static_text_of};
ghost use Rattle.prim_methods.specs.arena_objects.Iterables.{or_nothing};
ghost use Rattle.prim_raising.specs.py_effects.py_values.Names.{builtin_name as name_of};
ghost use Rattle.prim_raising.specs.py_effects.py_primitives.Builtins.{named as first_named, global_named as builtin_of_name};

use crate::globals::name_bytes;
use arena_heap::{Constants, StrNo};
use mpy_base::{Builtin, Kind};
use prim_operators::{builtin_name, global_builtins};

/// What the texts that every file may name by number mean, by their numbers, which count from 1.
const STATIC_GLOBALS: [Option<Builtin>; 166] = [
    None,
    None,
    None,
    None,
    None,
    None,
    None,
    None,
    None,
    None,
    None,
    None,
    None,
    None,
    None,
    None,
    None,
    None,
    None,
    None,
    None,
    None,
    None,
    None,
    None,
    None,
    None,
    None,
    None,
    None,
    Some(Builtin::Kind(Kind::ArithmeticError)),
    Some(Builtin::Kind(Kind::AssertionError)),
    Some(Builtin::Kind(Kind::AttributeError)),
    Some(Builtin::Kind(Kind::BaseException)),
    Some(Builtin::Kind(Kind::EofError)),
    None,
    Some(Builtin::Kind(Kind::Exception)),
    None,
    Some(Builtin::Kind(Kind::ImportError)),
    None,
    Some(Builtin::Kind(Kind::IndexError)),
    Some(Builtin::Kind(Kind::KeyError)),
    Some(Builtin::Kind(Kind::KeyboardInterrupt)),
    Some(Builtin::Kind(Kind::LookupError)),
    Some(Builtin::Kind(Kind::MemoryError)),
    Some(Builtin::Kind(Kind::NameError)),
    None,
    Some(Builtin::Kind(Kind::NotImplementedError)),
    Some(Builtin::Kind(Kind::OsError)),
    Some(Builtin::Kind(Kind::OverflowError)),
    Some(Builtin::Kind(Kind::RuntimeError)),
    Some(Builtin::Kind(Kind::StopIteration)),
    Some(Builtin::Kind(Kind::SyntaxError)),
    Some(Builtin::Kind(Kind::SystemExit)),
    Some(Builtin::Kind(Kind::TypeError)),
    Some(Builtin::Kind(Kind::ValueError)),
    Some(Builtin::Kind(Kind::ZeroDivisionError)),
    Some(Builtin::Abs),
    None,
    None,
    None,
    None,
    Some(Builtin::Bool),
    None,
    None,
    None,
    None,
    None,
    Some(Builtin::Chr),
    None,
    None,
    None,
    None,
    None,
    None,
    Some(Builtin::Dict),
    None,
    None,
    None,
    None,
    None,
    None,
    None,
    None,
    None,
    None,
    None,
    None,
    None,
    None,
    None,
    None,
    None,
    None,
    Some(Builtin::Int),
    None,
    None,
    Some(Builtin::IsInstance),
    None,
    None,
    None,
    None,
    None,
    None,
    None,
    None,
    None,
    Some(Builtin::Len),
    Some(Builtin::List),
    None,
    None,
    None,
    None,
    None,
    None,
    None,
    None,
    None,
    None,
    Some(Builtin::Ord),
    None,
    None,
    None,
    Some(Builtin::Print),
    Some(Builtin::Range),
    None,
    None,
    None,
    None,
    None,
    Some(Builtin::Repr),
    None,
    None,
    None,
    None,
    None,
    None,
    None,
    None,
    None,
    None,
    None,
    None,
    None,
    None,
    None,
    None,
    None,
    None,
    None,
    None,
    Some(Builtin::Str),
    None,
    None,
    None,
    None,
    None,
    Some(Builtin::Tuple),
    None,
    None,
    None,
    None,
    None,
    None,
    None,
    None,
];

/// The first of these built-ins that has this name.
fn named(builtins: &[Builtin], name: &[u8]) -> Option<Builtin>
    ensures { result ≡ first_named (map (λ b. (name_of b, b)) builtins.now) name.now }
{
    for b in builtins {
        if builtin_name(*b).as_bytes() == name {
            return Some(*b);
        }
    }
    None
}

/// What a name means that no namespace has, by its bytes.
fn global_named(name: &[u8]) -> Option<Builtin>
    ensures { result ≡ builtin_of_name name.now }
{
    named(global_builtins(), name)
}

/// What the texts mean that every file may name, by their numbers.
fn static_globals() -> &'static [Option<Builtin>]
    ensures { result.now ≡ map (λ n. builtin_of_name (or_nothing (static_text_of n))) (range_with_len 0 FIRST_OWN) }
{
    &STATIC_GLOBALS
}

/// What a name means that no namespace has. Where every file may name it by number, that number leads to it; another is
/// looked for by its bytes.
pub(crate) fn global_of<C: Constants>(consts: &C, name: StrNo) -> Option<Builtin>
    requires name { IsSome (C.text_of consts.now name) }
    ensures { result ≡ builtin_of_name (or_nothing (C.text_of consts.now name)) }
{
    if let StrNo::Pool(n) = name {
        if let Some(known) = static_globals().get(n as usize) {
            consts.static_law();
            return *known;
        }
    }
    global_named(name_bytes(consts, name))
}
