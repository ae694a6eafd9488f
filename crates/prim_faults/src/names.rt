//! The names that faults have.

ghost use Rattle.std.specs.Prelude.{◌≡◌, IsSome, take};
ghost use Rattle.prim_walks.specs.arena_objects.Iterables.{or_nothing, spelled};
ghost use Rattle.prim_faults.specs.Faults.{IsKnownFault, IsKnownStr, IsPrefix, name_in};

use crate::fault::Fault;
use prim_walks::{Arena, Constants, StrNo, Value, text_bytes};

/// The bytes of a constant name.
fn constant_name<C: Constants>(consts: &C, name: StrNo) -> &[u8]
    requires { IsSome (C.text_of consts.now name) }
    ensures { result.now ≡ or_nothing (C.text_of consts.now name) }
{
    consts.text(name).unwrap()
}

/// The bytes of a name that is a str, constant or made.
fn made_name<'a, C: Constants>(arena: &'a Arena, consts: &'a C, name: Value) -> &'a [u8]
    requires { IsKnownStr (C.text_of consts.now) (C.items_of consts.now) arena.now.objects name }
    ensures { result.now ≡ spelled (C.text_of consts.now) arena.now name }
{
    text_bytes(arena, consts, name)
}

/// The first `len` bytes of a constant name, which is the name of a module that was asked for.
fn module_name<C: Constants>(consts: &C, name: StrNo, len: u32) -> &[u8]
    requires { IsPrefix (C.text_of consts.now) name len }
    ensures { result.now ≡ take len (or_nothing (C.text_of consts.now name)) }
{
    &constant_name(consts, name)[..len as usize]
}

/// The name that a fault has, and no bytes where it has none.
pub(crate) fn fault_name<'a, C: Constants>(
    arena: &'a Arena,
    consts: &'a C,
    fault: Fault,
) -> &'a [u8]
    requires { IsKnownFault (C.text_of consts.now) (C.items_of consts.now) arena.now.objects fault }
    ensures { result.now ≡ name_in (C.text_of consts.now) (C.items_of consts.now) arena.now fault }
{
    match fault {
        Fault::NoAttribute { name, .. } | Fault::NoSuchName(name) | Fault::NotImported(name) => {
            constant_name(consts, name)
        }
        Fault::UnknownKeyword(name) | Fault::RepeatedKeyword(name) | Fault::NotAStr(name) => {
            made_name(arena, consts, name)
        }
        Fault::NoModule { name, len } => module_name(consts, name, len),
        _ => &[],
    }
}
