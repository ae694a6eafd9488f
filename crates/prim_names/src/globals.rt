//! Names of a module: its namespace, and behind that the built-ins.

ghost use Rattle.std.specs.Prelude.{◌≡◌, [], ◌∷◌, IsSome};
ghost use Rattle.mpy_base.specs.World.{ADict, IsA};
ghost use Rattle.prim_methods.specs.arena_objects.Iterables.{or_nothing};
ghost use Rattle.prim_raising.specs.py_effects.py_primitives.Builtins.{global_named as builtin_of_name};
ghost use Rattle.prim_raising.specs.py_effects.Names.{load_global as loads, store_global as stores, delete_global as deletes, built_in as finds_builtin};
ghost use Rattle.prim_methods.specs.prim_faults.Sights.{under};
ghost use Rattle.prim_raising.specs.Worlds.{Stands, HasEffect};

use crate::builtins::global_of;
use arena_heap::{Arena, Constants, DictNo, StrNo, Value};
use prim_methods::set_item;
use prim_operators::{Fault, Stop, dict_delete, dict_get};

/// The bytes of a name.
pub(crate) fn name_bytes<C: Constants>(consts: &C, name: StrNo) -> &[u8]
    requires { IsSome (C.text_of consts.now name) }
    ensures { result.now ≡ or_nothing (C.text_of consts.now name) }
{
    consts.text(name).unwrap()
}

/// What a name means that its namespace lacks.
#[inline(never)]
fn load_builtin<C: Constants>(_arena: &Arena, consts: &C, name: StrNo) -> Result<Value, Stop>
    requires name { IsSome (C.text_of consts.now name) }
    requires stands { under C.Constants consts.now Stands _arena.now [] }
    ensures { under C.Constants consts.now HasEffect _arena.now _arena.now result (λ w see. finds_builtin w (see.text name) (builtin_of_name (see.text name))) }
{
    match global_of(consts, name) {
        Some(b) => Ok(Value::Built(b)),
        None => Err(Stop::Raises(Fault::NoSuchName(name))),
    }
}

/// The value of a name in the namespace of its module, else the built-in of that name.
#[inline(always)]
pub fn load_global<C: Constants>(
    arena: &Arena,
    consts: &C,
    names: DictNo,
    name: StrNo,
) -> Result<Value, Stop>
    requires names { IsA arena.now.objects ADict names.cell }
    requires name { IsSome (C.text_of consts.now name) }
    requires stands { under C.Constants consts.now Stands arena.now [] }
    ensures { under C.Constants consts.now HasEffect arena.now arena.now result (λ w see. loads w names.cell (see.text name)) }
{
    arena.sound_law();
    match dict_get(arena, consts, names, Value::Str(name)) {
        Some(v) => Ok(v),
        None => load_builtin(arena, consts, name),
    }
}

/// Sets a name in the namespace of its module. A new name may ask for the next room.
pub fn store_global<C: Constants>(
    arena: &mut Arena,
    consts: &C,
    names: DictNo,
    name: StrNo,
    v: Value,
) -> Result<Value, Stop>
    requires names { IsA arena.old.objects ADict names.cell }
    requires name { IsSome (C.text_of consts.now name) }
    requires stands { under C.Constants consts.now Stands arena.old (v ∷ []) }
    ensures { under C.Constants consts.now HasEffect arena.old arena.new result (λ w see. stores w names.cell (see.text name) (see.value v)) }
{
    set_item(arena, consts, Value::Dict(names), Value::Str(name), v)
}

/// Takes a name out of the namespace of its module.
pub fn delete_global<C: Constants>(
    arena: &mut Arena,
    consts: &C,
    names: DictNo,
    name: StrNo,
) -> Result<Value, Stop>
    requires names { IsA arena.old.objects ADict names.cell }
    requires name { IsSome (C.text_of consts.now name) }
    requires stands { under C.Constants consts.now Stands arena.old [] }
    ensures { under C.Constants consts.now HasEffect arena.old arena.new result (λ w see. deletes w names.cell (see.text name)) }
{
    arena.sound_law();
    match dict_delete(arena, consts, names, Value::Str(name)) {
        Some(_) => Ok(Value::None),
        None => Err(Stop::Raises(Fault::NoSuchName(name))),
    }
}
