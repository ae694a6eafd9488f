//! Attributes of method calls and of imports.

ghost use Rattle.std.specs.Prelude.{[], ◌∷◌, IsSome};
ghost use Rattle.prim_raising.specs.py_effects.Names.{load_method as loads_method, import_from as imports};
ghost use Rattle.prim_methods.specs.prim_faults.Sights.{under};
ghost use Rattle.prim_raising.specs.Worlds.{Stands, HasEffect};
ghost use Rattle.prim_names.specs.Looks.{Looks};

use arena_heap::{Arena, Constants, StrNo, Value};
use mpy_base::Builtin;
use prim_operators::{Attribute, Fault, Stop, attribute_of, bind_method, type_of};

/// What a method call begins with: a method and its object, or any value.
#[derive(Clone, Copy, Debug, PartialEq, Eq)]
pub enum Looked {
    Bound { method: Builtin, object: Value },
    Free(Value),
}

/// What the call of an attribute begins with. A method isn't bound, which takes no room.
pub fn load_method<C: Constants>(
    arena: &Arena,
    consts: &C,
    object: Value,
    name: StrNo,
) -> Result<Looked, Stop>
    requires name { IsSome (C.text_of consts.now name) }
    requires stands { under C.Constants consts.now Stands arena.now (object ∷ []) }
    ensures { under C.Constants consts.now Looks arena.now result (λ w see. loads_method w (see.value object) (see.text name)) }
{
    match attribute_of(arena, consts, object, name) {
        Attribute::Found(v) => Ok(Looked::Free(v)),
        Attribute::Method(method) => Ok(Looked::Bound { method, object }),
        Attribute::Absent => Err(Stop::Raises(Fault::NoAttribute {
            object: type_of(arena, object),
            name,
        })),
    }
}

/// An attribute that is imported, and a fault of its own where there is none. A method is bound to its object.
pub fn import_from<C: Constants>(
    arena: &mut Arena,
    consts: &C,
    object: Value,
    name: StrNo,
) -> Result<Value, Stop>
    requires name { IsSome (C.text_of consts.now name) }
    requires stands { under C.Constants consts.now Stands arena.old (object ∷ []) }
    ensures { under C.Constants consts.now HasEffect arena.old arena.new result (λ w see. imports w (see.value object) (see.text name)) }
{
    match attribute_of(arena, consts, object, name) {
        Attribute::Found(v) => Ok(v),
        Attribute::Method(method) => bind_method(arena, consts, object, method),
        Attribute::Absent => Err(Stop::Raises(Fault::NotImported(name))),
    }
}
