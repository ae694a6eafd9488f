//! Attributes that are set.

ghost use Rattle.std.specs.Prelude.{IsSome};
ghost use Rattle.prim_operators.specs.mpy_base.World.{AModule, IsA};
ghost use Rattle.prim_operators.specs.mpy_base.Val.{At};
ghost use Rattle.prim_operators.specs.arena_heap.Values.{Leads};
ghost use Rattle.prim_operators.specs.py_primitives.Uses.{set_attr as set_attr_of};
ghost use Rattle.prim_operators.specs.prim_faults.Sights.{Tells, TellsAll, Does};

use crate::pairs::put_pair;
use prim_operators::{
    Arena, Constants, Fault, ModuleNo, Stop, StrNo, Value, module_parts, type_of,
};

/// Sets a name of a module's namespace, where one is set.
fn set_name<C: Constants>(
    arena: &mut Arena,
    consts: &C,
    m: ModuleNo,
    name: StrNo,
    v: Value,
) -> Result<Value, Stop>
    requires is_module { IsA arena.old.objects AModule m.cell }
    requires name { IsSome (C.text_of consts.now name) }
    requires leads { Leads arena.old.objects v }
    requires told { Tells C.Constants consts.now v }
    requires all_told { TellsAll C.Constants consts.now arena.old }
    ensures { Does C.Constants consts.now arena.old arena.new result (λ heap see. set_attr_of heap (At m.cell) (see.text name) (see.value v)) }
{
    let (_, namespace) = module_parts(arena, m);
    match namespace {
        Some(names) => put_pair(arena, consts, names, Value::Str(name), v),
        None => Err(Stop::Raises(Fault::NoAttribute {
            object: type_of(arena, Value::Module(m)),
            name,
        })),
    }
}

/// Sets an attribute. Only modules take any, where their namespace is set.
pub fn set_attr<C: Constants>(
    arena: &mut Arena,
    consts: &C,
    object: Value,
    name: StrNo,
    v: Value,
) -> Result<Value, Stop>
    requires object_leads { Leads arena.old.objects object }
    requires object_told { Tells C.Constants consts.now object }
    requires name { IsSome (C.text_of consts.now name) }
    requires leads { Leads arena.old.objects v }
    requires told { Tells C.Constants consts.now v }
    requires all_told { TellsAll C.Constants consts.now arena.old }
    ensures { Does C.Constants consts.now arena.old arena.new result (λ heap see. set_attr_of heap (see.value object) (see.text name) (see.value v)) }
{
    match object {
        Value::Module(m) => set_name(arena, consts, m, name, v),
        _ => Err(Stop::Raises(Fault::NoAttribute {
            object: type_of(arena, object),
            name,
        })),
    }
}
