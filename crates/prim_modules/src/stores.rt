//! Modules that are stored in the namespaces of others.

ghost use Rattle.std.specs.Prelude.{◌≡◌, Some, option_and_then};
ghost use Rattle.std.specs.Option.{option_map};
ghost use Rattle.mpy_base.specs.World.{AModule, IsA, Later};
ghost use Rattle.py_effects.specs.Heaps.{Registered};
ghost use Rattle.py_effects.specs.Modules.{registered_as as registered_in, outer_name, last_part, store_module as store_module_in};
ghost use Rattle.prim_assignments.specs.prim_faults.Sights.{sight, TellsAll, KnowsAnswer};
ghost use Rattle.prim_modules.specs.Registry.{plain_modules};
ghost use Rattle.prim_modules.specs.Effects.{IsStored};

use crate::dots::last_dot;
use crate::registry::Modules;
use arena_heap::{Arena, Constants, ModuleNo, StrNo, Value};
use prim_assignments::{Stop, name_bytes, set_attr};

/// The registered module before a dotted name.
fn outer_module<C: Constants>(consts: &C, modules: &Modules, name: u32) -> Option<ModuleNo>
    ensures { let see = sight C.Constants consts.now in option_map (λ m. m.cell) result
        ≡ option_and_then (registered_in (plain_modules see.texts see.tuples modules.now)) (outer_name (see.name name)) }
{
    let text = name_bytes(consts, StrNo::Pool(name));
    match last_dot(text) {
        Some(at) => modules.registered_as(consts, &text[..at]),
        None => None,
    }
}

/// Stores a module in the namespace of the registered module before its name, if there is one. `last` is the text of the
/// last part of its name.
pub fn store_module<C: Constants>(
    arena: &mut Arena,
    consts: &C,
    modules: &Modules,
    name: u32,
    last: StrNo,
    m: ModuleNo,
) -> Result<Value, Stop>
    requires last { let see = sight C.Constants consts.now in see.texts last ≡ Some (last_part (see.name name)) }
    requires is_module { IsA arena.old.objects AModule m.cell }
    requires registered { let see = sight C.Constants consts.now in Registered (plain_modules see.texts see.tuples modules.now) (see.heap arena.old) }
    requires all_told { TellsAll C.Constants consts.now arena.old }
    ensures effect { let see = sight C.Constants consts.now
        in IsStored see.texts see.tuples arena.old arena.new modules.now result (λ w. store_module_in w (see.name name) m.cell) }
    ensures known { KnowsAnswer C.Constants consts.now arena.new result }
    ensures later { Later arena.old.objects arena.new.objects }
    ensures all_told { TellsAll C.Constants consts.now arena.new }
{
    match outer_module(consts, modules, name) {
        Some(outer) => set_attr(arena, consts, Value::Module(outer), last, Value::Module(m)),
        None => Ok(Value::None),
    }
}
