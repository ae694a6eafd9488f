//! `append` of lists.

ghost use Rattle.std.specs.Prelude.{◌<◌, ◌^◌, ◌++◌, ◌∷◌, [], length, map};
ghost use Rattle.mpy_base.specs.declared.builtin.Builtin.TheVariants as builtins;
ghost use Rattle.mpy_base.specs.World.{AList, IsA, items_at};
ghost use Rattle.prim_assignments.specs.arena_heap.Values.{Leads, IsList};
ghost use Rattle.prim_builtins.specs.py_primitives.Methods.{put_items};
ghost use Rattle.prim_assignments.specs.prim_faults.Sights.{calling_method, Tells, TellsAll, KnowsAll, Does};

use crate::objects::list_number;
use crate::puts::put_item;
use arena_heap::{Arena, Constants, ListNo, Value, list_len};
use prim_builtins::{Stop, one_argument};

fn append<C: Constants>(arena: &mut Arena, consts: &C, l: ListNo, v: Value) -> Result<Value, Stop>
    requires list { IsA arena.old.objects AList l.cell }
    requires leads { Leads arena.old.objects v }
    requires told { Tells C.Constants consts.now v }
    requires all_told { TellsAll C.Constants consts.now arena.old }
    ensures { Does C.Constants consts.now arena.old arena.new result
        (λ heap see. put_items heap l.cell (map see.value (items_at arena.old l.cell) ++ see.value v ∷ [])) }
{
    let end = list_len(arena, l);
    put_item(arena, consts, l, end, v)
}

/// `append` of a list, with these arguments.
pub fn call_list_append<C: Constants>(
    arena: &mut Arena,
    consts: &C,
    object: Value,
    args: &[Value],
    keys: &[(Value, Value)],
) -> Result<Value, Stop>
    requires list { IsList object }
    requires leads { Leads arena.old.objects object }
    requires few { length args.now < 2 ^ 32 }
    requires known { KnowsAll C.Constants consts.now arena.old args.now }
    requires all_told { TellsAll C.Constants consts.now arena.old }
    ensures { Does C.Constants consts.now arena.old arena.new result (calling_method builtins.ListAppend object args.now keys.now) }
{
    let l = list_number(object);
    match one_argument(args, keys) {
        Ok(v) => append(arena, consts, l, v),
        Err(fault) => Err(Stop::Raises(fault)),
    }
}
