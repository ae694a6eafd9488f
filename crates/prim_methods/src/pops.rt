//! `pop` of lists.

ghost use Rattle.std.specs.Prelude.{◌<◌, ◌^◌, length, map};
ghost use Rattle.mpy_base.specs.declared.builtin.Builtin.TheVariants as builtins;
ghost use Rattle.mpy_base.specs.World.{AList, IsA, items_at};
ghost use Rattle.mpy_base.specs.Val.{Int};
ghost use Rattle.prim_assignments.specs.arena_heap.Values.{Leads, IsList, IsSmall};
ghost use Rattle.prim_builtins.specs.py_primitives.Methods.{pop as pop_in, pop_from as pop_from_in};
ghost use Rattle.prim_assignments.specs.prim_faults.Sights.{calling_method, TellsAll, KnowsAll, Does};

use crate::objects::list_number;
use arena_heap::{Arena, Constants, ListNo, Value, list_len, list_pop};
use prim_assignments::{items_law, place_of};
use prim_builtins::{Fault, Stop, number_of, only_between};

/// Takes out the item that a number names.
fn pop_from<C: Constants>(
    arena: &mut Arena,
    consts: &C,
    l: ListNo,
    number: i32,
) -> Result<Value, Stop>
    requires list { IsA arena.old.objects AList l.cell }
    requires small { IsSmall number }
    requires all_told { TellsAll C.Constants consts.now arena.old }
    ensures { Does C.Constants consts.now arena.old arena.new result
        (λ heap see. pop_from_in heap l.cell (map see.value (items_at arena.old l.cell)) (Int number)) }
{
    if list_len(arena, l) == 0 {
        return Err(Stop::Raises(Fault::EmptyList));
    }
    items_law(arena, consts, Value::List(l));
    match place_of(arena, consts, Value::List(l), Value::Int(number)) {
        Ok(at) => match list_pop(arena, l, at as u32) {
            Some(item) => Ok(item),
            None => unreachable!(),
        },
        Err(fault) => Err(Stop::Raises(fault)),
    }
}

/// Takes out the last item, or that which an index names.
fn pop<C: Constants>(
    arena: &mut Arena,
    consts: &C,
    l: ListNo,
    args: &[Value],
) -> Result<Value, Stop>
    requires list { IsA arena.old.objects AList l.cell }
    requires known { KnowsAll C.Constants consts.now arena.old args.now }
    requires all_told { TellsAll C.Constants consts.now arena.old }
    ensures { Does C.Constants consts.now arena.old arena.new result
        (λ heap see. pop_in heap l.cell (map see.value (items_at arena.old l.cell)) (map see.value args.now)) }
{
    if args.is_empty() {
        return pop_from(arena, consts, l, -1);
    }
    match number_of(arena, args[0]) {
        Ok(number) => pop_from(arena, consts, l, number),
        Err(fault) => Err(Stop::Raises(fault)),
    }
}

/// `pop` of a list, with these arguments.
pub fn call_list_pop<C: Constants>(
    arena: &mut Arena,
    consts: &C,
    object: Value,
    args: &[Value],
    keys: &[(Value, Value)],
) -> Result<Value, Stop>
    requires list { IsList object }
    requires leads { Leads arena.old.objects object }
    requires few { length args.now < 2 ^ 32 }
    requires known { KnowsAll C.Constants consts.now arena.old args.now }
    requires all_told { TellsAll C.Constants consts.now arena.old }
    ensures { Does C.Constants consts.now arena.old arena.new result (calling_method builtins.ListPop object args.now keys.now) }
{
    let l = list_number(object);
    match only_between(0, 1, args, keys) {
        Ok(()) => pop(arena, consts, l, args),
        Err(fault) => Err(Stop::Raises(fault)),
    }
}
