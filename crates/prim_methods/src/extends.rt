//! `extend` of lists.

ghost use Rattle.std.specs.Prelude.{◌<◌, ◌^◌, length};
ghost use Rattle.mpy_base.specs.declared.builtin.Builtin.TheVariants as builtins;
ghost use Rattle.mpy_base.specs.World.{AList, IsA};
ghost use Rattle.mpy_base.specs.Val.{Nil};
ghost use Rattle.prim_assignments.specs.arena_heap.Values.{Leads, IsList};
ghost use Rattle.prim_builtins.specs.py_primitives.Outcome.{followed_by, gives};
ghost use Rattle.prim_builtins.specs.py_primitives.Operators.{extend as extend_in};
ghost use Rattle.prim_assignments.specs.prim_faults.Sights.{calling_method, Tells, TellsAll, KnowsAll, Does, CountsUpTo};

use crate::objects::list_number;
use arena_heap::{Arena, Constants, ListNo, Value};
use prim_assignments::{extend_list, length_of};
use prim_builtins::{Stop, one_argument};

/// Extends a list, and gives None.
fn extend_only<C: Constants>(
    arena: &mut Arena,
    consts: &C,
    l: ListNo,
    from: Value,
) -> Result<Value, Stop>
    requires list { IsA arena.old.objects AList l.cell }
    requires leads { Leads arena.old.objects from }
    requires told { Tells C.Constants consts.now from }
    requires all_told { TellsAll C.Constants consts.now arena.old }
    ensures { Does C.Constants consts.now arena.old arena.new result
        (λ heap see. followed_by (extend_in heap l.cell (see.value from)) (λ extended behind. gives Nil behind)) }
{
    match extend_list(arena, consts, l, from) {
        Ok(_) => Ok(Value::None),
        Err(stop) => Err(stop),
    }
}

/// `extend` of a list, with these arguments.
pub fn call_list_extend<C: Constants>(
    arena: &mut Arena,
    consts: &C,
    object: Value,
    args: &[Value],
    keys: &[(Value, Value)],
) -> Result<Value, Stop>
    requires list { IsList object }
    requires leads { Leads arena.old.objects object }
    requires few { length args.now < 2 ^ 32 }
    requires known { KnowsAll C.Constants consts.now arena.old args.now }
    requires all_told { TellsAll C.Constants consts.now arena.old }
    ensures { Does C.Constants consts.now arena.old arena.new result (calling_method builtins.ListExtend object args.now keys.now) }
{
    let l = list_number(object);
    match one_argument(args, keys) {
        Ok(from) => extend_only(arena, consts, l, from),
        Err(fault) => Err(Stop::Raises(fault)),
    }
}

/// The visits of `extend`, or `most` if there are more.
pub fn visits_call_list_extend<C: Constants>(
    arena: &Arena,
    consts: &C,
    object: Value,
    args: &[Value],
    keys: &[(Value, Value)],
    most: u64,
) -> u64
    requires list { IsList object }
    requires leads { Leads arena.now.objects object }
    requires few { length args.now < 2 ^ 32 }
    requires known { KnowsAll C.Constants consts.now arena.now args.now }
    ensures { CountsUpTo C.Constants consts.now result most arena.now (calling_method builtins.ListExtend object args.now keys.now) }
{
    let _l = list_number(object);
    match one_argument(args, keys) {
        Ok(from) => most.min(length_of(arena, consts, from) as u64),
        Err(_) => 0,
    }
}
