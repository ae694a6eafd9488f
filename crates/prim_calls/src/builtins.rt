//! Calls of built-ins that concern the heap alone.

ghost use Rattle.std.specs.Prelude.{◌≡◌, List, ◌<◌, ◌^◌, length};
ghost use Rattle.mpy_base.specs.Val.{Val, Nil};
ghost use Rattle.prim_types.specs.py_values.Shown.{PlainHeap};
ghost use Rattle.prim_types.specs.py_primitives.Outcome.{gives};
ghost use Rattle.prim_types.specs.py_primitives.Calls.{Exactly, Between, counts_of, called};
ghost use Rattle.prim_methods.specs.prim_faults.Sights.{calling, TellsAll, KnowsAll, Does};
ghost use Rattle.prim_calls.specs.Families.{IsOnHeap, IsUnbound};

use arena_heap::{Arena, Constants, Value};
use mpy_base::Builtin;
use prim_builtins::{
    Stop, call_abs, call_bool, call_chr, call_len, call_ord, call_range, only_between, only_so_many,
};
use prim_collections::{call_list, call_max, call_min, call_tuple};
use prim_types::{call_dict, call_int, call_isinstance, call_kind, call_shown};

/// A built-in that only judges how many arguments it is given.
fn take_exactly<C: Constants>(
    arena: &Arena,
    _consts: &C,
    b: Builtin,
    count: u32,
    args: &[Value],
    keys: &[(Value, Value)],
) -> Result<Value, Stop>
    requires few { length args.now < 2 ^ 32 }
    requires counts { counts_of b ≡ Exactly count }
    requires nothing { (heap : PlainHeap) (given : List Val) → called heap b given ≡ gives Nil heap }
    requires all_told { TellsAll C.Constants _consts.now arena.now }
    ensures { Does C.Constants _consts.now arena.now arena.now result (calling b args.now keys.now) }
{
    match only_so_many(count, args, keys) {
        Ok(()) => Ok(Value::None),
        Err(fault) => Err(Stop::Raises(fault)),
    }
}

/// A built-in that only judges whether it is given from `least` to `most` arguments.
fn take_between<C: Constants>(
    arena: &Arena,
    _consts: &C,
    b: Builtin,
    bounds: (u32, u32),
    args: &[Value],
    keys: &[(Value, Value)],
) -> Result<Value, Stop>
    requires few { length args.now < 2 ^ 32 }
    requires counts { counts_of b ≡ Between bounds.0 bounds.1 }
    requires nothing { (heap : PlainHeap) (given : List Val) → called heap b given ≡ gives Nil heap }
    requires all_told { TellsAll C.Constants _consts.now arena.now }
    ensures { Does C.Constants _consts.now arena.now arena.now result (calling b args.now keys.now) }
{
    match only_between(bounds.0, bounds.1, args, keys) {
        Ok(()) => Ok(Value::None),
        Err(fault) => Err(Stop::Raises(fault)),
    }
}

/// A method that is called as a built-in, without its object: it judges the count of its arguments, and gives None.
fn call_unbound<C: Constants>(
    arena: &Arena,
    consts: &C,
    b: Builtin,
    args: &[Value],
    keys: &[(Value, Value)],
) -> Result<Value, Stop>
    requires method { IsUnbound b }
    requires few { length args.now < 2 ^ 32 }
    requires all_told { TellsAll C.Constants consts.now arena.now }
    ensures { Does C.Constants consts.now arena.now arena.now result (calling b args.now keys.now) }
{
    match b {
        Builtin::ListAppend => take_exactly(arena, consts, Builtin::ListAppend, 1, args, keys),
        Builtin::ListPop => take_between(arena, consts, Builtin::ListPop, (0, 1), args, keys),
        Builtin::ListInsert => take_exactly(arena, consts, Builtin::ListInsert, 2, args, keys),
        Builtin::ListExtend => take_exactly(arena, consts, Builtin::ListExtend, 1, args, keys),
        Builtin::DictGet => take_between(arena, consts, Builtin::DictGet, (1, 2), args, keys),
        Builtin::DictKeys => take_exactly(arena, consts, Builtin::DictKeys, 0, args, keys),
        Builtin::DictValues => take_exactly(arena, consts, Builtin::DictValues, 0, args, keys),
        Builtin::DictItems => take_exactly(arena, consts, Builtin::DictItems, 0, args, keys),
        Builtin::DictPop => take_between(arena, consts, Builtin::DictPop, (1, 2), args, keys),
        Builtin::StrJoin => take_exactly(arena, consts, Builtin::StrJoin, 1, args, keys),
        Builtin::StrFind => take_exactly(arena, consts, Builtin::StrFind, 1, args, keys),
        Builtin::StrStartsWith => take_exactly(
            arena,
            consts,
            Builtin::StrStartsWith,
            1,
            args,
            keys,
        ),
        Builtin::StrSplit => take_between(arena, consts, Builtin::StrSplit, (0, 1), args, keys),
        _ => unreachable!(),
    }
}

/// A built-in that concerns the heap alone, with these arguments.
pub fn call_on_heap<C: Constants>(
    arena: &mut Arena,
    consts: &C,
    b: Builtin,
    args: &[Value],
    keys: &[(Value, Value)],
) -> Result<Value, Stop>
    requires on_heap { IsOnHeap b }
    requires few { length args.now < 2 ^ 32 }
    requires known { KnowsAll C.Constants consts.now arena.old args.now }
    requires all_told { TellsAll C.Constants consts.now arena.old }
    ensures { Does C.Constants consts.now arena.old arena.new result (calling b args.now keys.now) }
{
    match b {
        Builtin::Bool => call_bool(arena, consts, args, keys),
        Builtin::Int => call_int(arena, consts, args, keys),
        Builtin::Str => call_shown(arena, consts, args, keys, true),
        Builtin::List => call_list(arena, consts, args, keys),
        Builtin::Tuple => call_tuple(arena, consts, args, keys),
        Builtin::Dict => call_dict(arena, consts, args, keys),
        Builtin::Len => call_len(arena, consts, args, keys),
        Builtin::Abs => call_abs(arena, consts, args, keys),
        Builtin::Range => call_range(arena, consts, args, keys),
        Builtin::Min => call_min(arena, consts, args, keys),
        Builtin::Max => call_max(arena, consts, args, keys),
        Builtin::Repr => call_shown(arena, consts, args, keys, false),
        Builtin::Ord => call_ord(arena, consts, args, keys),
        Builtin::Chr => call_chr(arena, consts, args, keys),
        Builtin::IsInstance => call_isinstance(arena, consts, args, keys),
        Builtin::Kind(kind) => call_kind(arena, consts, kind, args, keys),
        _ => call_unbound(arena, consts, b, args, keys),
    }
}
