//! `dict`.

ghost use Rattle.std.specs.Prelude.{◌<◌, ◌^◌, length, map, All};
ghost use Rattle.mpy_base.specs.declared.builtin.Builtin.TheVariants as builtins;
ghost use Rattle.prim_builtins.specs.arena_objects.Keys.{AllTold};
ghost use Rattle.prim_builtins.specs.py_primitives.Calls.{call, call_dict as dict_in};
ghost use Rattle.prim_builtins.specs.prim_walks.Plain.{plain, plain_pair, plain_heap};
ghost use Rattle.prim_builtins.specs.prim_faults.Faults.{IsKnown};
ghost use Rattle.prim_builtins.specs.prim_faults.Outcomes.{IsOutcome};

use prim_builtins::only_so_many;
use prim_operators::{Arena, Constants, Stop, Value};

fn make_dict<C: Constants>(arena: &mut Arena, _consts: &C) -> Result<Value, Stop>
    requires all_told { AllTold (C.text_of _consts.now) (C.items_of _consts.now) arena.old.objects }
    ensures { IsOutcome (C.text_of _consts.now) (C.items_of _consts.now) arena.old arena.new result
        (dict_in (plain_heap (C.text_of _consts.now) (C.items_of _consts.now) arena.old)) }
{
    match arena.make_dict(0) {
        Ok(dict) => Ok(Value::Dict(dict)),
        Err(room) => Err(Stop::Full(room)),
    }
}

/// `dict`, which takes no arguments.
pub fn call_dict<C: Constants>(
    arena: &mut Arena,
    consts: &C,
    args: &[Value],
    keys: &[(Value, Value)],
) -> Result<Value, Stop>
    requires few { length args.now < 2 ^ 32 }
    requires known { All (IsKnown (C.text_of consts.now) (C.items_of consts.now) arena.old.objects) args.now }
    requires all_told { AllTold (C.text_of consts.now) (C.items_of consts.now) arena.old.objects }
    ensures { IsOutcome (C.text_of consts.now) (C.items_of consts.now) arena.old arena.new result
        (call (plain_heap (C.text_of consts.now) (C.items_of consts.now) arena.old) builtins.Dict
        (map (plain (C.text_of consts.now) (C.items_of consts.now)) args.now)
        (map (plain_pair (C.text_of consts.now) (C.items_of consts.now)) keys.now)) }
{
    match only_so_many(0, args, keys) {
        Ok(()) => make_dict(arena, consts),
        Err(fault) => Err(Stop::Raises(fault)),
    }
}
