//! Calls of kinds, which make exceptions.

ghost use Rattle.std.specs.Prelude.{◌≡◌, ◌<◌, ◌^◌, [], length, map, All, IfOk, Some, slice_get};
ghost use Rattle.mpy_base.specs.World.{ExceptionObject, ATuple, IsA, Later, items_at, with_tuple};
ghost use Rattle.mpy_base.specs.declared.builtin.Builtin.TheVariants as builtins;
ghost use Rattle.prim_builtins.specs.arena_heap.Values.{Leads, IsTuple};
ghost use Rattle.prim_builtins.specs.arena_heap.Constants.{IsTold};
ghost use Rattle.prim_builtins.specs.arena_objects.Keys.{AllTold};
ghost use Rattle.prim_builtins.specs.py_primitives.Outcome.{making, making_tuple, making_exception};
ghost use Rattle.prim_builtins.specs.py_primitives.Calls.{call};
ghost use Rattle.prim_builtins.specs.prim_walks.Plain.{plain, plain_pair, plain_heap};
ghost use Rattle.prim_builtins.specs.prim_faults.Faults.{IsKnown};
ghost use Rattle.prim_builtins.specs.prim_faults.Outcomes.{IsOutcome};

use mpy_base::Kind;
use prim_operators::{Arena, Constants, Fault, Stop, TupleNo, Value, tuple_fill};

fn argument_at(args: &[Value], at: usize) -> Value
    requires { at < length args.now }
    ensures { slice_get args.now at ≡ Some result }
{
    args[at]
}

/// Fills a tuple with arguments.
fn fill_arguments<C: Constants>(arena: &mut Arena, _consts: &C, t: TupleNo, args: &[Value])
    requires tuple { IsA arena.old.objects ATuple t.cell }
    requires few { length args.now < 2 ^ 32 }
    requires known { All (IsKnown (C.text_of _consts.now) (C.items_of _consts.now) arena.old.objects) args.now }
    requires all_told { AllTold (C.text_of _consts.now) (C.items_of _consts.now) arena.old.objects }
    requires room { length (items_at arena.old t.cell) ≡ length args.now }
    ensures filled { arena.new ≡ with_tuple arena.old t.cell args.now }
    ensures later { Later arena.old.objects arena.new.objects }
    ensures all_told { AllTold (C.text_of _consts.now) (C.items_of _consts.now) arena.new.objects }
{
    for at in 0..args.len() {
        let argument = argument_at(args, at);
        tuple_fill(arena, t, at as u32, argument);
    }
}

/// A tuple of these values. The empty one takes no room.
pub fn make_tuple<C: Constants>(
    arena: &mut Arena,
    consts: &C,
    args: &[Value],
) -> Result<Value, Stop>
    requires few { length args.now < 2 ^ 32 }
    requires known { All (IsKnown (C.text_of consts.now) (C.items_of consts.now) arena.old.objects) args.now }
    requires all_told { AllTold (C.text_of consts.now) (C.items_of consts.now) arena.old.objects }
    ensures outcome { IsOutcome (C.text_of consts.now) (C.items_of consts.now) arena.old arena.new result
        (making_tuple (plain_heap (C.text_of consts.now) (C.items_of consts.now) arena.old)
        (map (plain (C.text_of consts.now) (C.items_of consts.now)) args.now)) }
    ensures tuple { IfOk result IsTuple }
{
    let count = args.len();
    if count == 0 {
        return Ok(Value::Empty);
    }
    match arena.make_tuple(count as u64) {
        Ok(t) => {
            fill_arguments(arena, consts, t, args);
            Ok(Value::Tuple(t))
        }
        Err(room) => Err(Stop::Full(room)),
    }
}

/// An exception that has this tuple of arguments.
fn make_raised<C: Constants>(
    arena: &mut Arena,
    consts: &C,
    kind: Kind,
    args: Value,
) -> Result<Value, Stop>
    requires leads { Leads arena.old.objects args }
    requires told { IsTold (C.text_of consts.now) (C.items_of consts.now) args }
    requires tuple { IsTuple args }
    requires all_told { AllTold (C.text_of consts.now) (C.items_of consts.now) arena.old.objects }
    ensures { IsOutcome (C.text_of consts.now) (C.items_of consts.now) arena.old arena.new result
        (making (plain_heap (C.text_of consts.now) (C.items_of consts.now) arena.old)
        (ExceptionObject kind (plain (C.text_of consts.now) (C.items_of consts.now) args) [] 0 [])) }
{
    consts.empty_law();
    match arena.make_exc(kind, args) {
        Ok(e) => Ok(Value::Exc(e)),
        Err(room) => Err(Stop::Full(room)),
    }
}

/// An exception of this kind with these arguments. The tuple of the arguments is made first.
fn make_exception<C: Constants>(
    arena: &mut Arena,
    consts: &C,
    kind: Kind,
    args: &[Value],
) -> Result<Value, Stop>
    requires few { length args.now < 2 ^ 32 }
    requires known { All (IsKnown (C.text_of consts.now) (C.items_of consts.now) arena.old.objects) args.now }
    requires all_told { AllTold (C.text_of consts.now) (C.items_of consts.now) arena.old.objects }
    ensures { IsOutcome (C.text_of consts.now) (C.items_of consts.now) arena.old arena.new result
        (making_exception (plain_heap (C.text_of consts.now) (C.items_of consts.now) arena.old) kind
        (map (plain (C.text_of consts.now) (C.items_of consts.now)) args.now)) }
{
    match make_tuple(arena, consts, args) {
        Ok(tuple) => make_raised(arena, consts, kind, tuple),
        Err(stop) => Err(stop),
    }
}

/// An exception of a kind, which is called with these arguments.
pub fn call_kind<C: Constants>(
    arena: &mut Arena,
    consts: &C,
    kind: Kind,
    args: &[Value],
    keys: &[(Value, Value)],
) -> Result<Value, Stop>
    requires few { length args.now < 2 ^ 32 }
    requires known { All (IsKnown (C.text_of consts.now) (C.items_of consts.now) arena.old.objects) args.now }
    requires all_told { AllTold (C.text_of consts.now) (C.items_of consts.now) arena.old.objects }
    ensures { IsOutcome (C.text_of consts.now) (C.items_of consts.now) arena.old arena.new result
        (call (plain_heap (C.text_of consts.now) (C.items_of consts.now) arena.old) (builtins.Kind kind)
        (map (plain (C.text_of consts.now) (C.items_of consts.now)) args.now)
        (map (plain_pair (C.text_of consts.now) (C.items_of consts.now)) keys.now)) }
{
    if !keys.is_empty() {
        return Err(Stop::Raises(Fault::NoKeywords));
    }
    make_exception(arena, consts, kind, args)
}
