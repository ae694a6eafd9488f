//! `range` of one to three numbers.

ghost use Rattle.std.specs.Prelude.{◌≡◌, ◌≢◌, ◌<◌, ◌^◌, ◌≤◌, pos, length, map};
ghost use Rattle.prim_operators.specs.mpy_base.World.{RangeObject};
ghost use Rattle.prim_operators.specs.mpy_base.declared.builtin.Builtin.TheVariants as builtins;
ghost use Rattle.prim_operators.specs.arena_heap.Values.{Leads, IsSmall};
ghost use Rattle.prim_operators.specs.py_primitives.Outcome.{making};
ghost use Rattle.prim_operators.specs.py_primitives.Calls.{call_range as range_in, range_of as range_from, with_number};
ghost use Rattle.prim_operators.specs.prim_faults.Sights.{calling, TellsAll, KnowsAll, Does};
ghost use Rattle.prim_builtins.specs.Bounds.{given_by, BoundsLead};

use crate::arguments::only_between;
use crate::numbers::number_of;
use prim_operators::{Arena, Constants, Fault, Stop, Value};

/// What a range is called with.
#[derive(Clone, Copy)]
pub(crate) enum Bounds {
    Stop(Value),
    StartStop(Value, Value),
    StartStopStep(Value, Value, Value),
}

/// A range of these numbers, where the step isn't 0.
fn make_range<C: Constants>(
    arena: &mut Arena,
    consts: &C,
    start: i32,
    stop: i32,
    step: i32,
) -> Result<Value, Stop>
    requires start_small { IsSmall start }
    requires stop_small { IsSmall stop }
    requires step_small { IsSmall step }
    requires nonzero { step ≢ pos 0 }
    requires all_told { TellsAll C.Constants consts.now arena.old }
    ensures { Does C.Constants consts.now arena.old arena.new result (λ heap see. making heap (RangeObject start stop step)) }
{
    match arena.make_range(start, stop, step) {
        Ok(range) => Ok(Value::Range(range)),
        Err(room) => Err(Stop::Full(room)),
    }
}

/// A range of these numbers, or the fault of a step that is 0.
fn range_of<C: Constants>(
    arena: &mut Arena,
    consts: &C,
    start: i32,
    stop: i32,
    step: i32,
) -> Result<Value, Stop>
    requires start_small { IsSmall start }
    requires stop_small { IsSmall stop }
    requires step_small { IsSmall step }
    requires all_told { TellsAll C.Constants consts.now arena.old }
    ensures { Does C.Constants consts.now arena.old arena.new result (λ heap see. range_from heap start stop step) }
{
    if step == 0 {
        return Err(Stop::Raises(Fault::ZeroStep));
    }
    make_range(arena, consts, start, stop, step)
}

/// A range of two numbers and a value, which is a fault where it is no number.
fn with_step<C: Constants>(
    arena: &mut Arena,
    consts: &C,
    start: i32,
    stop: i32,
    step: Value,
) -> Result<Value, Stop>
    requires start_small { IsSmall start }
    requires stop_small { IsSmall stop }
    requires step_leads { Leads arena.old.objects step }
    requires all_told { TellsAll C.Constants consts.now arena.old }
    ensures { Does C.Constants consts.now arena.old arena.new result (λ heap see. with_number heap (see.value step) (λ w. range_from heap start stop w)) }
{
    match number_of(arena, step) {
        Ok(z) => range_of(arena, consts, start, stop, z),
        Err(fault) => Err(Stop::Raises(fault)),
    }
}

/// A range of a number and two values.
fn with_stop_and_step<C: Constants>(
    arena: &mut Arena,
    consts: &C,
    start: i32,
    stop: Value,
    step: Value,
) -> Result<Value, Stop>
    requires start_small { IsSmall start }
    requires stop_leads { Leads arena.old.objects stop }
    requires step_leads { Leads arena.old.objects step }
    requires all_told { TellsAll C.Constants consts.now arena.old }
    ensures { Does C.Constants consts.now arena.old arena.new result
        (λ heap see. with_number heap (see.value stop) (λ y. with_number heap (see.value step) (λ w. range_from heap start y w))) }
{
    match number_of(arena, stop) {
        Ok(z) => with_step(arena, consts, start, z, step),
        Err(fault) => Err(Stop::Raises(fault)),
    }
}

/// `range` of three values.
fn with_all<C: Constants>(
    arena: &mut Arena,
    consts: &C,
    start: Value,
    stop: Value,
    step: Value,
) -> Result<Value, Stop>
    requires start_leads { Leads arena.old.objects start }
    requires stop_leads { Leads arena.old.objects stop }
    requires step_leads { Leads arena.old.objects step }
    requires all_told { TellsAll C.Constants consts.now arena.old }
    ensures { Does C.Constants consts.now arena.old arena.new result
        (λ heap see. with_number heap (see.value start)
        (λ x. with_number heap (see.value stop) (λ y. with_number heap (see.value step) (λ w. range_from heap x y w)))) }
{
    match number_of(arena, start) {
        Ok(z) => with_stop_and_step(arena, consts, z, stop, step),
        Err(fault) => Err(Stop::Raises(fault)),
    }
}

/// A range of a number and a value, with step 1.
fn with_stop<C: Constants>(
    arena: &mut Arena,
    consts: &C,
    start: i32,
    stop: Value,
) -> Result<Value, Stop>
    requires start_small { IsSmall start }
    requires stop_leads { Leads arena.old.objects stop }
    requires all_told { TellsAll C.Constants consts.now arena.old }
    ensures { Does C.Constants consts.now arena.old arena.new result (λ heap see. with_number heap (see.value stop) (λ y. range_from heap start y (pos 1))) }
{
    match number_of(arena, stop) {
        Ok(z) => range_of(arena, consts, start, z, 1),
        Err(fault) => Err(Stop::Raises(fault)),
    }
}

/// `range` of two values.
fn with_start_and_stop<C: Constants>(
    arena: &mut Arena,
    consts: &C,
    start: Value,
    stop: Value,
) -> Result<Value, Stop>
    requires start_leads { Leads arena.old.objects start }
    requires stop_leads { Leads arena.old.objects stop }
    requires all_told { TellsAll C.Constants consts.now arena.old }
    ensures { Does C.Constants consts.now arena.old arena.new result
        (λ heap see. with_number heap (see.value start) (λ x. with_number heap (see.value stop) (λ y. range_from heap x y (pos 1)))) }
{
    match number_of(arena, start) {
        Ok(z) => with_stop(arena, consts, z, stop),
        Err(fault) => Err(Stop::Raises(fault)),
    }
}

/// `range` of one to three values.
fn with_bounds<C: Constants>(arena: &mut Arena, consts: &C, bounds: Bounds) -> Result<Value, Stop>
    requires leads { BoundsLead arena.old.objects bounds }
    requires all_told { TellsAll C.Constants consts.now arena.old }
    ensures { Does C.Constants consts.now arena.old arena.new result (λ heap see. range_in heap (map see.value (given_by bounds))) }
{
    match bounds {
        Bounds::Stop(stop) => with_stop(arena, consts, 0, stop),
        Bounds::StartStop(start, stop) => with_start_and_stop(arena, consts, start, stop),
        Bounds::StartStopStep(start, stop, step) => with_all(arena, consts, start, stop, step),
    }
}

/// What a range is called with, of one to three arguments.
fn bounds_of(args: &[Value]) -> Bounds
    requires least { 1 ≤ length args.now }
    requires most { length args.now ≤ 3 }
    ensures { given_by result ≡ args.now }
{
    if args.len() == 1 {
        Bounds::Stop(args[0])
    } else if args.len() == 2 {
        Bounds::StartStop(args[0], args[1])
    } else {
        Bounds::StartStopStep(args[0], args[1], args[2])
    }
}

/// `range` of these arguments.
pub fn call_range<C: Constants>(
    arena: &mut Arena,
    consts: &C,
    args: &[Value],
    keys: &[(Value, Value)],
) -> Result<Value, Stop>
    requires few { length args.now < 2 ^ 32 }
    requires known { KnowsAll C.Constants consts.now arena.old args.now }
    requires all_told { TellsAll C.Constants consts.now arena.old }
    ensures { Does C.Constants consts.now arena.old arena.new result (calling builtins.Range args.now keys.now) }
{
    match only_between(1, 3, args, keys) {
        Ok(()) => with_bounds(arena, consts, bounds_of(args)),
        Err(fault) => Err(Stop::Raises(fault)),
    }
}
