//! Raising: the exception of a fault or of a value is made, and gets the place where it is raised.

ghost use Rattle.std.specs.Prelude.{◌≡◌, ℕ, [], ◌∷◌};
ghost use Rattle.mpy_base.specs.Val.{Empty};
ghost use Rattle.mpy_base.specs.World.{ExceptionObject, Heap, AnException, IsA, Later, with_place};
ghost use Rattle.prim_types.specs.arena_heap.declared.value.Value.{Value as Item};
ghost use Rattle.prim_types.specs.arena_heap.Values.{Leads};
ghost use Rattle.prim_types.specs.py_primitives.Builtins.{kind_in as kind_that_is};
ghost use Rattle.prim_types.specs.py_primitives.Outcome.{making};
ghost use Rattle.py_effects.specs.Effect.{raise_made, fault_at as fault_at_place};
ghost use Rattle.py_effects.specs.Names.{raise_value as raise_value_at};
ghost use Rattle.prim_types.specs.prim_faults.Faults.{plain_fault};
ghost use Rattle.prim_types.specs.prim_faults.Outcomes.{plain_stop};
ghost use Rattle.prim_types.specs.prim_faults.Sights.{under, KnowsFault, KnowsAnswer};
ghost use Rattle.prim_raising.specs.Places.{plain_place, stopped_at};
ghost use Rattle.prim_raising.specs.Raised.{IsRaised};
ghost use Rattle.prim_raising.specs.Worlds.{Stands, HasFailed};

use crate::makings::{make_exception, make_fault};
use crate::place::Place;
use mpy_base::{Builtin, Kind, NoRoom};
use prim_types::{Arena, Constants, ExcNo, Fault, Stop, Value, exc_place};

/// What raising a value raises.
#[derive(Clone, Copy)]
enum Raised {
    /// A new exception of a kind.
    New(Kind),
    /// The exception that the value is.
    Same(ExcNo),
    Nothing,
}

/// The kind that a built-in is, if it is one.
fn kind_in(b: Builtin) -> Option<Kind>
    ensures { result ≡ kind_that_is b }
{
    match b {
        Builtin::Kind(kind) => Some(kind),
        _ => None,
    }
}

/// What raising a built-in raises: a new exception where it is a kind of them, and else nothing.
fn raised_by_builtin(b: Builtin) -> Raised
    ensures { (heap : Heap Item ℕ) → IsRaised heap (Value.Built b) result }
{
    match kind_in(b) {
        Some(kind) => Raised::New(kind),
        None => Raised::Nothing,
    }
}

/// What raising a value raises.
fn raised_by(_arena: &Arena, v: Value) -> Raised
    requires { Leads _arena.now.objects v }
    ensures { IsRaised _arena.now v result }
{
    match v {
        Value::Built(b) => raised_by_builtin(b),
        Value::Exc(x) => Raised::Same(x),
        Value::Fixed(_) => Raised::Nothing,
        _ => Raised::Nothing,
    }
}

/// Puts an exception's place.
fn put_place(arena: &mut Arena, place: Place, x: ExcNo)
    requires { IsA arena.old.objects AnException x.cell }
    ensures placed { arena.new ≡ with_place arena.old x.cell place.file place.line place.name }
    ensures later { Later arena.old.objects arena.new.objects }
{
    exc_place(arena, x, place.file, place.line, place.name);
}

/// Raises the exception of a fault at a place. Its argument, the tuple of it and the exception are made, in this order;
/// where one doesn't fit, those in front of it stay made.
pub fn fault_at<C: Constants>(
    arena: &mut Arena,
    consts: &C,
    place: Place,
    fault: Fault,
) -> Result<ExcNo, NoRoom>
    requires stands { under C.Constants consts.now Stands arena.old [] }
    requires known { KnowsFault C.Constants consts.now arena.old fault }
    ensures { under C.Constants consts.now HasFailed arena.old arena.new result
        (λ w see. fault_at_place (plain_place see place) w (under C.Constants consts.now plain_fault arena.old fault)) }
{
    match make_fault(arena, consts, fault) {
        Ok(x) => {
            put_place(arena, place, x);
            Ok(x)
        }
        Err(room) => Err(room),
    }
}

/// Raises what stopped a call: the exception of a fault at a place, or want of room.
pub fn stop_at<C: Constants>(
    arena: &mut Arena,
    consts: &C,
    place: Place,
    stop: Stop,
) -> Result<ExcNo, NoRoom>
    requires stands { under C.Constants consts.now Stands arena.old [] }
    requires known { KnowsAnswer C.Constants consts.now arena.old (Err stop) }
    ensures { under C.Constants consts.now HasFailed arena.old arena.new result
        (λ w see. stopped_at (plain_place see place) w (under C.Constants consts.now plain_stop arena.old stop)) }
{
    match stop {
        Stop::Raises(fault) => fault_at(arena, consts, place, fault),
        Stop::Full(room) => Err(room),
    }
}

/// Raises a new exception of a kind, without arguments.
fn raise_kind<C: Constants>(
    arena: &mut Arena,
    consts: &C,
    place: Place,
    kind: Kind,
) -> Result<ExcNo, NoRoom>
    requires { under C.Constants consts.now Stands arena.old [] }
    ensures { under C.Constants consts.now HasFailed arena.old arena.new result
        (λ w see. raise_made (plain_place see place) w (making w.heap (ExceptionObject kind Empty [] 0 []))) }
{
    match make_exception(arena, consts, kind, Value::Empty) {
        Ok(x) => {
            put_place(arena, place, x);
            Ok(x)
        }
        Err(room) => Err(room),
    }
}

/// `raise v` at a place: a kind is raised as a new exception, and an exception gets the place. Any other value is a fault.
pub fn raise_value<C: Constants>(
    arena: &mut Arena,
    consts: &C,
    place: Place,
    v: Value,
) -> Result<ExcNo, NoRoom>
    requires { under C.Constants consts.now Stands arena.old (v ∷ []) }
    ensures { under C.Constants consts.now HasFailed arena.old arena.new result (λ w see. raise_value_at (plain_place see place) w (see.value v)) }
{
    match raised_by(arena, v) {
        Raised::New(kind) => raise_kind(arena, consts, place, kind),
        Raised::Same(x) => {
            put_place(arena, place, x);
            Ok(x)
        }
        Raised::Nothing => fault_at(arena, consts, place, Fault::NotAnException),
    }
}
