//! The three makings of a fault: its text, the tuple of its argument, and its exception.

ghost use Rattle.std.specs.Prelude.{[], ◌∷◌};
ghost use Rattle.mpy_base.specs.World.{ExceptionObject};
ghost use Rattle.prim_types.specs.arena_heap.declared.value.Value.TheVariants as values;
ghost use Rattle.prim_types.specs.arena_heap.Values.{Leads, IsTuple};
ghost use Rattle.prim_types.specs.py_primitives.Faults.{fault_value};
ghost use Rattle.prim_types.specs.py_primitives.Outcome.{making, making_tuple, making_exception, making_fault, fault_argument as argument_of_fault};
ghost use Rattle.prim_types.specs.prim_faults.Faults.{plain_fault};
ghost use Rattle.prim_types.specs.prim_faults.Sights.{under, Tells, TellsAll, KnowsFault, Does};
ghost use Rattle.prim_raising.specs.Makings.{as_value};

use crate::texts::make_fault_text;
use mpy_base::{Kind, NoRoom};
use prim_types::{Arena, Constants, ExcNo, Fault, TupleNo, Value, fault_kind, tuple_fill};

/// The argument of a fault's exception: a value, or a text that is made.
fn fault_argument<C: Constants>(
    arena: &mut Arena,
    consts: &C,
    fault: Fault,
) -> Result<Value, NoRoom>
    requires known { KnowsFault C.Constants consts.now arena.old fault }
    requires all_told { TellsAll C.Constants consts.now arena.old }
    ensures { Does C.Constants consts.now arena.old arena.new (as_value (λ v. v) result)
        (λ heap see. let plain = under C.Constants consts.now plain_fault arena.old fault
        in argument_of_fault heap plain (fault_value plain)) }
{
    match fault {
        Fault::NoKey(key) => Ok(key),
        Fault::PortFailed => Ok(Value::Int(5)),
        _ => make_fault_text(arena, consts, fault),
    }
}

/// A tuple of one value.
fn make_single<C: Constants>(arena: &mut Arena, _consts: &C, v: Value) -> Result<TupleNo, NoRoom>
    requires leads { Leads arena.old.objects v }
    requires told { Tells C.Constants _consts.now v }
    requires all_told { TellsAll C.Constants _consts.now arena.old }
    ensures { Does C.Constants _consts.now arena.old arena.new (as_value values.Tuple result) (λ heap see. making_tuple heap (see.value v ∷ [])) }
{
    match arena.make_tuple(1) {
        Ok(t) => {
            tuple_fill(arena, t, 0, v);
            Ok(t)
        }
        Err(room) => Err(room),
    }
}

/// An exception that has this tuple of arguments, and was raised nowhere yet.
pub(crate) fn make_exception<C: Constants>(
    arena: &mut Arena,
    consts: &C,
    kind: Kind,
    args: Value,
) -> Result<ExcNo, NoRoom>
    requires leads { Leads arena.old.objects args }
    requires told { Tells C.Constants consts.now args }
    requires tuple { IsTuple args }
    requires all_told { TellsAll C.Constants consts.now arena.old }
    ensures { Does C.Constants consts.now arena.old arena.new (as_value values.Exc result)
        (λ heap see. making heap (ExceptionObject kind (see.value args) [] 0 [])) }
{
    consts.empty_law();
    match arena.make_exc(kind, args) {
        Ok(x) => Ok(x),
        Err(room) => Err(room),
    }
}

/// An exception of this kind with one argument, whose tuple is made first.
fn make_with_argument<C: Constants>(
    arena: &mut Arena,
    consts: &C,
    kind: Kind,
    v: Value,
) -> Result<ExcNo, NoRoom>
    requires leads { Leads arena.old.objects v }
    requires told { Tells C.Constants consts.now v }
    requires all_told { TellsAll C.Constants consts.now arena.old }
    ensures { Does C.Constants consts.now arena.old arena.new (as_value values.Exc result) (λ heap see. making_exception heap kind (see.value v ∷ [])) }
{
    match make_single(arena, consts, v) {
        Ok(t) => make_exception(arena, consts, kind, Value::Tuple(t)),
        Err(room) => Err(room),
    }
}

/// The exception of a fault. What was made in front of a making that doesn't fit stays made.
pub(crate) fn make_fault<C: Constants>(
    arena: &mut Arena,
    consts: &C,
    fault: Fault,
) -> Result<ExcNo, NoRoom>
    requires known { KnowsFault C.Constants consts.now arena.old fault }
    requires all_told { TellsAll C.Constants consts.now arena.old }
    ensures { Does C.Constants consts.now arena.old arena.new (as_value values.Exc result)
        (λ heap see. making_fault heap (under C.Constants consts.now plain_fault arena.old fault)) }
{
    match fault_argument(arena, consts, fault) {
        Ok(v) => make_with_argument(arena, consts, fault_kind(fault), v),
        Err(room) => Err(room),
    }
}
