//! Operators over one operand.

ghost use Rattle.prim_faults.specs.arena_heap.Values.{Leads};
ghost use Rattle.prim_faults.specs.py_primitives.Operators.{unary as unary_of, unary_not as unary_not_of};
ghost use Rattle.prim_faults.specs.Sights.{Tells, TellsAll, Does};
ghost use Rattle.prim_operators.specs.Operators.{plain_unary};

use crate::numbers::{gives_number, unary_answer};
use crate::operand::number_of;
use crate::operators::UnaryOperator;
use prim_faults::{Arena, Constants, Fault, Stop, Value, truth, type_of};

/// `+`, `-` or `~` of a value.
pub fn unary<C: Constants>(
    arena: &Arena,
    consts: &C,
    op: UnaryOperator,
    v: Value,
) -> Result<Value, Stop>
    requires leads { Leads arena.now.objects v }
    requires told { Tells C.Constants consts.now v }
    requires all_told { TellsAll C.Constants consts.now arena.now }
    ensures { Does C.Constants consts.now arena.now arena.now result (λ heap see. unary_of heap (plain_unary op) (see.value v)) }
{
    match number_of(v) {
        Some(n) => gives_number(unary_answer(op, n)),
        None => Err(Stop::Raises(Fault::UnsupportedOne {
            method: op.method(),
            operand: type_of(arena, v),
        })),
    }
}

/// `not` of a value.
pub fn unary_not<C: Constants>(arena: &Arena, consts: &C, v: Value) -> Result<Value, Stop>
    requires leads { Leads arena.now.objects v }
    requires told { Tells C.Constants consts.now v }
    requires all_told { TellsAll C.Constants consts.now arena.now }
    ensures { Does C.Constants consts.now arena.now arena.now result (λ heap see. unary_not_of heap (see.value v)) }
{
    Ok(Value::Bool(!truth(arena, consts, v)))
}
