//! Operators on small integers, whose result is one again or a fault.

ghost use Rattle.std.specs.Prelude.{◌≡◌};
ghost use Rattle.prim_faults.specs.py_primitives.Operators.{number_answer as number_answer_of, unary_answer as unary_answer_of};
ghost use Rattle.prim_faults.specs.py_primitives.Operators.{gives_number as gives_number_of};
ghost use Rattle.prim_operators.specs.Operators.{plain_operator, plain_unary};
ghost use Rattle.prim_operators.specs.Changeless.{IsAnswerOf};

use crate::operators::{Operator, UnaryOperator};
use prim_faults::{Fault, NumFault, SmallInt, Stop, Value};

/// What an operator gives of one number.
pub(crate) fn unary_answer(op: UnaryOperator, n: SmallInt) -> Result<SmallInt, NumFault>
    ensures { result ≡ unary_answer_of (plain_unary op) n }
{
    match op {
        UnaryOperator::Plus => Ok(n),
        UnaryOperator::Minus => n.neg(),
        UnaryOperator::Invert => n.invert(),
    }
}

/// What an operator gives of two numbers.
pub(crate) fn number_answer(op: Operator, x: SmallInt, y: SmallInt) -> Result<SmallInt, NumFault>
    ensures { result ≡ number_answer_of (plain_operator op) x y }
{
    match op {
        Operator::Or => x.or(y),
        Operator::Xor => x.xor(y),
        Operator::And => x.and(y),
        Operator::ShiftLeft => x.shl(y),
        Operator::ShiftRight => x.shr(y),
        Operator::Add => x.add(y),
        Operator::Subtract => x.sub(y),
        Operator::Multiply => x.mul(y),
        Operator::FloorDivide => x.floor_div(y),
        Operator::Modulo => x.modulo(y),
        Operator::Power => x.power(y),
    }
}

/// A number that was computed, or its fault.
pub(crate) fn gives_number(answer: Result<SmallInt, NumFault>) -> Result<Value, Stop>
    ensures { IsAnswerOf result (λ heap. gives_number_of heap answer) }
{
    match answer {
        Ok(n) => Ok(Value::Int(n.value())),
        Err(fault) => Err(Stop::Raises(Fault::Arithmetic(fault))),
    }
}
