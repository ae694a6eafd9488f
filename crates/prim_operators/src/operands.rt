//! What operators see of two operands.

ghost use Rattle.prim_faults.specs.arena_heap.Values.{Leads};
ghost use Rattle.prim_operators.specs.Pairs.{IsOperand, IsOperands};

use crate::operand::number_of;
use prim_faults::{Arena, SmallInt, Value};

/// Strs, tuples and lists, which are joined and repeated.
#[derive(Clone, Copy)]
pub(crate) enum Shape {
    Text,
    Tuple,
    List,
}

/// What an operator sees of an operand.
#[derive(Clone, Copy)]
pub(crate) enum Operand {
    Number(SmallInt),
    Shaped(Shape),
    Other,
}

/// What a value is to an operator, in constant time.
pub(crate) fn operand_of(_arena: &Arena, v: Value) -> Operand
    requires { Leads _arena.now.objects v }
    ensures { IsOperand _arena.now v result }
{
    match v {
        Value::Fixed(_) => Operand::Shaped(Shape::Tuple),
        Value::Str(_) | Value::Text(_) => Operand::Shaped(Shape::Text),
        Value::Empty | Value::Tuple(_) => Operand::Shaped(Shape::Tuple),
        Value::List(_) => Operand::Shaped(Shape::List),
        Value::Bool(_) => Operand::Number(number_of(v).unwrap()),
        Value::Int(_) => Operand::Number(number_of(v).unwrap()),
        _ => Operand::Other,
    }
}

/// What an operator sees of two operands.
#[derive(Clone, Copy)]
pub(crate) enum Operands {
    Numbers(SmallInt, SmallInt),
    Alike(Shape),
    /// A number on the right.
    Left(Shape, SmallInt),
    /// A number on the left.
    Right(Shape, SmallInt),
    Unfit,
}

/// What two strs, tuples or lists are to an operator: two of one shape, or unfit.
fn alike(_arena: &Arena, left: Value, right: Value, shape: Shape, other: Shape) -> Operands
    requires left { IsOperand _arena.now left (Operand.Shaped shape) }
    requires right { IsOperand _arena.now right (Operand.Shaped other) }
    ensures { IsOperands _arena.now left right result }
{
    match (shape, other) {
        (Shape::Text, Shape::Text) => Operands::Alike(Shape::Text),
        (Shape::Tuple, Shape::Tuple) => Operands::Alike(Shape::Tuple),
        (Shape::List, Shape::List) => Operands::Alike(Shape::List),
        _ => Operands::Unfit,
    }
}

/// What a number and the value on its right are to an operator.
fn beside_number(arena: &Arena, left: Value, right: Value, n: SmallInt) -> Operands
    requires left { IsOperand arena.now left (Operand.Number n) }
    requires right { Leads arena.now.objects right }
    ensures { IsOperands arena.now left right result }
{
    match operand_of(arena, right) {
        Operand::Number(m) => Operands::Numbers(n, m),
        Operand::Shaped(shape) => Operands::Right(shape, n),
        Operand::Other => Operands::Unfit,
    }
}

/// What a str, tuple or list and the value on its right are to an operator.
fn beside_shape(arena: &Arena, left: Value, right: Value, shape: Shape) -> Operands
    requires left { IsOperand arena.now left (Operand.Shaped shape) }
    requires right { Leads arena.now.objects right }
    ensures { IsOperands arena.now left right result }
{
    match operand_of(arena, right) {
        Operand::Number(n) => Operands::Left(shape, n),
        Operand::Shaped(other) => alike(arena, left, right, shape, other),
        Operand::Other => Operands::Unfit,
    }
}

/// What two values are to an operator together, in constant time.
pub(crate) fn operands_of(arena: &Arena, left: Value, right: Value) -> Operands
    requires left { Leads arena.now.objects left }
    requires right { Leads arena.now.objects right }
    ensures { IsOperands arena.now left right result }
{
    match operand_of(arena, left) {
        Operand::Number(n) => beside_number(arena, left, right, n),
        Operand::Shaped(shape) => beside_shape(arena, left, right, shape),
        Operand::Other => Operands::Unfit,
    }
}
