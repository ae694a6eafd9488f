//! Operators over two operands.

ghost use Rattle.std.specs.Prelude.{◌≡◌};
ghost use Rattle.prim_faults.specs.arena_heap.Values.{Leads};
ghost use Rattle.prim_faults.specs.py_values.Shown.{at_least_zero};
ghost use Rattle.prim_faults.specs.py_primitives.Operators.{binary as binary_of};
ghost use Rattle.prim_faults.specs.Sights.{under, Tells, TellsAll, Does};
ghost use Rattle.prim_operators.specs.Operators.{plain_operator};
ghost use Rattle.prim_operators.specs.Pairs.{AreShaped, IsOperands, joined, IsUnsupported};

use crate::item_joins::{make_joined_list, make_joined_tuple};
use crate::items::items_law;
use crate::joins::make_joined;
use crate::numbers::{gives_number, number_answer};
use crate::operands::{Operands, Shape, operands_of};
use crate::operators::Operator;
use crate::sources::Source;
use prim_faults::{Arena, Constants, Fault, SmallInt, Stop, Value, type_of};

/// A new str, tuple or list of these.
fn make_shaped<C: Constants>(
    arena: &mut Arena,
    consts: &C,
    shape: Shape,
    source: Source,
) -> Result<Value, Stop>
    requires shaped { under C.Constants consts.now AreShaped arena.old.objects shape source }
    requires all_told { TellsAll C.Constants consts.now arena.old }
    ensures { Does C.Constants consts.now arena.old arena.new result (λ heap see. joined see.texts see.tuples arena.old shape source) }
{
    match shape {
        Shape::Text => make_joined(arena, consts, source),
        Shape::Tuple => make_joined_tuple(arena, consts, source),
        Shape::List => make_joined_list(arena, consts, source),
    }
}

/// What an operator raises over operands of other types.
fn unsupported(arena: &Arena, op: Operator, left: Value, right: Value) -> Fault
    requires left { Leads arena.now.objects left }
    requires right { Leads arena.now.objects right }
    ensures { IsUnsupported arena.now (plain_operator op) left right result }
{
    Fault::Unsupported {
        method: op.method(),
        left: type_of(arena, left),
        right: type_of(arena, right),
    }
}

/// How often something is repeated by a number: not at all where it is below 0.
fn times(n: SmallInt) -> u32
    ensures { result ≡ at_least_zero n }
{
    n.value().max(0) as u32
}

/// Two strs, tuples or lists, which `+` joins.
fn of_shapes<C: Constants>(
    arena: &mut Arena,
    consts: &C,
    op: Operator,
    left: Value,
    right: Value,
    shape: Shape,
) -> Result<Value, Stop>
    requires left_leads { Leads arena.old.objects left }
    requires right_leads { Leads arena.old.objects right }
    requires left_told { Tells C.Constants consts.now left }
    requires right_told { Tells C.Constants consts.now right }
    requires all_told { TellsAll C.Constants consts.now arena.old }
    requires operands { IsOperands arena.old left right (Operands.Alike shape) }
    ensures { Does C.Constants consts.now arena.old arena.new result (λ heap see. binary_of heap (plain_operator op) (see.value left) (see.value right)) }
{
    items_law(arena, consts, left);
    items_law(arena, consts, right);
    match op {
        Operator::Add => make_shaped(arena, consts, shape, Source::Joined(left, right)),
        _ => Err(Stop::Raises(unsupported(arena, op, left, right))),
    }
}

/// What an operator gives of a str, tuple or list and the number `n`: of `*` the left operand `n` times over.
fn of_left<C: Constants>(
    arena: &mut Arena,
    consts: &C,
    op: Operator,
    left: Value,
    right: Value,
    shape: Shape,
    n: SmallInt,
) -> Result<Value, Stop>
    requires left_leads { Leads arena.old.objects left }
    requires right_leads { Leads arena.old.objects right }
    requires left_told { Tells C.Constants consts.now left }
    requires right_told { Tells C.Constants consts.now right }
    requires all_told { TellsAll C.Constants consts.now arena.old }
    requires operands { IsOperands arena.old left right (Operands.Left shape n) }
    ensures { Does C.Constants consts.now arena.old arena.new result (λ heap see. binary_of heap (plain_operator op) (see.value left) (see.value right)) }
{
    items_law(arena, consts, left);
    match op {
        Operator::Multiply => {
            make_shaped(arena, consts, shape, Source::Repeated(times(n), left))
        }
        _ => Err(Stop::Raises(unsupported(arena, op, left, right))),
    }
}

/// What an operator gives of the number `n` and a str, tuple or list: of `*` the right operand `n` times over.
fn of_right<C: Constants>(
    arena: &mut Arena,
    consts: &C,
    op: Operator,
    left: Value,
    right: Value,
    shape: Shape,
    n: SmallInt,
) -> Result<Value, Stop>
    requires left_leads { Leads arena.old.objects left }
    requires right_leads { Leads arena.old.objects right }
    requires left_told { Tells C.Constants consts.now left }
    requires right_told { Tells C.Constants consts.now right }
    requires all_told { TellsAll C.Constants consts.now arena.old }
    requires operands { IsOperands arena.old left right (Operands.Right shape n) }
    ensures { Does C.Constants consts.now arena.old arena.new result (λ heap see. binary_of heap (plain_operator op) (see.value left) (see.value right)) }
{
    items_law(arena, consts, right);
    match op {
        Operator::Multiply => {
            make_shaped(arena, consts, shape, Source::Repeated(times(n), right))
        }
        _ => Err(Stop::Raises(unsupported(arena, op, left, right))),
    }
}

/// An operator over two numbers, or that joins or repeats strs, tuples and lists.
pub fn binary<C: Constants>(
    arena: &mut Arena,
    consts: &C,
    op: Operator,
    left: Value,
    right: Value,
) -> Result<Value, Stop>
    requires left_leads { Leads arena.old.objects left }
    requires right_leads { Leads arena.old.objects right }
    requires left_told { Tells C.Constants consts.now left }
    requires right_told { Tells C.Constants consts.now right }
    requires all_told { TellsAll C.Constants consts.now arena.old }
    ensures { Does C.Constants consts.now arena.old arena.new result (λ heap see. binary_of heap (plain_operator op) (see.value left) (see.value right)) }
{
    match operands_of(arena, left, right) {
        Operands::Numbers(x, y) => gives_number(number_answer(op, x, y)),
        Operands::Alike(shape) => of_shapes(arena, consts, op, left, right, shape),
        Operands::Left(shape, n) => of_left(arena, consts, op, left, right, shape, n),
        Operands::Right(shape, n) => of_right(arena, consts, op, left, right, shape, n),
        Operands::Unfit => Err(Stop::Raises(unsupported(arena, op, left, right))),
    }
}
