//! Instructions of operators with one operand and with two.

ghost use Rattle.std.specs.Prelude.{◌≡◌, min, IsSome};
ghost use Rattle.frame_moves.specs.bc_ops.declared.instr.Instr.TheVariants as instrs;
ghost use Rattle.prim_names.specs.arena_heap.declared.value.Value.{Value as Item};
ghost use Rattle.prim_names.specs.arena_heap.Values.{Leads};
ghost use Rattle.prim_names.specs.prim_types.py_primitives.Operators.{in_place as in_place_of};
ghost use Rattle.prim_names.specs.prim_faults.Sights.{under, sight, Tells, TellsAll, Does};
ghost use Rattle.prim_names.specs.prim_types.prim_operators.Operators.{plain_operator};
ghost use Rattle.frame_moves.specs.bc_machine.Library.{Plain};
ghost use Rattle.frame_moves.specs.bc_machine.Operations.{unary_at, operator_at};
ghost use Rattle.frame_values.specs.Effects.{Steps, Leaves};
ghost use Rattle.frame_values.specs.Operations.{meaning_of_one, meaning_of_two, visits_of};
ghost use Rattle.frame_values.specs.Slots.{HasValue, HasKnown, Puts, with_value};

use crate::operations::{OneOperand, TwoOperands, one_operand, two_operands};
use crate::slots::{put, value_at};
use arena_heap::{Arena, Constants, Value};
use frame_moves::Frames;
use prim_comparisons::{
    op_contains, op_eq, op_is, op_ne, op_order, visits_op_contains, visits_op_eq, visits_op_ne,
    visits_op_order,
};
use prim_names::{inplace_add, op_match, visits_inplace_add};
use prim_operators::{Operator, Stop, binary, unary, unary_not};

/// What an operation on one value gives.
fn one_value<C: Constants>(
    arena: &Arena,
    consts: &C,
    op: OneOperand,
    v: Value,
) -> Result<Value, Stop>
    requires leads { Leads arena.now.objects v }
    requires told { Tells C.Constants consts.now v }
    requires all_told { TellsAll C.Constants consts.now arena.now }
    ensures { Does C.Constants consts.now arena.now arena.now result (λ heap see. meaning_of_one op heap (see.value v)) }
{
    match op {
        OneOperand::Arithmetic(op) => unary(arena, consts, op, v),
        OneOperand::Not => unary_not(arena, consts, v),
    }
}

/// What an operator in place gives. Only `+` differs from the plain one.
fn in_place<C: Constants>(
    arena: &mut Arena,
    consts: &C,
    op: Operator,
    left: Value,
    right: Value,
) -> Result<Value, Stop>
    requires left_leads { Leads arena.old.objects left }
    requires right_leads { Leads arena.old.objects right }
    requires left_told { Tells C.Constants consts.now left }
    requires right_told { Tells C.Constants consts.now right }
    requires all_told { TellsAll C.Constants consts.now arena.old }
    ensures { Does C.Constants consts.now arena.old arena.new result (λ heap see. in_place_of heap (plain_operator op) (see.value left) (see.value right)) }
{
    match op {
        Operator::Add => inplace_add(arena, consts, left, right),
        _ => binary(arena, consts, op, left, right),
    }
}

/// How many visits an operation in place makes, `most` at most.
fn visits_in_place<C: Constants>(
    arena: &Arena,
    consts: &C,
    op: Operator,
    left: Value,
    right: Value,
    most: u64,
) -> u64
    requires left_leads { Leads arena.now.objects left }
    requires right_leads { Leads arena.now.objects right }
    requires left_told { Tells C.Constants consts.now left }
    requires right_told { Tells C.Constants consts.now right }
    ensures { let see = sight C.Constants consts.now
        in let outcome = in_place_of (see.heap arena.now) (plain_operator op) (see.value left) (see.value right) in result
        ≡ min outcome.visits most }
{
    match op {
        Operator::Add => visits_inplace_add(arena, consts, left, right, most),
        _ => 0,
    }
}

/// What an operation on two values gives.
fn two_values<C: Constants>(
    arena: &mut Arena,
    consts: &C,
    op: TwoOperands,
    left: Value,
    right: Value,
) -> Result<Value, Stop>
    requires left_leads { Leads arena.old.objects left }
    requires right_leads { Leads arena.old.objects right }
    requires left_told { Tells C.Constants consts.now left }
    requires right_told { Tells C.Constants consts.now right }
    requires all_told { TellsAll C.Constants consts.now arena.old }
    ensures { Does C.Constants consts.now arena.old arena.new result (λ heap see. meaning_of_two op heap (see.value left) (see.value right)) }
{
    match op {
        TwoOperands::Order(sign) => op_order(arena, consts, sign, left, right),
        TwoOperands::Equal => op_eq(arena, consts, left, right),
        TwoOperands::NotEqual => op_ne(arena, consts, left, right),
        TwoOperands::Contains => op_contains(arena, consts, left, right),
        TwoOperands::Is => op_is(arena, consts, left, right),
        TwoOperands::Match => op_match(arena, consts, left, right),
        TwoOperands::InPlace(op) => in_place(arena, consts, op, left, right),
        TwoOperands::Arithmetic(op) => binary(arena, consts, op, left, right),
    }
}

/// How many visits an operation on two values makes, `most` at most.
fn visits_two<C: Constants>(
    arena: &Arena,
    consts: &C,
    op: TwoOperands,
    left: Value,
    right: Value,
    most: u64,
) -> u64
    requires left_leads { Leads arena.now.objects left }
    requires right_leads { Leads arena.now.objects right }
    requires left_told { Tells C.Constants consts.now left }
    requires right_told { Tells C.Constants consts.now right }
    requires all_told { TellsAll C.Constants consts.now arena.now }
    ensures { let see = sight C.Constants consts.now
        in let outcome = meaning_of_two op (see.heap arena.now) (see.value left) (see.value right) in result ≡ min outcome.visits most }
{
    match op {
        TwoOperands::Order(sign) => visits_op_order(arena, consts, sign, left, right, most),
        TwoOperands::Equal => visits_op_eq(arena, consts, left, right, most),
        TwoOperands::NotEqual => visits_op_ne(arena, consts, left, right, most),
        TwoOperands::Contains => visits_op_contains(arena, consts, left, right, most),
        TwoOperands::Is => 0,
        TwoOperands::Match => 0,
        TwoOperands::InPlace(op) => visits_in_place(arena, consts, op, left, right, most),
        TwoOperands::Arithmetic(_) => 0,
    }
}

/// UNARY_OP.
pub fn unary_op<C: Constants>(
    frames: &mut Frames,
    arena: &Arena,
    consts: &C,
    number: u8,
    end: u32,
) -> Result<(), Stop>
    requires operator { IsSome (unary_at number) }
    requires operand { under C.Constants consts.now HasKnown arena.now.objects 0 frames.old.calls }
    requires all_told { TellsAll C.Constants consts.now arena.now }
    ensures steps { under C.Constants consts.now Steps (Plain (instrs.Unary number)) 0 end arena.now arena.now frames.old.calls frames.new.calls result }
    ensures moved { under C.Constants consts.now Puts arena.now.objects (with_value end 1) frames.old frames.new result }
    ensures leaves { under C.Constants consts.now Leaves arena.now arena.now result }
{
    let Some(op) = one_operand(number) else {
        unreachable!();
    };
    let v = value_at(frames, arena, consts, 0);
    let given = one_value(arena, consts, op, v);
    put(frames, 1, given, end)
}

/// BINARY_OP. Its visits are those of the operator (`visits_binary_op`).
pub fn binary_op<C: Constants>(
    frames: &mut Frames,
    arena: &mut Arena,
    consts: &C,
    number: u8,
    end: u32,
) -> Result<(), Stop>
    requires operator { IsSome (operator_at number) }
    requires right { under C.Constants consts.now HasKnown arena.old.objects 0 frames.old.calls }
    requires left { under C.Constants consts.now HasKnown arena.old.objects 1 frames.old.calls }
    requires all_told { TellsAll C.Constants consts.now arena.old }
    ensures steps { let see = sight C.Constants consts.now in (left right : Item) → HasValue 1 left frames.old.calls
        → HasValue 0 right frames.old.calls
        → Steps see.texts see.tuples (Plain (instrs.Binary number))
        (visits_of (operator_at number) (see.heap arena.old) (see.value left) (see.value right)) end arena.old arena.new frames.old.calls
        frames.new.calls result }
    ensures moved { under C.Constants consts.now Puts arena.new.objects (with_value end 2) frames.old frames.new result }
    ensures leaves { under C.Constants consts.now Leaves arena.old arena.new result }
{
    let Some(op) = two_operands(number) else {
        unreachable!();
    };
    let right = value_at(frames, arena, consts, 0);
    let left = value_at(frames, arena, consts, 1);
    let given = two_values(arena, consts, op, left, right);
    put(frames, 2, given, end)
}

/// How many visits BINARY_OP makes, up to `most`. It goes no further.
pub fn visits_binary_op<C: Constants>(
    frames: &Frames,
    arena: &Arena,
    consts: &C,
    number: u8,
    most: u64,
) -> u64
    requires operator { IsSome (operator_at number) }
    requires right { under C.Constants consts.now HasKnown arena.now.objects 0 frames.now.calls }
    requires left { under C.Constants consts.now HasKnown arena.now.objects 1 frames.now.calls }
    requires all_told { TellsAll C.Constants consts.now arena.now }
    ensures { let see = sight C.Constants consts.now in (left right : Item) → HasValue 1 left frames.now.calls
        → HasValue 0 right frames.now.calls
        → result ≡ min (visits_of (operator_at number) (see.heap arena.now) (see.value left) (see.value right)) most }
{
    let Some(op) = two_operands(number) else {
        unreachable!();
    };
    let right = value_at(frames, arena, consts, 0);
    let left = value_at(frames, arena, consts, 1);
    visits_two(arena, consts, op, left, right, most)
}
