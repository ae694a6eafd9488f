//! What the numbers of operators ask for.

ghost use Rattle.std.specs.Prelude.{◌≡◌, ◌<◌, Some, slice_get};
ghost use Rattle.std.specs.Option.{option_map};
ghost use Rattle.frame_moves.specs.bc_machine.Operations.{comparisons, arithmetic as operators_of, operator_at, unary_at};
ghost use Rattle.prim_names.specs.prim_types.prim_operators.Operators.{plain_operator};
ghost use Rattle.frame_values.specs.Operations.{meaning_of_one, meaning_of_two};

use prim_comparisons::Sign;
use prim_operators::{Operator, UnaryOperator};

/// An operator with one operand.
#[derive(Clone, Copy)]
pub(crate) enum OneOperand {
    Arithmetic(UnaryOperator),
    Not,
}

/// An operator with two operands.
#[derive(Clone, Copy)]
pub(crate) enum TwoOperands {
    Order(Sign),
    Equal,
    NotEqual,
    Contains,
    Is,
    Match,
    InPlace(Operator),
    Arithmetic(Operator),
}

/// The operator that a number of UNARY_OP asks for.
pub(crate) fn one_operand(number: u8) -> Option<OneOperand>
    ensures { option_map meaning_of_one result ≡ unary_at number }
{
    match number {
        0 => Some(OneOperand::Arithmetic(UnaryOperator::Plus)),
        1 => Some(OneOperand::Arithmetic(UnaryOperator::Minus)),
        2 => Some(OneOperand::Arithmetic(UnaryOperator::Invert)),
        3 => Some(OneOperand::Not),
        _ => None,
    }
}

/// The comparison of this number.
fn comparison(number: u8) -> TwoOperands
    requires { number < 9 }
    ensures { slice_get comparisons number ≡ Some (Some (meaning_of_two result)) }
{
    match number {
        0 => TwoOperands::Order(Sign::Below),
        1 => TwoOperands::Order(Sign::Above),
        2 => TwoOperands::Equal,
        3 => TwoOperands::Order(Sign::NotAbove),
        4 => TwoOperands::Order(Sign::NotBelow),
        5 => TwoOperands::NotEqual,
        6 => TwoOperands::Contains,
        7 => TwoOperands::Is,
        _ => TwoOperands::Match,
    }
}

/// `@` and `/` are no operators of the language.
fn arithmetic(number: u8) -> Option<Operator>
    requires { number < 13 }
    ensures { slice_get operators_of number ≡ Some (option_map plain_operator result) }
{
    match number {
        0 => Some(Operator::Or),
        1 => Some(Operator::Xor),
        2 => Some(Operator::And),
        3 => Some(Operator::ShiftLeft),
        4 => Some(Operator::ShiftRight),
        5 => Some(Operator::Add),
        6 => Some(Operator::Subtract),
        7 => Some(Operator::Multiply),
        9 => Some(Operator::FloorDivide),
        11 => Some(Operator::Modulo),
        12 => Some(Operator::Power),
        _ => None,
    }
}

/// The operator that a number of BINARY_OP asks for: comparisons, then operators in place, then the others.
pub(crate) fn two_operands(number: u8) -> Option<TwoOperands>
    ensures { option_map meaning_of_two result ≡ operator_at number }
{
    if number < 9 {
        Some(comparison(number))
    } else if number < 22 {
        match arithmetic(number - 9) {
            Some(op) => Some(TwoOperands::InPlace(op)),
            None => None,
        }
    } else if number < 35 {
        match arithmetic(number - 22) {
            Some(op) => Some(TwoOperands::Arithmetic(op)),
            None => None,
        }
    } else {
        None
    }
}
