//! The operators over one operand and over two.

ghost use Rattle.std.specs.Prelude.{◌≡◌};
ghost use Rattle.prim_faults.specs.py_primitives.Operators.{operator_method, unary_method};
ghost use Rattle.prim_faults.specs.Faults.{method_text};
ghost use Rattle.prim_operators.specs.Operators.{plain_operator, plain_unary};

use prim_faults::SpecialMethod;

/// An operator over one number.
#[derive(Clone, Copy, Debug, PartialEq, Eq)]
pub enum UnaryOperator {
    Plus,
    Minus,
    Invert,
}

/// An operator over two numbers. Some are of sequences too.
#[derive(Clone, Copy, Debug, PartialEq, Eq)]
pub enum Operator {
    Or,
    Xor,
    And,
    ShiftLeft,
    ShiftRight,
    Add,
    Subtract,
    Multiply,
    FloorDivide,
    Modulo,
    Power,
}

impl UnaryOperator {
    /// The method that its faults name.
    pub(crate) fn method(self) -> SpecialMethod
        ensures { method_text result ≡ unary_method (plain_unary self) }
    {
        match self {
            UnaryOperator::Plus => SpecialMethod::Positive,
            UnaryOperator::Minus => SpecialMethod::Negative,
            UnaryOperator::Invert => SpecialMethod::Invert,
        }
    }
}

impl Operator {
    /// The method that its faults name.
    pub(crate) fn method(self) -> SpecialMethod
        ensures { method_text result ≡ operator_method (plain_operator self) }
    {
        match self {
            Operator::Or => SpecialMethod::Or,
            Operator::Xor => SpecialMethod::Xor,
            Operator::And => SpecialMethod::And,
            Operator::ShiftLeft => SpecialMethod::LeftShift,
            Operator::ShiftRight => SpecialMethod::RightShift,
            Operator::Add => SpecialMethod::Add,
            Operator::Subtract => SpecialMethod::Subtract,
            Operator::Multiply => SpecialMethod::Multiply,
            Operator::FloorDivide => SpecialMethod::FloorDivide,
            Operator::Modulo => SpecialMethod::Modulo,
            Operator::Power => SpecialMethod::Power,
        }
    }
}
