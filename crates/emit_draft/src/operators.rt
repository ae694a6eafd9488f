//! The numbers of operators.

ghost use Rattle.std.specs.Prelude.{◌≡◌, ◌<◌};
ghost use Rattle.emit_measures.specs.bc_scheme.Context.{unary_number as unary_of, comparing, is_negated as negated, arithmetic};

use py_tree::{BinaryOp, CompareOp, UnaryOp};

/// The number by which an instruction names the operator.
pub fn unary_number(op: UnaryOp) -> u8
    ensures { result ≡ unary_of op }
{
    match op {
        UnaryOp::Plus => 0,
        UnaryOp::Minus => 1,
        UnaryOp::Invert => 2,
    }
}

/// The number of the comparison, or of the one that it negates.
pub fn comparing_number(op: CompareOp) -> u8
    ensures { result ≡ comparing op }
{
    match op {
        CompareOp::Lt => 0,
        CompareOp::Gt => 1,
        CompareOp::Eq => 2,
        CompareOp::Le => 3,
        CompareOp::Ge => 4,
        CompareOp::Ne => 5,
        CompareOp::In | CompareOp::NotIn => 6,
        CompareOp::Is | CompareOp::IsNot => 7,
    }
}

/// Whether the comparison is another one with a `not` behind it.
pub fn is_negated(op: CompareOp) -> bool
    ensures { result ≡ negated op }
{
    matches!(op, CompareOp::NotIn | CompareOp::IsNot)
}

/// The number of the operator in place. The plain one stands 13 further.
pub fn arithmetic_number(op: BinaryOp) -> u8
    ensures number { result ≡ arithmetic op }
    ensures few { result < 22 }
{
    match op {
        BinaryOp::Or => 9,
        BinaryOp::Xor => 10,
        BinaryOp::And => 11,
        BinaryOp::Shl => 12,
        BinaryOp::Shr => 13,
        BinaryOp::Add => 14,
        BinaryOp::Sub => 15,
        BinaryOp::Mul => 16,
        BinaryOp::FloorDiv => 18,
        BinaryOp::Mod => 20,
        BinaryOp::Pow => 21,
    }
}
