//! Expressions.

use mpy_base::{Boxed, Items, Text};

/// The operators with one operand, but `not`.
#[derive(Clone, Copy, Debug, PartialEq, Eq)]
pub enum UnaryOp {
    Plus,
    Minus,
    Invert,
}

/// The operators with two operands.
#[derive(Clone, Copy, Debug, PartialEq, Eq)]
pub enum BinaryOp {
    Or,
    Xor,
    And,
    Shl,
    Shr,
    Add,
    Sub,
    Mul,
    FloorDiv,
    Mod,
    Pow,
}

/// The comparisons.
#[derive(Clone, Copy, Debug, PartialEq, Eq)]
pub enum CompareOp {
    Lt,
    Gt,
    Eq,
    Le,
    Ge,
    Ne,
    In,
    NotIn,
    Is,
    IsNot,
}

/// An expression. `and` and `or` keep all their operands in one node, as a comparison keeps its chain.
#[cycle(expression)]
#[derive(Drop)]
pub enum Expr {
    None,
    True,
    False,
    Int(i32),
    Str(Text),
    Name(Text),
    Unary {
        op: UnaryOp,
        value: Boxed<Expr>,
    },
    Binary {
        op: BinaryOp,
        left: Boxed<Expr>,
        right: Boxed<Expr>,
    },
    And(Items<Expr>),
    Or(Items<Expr>),
    Not(Boxed<Expr>),
    Compare {
        first: Boxed<Expr>,
        rest: Items<(CompareOp, Expr)>,
    },
    /// `yes if test else no`
    Cond {
        test: Boxed<Expr>,
        yes: Boxed<Expr>,
        no: Boxed<Expr>,
    },
    Tuple(Items<Expr>),
    List(Items<Expr>),
    /// Pairs of key and value.
    Dict(Items<(Expr, Expr)>),
    Attr {
        object: Boxed<Expr>,
        name: Text,
    },
    Index {
        object: Boxed<Expr>,
        index: Boxed<Expr>,
    },
    /// A call, whose keyword arguments stand behind the others.
    Call {
        callee: Boxed<Expr>,
        args: Items<Expr>,
        keys: Items<(Text, Expr)>,
    },
}
