//! The methods that operators are named after.

ghost use Rattle.std.specs.Prelude.{◌≡◌, ◌≤◌, length};
ghost use Rattle.prim_faults.specs.Faults.{method_text};

/// A method that an operator is named after.
#[derive(Clone, Copy, Debug, PartialEq, Eq)]
pub enum SpecialMethod {
    Or,
    Xor,
    And,
    LeftShift,
    RightShift,
    Add,
    Subtract,
    Multiply,
    FloorDivide,
    Modulo,
    Power,
    Less,
    Greater,
    LessOrEqual,
    GreaterOrEqual,
    Contains,
    Positive,
    Negative,
    Invert,
    Hash,
}

impl SpecialMethod {
    /// The name that Python gives the method, which the message of an unsupported operator tells.
    pub fn name(self) -> &'static str
        ensures name { result.now ≡ method_text self }
        ensures short { length result.now ≤ 32 }
    {
        match self {
            SpecialMethod::Or => "__or__",
            SpecialMethod::Xor => "__xor__",
            SpecialMethod::And => "__and__",
            SpecialMethod::LeftShift => "__lshift__",
            SpecialMethod::RightShift => "__rshift__",
            SpecialMethod::Add => "__add__",
            SpecialMethod::Subtract => "__sub__",
            SpecialMethod::Multiply => "__mul__",
            SpecialMethod::FloorDivide => "__floordiv__",
            SpecialMethod::Modulo => "__mod__",
            SpecialMethod::Power => "__pow__",
            SpecialMethod::Less => "__lt__",
            SpecialMethod::Greater => "__gt__",
            SpecialMethod::LessOrEqual => "__le__",
            SpecialMethod::GreaterOrEqual => "__ge__",
            SpecialMethod::Contains => "__contains__",
            SpecialMethod::Positive => "__pos__",
            SpecialMethod::Negative => "__neg__",
            SpecialMethod::Invert => "__invert__",
            SpecialMethod::Hash => "__hash__",
        }
    }
}
