//! The instructions of a code as a list, in which a jump names its target by position.

ghost use Rattle.std.specs.Prelude.{◌≡◌, ℕ, List};
ghost use Rattle.bc_ops.specs.declared.listing.Item.{Item};
ghost use Rattle.bc_ops.specs.Listing.{IsListOf, Lists};

use crate::instr::{Instr, Op};

/// Where a jump goes.
#[derive(Clone, Copy, Debug, PartialEq, Eq)]
pub enum Target {
    /// To the instruction at the position in the list.
    Position(usize),
    /// To an offset in the code that no instruction starts at.
    Offset(i64),
}

/// An instruction in a list. How wide the offset of a jump is doesn't count.
#[derive(Clone, Copy, Debug, PartialEq, Eq)]
pub enum Item {
    /// One that has no offset.
    Plain(Instr),
    Jump(Op, Target),
    /// With the byte behind the offset.
    Unwind(Target, u8),
}

/// A code has one list at most, and its instructions start at one list of offsets.
pub fn listing_law()
    ensures one_list { (bytes : List ℕ) (a b : List Item) → IsListOf bytes a → IsListOf bytes b → a ≡ b }
    ensures one_start { (bytes : List ℕ) (a b : List Item) (m n : List ℕ) → Lists bytes a m → Lists bytes b n
        → (a ≡ b) × (m ≡ n) }
{}
