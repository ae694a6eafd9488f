//! Instructions whose jumps name labels.

use bc_ops::{Instr, Op};

/// An instruction whose jump names a label, or a label.
#[derive(Clone, Copy, Debug, PartialEq, Eq)]
pub enum Labelled {
    /// The label stands in front of the next instruction.
    At(u32),
    /// An instruction that has no offset.
    Plain(Instr),
    /// A jump to the label.
    Jump(Op, u32),
    /// An unwinding jump to the label, with the byte behind its offset.
    Unwind(u32, u8),
}
