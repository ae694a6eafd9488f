//! What a source does with names, in text order.

use mpy_base::Text;

/// What happens at a place of the text.
#[derive(Drop)]
pub enum Act {
    Use(Text),
    Bind(Text),
    /// `global`
    Declare(Text),
    /// `break` or `continue`, and whether a loop of the same function encloses it.
    Jump(bool),
    Return,
    /// A function's own text begins.
    Enter,
    /// It ends.
    Leave,
}

/// An act, and the line of the statement, branch or handler in which it stands.
#[derive(Drop)]
pub struct Event {
    pub line: u32,
    pub act: Act,
}
