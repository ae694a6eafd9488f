//! When the code of a text passes a limit.

ghost use Rattle.std.specs.Prelude.{◌≡◌, None};
ghost use Rattle.bc_scheme.specs.py_meaning.Program.{Text};
ghost use Rattle.emit_measures.specs.declared.faults.Measures.{Measures as Numbers};
ghost use Rattle.emit_measures.specs.Faults.{is_big_state, fault_of, IsMeasured, IsWithin};

use mpy_base::SourceCode;
use mpy_base::limits::{MAX_ARGUMENTS, MAX_DEPTH, MAX_STATE, MAX_WIDE_LENGTH};

/// The handler entries that a function's code holds at most at one place.
const MAX_HELD: usize = 100;

/// What is counted of the code of a text.
#[derive(Drop)]
pub struct Measures {
    /// The bytes of its instructions, with each operand at its longest.
    pub length: usize,
    pub locals: usize,
    pub params: usize,
    /// The greatest height of slots above the locals.
    pub height: usize,
    /// The handler entries.
    pub entries: usize,
    /// How many functions stand around it, itself among them: 0 for a module's own text.
    pub depth: usize,
    /// A call in it has more than 255 positional or keyword arguments, or a display more than 4,096 items.
    pub crowded: bool,
}

impl Measures {
    /// Whether its state passes a limit.
    fn is_big(&self) -> bool
        ensures { result ≡ is_big_state self.now }
    {
        if self.crowded || self.depth >= MAX_DEPTH {
            return true;
        }
        if self.params > MAX_ARGUMENTS || self.entries > MAX_HELD {
            return true;
        }
        self.locals.saturating_add(self.height.max(1)) > MAX_STATE
    }

    /// The fault of the text: that it is too long comes before that its state is too big.
    pub fn fault(&self) -> Option<SourceCode>
        ensures { result ≡ fault_of self.now }
    {
        if self.length > MAX_WIDE_LENGTH {
            return Some(SourceCode::TooLong);
        }
        if self.is_big() {
            return Some(SourceCode::StateTooBig);
        }
        None
    }
}

/// A text without a fault keeps the limits of its code.
pub fn within_law()
    ensures { (text : Text) (m : Numbers) → IsMeasured text m → fault_of m ≡ None → IsWithin text }
{}
