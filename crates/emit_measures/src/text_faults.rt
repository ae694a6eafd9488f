//! The fault of a text that can have no draft.

ghost use Rattle.std.specs.Prelude.{◌≡◌, ◌<◌, ℕ, length, map, Some};
ghost use Rattle.bc_scheme.specs.py_meaning.Plain.{plain_stmt, block};
ghost use Rattle.bc_scheme.specs.py_meaning.Program.{Text as TextOf};
ghost use Rattle.emit_measures.specs.declared.faults.Measures.{Measures};
ghost use Rattle.emit_measures.specs.Faults.{fault_of, IsMeasured};
ghost use Rattle.emit_measures.specs.TextLengths.{HasTextLength};

use crate::statement_lengths::text_length;
use mpy_base::limits::MAX_WIDE_LENGTH;
use mpy_base::{SourceCode, Text};
use py_tree::Stmt;

/// The fault of a text with more than 4,096 locals, whatever else is counted of it: that it is too long comes first.
pub fn many_locals_fault(level: u8, locals: &[Text], body: &[Stmt]) -> SourceCode
    requires { 4096 < length locals.now }
    ensures { (text : TextOf) (n : ℕ) → text.level ≡ level → text.locals ≡ locals.now → text.body ≡ (block (map plain_stmt body.now)).make n
        → (measures : Measures) → IsMeasured text measures → HasTextLength text measures → fault_of measures ≡ Some result }
{
    if text_length(level, locals, body) > MAX_WIDE_LENGTH {
        return SourceCode::TooLong;
    }
    SourceCode::StateTooBig
}
