//! What rows that were found show of a code.

ghost use Rattle.std.specs.Prelude.{IfOk};
ghost use Rattle.bc_flow.specs.Code.{code_of};
ghost use Rattle.bc_refusals.specs.Judgements.{Shows};

use crate::walk::fault_by;
use bc_certificates::{check, search};
use bc_flow::{Code, Fault};
use mpy_base::NoMemory;
use std::alloc::Global;

/// What is known of a code.
#[derive(Clone, Copy, Debug, PartialEq, Eq)]
pub enum Judgement {
    Verified,
    /// It isn't verified, and this is its first fault.
    Refused(Fault),
    /// The rows that were found show neither.
    Unknown,
}

/// Judges a code by rows: one walk finds them, and one look at each position shows what follows from them.
pub fn judge(alloc: Global, code: &Code) -> Result<Judgement, NoMemory>
    ensures { IfOk result (λ j. Shows (code_of code.now) j) }
{
    let Some(table) = search(alloc, code)? else {
        return Ok(Judgement::Unknown);
    };
    if check(alloc, code, &table)? {
        return Ok(Judgement::Verified);
    }
    match fault_by(alloc, code, &table)? {
        Some(fault) => Ok(Judgement::Refused(fault)),
        None => Ok(Judgement::Unknown),
    }
}
