//! The order of first visits: the least position each time where something came.

ghost use Rattle.std.specs.Prelude.{◌≡◌, ◌&&◌, IfSome, IfOk, false, get_or, not, replicate};
ghost use Rattle.bc_refusals.specs.Stages.{IsNext};
ghost use Rattle.bc_refusals.specs.Views.{Passed};

use crate::arriving::is_set;
use mpy_base::NoMemory;
use std::alloc::Global;

/// Did something come to a position that wasn't visited yet?
fn waits(came: &[bool], gone: &[bool], p: usize) -> bool
    ensures { result ≡ (get_or came.now p false && not (get_or gone.now p false)) }
{
    is_set(came, p) && !is_set(gone, p)
}

/// The least position from `from` on that waits for its first visit.
pub(crate) fn next_waiting(came: &[bool], gone: &[bool], from: usize) -> Option<usize>
    requires { Passed came.now gone.now from }
    ensures { IfSome result (λ p. IsNext came.now gone.now p) }
{
    for p in from..came.len() {
        if waits(came, gone, p) {
            return Some(p);
        }
    }
    None
}

/// That many flags that aren't set.
#[tactic(auto, using(std::proofs::lemmas::List::replicate_more))]
pub(crate) fn clear_flags(alloc: Global, size: usize) -> Result<Vec<bool>, NoMemory>
    ensures { IfOk result (λ v. v.items ≡ replicate size false) }
{
    let mut flags = Vec::with_capacity(alloc, size)?;
    for _p in 0..size {
        flags.push(false)?;
    }
    Ok(flags)
}
