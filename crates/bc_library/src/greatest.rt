//! The greatest numbers of slots and of handler entries of codes.

ghost use Rattle.std.specs.Prelude.{◌≡◌, ℕ, ◌<◌, ◌≤◌, List, Some};
ghost use Rattle.mpy_tree.specs.declared.raw.RawCode.{RawCode};
ghost use Rattle.mpy_tree.specs.File.{IsCode};
ghost use Rattle.bc_verify.specs.bc_prelude.declared.prelude.Prelude.{Prelude};
ghost use Rattle.bc_library.specs.Greatest.{HasPrelude, IsGreatestIn};

use bc_verify::{RawCode, parts_of};

/// The greatest of a code and of those in it, in `levels` levels of codes at most.
pub(crate) fn greatest_in(code: &RawCode, levels: usize) -> (u32, u32)
    requires { (texts : ℕ) × (text : List ℕ) × IsCode levels texts text code.now }
    ensures { IsGreatestIn (HasPrelude code.now) result.0 result.1 }
{
    let prelude = parts_of(code.bytes.bytes()).prelude;
    let mut state = prelude.n_state;
    let mut exc = prelude.n_exc;
    for child in code.children.as_slice() {
        let (child_state, child_exc) = greatest_in(child, levels - 1);
        state = state.max(child_state);
        exc = exc.max(child_exc);
    }
    (state, exc)
}
