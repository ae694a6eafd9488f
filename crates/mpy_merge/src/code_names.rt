//! The indexes of a code's name and of its arguments.

ghost use Rattle.std.specs.Prelude.{◌≡◌, ℕ, List, IfOk};
ghost use Rattle.bc_verify.specs.bc_prelude.Names.{AreNames};

use mpy_base::{NoMemory, read_vuint};
use std::alloc::Global;

/// The indexes of names.
pub(crate) fn indexes_of(alloc: Global, names: &[u8]) -> Result<Vec<u32>, NoMemory>
    requires { (indexes : List ℕ) × AreNames indexes names.now }
    ensures { (indexes : List ℕ) → AreNames indexes names.now → IfOk result (λ found. found.items ≡ indexes) }
{
    let mut indexes = Vec::new(alloc);
    let mut at = 0;
    while at < names.len() {
        let Ok((index, next)) = read_vuint(names, at) else {
            unreachable!();
        };
        indexes.push(index)?;
        at = next;
    }
    Ok(indexes)
}
