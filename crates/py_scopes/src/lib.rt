//! The names of a source: what is local to its functions, and the first misuse of a name or of a word that leaves a
//! loop or a function.
#![tactic(auto)]

ghost use Rattle.std.specs.Prelude.{◌≡◌, ◌⊎◌, ℕ, List, Err, OnOk, IfOk, IfErr};
ghost use Rattle.mpy_base.specs.declared.refused.Refused.TheVariants as refused;
ghost use Rattle.mpy_base.specs.declared.source.SourceFault.{SourceFault as Fault};
ghost use Rattle.py_tree.specs.declared.stmt.Module.{Module as Tree};
ghost use Rattle.py_scopes.specs.Names.{Table, has};
ghost use Rattle.py_scopes.specs.Scopes.{slots_of, locals, is_local, IsFirstFault, IsFaultless};

mod event;
mod judge;
mod names;
mod parts;
mod slots;
mod statements;
mod targets;
mod uses;

use crate::judge::{first_fault, locals_of_each};
use crate::names::{Tells, table};
use crate::statements::statements;
use mpy_base::{Refused, SourceFault};
use py_tree::Module;
pub use slots::NameSlots;
use std::alloc::Global;

/// The locals of each function of the tree, or the fault that stands first in the text: a captured name, a name that is
/// declared global too late, or a word outside of a loop or a function.
pub fn scopes(alloc: Global, tree: &Module) -> Result<NameSlots, Refused<SourceFault>>
    ensures found { IfOk result (λ slots. slots ≡ slots_of tree.now) }
    ensures only { OnOk result (IsFaultless tree.now) }
    ensures fault { IfErr result (λ e. (f : Fault) → e ≡ refused.Fault f → IsFirstFault tree.now f) }
    ensures fault_only { (f : Fault) → IsFirstFault tree.now f → (result ≡ Err (refused.Fault f)) ⊎ (result ≡ Err refused.NoMemory) }
{
    let mut events = Vec::new(alloc);
    statements(alloc, &mut events, tree.body.as_slice(), false)?;
    let bound = table(alloc, &events, Tells::Bound)?;
    let declared = table(alloc, &events, Tells::Declared)?;
    if let Some(fault) = first_fault(alloc, &bound, &declared, &events)? {
        return Err(Refused::Fault(fault));
    }
    Ok(NameSlots::new(locals_of_each(alloc, &bound, &declared)?))
}

/// A tree has one first fault at most, and none where no event has a fault.
pub fn scopes_law()
    ensures one { (tree : Tree) (f g : Fault) → IsFirstFault tree f → IsFirstFault tree g → f ≡ g }
    ensures none { (tree : Tree) (f : Fault) → IsFirstFault tree f → IsFaultless tree → ⊥ }
{}

/// A name stands among a function's locals exactly where it is local to the function.
pub fn locals_law()
    ensures { (bound declared : Table) (f : ℕ) (name : List ℕ) → has name (locals bound declared f) ≡ is_local bound declared f name }
{}
