//! The registered modules of a snapshot.

ghost use Rattle.std.specs.Prelude.{◌≡◌, ◌↔◌, All, IfOk, IsTrue, option_copied};
ghost use Rattle.mpy_base.specs.World.{AModule};
ghost use Rattle.snap_states.specs.Knowing.{HaveOnce};
ghost use Rattle.snap_states.specs.States as states;

use crate::kinds::PartKind;
use crate::known::is_at;
use crate::texts::TextSet;
use mpy_base::NoMemory;
use snap_grammar::{ObjectPart, Snapshot};
use std::alloc::Global;

/// The name of the module object of a number.
fn name_at(snapshot: &Snapshot, number: u32) -> Option<&[u8]>
    ensures { option_copied result ≡ states.registered_name snapshot.now number }
{
    match snapshot.objects.get(number as usize) {
        Some(ObjectPart::Module { name, .. }) => Some(name.bytes()),
        _ => None,
    }
}

/// Whether the objects of these numbers are modules.
fn are_modules(snapshot: &Snapshot, numbers: &[u32]) -> bool
    ensures { IsTrue result ↔ All (states.IsAt snapshot.now AModule) numbers.now }
{
    for number in numbers {
        if !is_at(snapshot, PartKind::Module, *number) {
            return false;
        }
    }
    true
}

/// Whether no two modules of these numbers have one name.
fn have_once(alloc: Global, snapshot: &Snapshot, numbers: &[u32]) -> Result<bool, NoMemory>
    requires { All (states.IsAt snapshot.now AModule) numbers.now }
    ensures { IfOk result (λ once. IsTrue once ↔ HaveOnce snapshot.now numbers.now) }
{
    let mut names = TextSet::new(alloc);
    for number in numbers {
        let Some(name) = name_at(snapshot, *number) else {
            unreachable!();
        };
        if !names.insert(alloc, name)? {
            return Ok(false);
        }
    }
    Ok(true)
}

/// Whether the registered objects are modules of which no two have one name.
pub fn are_registered_parts(alloc: Global, snapshot: &Snapshot) -> Result<bool, NoMemory>
    ensures { IfOk result (λ fine. IsTrue fine ↔ states.AreRegisteredParts snapshot.now) }
{
    let numbers = snapshot.modules.as_slice();
    if !are_modules(snapshot, numbers) {
        return Ok(false);
    }
    have_once(alloc, snapshot, numbers)
}
