//! Which dicts are modules' own.

ghost use Rattle.std.specs.Prelude.{◌≡◌, ℕ, length, nat_eq, replicate, if◌then◌else◌, Some, IfOk, slice_get};
ghost use Rattle.snap_states.specs.Knowing.{AreOwners, owned_by, owner_with};

use mpy_base::NoMemory;
use snap_grammar::ObjectPart;
use std::alloc::Global;

/// How many modules have a dict as their own.
#[derive(Clone, Copy, Debug, PartialEq, Eq)]
pub enum Owner {
    Nobody,
    One,
    Several,
}

/// One module more.
fn with(owner: Owner) -> Owner
    ensures { result ≡ owner_with owner }
{
    match owner {
        Owner::Nobody => Owner::One,
        Owner::One | Owner::Several => Owner::Several,
    }
}

/// Counts a module for its dict, where an object has that number.
fn count_module(owners: &mut Vec<Owner>, number: u32)
    ensures as_many { length owners.new.items ≡ length owners.old.items }
    ensures each { (n : ℕ) (owner : Owner) → slice_get owners.old.items n ≡ Some owner
        → slice_get owners.new.items n ≡ Some (if nat_eq number n then owner_with owner else owner) }
{
    let at = number as usize;
    if at < owners.len() {
        owners[at] = with(owners[at]);
    }
}

/// Counts an object for its dict, where it is a module.
fn count_object(owners: &mut Vec<Owner>, object: &ObjectPart)
    ensures as_many { length owners.new.items ≡ length owners.old.items }
    ensures each { (n : ℕ) (owner : Owner) → slice_get owners.old.items n ≡ Some owner
        → slice_get owners.new.items n ≡ Some (owned_by object.now n owner) }
{
    match object {
        ObjectPart::Module { names, .. } => count_module(owners, *names),
        _ => {}
    }
}

/// Nobody for each object.
fn nobody(alloc: Global, count: usize) -> Result<Vec<Owner>, NoMemory>
    ensures { IfOk result (λ owners. owners.items ≡ replicate count Owner.Nobody) }
{
    Ok(vec![in alloc; Owner::Nobody; count]?)
}

/// For each object how many modules have it as their own dict.
pub(crate) fn owners_of(alloc: Global, objects: &[ObjectPart]) -> Result<Vec<Owner>, NoMemory>
    ensures { IfOk result (λ owners. AreOwners objects.now owners.items) }
{
    let mut owners = nobody(alloc, objects.len())?;
    for object in objects {
        count_object(&mut owners, object);
    }
    Ok(owners)
}
