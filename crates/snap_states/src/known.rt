//! What is looked up of a library and a snapshot.

ghost use Rattle.std.specs.Prelude.{◌≡◌, ◌↔◌, ◌<◌, ℕ, Some, false, length, slice_get, IfOk, IsTrue};
ghost use Rattle.std.specs.Option.{option_map};
ghost use Rattle.snap_states.specs.Knowing.{IsKnown, object_kind};
ghost use Rattle.snap_states.specs.States as states;

use crate::constants::strs_of;
use crate::kinds::{PartKind, is_kind, part_kind};
use crate::naming::is_name;
use crate::owners::{Owner, owners_of};
use crate::texts::TextSet;
use bc_library::Library;
use bc_rows::Rows;
use mpy_base::NoMemory;
use snap_grammar::Snapshot;
use std::alloc::Global;

/// A library, its rows and a snapshot, with what is looked up in them often.
#[derive(Drop)]
pub struct Known<'a> {
    pub(crate) library: &'a Library,
    pub(crate) rows: &'a Rows<'a>,
    pub(crate) snapshot: &'a Snapshot,
    /// For each object how many modules have it as their own dict.
    pub(crate) owners: Vec<Owner>,
    /// The strs among the constants of the library's modules.
    pub(crate) strs: TextSet,
}

impl<'a> Known<'a> {
    /// What is known of the library and the snapshot. In a time that grows with both.
    pub fn new(
        alloc: Global,
        library: &'a Library,
        rows: &'a Rows<'a>,
        snapshot: &'a Snapshot,
    ) -> Result<Known<'a>, NoMemory>
        requires { rows.now ≡ library.now }
        ensures known { IfOk result IsKnown }
        ensures library { IfOk result (λ known. known.library.now ≡ library.now) }
        ensures snapshot { IfOk result (λ known. known.snapshot.now ≡ snapshot.now) }
    {
        Ok(Known {
            library,
            rows,
            snapshot,
            owners: owners_of(alloc, snapshot.objects.as_slice())?,
            strs: strs_of(alloc, library)?,
        })
    }
}

/// The kind of the object of a number, if there is one.
pub(crate) fn kind_at(snapshot: &Snapshot, number: u32) -> Option<PartKind>
    ensures { option_map object_kind result ≡ states.kind_at snapshot.now number }
{
    match snapshot.objects.get(number as usize) {
        Some(object) => Some(part_kind(object)),
        None => None,
    }
}

/// Whether the object of a number is of this kind.
pub(crate) fn is_at(snapshot: &Snapshot, kind: PartKind, number: u32) -> bool
    ensures { IsTrue result ↔ states.IsAt snapshot.now (object_kind kind) number }
{
    is_kind(kind_at(snapshot, number), kind)
}

/// How many modules have an object as their own dict, where there is one.
fn owner_of(known: &Known, number: usize) -> Option<Owner>
    ensures { result ≡ slice_get known.now.owners.items number }
{
    known.owners.get(number).copied()
}

/// Whether it is one module.
fn is_one(owner: Option<Owner>) -> bool
    ensures { IsTrue result ↔ (owner ≡ Some Owner.One) }
{
    match owner {
        Some(Owner::One) => true,
        Some(Owner::Nobody) | Some(Owner::Several) | None => false,
    }
}

/// Whether it is none.
fn is_nobody(owner: Option<Owner>) -> bool
    ensures { IsTrue result ↔ (owner ≡ Some Owner.Nobody) }
{
    match owner {
        Some(Owner::Nobody) => true,
        Some(Owner::One) | Some(Owner::Several) | None => false,
    }
}

/// Whether an object is the dict of exactly one module.
pub(crate) fn is_namespace(known: &Known, number: u32) -> bool
    requires { IsKnown known.now }
    ensures { IsTrue result ↔ states.IsNamespace known.now.snapshot.now number }
{
    is_one(owner_of(known, number as usize)) && is_at(known.snapshot, PartKind::Dict, number)
}

/// Whether an object is there, and no module's dict.
pub(crate) fn is_object(known: &Known, number: u32) -> bool
    requires { IsKnown known.now }
    ensures { IsTrue result ↔ states.IsObject known.now.snapshot.now number }
{
    is_nobody(owner_of(known, number as usize))
}

/// Whether an object is no module's dict.
pub(crate) fn is_free(known: &Known, number: usize) -> bool
    requires known { IsKnown known.now }
    requires there { number < length known.now.snapshot.now.objects }
    ensures free { IsTrue result → (m : ℕ) → states.NamesOf known.now.snapshot.now m number → ⊥ }
    ensures owned { result ≡ false → (m : ℕ) × states.NamesOf known.now.snapshot.now m number }
{
    is_nobody(owner_of(known, number))
}

/// Whether a text is a constant str that the library holds.
pub(crate) fn is_constant(known: &Known, text: &[u8]) -> bool
    requires { IsKnown known.now }
    ensures { IsTrue result ↔ states.IsConstant known.now.library.now text.now }
{
    is_name(known.library, text) || known.strs.contains(text)
}
