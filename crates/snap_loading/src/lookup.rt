//! What is looked up of a library and a snapshot while its state is made.

ghost use Rattle.std.specs.Prelude.{◌≡◌, ◌^◌, ◌<◌, ◌≤◌, ◌+◌, length, IfOk};
ghost use Rattle.std.specs.Option.{option_copied};
ghost use Rattle.snap_grammar.specs.declared.parts.ValuePart.TheVariants as parts;
ghost use Rattle.snap_states.specs.Decoded as decoded;
ghost use Rattle.snap_states.specs.Parts.{cell_of, cells_of_part, cells_of_parts};
ghost use Rattle.snap_loading.specs.Looked.{AreCells, IsLookup};

use crate::strs::{Strs, strs_of};
use arena_heap::{
    DictNo, ExcNo, FunNo, ListNo, MethodNo, ModuleNo, RangeNo, TextNo, TupleNo, Value,
};
use bc_library::Library;
use mpy_base::NoMemory;
use snap_grammar::{ObjectPart, Snapshot};
use std::alloc::Global;

/// A library and a snapshot, with what is looked up in them often.
#[derive(Drop)]
pub(crate) struct Lookup<'a> {
    pub library: &'a Library,
    pub snapshot: &'a Snapshot,
    /// The first cell of each object, and the cell behind all of them.
    pub cells: Vec<u32>,
    /// The constant strs of the library.
    pub strs: Strs,
}

/// How many cells an object takes.
fn weight(object: &ObjectPart) -> u64
    requires { cells_of_part object.now < 2 ^ 32 }
    ensures { result ≡ cells_of_part object.now }
{
    match object {
        ObjectPart::List { room, .. } => 3 + *room as u64,
        ObjectPart::Dict { room, .. } => 3 + 3 * *room as u64,
        ObjectPart::Tuple { items } => 1 + items.len() as u64,
        ObjectPart::Text { .. } => 2,
        ObjectPart::Exception { .. } => 6,
        ObjectPart::Method { .. } => 3,
        ObjectPart::Function { .. } | ObjectPart::Range { .. } | ObjectPart::Module { .. } => 4,
    }
}

/// The first cell of each object, and the cell behind all of them.
fn cells_of(alloc: Global, objects: &[ObjectPart]) -> Result<Vec<u32>, NoMemory>
    requires { cells_of_parts objects.now < 2 ^ 32 }
    ensures { IfOk result (λ cells. AreCells objects.now cells.items) }
{
    let mut cells = Vec::new(alloc);
    let mut next = 0u32;
    for object in objects {
        cells.push(next)?;
        next += weight(object) as u32;
    }
    cells.push(next)?;
    Ok(cells)
}

/// The number of an object that begins at a cell, if there is one.
fn reference(object: Option<&ObjectPart>, cell: u32) -> Value
    ensures { result ≡ decoded.reference (option_copied object.entry) cell }
{
    match object {
        None => Value::None,
        Some(ObjectPart::List { .. }) => Value::List(ListNo { cell }),
        Some(ObjectPart::Dict { .. }) => Value::Dict(DictNo { cell }),
        Some(ObjectPart::Tuple { .. }) => Value::Tuple(TupleNo { cell }),
        Some(ObjectPart::Text { .. }) => Value::Text(TextNo { cell }),
        Some(ObjectPart::Function { .. }) => Value::Fun(FunNo { cell }),
        Some(ObjectPart::Exception { .. }) => Value::Exc(ExcNo { cell }),
        Some(ObjectPart::Method { .. }) => Value::Method(MethodNo { cell }),
        Some(ObjectPart::Range { .. }) => Value::Range(RangeNo { cell }),
        Some(ObjectPart::Module { .. }) => Value::Module(ModuleNo { cell }),
    }
}

impl<'a> Lookup<'a> {
    /// What is looked up of the library and the snapshot, whose objects fit an arena. In a time that grows with both.
    pub(crate) fn new(
        alloc: Global,
        library: &'a Library,
        snapshot: &'a Snapshot,
    ) -> Result<Lookup<'a>, NoMemory>
        requires { cells_of_parts snapshot.now.objects < 2 ^ 32 }
        ensures lookup { IfOk result IsLookup }
        ensures library { IfOk result (λ lookup. lookup.library.now ≡ library.now) }
        ensures snapshot { IfOk result (λ lookup. lookup.snapshot.now ≡ snapshot.now) }
    {
        let cells = cells_of(alloc, snapshot.objects.as_slice())?;
        let strs = strs_of(alloc, library)?;
        Ok(Lookup {
            library,
            snapshot,
            cells,
            strs,
        })
    }
}

/// The first cell of an object, and the cell behind all objects where none has the number.
pub(crate) fn cell_of(lookup: &Lookup, number: u32) -> u32
    requires { IsLookup lookup.now }
    ensures { result ≡ cell_of lookup.now.snapshot.now.objects number }
{
    let last = lookup.cells.len() - 1;
    lookup.cells[last.min(number as usize)]
}

/// The object of a number, as a value.
pub(crate) fn object_value(lookup: &Lookup, number: u32) -> Value
    requires { IsLookup lookup.now }
    ensures { result ≡ decoded.value_of lookup.now.library.now lookup.now.snapshot.now (parts.Object number) }
{
    reference(
        lookup.snapshot.objects.get(number as usize),
        cell_of(lookup, number),
    )
}
