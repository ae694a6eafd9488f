//! The objects of a snapshot, as an arena is made of them.

ghost use Rattle.std.specs.Prelude.{◌≡◌, ◌^◌, ◌<◌, ℕ, All, map, IfOk, Some, length, slice_get, unwrap_or};
ghost use Rattle.mpy_base.specs.declared.builtin.Builtin.TheVariants as builtins;
ghost use Rattle.mpy_base.specs.declared.kind.Kind.TheVariants as raised;
ghost use Rattle.arena_heap.specs.Building.{HasRoom, shell_object};
ghost use Rattle.snap_states.specs.Decoded as decoded;
ghost use Rattle.snap_states.specs.Parts.{cell_of as first_cell, cells_of_part, cells_of_parts};
ghost use Rattle.snap_states.specs.States.{AreFineObjects, IsFineObject};
ghost use Rattle.snap_loading.specs.Looked.{IsLookup};
ghost use Rattle.snap_loading.specs.Shells.{shell_of};

use crate::filling::object_at;
use crate::lookup::{Lookup, cell_of};
use crate::names::{module_title, name_number};
use crate::titles::code_title;
use crate::values::value_of;
use arena_heap::{DictNo, Shell};
use mpy_base::{Builtin, Kind, NoMemory};
use snap_grammar::ObjectPart;
use snap_states::{builtin_called, kind_called};
use std::alloc::Global;
use vm_machine::Rows;

/// A dict that is an object of the snapshot.
fn dict_of(lookup: &Lookup, number: u32) -> DictNo
    requires { IsLookup lookup.now }
    ensures { result ≡ record { cell = first_cell lookup.now.snapshot.now.objects number } }
{
    let cell = cell_of(lookup, number);
    DictNo { cell }
}

/// The kind of a name, `Exception` where there is none.
fn kind_of_name(name: &[u8]) -> Kind
    ensures { result ≡ unwrap_or (decoded.kind_called name.now) raised.Exception }
{
    kind_called(name).unwrap_or(Kind::Exception)
}

/// The built-in of a name, `print` where there is none.
fn method_of_name(name: &[u8]) -> Builtin
    ensures { result ≡ unwrap_or (decoded.builtin_called name.now) builtins.Print }
{
    builtin_called(name).unwrap_or(Builtin::Print)
}

/// An object that holds its items yet to come.
fn shell_of<'a>(lookup: &Lookup, rows: &Rows<'_>, object: &'a ObjectPart) -> Shell<'a>
    requires lookup { IsLookup lookup.now }
    requires rows { rows.now ≡ lookup.now.library.now }
    requires few { cells_of_part object.now < 2 ^ 32 }
    requires fine { (number : ℕ) × IsFineObject lookup.now.library.now lookup.now.snapshot.now number object.now }
    ensures object { (title : ℕ → ℕ → ℕ) → decoded.AreTitles lookup.now.library.now title
        → shell_object result ≡ shell_of lookup.now.library.now lookup.now.snapshot.now title object.now }
    ensures room { HasRoom result }
{
    match object {
        ObjectPart::List { room, .. } => Shell::List { room: *room },
        ObjectPart::Dict { room, .. } => Shell::Dict { room: *room },
        ObjectPart::Tuple { items } => Shell::Tuple {
            count: items.len() as u32,
        },
        ObjectPart::Text { bytes } => Shell::Text {
            bytes: bytes.bytes(),
        },
        ObjectPart::Function {
            module_number,
            code,
            names,
            defaults,
        } => Shell::Fun {
            name: code_title(lookup.library, rows, *module_number, *code),
            module: module_title(lookup.library, *module_number),
            code: *code,
            names: dict_of(lookup, *names),
            defaults: value_of(lookup, defaults),
        },
        ObjectPart::Exception {
            kind,
            args,
            file,
            line,
            name,
        } => Shell::Exc {
            kind: kind_of_name(kind.bytes()),
            args: value_of(lookup, args),
            file: name_number(lookup.library, file.bytes()),
            line: *line,
            name: name_number(lookup.library, name.bytes()),
        },
        ObjectPart::Method { object, method } => Shell::Method {
            object: value_of(lookup, object),
            method: method_of_name(method.bytes()),
        },
        ObjectPart::Range { start, stop, step } => Shell::Range {
            start: *start,
            stop: *stop,
            step: *step,
        },
        ObjectPart::Module { name, names } => Shell::Module {
            name: name_number(lookup.library, name.bytes()),
            names: dict_of(lookup, *names),
        },
    }
}

/// The objects of a snapshot before their items are there.
pub(crate) fn shells_of<'a>(
    alloc: Global,
    lookup: &Lookup<'a>,
    rows: &Rows<'_>,
) -> Result<Vec<Shell<'a>>, NoMemory>
    requires lookup { IsLookup lookup.now }
    requires rows { rows.now ≡ lookup.now.library.now }
    requires few { cells_of_parts lookup.now.snapshot.now.objects < 2 ^ 32 }
    requires fine { AreFineObjects lookup.now.library.now lookup.now.snapshot.now }
    ensures objects { IfOk result (λ shells. (title : ℕ → ℕ → ℕ) → decoded.AreTitles lookup.now.library.now title
        → map shell_object shells.items
        ≡ map (shell_of lookup.now.library.now lookup.now.snapshot.now title) lookup.now.snapshot.now.objects) }
    ensures rooms { IfOk result (λ shells. All HasRoom shells.items) }
{
    let objects = lookup.snapshot.objects.as_slice();
    let mut shells = Vec::new(alloc);
    for number in 0..objects.len() {
        let object = object_at(objects, number);
        shells.push(shell_of(lookup, rows, object))?;
    }
    Ok(shells)
}
