//! The machine of a snapshot.

ghost use Rattle.std.specs.Prelude.{◌≡◌, ◌≤◌, ◌<◌, ◌+◌, ◌^◌, None, IfOk, length, slice_get};
ghost use Rattle.std.specs.Option.{option_copied};
ghost use Rattle.bc_library.specs.Greatest.{IsGreatestIn, ShelfHas};
ghost use Rattle.snap_grammar.specs.Spelling.{Fits};
ghost use Rattle.snap_states.specs.Decoded as decoded;
ghost use Rattle.snap_states.specs.States.{IsShaped};
ghost use Rattle.snap_loading.specs.Looked.{IsLookup};
ghost use Rattle.vm_machine.specs.Machine.{IsVm};
ghost use Rattle.vm_machine.specs.vm_starting.Programs.{IsRunnable};

use crate::arena::arena_of;
use crate::frames::frames_of;
use crate::lookup::{Lookup, cell_of};
use crate::names::name_number;
use crate::safe::safe_law;
use crate::titles::titles_law;
use arena_heap::{ModuleNo, Value};
use bc_library::{Library, library_law};
use frame_calls::{Bindings, Operands};
use mpy_base::NoMemory;
use mpy_base::limits::MAX_MODULES;
use prim_modules::Modules;
use snap_grammar::{ObjectPart, Snapshot};
use std::alloc::Global;
use vm_machine::{Rows, Vm, module_names};

/// The name of a module object, empty where there is no such object.
fn name_in(object: Option<&ObjectPart>) -> &[u8]
    ensures { result.now ≡ decoded.name_in_part (option_copied object.entry) }
{
    match object {
        Some(ObjectPart::Module { name, .. }) => name.bytes(),
        _ => &[],
    }
}

/// The number of the name that the object of a number has as a module.
fn object_name(lookup: &Lookup, number: u32) -> u32
    ensures { result
        ≡ decoded.name_number lookup.now.library.now (decoded.name_in_part (slice_get lookup.now.snapshot.now.objects number)) }
{
    let object = lookup.snapshot.objects.get(number as usize);
    name_number(lookup.library, name_in(object))
}

/// The number at a place.
fn number_at(numbers: &[u32], at: usize) -> u32
    requires { at < length numbers.now }
    ensures { slice_get numbers.now at ≡ Some result }
{
    numbers[at]
}

/// The registered modules, of which there are no more than the library has and `port`.
fn modules_of(alloc: Global, lookup: &Lookup) -> Result<Modules, NoMemory>
    requires lookup { IsLookup lookup.now }
    requires few { length lookup.now.snapshot.now.modules ≤ MAX_MODULES + 1 }
    ensures { IfOk result (λ modules. modules ≡ decoded.modules_of lookup.now.library.now lookup.now.snapshot.now) }
{
    let mut modules = Modules::new(alloc, MAX_MODULES as u32 + 1)?;
    let numbers = lookup.snapshot.modules.as_slice();
    for at in 0..numbers.len() {
        let number = number_at(numbers, at);
        let name = object_name(lookup, number);
        let cell = cell_of(lookup, number);
        modules.register(name, ModuleNo { cell });
    }
    Ok(modules)
}

/// As many slots and handler entries as a code of the library takes at most.
fn greatest_of(library: &Library) -> (u32, u32)
    ensures greatest { IsGreatestIn (ShelfHas library.now) result.0 result.1 }
    ensures few { result.0 ≤ 4096 }
{
    library.greatest()
}

/// Places for the operands and the parameters of a call, and for the items of an instruction, as many of each as slots.
fn places(alloc: Global, slot_room: u32) -> Result<(Operands, Bindings, Vec<Value>), NoMemory>
    ensures operands { IfOk result (λ places. places.0.room ≡ slot_room) }
    ensures bindings { IfOk result (λ places. places.1.room ≡ slot_room) }
    ensures items { IfOk result (λ places. length places.2.items ≡ slot_room) }
{
    let operands = Operands::new(alloc, slot_room)?;
    let bindings = Bindings::new(alloc, slot_room)?;
    let items = vec![in alloc; Value::None; slot_room as usize]?;
    Ok((operands, bindings, items))
}

/// The machine that stands where the snapshot does, whose shape is that of a state. It takes all its memory here.
pub(crate) fn machine_of(
    alloc: Global,
    library: &Library,
    rows: &Rows<'_>,
    snapshot: &Snapshot,
) -> Result<Vm, NoMemory>
    requires runnable { IsRunnable library.now }
    requires rows { rows.now ≡ library.now }
    requires fits { Fits snapshot.now }
    requires shaped { IsShaped library.now snapshot.now }
    ensures vm { IfOk result (IsVm library.now) }
    ensures goes_on { IfOk result (λ vm. vm.end ≡ None) }
    ensures paid { IfOk result (λ vm. vm.paid ≡ snapshot.now.paid) }
    ensures decoded { IfOk result (λ vm.
        decoded.IsDecoded library.now snapshot.now vm.arena vm.modules vm.frames.calls) }
{
    library_law(library);
    titles_law(library, rows);
    safe_law();
    let names = module_names(alloc, library)?;
    let (slots, entries) = greatest_of(library);
    let lookup = Lookup::new(alloc, library, snapshot)?;
    let arena = arena_of(alloc, &lookup, rows)?;
    let modules = modules_of(alloc, &lookup)?;
    let frames = frames_of(alloc, &lookup, rows, slots, entries)?;
    let (operands, bindings, items) = places(alloc, slots + 1)?;
    Ok(Vm {
        frames,
        arena,
        modules,
        names,
        operands,
        bindings,
        items,
        paid: snapshot.paid,
        end: None,
    })
}
