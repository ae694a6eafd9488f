//! Runs that are opened.

ghost use Rattle.std.specs.Prelude.{◌≡◌, ◌<◌, ◌≤◌, ℕ, List, IfOk, IfSome, None, length};
ghost use Rattle.mpy_base.specs.declared.room.NoRoom.{NoRoom};
ghost use Rattle.mpy_base.specs.World.{PortState};
ghost use Rattle.frame_calls.specs.arena_objects.Keys.{AllTold};
ghost use Rattle.vm_states.specs.bc_library.Constants.{items_at, text_at};
ghost use Rattle.vm_states.specs.bc_library.Greatest.{IsGreatestIn, ShelfHas};
ghost use Rattle.frame_calls.specs.bc_machine.Library.{Name};
ghost use Rattle.frame_calls.specs.bc_machine.Machine.{start};
ghost use Rattle.vm_states.specs.bc_rows.declared.row.Row.{Row as CodeRow};
ghost use Rattle.vm_states.specs.bc_rows.Rows.{IsRow};
ghost use Rattle.bc_progress.specs.py_effects.Ends.{new_world};
ghost use Rattle.vm_states.specs.Means.{Program};
ghost use Rattle.vm_states.specs.State.{IsState};
ghost use Rattle.vm_starting.specs.Programs.{IsProgramOf};
ghost use Rattle.vm_states.specs.frame_exits.declared.ends.End.TheVariants as ends;
ghost use Rattle.vm_starting.specs.Opened.{HasMemory, IsBegun, IsFresh, state_in};
ghost use Rattle.vm_starting.specs.Titles.{AreTitles};

use crate::shown_program::{code_law, program_law, runnable_law};
use crate::starting::start_main;
use arena_heap::{Arena, Value};
use bc_library::Library;
use frame_calls::{Bindings, Operands};
use mpy_base::limits::MAX_MODULES;
use mpy_base::{NoMemory, Room};
use prim_modules::Modules;
use std::alloc::Global;
use vm_frames::Frames;
use vm_states::{End, ModuleName, Rows};

/// What a run of a library keeps. All its memory is taken where it is opened.
#[derive(Drop)]
pub struct Vm {
    pub frames: Frames,
    pub arena: Arena,
    /// The registered modules.
    pub modules: Modules,
    /// The names of the library's modules, by their numbers.
    pub names: Vec<ModuleName>,
    pub operands: Operands,
    pub bindings: Bindings,
    /// A place for each item that an instruction has on its way.
    pub items: Vec<Value>,
    /// The steps that are paid on the running instruction.
    pub paid: u64,
    /// How the run ended, if it did.
    pub end: Option<End>,
}

/// As many slots and handler entries as a code of the library takes at most.
fn greatest_of(library: &Library) -> (u32, u32)
    ensures greatest { IsGreatestIn (ShelfHas library.now) result.0 result.1 }
    ensures few { result.0 ≤ 4096 }
{
    library.greatest()
}

/// Memory for a run of the library, in which nothing has begun.
fn take_memory(
    alloc: Global,
    library: &Library,
    names: Vec<ModuleName>,
    slots: u32,
    entries: u32,
    room: Room,
) -> Result<Vm, NoMemory>
    requires names { AreTitles library.now names.items }
    requires greatest { IsGreatestIn (ShelfHas library.now) slots entries }
    requires few { slots ≤ 4096 }
    ensures memory { IfOk result (HasMemory library.now slots entries) }
    ensures fresh { IfOk result (IsFresh room) }
{
    let _ = library;
    let slot_room = slots + 1;
    let frames = Frames::new(alloc, slot_room, entries)?;
    let arena = Arena::new(alloc, room)?;
    let modules = Modules::new(alloc, MAX_MODULES as u32 + 1)?;
    let operands = Operands::new(alloc, slot_room)?;
    let bindings = Bindings::new(alloc, slot_room)?;
    let items = vec![in alloc; Value::None; slot_room as usize]?;
    Ok(Vm {
        frames,
        arena,
        modules,
        names,
        operands,
        bindings,
        items,
        paid: 0,
        end: None,
    })
}

/// How many locals the outermost code of a module has.
fn main_locals(rows: &Rows, number: u32, slots: u32) -> u32
    requires there { number < length rows.now.modules }
    requires program { (p : Program) × IsProgramOf rows.now p }
    requires few { (n_exc : ℕ) × IsGreatestIn (ShelfHas rows.now) slots n_exc }
    ensures row { (row : CodeRow) × IsRow rows.now number 0 row × (result ≡ row.locals) }
    ensures few { result ≤ slots }
{
    code_law();
    let Some(row) = rows.row(number, 0) else {
        unreachable!();
    };
    row.locals as u32
}

impl Vm {
    /// A run of the library whose main module has this number, in an arena of this room. It has ended for want of room where the
    /// main module doesn't fit. The names are those of the library's modules, by their numbers.
    pub fn open(
        alloc: Global,
        library: &Library,
        rows: &Rows,
        names: Vec<ModuleName>,
        number: u32,
        room: Room,
    ) -> Result<Vm, NoMemory>
        requires names { AreTitles library.now names.items }
        requires rows { rows.now ≡ library.now }
        requires there { number < length library.now.modules }
        ensures starts { IfOk result (λ vm. (p : Program) (name : Name) (ports : List PortState) → IsProgramOf library.now p
            → p.tables.module_name number ≡ name
            → start p.library name (new_world room.cells room.bytes ports) ≡ state_in p vm (new_world room.cells room.bytes ports)) }
        ensures state { IfOk result (λ vm. vm.end ≡ None → (p : Program) → IsProgramOf library.now p → IsState p vm.arena.objects vm.frames) }
        ensures memory { IfOk result (λ vm. (n_state : ℕ) × (n_exc : ℕ) × HasMemory library.now n_state n_exc vm) }
        ensures begun { IfOk result (λ vm. vm.end ≡ None → IsBegun library.now number room vm) }
        ensures ended { IfOk result (λ vm. IfSome vm.end (λ end. (no_room : NoRoom) × (end ≡ ends.Memory no_room))) }
        ensures all_told { IfOk result (λ vm. AllTold (text_at library.now) (items_at library.now) vm.arena.objects) }
        ensures paid { IfOk result (λ vm. vm.paid ≡ 0) }
    {
        program_law();
        runnable_law(library);
        let (slots, entries) = greatest_of(library);
        let mut vm = take_memory(alloc, library, names, slots, entries, room)?;
        let locals = main_locals(rows, number, slots);
        match start_main(
            &mut vm.frames,
            &mut vm.arena,
            library,
            &mut vm.modules,
            number,
            locals,
        ) {
            Ok(()) => Ok(vm),
            Err(room) => {
                vm.end = Some(End::Memory(room));
                Ok(vm)
            }
        }
    }
}
