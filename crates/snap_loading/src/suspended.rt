//! A run that was suspended, and the machine of its snapshot: that goes on as the run would.

ghost use Rattle.std.specs.Prelude.{◌≡◌, ℕ, List, None, reverse};
ghost use Rattle.mpy_base.specs.World.{PortState};
ghost use Rattle.bc_library.specs.Shelf.{Shelf};
ghost use Rattle.bc_machine.specs.Library.{Name};
ghost use Rattle.vm_starting.specs.vm_states.Means.{Program};
ghost use Rattle.vm_starting.specs.Programs.{IsProgramOf};
ghost use Rattle.vm_starting.specs.declared.opening.Vm.{Vm};
ghost use Rattle.vm_machine.specs.Machine.{IsVm};
ghost use Rattle.snap_grammar.specs.declared.parts.Snapshot.{Snapshot};
ghost use Rattle.snap_grammar.specs.Reading.{BeginsSo};
ghost use Rattle.snap_grammar.specs.Spelling.{Fits, spelling};
ghost use Rattle.snap_states.specs.States.{AreFineFrames, IsShaped, IsStateOf};
ghost use Rattle.snap_loading.specs.Given.{HasNames, IsTabled};
ghost use Rattle.snap_loading.specs.Loaded.{IsLoaded};
ghost use Rattle.snap_loading.specs.Resumed.{GoesOnAs, RunsTo};
ghost use Rattle.snap_loading.specs.Same.{BeginsFirst, StandsFor};
ghost use Rattle.snap_loading.specs.Saved.{IsRoomy, IsSaved, IsWithin, snapshot_in};
ghost use Rattle.snap_loading.specs.Suspended.{IsSuspended};

use crate::anywhere::paid_anywhere_law;
use crate::resumed::{paid_too_law, resumes_law};
use crate::same::{files_law, loaded_law};
use crate::saved::{objects_law, saved_law};
use bc_machine::sound_law;
use bc_rows::rows_law;
use snap_grammar::spelling_law;
use snap_kept::{constants_law, entries_law, values_law};
use snap_laws::{bytes_law, filled_law, frames_law, paid_law, rooms_law, waits_law};
use vm_starting::{code_law, program_law};

/// Where a run stands with its machine and goes on, the first object of the machine lies at the first cell, and its
/// room is the one that the run was given.
pub fn first_law()
    ensures first { (shelf : Shelf) (main : Name) (cells bytes : ℕ) (ports : List PortState) (n : ℕ)
        (vm : Vm) (p : Program) → IsVm shelf vm → vm.end ≡ None → RunsTo shelf main cells bytes ports n vm
        → IsProgramOf shelf p → BeginsFirst vm }
    ensures cells { (shelf : Shelf) (main : Name) (cells bytes : ℕ) (ports : List PortState) (n : ℕ)
        (vm : Vm) (p : Program) → IsVm shelf vm → vm.end ≡ None → RunsTo shelf main cells bytes ports n vm
        → IsProgramOf shelf p → vm.arena.cell_size ≡ cells }
    ensures bytes { (shelf : Shelf) (main : Name) (cells bytes : ℕ) (ports : List PortState) (n : ℕ)
        (vm : Vm) (p : Program) → IsVm shelf vm → vm.end ≡ None → RunsTo shelf main cells bytes ports n vm
        → IsProgramOf shelf p → vm.arena.byte_size ≡ bytes }
{
    sound_law();
}

/// Where a run stands with its machine and goes on, the machine that its snapshot stands for goes on as the run would:
/// `m` steps of it, over the ports as they were left, are the rest of a run of so many steps more.
pub fn goes_on_law()
    ensures { (shelf : Shelf) (main : Name) (cells bytes : ℕ) (ports : List PortState) (n : ℕ)
        (vm other : Vm) (s : Snapshot) → IsTabled shelf → HasNames shelf → IsVm shelf vm → IsSaved shelf vm
        → RunsTo shelf main cells bytes ports n vm → snapshot_in shelf vm ≡ s → StandsFor shelf s other
        → (p : Program) → IsProgramOf shelf p → GoesOnAs p main cells bytes ports n vm other }
{
    first_law();
    loaded_law();
    resumes_law();
}

/// Where a run stands with its machine and goes on, the machine keeps what each state of a run does.
pub fn suspended_law()
    ensures { (shelf : Shelf) (main : Name) (cells bytes : ℕ) (ports : List PortState) (n : ℕ)
        (vm : Vm) → IsVm shelf vm → vm.end ≡ None → IsWithin vm → RunsTo shelf main cells bytes ports n vm
        → IsSaved shelf vm }
{
    sound_law();
    files_law();
    constants_law();
    values_law();
    waits_law();
    filled_law();
    bytes_law();
    paid_law();
}

/// The frames of the snapshot of such a machine are those of a state of the library.
pub fn saved_frames_law()
    ensures { (shelf : Shelf) (vm : Vm) → IsTabled shelf → IsVm shelf vm → IsSaved shelf vm
        → AreFineFrames shelf (snapshot_in shelf vm) None (reverse (snapshot_in shelf vm).frames) }
{
    program_law();
    code_law();
    rooms_law();
    frames_law();
    rows_law();
    entries_law();
}

/// The snapshot of such a machine has the shape of a state of the library: all that a state's snapshot asks but what is
/// paid.
pub fn shaped_law()
    ensures { (shelf : Shelf) (vm : Vm) → IsTabled shelf → HasNames shelf → IsVm shelf vm → IsSaved shelf vm
        → IsRoomy vm.arena.objects → IsShaped shelf (snapshot_in shelf vm) }
{
    saved_law();
    objects_law();
    saved_frames_law();
}

/// The snapshot of such a machine is one of a state of the library.
pub fn state_law()
    ensures { (shelf : Shelf) (vm : Vm) → IsTabled shelf → HasNames shelf → IsVm shelf vm → IsSaved shelf vm
        → IsRoomy vm.arena.objects → BeginsFirst vm → IsStateOf shelf (snapshot_in shelf vm) }
{
    shaped_law();
    loaded_law();
    paid_too_law();
    paid_anywhere_law();
}

/// A suspended run keeps what each state of a run does, and its first object lies at the first cell.
pub fn kept_law()
    ensures saved { (shelf : Shelf) (main : Name) (cells bytes : ℕ) (ports : List PortState) (n : ℕ)
        (snap : List ℕ) (vm : Vm) → IsSuspended shelf main cells bytes ports n snap vm → IsSaved shelf vm }
    ensures first { (shelf : Shelf) (main : Name) (cells bytes : ℕ) (ports : List PortState) (n : ℕ)
        (snap : List ℕ) (vm : Vm) → IsSuspended shelf main cells bytes ports n snap vm → BeginsFirst vm }
{
    program_law();
    first_law();
    suspended_law();
}

/// The bytes of a suspended run begin as a snapshot does, and each snapshot that they spell is a state of the library:
/// so `load` refuses none.
pub fn loads_law()
    ensures header { (shelf : Shelf) (main : Name) (cells bytes : ℕ) (ports : List PortState) (n : ℕ)
        (snap : List ℕ) (vm : Vm) → IsSuspended shelf main cells bytes ports n snap vm → BeginsSo snap }
    ensures state { (shelf : Shelf) (main : Name) (cells bytes : ℕ) (ports : List PortState) (n : ℕ)
        (snap : List ℕ) (vm : Vm) → IsTabled shelf → HasNames shelf → IsSuspended shelf main cells bytes ports n snap vm
        → (s : Snapshot) → Fits s → snap ≡ spelling s → IsStateOf shelf s }
{
    kept_law();
    state_law();
    spelling_law();
}

/// The machine that is loaded of the bytes of a suspended run goes on as the run would.
pub fn continues_law()
    ensures { (shelf : Shelf) (main : Name) (cells bytes : ℕ) (ports : List PortState) (n : ℕ)
        (snap : List ℕ) (vm other : Vm) → IsTabled shelf → HasNames shelf
        → IsSuspended shelf main cells bytes ports n snap vm → IsLoaded shelf snap other
        → (p : Program) → IsProgramOf shelf p → GoesOnAs p main cells bytes ports n vm other }
{
    kept_law();
    goes_on_law();
    spelling_law();
}
