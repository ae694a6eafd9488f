//! The machine of a snapshot's bytes.

ghost use Rattle.std.specs.Prelude.{◌≡◌, ◌↔◌, ◌<◌, ◌^◌, IfOk, IfSome, IsErrOf, IsTrue, None};
ghost use Rattle.mpy_base.specs.declared.refused.Refused.TheVariants as refused;
ghost use Rattle.snap_grammar.specs.declared.fault.SnapFault.{SnapFault as Fault};
ghost use Rattle.snap_grammar.specs.declared.fault.SnapFault.TheVariants as faults;
ghost use Rattle.snap_grammar.specs.declared.parts.Snapshot.{Snapshot as Whole};
ghost use Rattle.snap_grammar.specs.Reading.{BeginsSo};
ghost use Rattle.snap_grammar.specs.Spelling.{Fits, spelling};
ghost use Rattle.snap_states.specs.States.{IsShaped, IsStateOf};
ghost use Rattle.vm_machine.specs.vm_starting.Programs.{IsRunnable};
ghost use Rattle.vm_machine.specs.Machine.{IsVm};
ghost use Rattle.snap_loading.specs.Loaded.{IsLoaded};
ghost use Rattle.snap_loading.specs.Paid.{PaysNoMore};

use crate::making::machine_of;
use crate::one_state::one_state_law;
use crate::paying::is_paid;
use crate::shown::shown_law;
use crate::titles::titles_law;
use bc_library::{Library, library_law};
use mpy_base::{NoMemory, Refused};
use snap_grammar::{SnapFault, Snapshot, read};
use snap_states::is_shaped;
use std::alloc::Global;
use vm_machine::{Rows, Vm};

/// Whether the snapshot is a state of the library as far as is known before its machine is made. It takes no memory of
/// what the snapshot asks for.
fn is_possible(
    alloc: Global,
    library: &Library,
    rows: &Rows<'_>,
    snapshot: &Snapshot,
) -> Result<bool, NoMemory>
    requires { rows.now ≡ library.now }
    ensures { IfOk result (λ b. IsTrue b ↔ ((snapshot.now.paid < 2 ^ 63) × IsShaped library.now snapshot.now)) }
{
    if snapshot.paid >= 1 << 63 {
        return Ok(false);
    }
    let shaped = is_shaped(alloc, library, rows, snapshot)?;
    Ok(shaped)
}

/// The machine, if no more steps are paid than its running instruction takes before it acts.
fn if_paid(mut vm: Vm, library: &Library, rows: &Rows<'_>) -> Option<Vm>
    requires vm { IsVm library.now vm }
    requires rows { rows.now ≡ library.now }
    requires goes_on { vm.end ≡ None }
    ensures same { IfSome result (λ after. after ≡ record vm { operands = after.operands }) }
    ensures ready { IfSome result (IsVm library.now) }
    ensures paid { IfSome result (λ _. PaysNoMore library.now vm) }
    ensures unpaid { result ≡ None → PaysNoMore library.now vm → ⊥ }
{
    if is_paid(&mut vm, library, rows) {
        Some(vm)
    } else {
        None
    }
}

/// The machine that stands at the state which the snapshot is, if it is one.
fn machine_at(
    alloc: Global,
    library: &Library,
    rows: &Rows<'_>,
    snapshot: &Snapshot,
) -> Result<Vm, Refused<SnapFault>>
    requires runnable { IsRunnable library.now }
    requires rows { rows.now ≡ library.now }
    requires fits { Fits snapshot.now }
    ensures loaded { IfOk result (IsLoaded library.now (spelling snapshot.now)) }
    ensures ready { IfOk result (IsVm library.now) }
    ensures fault { (fault : Fault) → IsErrOf result (refused.Fault fault)
        → (fault ≡ faults.BadState) × (IsStateOf library.now snapshot.now → ⊥) }
{
    library_law(library);
    titles_law(library, rows);
    shown_law();
    one_state_law();
    if !is_possible(alloc, library, rows, snapshot)? {
        return Err(Refused::Fault(SnapFault::BadState));
    }
    let vm = machine_of(alloc, library, rows, snapshot)?;
    match if_paid(vm, library, rows) {
        Some(vm) => Ok(vm),
        None => Err(Refused::Fault(SnapFault::BadState)),
    }
}

/// The machine of a snapshot that was read.
fn machine_for(
    alloc: Global,
    library: &Library,
    rows: &Rows<'_>,
    snapshot: Snapshot,
) -> Result<Vm, Refused<SnapFault>>
    requires runnable { IsRunnable library.now }
    requires rows { rows.now ≡ library.now }
    requires fits { Fits snapshot }
    ensures loaded { IfOk result (IsLoaded library.now (spelling snapshot)) }
    ensures ready { IfOk result (IsVm library.now) }
    ensures fault { (fault : Fault) → IsErrOf result (refused.Fault fault)
        → (fault ≡ faults.BadState) × (IsStateOf library.now snapshot → ⊥) }
{
    machine_at(alloc, library, rows, &snapshot)
}

/// The machine of the library that stands at the state which the bytes spell. It takes all its memory here, and a time
/// that grows with the library, the bytes and the room of the snapshot.
pub fn load(
    alloc: Global,
    library: &Library,
    rows: &Rows<'_>,
    bytes: &[u8],
) -> Result<Vm, Refused<SnapFault>>
    requires runnable { IsRunnable library.now }
    requires rows { rows.now ≡ library.now }
    ensures loaded { IfOk result (λ vm. IsLoaded library.now bytes.now vm) }
    ensures ready { IfOk result (IsVm library.now) }
    ensures header { IsErrOf result (refused.Fault faults.BadHeader) ↔ (BeginsSo bytes.now → ⊥) }
    ensures form { IsErrOf result (refused.Fault faults.BadForm) → (s : Whole) → Fits s → bytes.now ≡ spelling s → ⊥ }
    ensures state { IsErrOf result (refused.Fault faults.BadState)
        → (s : Whole) × Fits s × (bytes.now ≡ spelling s) × (IsStateOf library.now s → ⊥) }
{
    match read(alloc, bytes) {
        Ok(snapshot) => machine_for(alloc, library, rows, snapshot),
        Err(refused) => Err(refused),
    }
}
