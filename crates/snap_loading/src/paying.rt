//! Steps that are paid on the running instruction.

ghost use Rattle.std.specs.Prelude.{◌≡◌, ◌↔◌, None, IsTrue};
ghost use Rattle.mpy_base.specs.Val.{PlainWorld};
ghost use Rattle.snap_laws.specs.Kept.{IsPaid};
ghost use Rattle.vm_machine.specs.Machine.{IsVm, machine_of};
ghost use Rattle.vm_machine.specs.vm_starting.Programs.{IsProgramOf};
ghost use Rattle.vm_machine.specs.vm_starting.vm_states.Means.{Program};

use bc_library::Library;
use vm_machine::{Rows, Vm, visits_due};
use vm_starting::program_law;

/// Whether no more steps are paid than the running instruction takes before it acts. It looks at no more values than
/// steps are paid. Only the machine's place for operands is written.
pub(crate) fn is_paid(vm: &mut Vm, library: &Library, rows: &Rows<'_>) -> bool
    requires vm { IsVm library.now vm.old }
    requires rows { rows.now ≡ library.now }
    requires goes_on { vm.old.end ≡ None }
    ensures paid { IsTrue result ↔ ((p : Program) → IsProgramOf library.now p → (w : PlainWorld) → IsPaid p.library (machine_of p vm.old w)) }
    ensures vm { IsVm library.now vm.new }
    ensures same { vm.new ≡ record vm.old { operands = vm.new.operands } }
{
    program_law();
    let paid = vm.paid;
    let due = visits_due(vm, library, rows, paid);
    due == paid
}
