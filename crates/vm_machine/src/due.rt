//! Steps that the running instruction is paid for before it acts.

ghost use Rattle.std.specs.Prelude.{◌≡◌, None};
ghost use Rattle.vm_kept.specs.state_calls.vm_fetching.Instructions as fetched_as;
ghost use Rattle.vm_starting.specs.vm_states.Means.{Program};
ghost use Rattle.vm_starting.specs.Programs.{IsProgramOf};
ghost use Rattle.vm_machine.specs.Acting.{HasFetched};
ghost use Rattle.vm_machine.specs.Due.{IsDue};
ghost use Rattle.vm_machine.specs.Machine.{IsVm};

use crate::fetching::fetch_at;
use bc_library::Library;
use vm_at_once::{CallOp, Fetched, Instruction, Row, Rows, visits_binary_op};
use vm_kept::{methods_law, take_call, visits_call_on};
use vm_starting::Vm;

/// Those of an operator over two operands, up to `most`.
#[tactic(none)]
fn binary_due(vm: &Vm, library: &Library, row: &Row<'_>, number: u8, end: u32, most: u64) -> u64
    requires { HasFetched library.now vm.now row.now (record { instruction = fetched_as.binary number; end = end }) }
    ensures { (p : Program) → IsProgramOf library.now p → IsDue p vm.now most result }
{
    let _ = row;
    visits_binary_op(&vm.frames, &vm.arena, library, number, end, most)
}

/// Those of a call, up to `most`.
#[tactic(none)]
fn call_due(
    vm: &mut Vm,
    library: &Library,
    row: &Row<'_>,
    op: CallOp,
    number: u32,
    end: u32,
    most: u64,
) -> u64
    requires { HasFetched library.now vm.old row.now (record { instruction = fetched_as.call op number; end = end }) }
    ensures due { (p : Program) → IsProgramOf library.now p → IsDue p vm.old most result }
    ensures vm { IsVm library.now vm.new }
    ensures same { vm.new ≡ record vm.old { operands = vm.new.operands } }
{
    methods_law();
    let _ = row;
    let invocation = take_call(
        &vm.frames,
        &vm.arena,
        library,
        &mut vm.operands,
        op,
        number,
        end,
    );
    visits_call_on(&vm.arena, library, &vm.operands, invocation, most)
}

/// Those of the instruction that was fetched, up to `most`.
#[tactic(none)]
fn due_of(vm: &mut Vm, library: &Library, row: &Row<'_>, fetched: Fetched, most: u64) -> u64
    requires { HasFetched library.now vm.old row.now fetched }
    ensures due { (p : Program) → IsProgramOf library.now p → IsDue p vm.old most result }
    ensures vm { IsVm library.now vm.new }
    ensures same { vm.new ≡ record vm.old { operands = vm.new.operands } }
{
    let end = fetched.end;
    match fetched.instruction {
        Instruction::Acts(_action) => 0,
        Instruction::Binary(number) => binary_due(vm, library, row, number, end, most),
        Instruction::Calls(op, number) => call_due(vm, library, row, op, number, end, most),
    }
}

/// How many steps the instruction that the machine stands at is paid for before it acts, up to `most`. It looks at no more values than
/// these, takes no memory, and writes nothing but the machine's place for operands.
#[tactic(none)]
pub fn visits_due(vm: &mut Vm, library: &Library, rows: &Rows<'_>, most: u64) -> u64
    requires vm { IsVm library.now vm.old }
    requires rows { rows.now ≡ library.now }
    requires goes_on { vm.old.end ≡ None }
    ensures due { (p : Program) → IsProgramOf library.now p → IsDue p vm.old most result }
    ensures vm { IsVm library.now vm.new }
    ensures same { vm.new ≡ record vm.old { operands = vm.new.operands } }
{
    let (row, fetched) = fetch_at(vm, library, rows);
    due_of(vm, library, row, fetched, most)
}
