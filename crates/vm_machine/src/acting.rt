//! Instructions that are no calls, each carried out by its family.

ghost use Rattle.std.specs.Prelude.{◌≡◌};
ghost use Rattle.bc_library.specs.Constants.{items_at, text_at};
ghost use Rattle.vm_kept.specs.state_calls.vm_fetching.Instructions as fetched_as;
ghost use Rattle.vm_kept.specs.state_calls.vm_fetching.declared.operations.MakeOp.TheVariants as make_ops;
ghost use Rattle.vm_kept.specs.state_exits.Importing.{fetched_import};
ghost use Rattle.vm_kept.specs.state_exits.Running.{fetched_finish, fetched_leave};
ghost use Rattle.vm_at_once.specs.state_values.Operators.{visits_binary};
ghost use Rattle.vm_machine.specs.Acting.{Acted, HasFetched, Stepped};

use arena_heap::StrNo;
use bc_library::Library;
use state_steps::{finish, import, leave, make, make_with, operate, operate_binary};
use vm_at_once::{Action, LeaveOp, MakeOp, Row, Rows, Step};
use vm_kept::{cause_law, step_law};
use vm_starting::{NAME, Vm};

/// Carries out an instruction that stays in the running call.
#[tactic(none)]
fn operate_on(vm: &mut Vm, library: &Library, row: &Row<'_>, step: Step, end: u32)
    requires fetched { HasFetched library.now vm.old row.now (record { instruction = fetched_as.stays step; end = end }) }
    ensures { Acted library.now 0 vm.old vm.new }
{
    let ended = operate(
        &mut vm.frames,
        &mut vm.arena,
        library,
        &mut vm.modules,
        &vm.names,
        &mut vm.items,
        row,
        step,
        end,
    );
    vm.end = ended;
}

/// Carries out an operator over two operands.
#[tactic(none)]
pub(crate) fn operate_binary_on(vm: &mut Vm, library: &Library, row: &Row<'_>, number: u8, end: u32)
    requires fetched { HasFetched library.now vm.old row.now (record { instruction = fetched_as.binary number; end = end }) }
    ensures { Acted library.now (visits_binary (text_at library.now) (items_at library.now) vm.old.arena vm.old.frames.calls number) vm.old vm.new }
{
    let ended = operate_binary(
        &mut vm.frames,
        &mut vm.arena,
        library,
        &mut vm.modules,
        &vm.names,
        row,
        number,
        end,
    );
    vm.end = ended;
}

/// Carries out a return or a raise.
#[tactic(none)]
fn leave_on(vm: &mut Vm, library: &Library, rows: &Rows<'_>, row: &Row<'_>, op: LeaveOp, end: u32)
    requires fetched { HasFetched library.now vm.old row.now (fetched_leave op end) }
    requires rows { rows.now ≡ library.now }
    ensures { Acted library.now 0 vm.old vm.new }
{
    let _ = end;
    let ended = leave(
        &mut vm.frames,
        &mut vm.arena,
        library,
        library,
        rows,
        &mut vm.modules,
        &vm.names,
        row,
        op,
    );
    vm.end = ended;
}

/// Carries out the end of a finally.
#[tactic(none)]
fn finish_on(vm: &mut Vm, library: &Library, rows: &Rows<'_>, row: &Row<'_>, end: u32)
    requires fetched { HasFetched library.now vm.old row.now (fetched_finish end) }
    requires rows { rows.now ≡ library.now }
    ensures { Acted library.now 0 vm.old vm.new }
{
    cause_law();
    let _ = row;
    let ended = finish(
        &mut vm.frames,
        &mut vm.arena,
        library,
        library,
        rows,
        &mut vm.modules,
        &vm.names,
        end,
    );
    vm.end = ended;
}

/// Carries out the making of a function without defaults.
#[tactic(none)]
fn make_on(vm: &mut Vm, library: &Library, rows: &Rows<'_>, row: &Row<'_>, number: u32, end: u32)
    requires fetched { HasFetched library.now vm.old row.now (record { instruction = fetched_as.make make_ops.MakeFunction number; end = end }) }
    requires rows { rows.now ≡ library.now }
    ensures { Acted library.now 0 vm.old vm.new }
{
    let ended = make(
        &mut vm.frames,
        &mut vm.arena,
        library,
        rows,
        &mut vm.modules,
        &vm.names,
        row,
        number,
        end,
    );
    vm.end = ended;
}

/// A function with the defaults that lie on top.
#[tactic(none)]
fn make_with_on(
    vm: &mut Vm,
    library: &Library,
    rows: &Rows<'_>,
    row: &Row<'_>,
    number: u32,
    end: u32,
)
    requires fetched { HasFetched library.now vm.old row.now (record { instruction = fetched_as.make make_ops.MakeFunctionDefargs number; end = end }) }
    requires rows { rows.now ≡ library.now }
    ensures { Acted library.now 0 vm.old vm.new }
{
    let ended = make_with(
        &mut vm.frames,
        &mut vm.arena,
        library,
        rows,
        &mut vm.modules,
        &vm.names,
        row,
        number,
        end,
    );
    vm.end = ended;
}

/// An import of the module whose name has this number.
#[tactic(none)]
fn import_on(vm: &mut Vm, library: &Library, rows: &Rows<'_>, row: &Row<'_>, name: u32, end: u32)
    requires fetched { HasFetched library.now vm.old row.now (fetched_import name end) }
    requires rows { rows.now ≡ library.now }
    ensures { Acted library.now 0 vm.old vm.new }
{
    let ended = import(
        &mut vm.frames,
        &mut vm.arena,
        library,
        library,
        rows,
        &mut vm.modules,
        &vm.names,
        row,
        StrNo::Pool(NAME),
        name,
        end,
    );
    vm.end = ended;
}

/// Carries out the making of a function.
#[tactic(none)]
fn make_by(
    vm: &mut Vm,
    library: &Library,
    rows: &Rows<'_>,
    row: &Row<'_>,
    op: MakeOp,
    number: u32,
    end: u32,
)
    requires fetched { HasFetched library.now vm.old row.now (record { instruction = fetched_as.make op number; end = end }) }
    requires rows { rows.now ≡ library.now }
    ensures { Acted library.now 0 vm.old vm.new }
{
    match op {
        MakeOp::MakeFunction => make_on(vm, library, rows, row, number, end),
        MakeOp::MakeFunctionDefargs => make_with_on(vm, library, rows, row, number, end),
    }
}

/// The instruction without visits that was fetched. It takes no memory.
#[tactic(none)]
fn act(vm: &mut Vm, library: &Library, rows: &Rows<'_>, row: &Row<'_>, action: Action, end: u32)
    requires fetched { HasFetched library.now vm.old row.now (record { instruction = fetched_as.acts action; end = end }) }
    requires rows { rows.now ≡ library.now }
    ensures { Acted library.now 0 vm.old vm.new }
{
    match action {
        Action::Stays(step) => operate_on(vm, library, row, step, end),
        Action::Leaves(op) => leave_on(vm, library, rows, row, op, end),
        Action::Finishes => finish_on(vm, library, rows, row, end),
        Action::Makes(op, number) => make_by(vm, library, rows, row, op, number, end),
        Action::Imports(name) => import_on(vm, library, rows, row, name, end),
    }
}

/// The step of an instruction without visits.
#[tactic(none)]
pub(crate) fn step_act(
    vm: &mut Vm,
    library: &Library,
    rows: &Rows<'_>,
    row: &Row<'_>,
    action: Action,
    end: u32,
)
    requires fetched { HasFetched library.now vm.old row.now (record { instruction = fetched_as.acts action; end = end }) }
    requires rows { rows.now ≡ library.now }
    ensures stepped { Stepped library.now 1 vm.old vm.new }
    ensures unpaid { vm.new.paid ≡ 0 }
{
    step_law();
    act(vm, library, rows, row, action, end);
    vm.paid = 0;
}
