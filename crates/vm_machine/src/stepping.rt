//! Steps of the machine.

ghost use Rattle.std.specs.Prelude.{◌≡◌, ◌+◌, ◌<◌, ◌≤◌, ◌^◌, map, None, is_err};
ghost use Rattle.mpy_io.specs.Count.{Counts};
ghost use Rattle.port_set.specs.Counts.{CountsKeep};
ghost use Rattle.vm_kept.specs.state_calls.vm_fetching.Instructions as fetched_as;
ghost use Rattle.vm_starting.specs.vm_states.Means.{Program};
ghost use Rattle.vm_kept.specs.state_calls.Taken.{IsTaken};
ghost use Rattle.vm_kept.specs.Kept.{HoldsKept};
ghost use Rattle.vm_starting.specs.Programs.{IsProgramOf};
ghost use Rattle.vm_starting.specs.Kept.{AreFetched};
ghost use Rattle.vm_machine.specs.Acting.{Called, HasFetched, Stepped};
ghost use Rattle.vm_machine.specs.Machine.{IsVm};
ghost use Rattle.vm_machine.specs.Running.{Advances};

use crate::acting::{operate_binary_on, step_act};
use crate::at_once::run_at_once;
use crate::fetching::{fetch_kept, row_of};
use crate::paying::steps_before;
use bc_library::Library;
use mpy_io::{Failed, Port, Sink};
use port_set::PortSet;
use state_steps::call;
use vm_at_once::{CallOp, Fetched, Instruction, Row, Rows, visits_binary_op};
use vm_kept::{gives_law, methods_law, raises_law, step_law, take_call, visits_call_on};
use vm_starting::{Cache, Invocation, Vm};

/// Steps of an operator over two operands, of which its visits take one each.
#[tactic(none)]
fn step_binary(
    vm: &mut Vm,
    library: &Library,
    row: &Row<'_>,
    number: u8,
    end: u32,
    most: u64,
) -> u64
    requires fetched { HasFetched library.now vm.old row.now (record { instruction = fetched_as.binary number; end = end }) }
    requires some { 0 < most }
    requires countable { vm.old.paid + most < 2 ^ 64 }
    ensures stepped { Stepped library.now result vm.old vm.new }
    ensures some { 0 < result }
    ensures few { result ≤ most }
{
    step_law();
    let paid = vm.paid;
    let bound = paid + most;
    let due = visits_binary_op(&vm.frames, &vm.arena, library, number, end, bound);
    match steps_before(paid, due, most) {
        None => {
            vm.paid = bound;
            most
        }
        Some(before) => {
            operate_binary_on(vm, library, row, number, end);
            vm.paid = 0;
            let taken = before + 1;
            taken
        }
    }
}

/// The call that was taken, where its visits are paid.
#[tactic(none)]
fn make_call<S: Sink, P: Port>(
    vm: &mut Vm,
    library: &Library,
    rows: &Rows<'_>,
    out: &mut S,
    ports: &mut PortSet<P>,
    row: &Row<'_>,
    op: CallOp,
    number: u32,
    end: u32,
    invocation: Invocation,
) -> Result<(), Failed>
    requires fetched { HasFetched library.now vm.old row.now (record { instruction = fetched_as.call op number; end = end }) }
    requires rows { rows.now ≡ library.now }
    requires taken { IsTaken library.now op number vm.old.arena vm.old.frames vm.old.operands invocation }
    ensures kept { vm.new.end ≡ None → (p : Program) → IsProgramOf library.now p → HoldsKept p vm.new.arena.objects vm.new.frames }
    ensures called { Called S.told S.count library.now invocation.callee vm.old vm.new
        (record { out = out.old; ports = map P.seen ports.old }) (record { out = out.new; ports = map P.seen ports.new }) result }
    ensures counts { Counts (S.count out.old) (S.count out.new) (is_err result) }
    ensures faults { CountsKeep (map P.seen ports.old) (map P.seen ports.new) }
{
    step_law();
    raises_law();
    gives_law();
    match call(
        &mut vm.frames,
        &mut vm.arena,
        library,
        rows,
        &mut vm.modules,
        &vm.names,
        out,
        ports,
        &vm.operands,
        &mut vm.bindings,
        row,
        op,
        number,
        end,
        invocation,
    ) {
        Ok(ended) => {
            vm.end = ended;
            Ok(())
        }
        Err(failed) => Err(failed),
    }
}

/// Steps of an instruction that calls.
#[tactic(none)]
fn step_call<S: Sink, P: Port>(
    vm: &mut Vm,
    library: &Library,
    rows: &Rows<'_>,
    out: &mut S,
    ports: &mut PortSet<P>,
    row: &Row<'_>,
    op: CallOp,
    number: u32,
    end: u32,
    most: u64,
) -> Result<u64, Failed>
    requires fetched { HasFetched library.now vm.old row.now (record { instruction = fetched_as.call op number; end = end }) }
    requires rows { rows.now ≡ library.now }
    requires some { 0 < most }
    requires countable { vm.old.paid + most < 2 ^ 64 }
    ensures { Advances S.told S.count library.now vm.old vm.new
        (record { out = out.old; ports = map P.seen ports.old }) (record { out = out.new; ports = map P.seen ports.new }) most result }
{
    methods_law();
    let invocation = take_call(
        &vm.frames,
        &vm.arena,
        library,
        &mut vm.operands,
        op,
        number,
        end,
    );
    let paid = vm.paid;
    let bound = paid + most;
    let due = visits_call_on(&vm.arena, library, &vm.operands, invocation, bound);
    match steps_before(paid, due, most) {
        None => {
            vm.paid = bound;
            Ok(most)
        }
        Some(before) => match make_call(
            vm, library, rows, out, ports, row, op, number, end, invocation,
        ) {
            Ok(()) => {
                vm.paid = 0;
                let taken = before + 1;
                Ok(taken)
            }
            Err(failed) => Err(failed),
        },
    }
}

/// The instruction that was fetched, or the rest of the steps that it costs, or `most` of them. How many steps were taken.
#[tactic(none)]
fn step_on<S: Sink, P: Port>(
    vm: &mut Vm,
    library: &Library,
    rows: &Rows<'_>,
    out: &mut S,
    ports: &mut PortSet<P>,
    row: &Row<'_>,
    fetched: Fetched,
    most: u64,
) -> Result<u64, Failed>
    requires fetched { HasFetched library.now vm.old row.now fetched }
    requires rows { rows.now ≡ library.now }
    requires some { 0 < most }
    requires countable { vm.old.paid + most < 2 ^ 64 }
    ensures { Advances S.told S.count library.now vm.old vm.new
        (record { out = out.old; ports = map P.seen ports.old }) (record { out = out.new; ports = map P.seen ports.new }) most result }
{
    let end = fetched.end;
    match fetched.instruction {
        Instruction::Acts(action) => {
            step_act(vm, library, rows, row, action, end);
            Ok(1)
        }
        Instruction::Binary(number) => Ok(step_binary(vm, library, row, number, end, most)),
        Instruction::Calls(op, number) => {
            step_call(vm, library, rows, out, ports, row, op, number, end, most)
        }
    }
}

/// One instruction, or the rest of the steps that it costs, or `most` of them. How many steps were taken.
#[tactic(none)]
fn step<S: Sink, P: Port>(
    vm: &mut Vm,
    library: &Library,
    rows: &Rows<'_>,
    cache: &mut Cache,
    out: &mut S,
    ports: &mut PortSet<P>,
    most: u64,
) -> Result<u64, Failed>
    requires vm { IsVm library.now vm.old }
    requires rows { rows.now ≡ library.now }
    requires goes_on { vm.old.end ≡ None }
    requires some { 0 < most }
    requires countable { vm.old.paid + most < 2 ^ 64 }
    requires kept { AreFetched library.now cache.old }
    ensures advances { Advances S.told S.count library.now vm.old vm.new
        (record { out = out.old; ports = map P.seen ports.old }) (record { out = out.new; ports = map P.seen ports.new }) most result }
    ensures kept { AreFetched library.now cache.new }
{
    let fetched = fetch_kept(vm, library, rows, cache);
    let row = row_of(vm, library, rows, fetched);
    step_on(vm, library, rows, out, ports, row, fetched, most)
}

/// One instruction, or the rest of the steps that it costs, or `most` of them; where the run has ended all of the steps, which do
/// nothing. How many steps were taken.
#[tactic(none)]
fn go<S: Sink, P: Port>(
    vm: &mut Vm,
    library: &Library,
    rows: &Rows<'_>,
    cache: &mut Cache,
    out: &mut S,
    ports: &mut PortSet<P>,
    most: u64,
) -> Result<u64, Failed>
    requires vm { IsVm library.now vm.old }
    requires rows { rows.now ≡ library.now }
    requires some { 0 < most }
    requires countable { vm.old.paid + most < 2 ^ 64 }
    requires kept { AreFetched library.now cache.old }
    ensures advances { Advances S.told S.count library.now vm.old vm.new
        (record { out = out.old; ports = map P.seen ports.old }) (record { out = out.new; ports = map P.seen ports.new }) most result }
    ensures kept { AreFetched library.now cache.new }
{
    match vm.end {
        Some(_end) => Ok(most),
        None => step(vm, library, rows, cache, out, ports, most),
    }
}

/// Instructions without visits one after another, and then one that takes its steps; and where the run has ended all of the steps, which
/// do nothing. How many steps were taken.
#[tactic(none)]
pub(crate) fn advance<S: Sink, P: Port>(
    vm: &mut Vm,
    library: &Library,
    rows: &Rows<'_>,
    cache: &mut Cache,
    out: &mut S,
    ports: &mut PortSet<P>,
    most: u64,
) -> Result<u64, Failed>
    requires vm { IsVm library.now vm.old }
    requires rows { rows.now ≡ library.now }
    requires some { 0 < most }
    requires countable { vm.old.paid + most < 2 ^ 64 }
    requires kept { AreFetched library.now cache.old }
    ensures advances { Advances S.told S.count library.now vm.old vm.new
        (record { out = out.old; ports = map P.seen ports.old }) (record { out = out.new; ports = map P.seen ports.new }) most result }
    ensures kept { AreFetched library.now cache.new }
{
    let taken = run_at_once(vm, library, rows, cache, most);
    let left = most - taken;
    if left == 0 {
        return Ok(taken);
    }
    match go(vm, library, rows, cache, out, ports, left) {
        Ok(more) => Ok(taken + more),
        Err(failed) => Err(failed),
    }
}
