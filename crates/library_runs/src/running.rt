//! The run of a library.

ghost use Rattle.std.specs.Prelude.{◌≡◌, ◌≢◌, ◌+◌, ◌<◌, ◌^◌, [], List, ℕ, false, length, map, None, Some, MatchOption, slice_get};
ghost use Rattle.mpy_io.specs.Count.{Counts};
ghost use Rattle.port_set.specs.Counts.{CountsKeep};
ghost use Rattle.bc_library.specs.Shelf.{Named};
ghost use Rattle.vm_machine.specs.Machine.{IsVm};
ghost use Rattle.vm_machine.specs.vm_starting.Programs.{IsRunnable};
ghost use Rattle.library_runs.specs.declared.ending.RunEnd.{RunEnd as End};
ghost use Rattle.library_runs.specs.Runs.{GoesOn, RunsAs, Says, StandsAt, StandsOn, IsOver, is_write_fault, sight, speaks};

use crate::ending::RunEnd;
use crate::reporting::say_end;
use bc_library::{Library, modules_law};
use mpy_base::{NoMemory, Room};
use mpy_io::{Failed, Port, Sink};
use port_set::PortSet;
use std::alloc::Global;
use vm_machine::{Cache, Rows, Vm, open, program_law, run};

/// Each library that there is can be run.
fn runnable_law(library: &Library)
    ensures { IsRunnable library.now }
{
    modules_law(library);
}

/// Lets a machine of the library go on for these steps at most. What is printed is handed on before anything is said. A run that took all
/// its steps and didn't end leaves its machine.
pub fn run_on<S: Sink, P: Port, E: Sink>(
    alloc: Global,
    library: &Library,
    rows: &Rows<'_>,
    vm: Vm,
    steps: u64,
    out: &mut S,
    ports: &mut PortSet<P>,
    say: &mut E,
) -> (RunEnd, Option<Vm>)
    requires vm { IsVm library.now vm }
    requires rows { rows.now ≡ library.now }
    requires countable { vm.paid + steps < 2 ^ 64 }
    ensures runs { (said : List ℕ)
        × GoesOn library.now vm steps (sight S.told P.seen out.old ports.old) (sight S.told P.seen out.new ports.new) result.0 said
        × Says (E.told say.old) (E.told say.new) (E.count say.old) (E.count say.new) said }

    // The machine stands where the run stopped; there is one exactly where it was stopped by its steps.
    ensures leaves { MatchOption result.1 (result.0 ≢ End.Limit)
        (λ left. (result.0 ≡ End.Limit) × StandsOn library.now vm steps (sight S.told P.seen out.old ports.old) (sight S.told P.seen out.new ports.new) left) }
    ensures silent { speaks result.0 ≡ false → say.new ≡ say.old }
    ensures flushed { IsOver result.0 → S.held out.new ≡ [] }
    ensures none { result.0 ≡ End.NoMemory → (out.new ≡ out.old) × (ports.new ≡ ports.old) }
    ensures counts { Counts (S.count out.old) (S.count out.new) (is_write_fault result.0) }
    ensures faults { CountsKeep (map P.seen ports.old) (map P.seen ports.new) }
{
    program_law();
    let mut machine = vm;
    let mut cache = match Cache::new(alloc, library, rows) {
        Ok(cache) => cache,
        Err(NoMemory) => return (RunEnd::NoMemory, None),
    };
    match run(&mut machine, library, rows, &mut cache, out, ports, steps) {
        Ok(()) => {}
        Err(Failed) => return (RunEnd::WriteFault, None),
    }
    match out.flush() {
        Ok(()) => {
            let end = say_end(&machine, library, say);
            (end, unended(machine))
        }
        Err(Failed) => (RunEnd::WriteFault, None),
    }
}

/// The machine, where its run hasn't ended.
fn unended(vm: Vm) -> Option<Vm>
    ensures { MatchOption result (vm.end ≢ None) (λ left. (left ≡ vm) × (vm.end ≡ None)) }
{
    match vm.end {
        None => Some(vm),
        Some(_) => None,
    }
}

/// Runs the library's module of this number as the main one, in an arena of this room, for these steps at most. What was printed
/// is handed on before anything is said. A run that took all its steps and didn't end leaves its machine.
pub fn run_for<S: Sink, P: Port, E: Sink>(
    alloc: Global,
    library: &Library,
    main: u32,
    room: Room,
    steps: u64,
    out: &mut S,
    ports: &mut PortSet<P>,
    say: &mut E,
) -> (RunEnd, Option<Vm>)
    requires there { main < length library.now.modules }
    ensures runs { (n : Named) → slice_get library.now.modules main ≡ Some n → (said : List ℕ)
        × RunsAs library.now n.name room steps (sight S.told P.seen out.old ports.old) (sight S.told P.seen out.new ports.new) result.0 said
        × Says (E.told say.old) (E.told say.new) (E.count say.old) (E.count say.new) said }

    // The machine stands where the run stopped; there is one exactly where it was stopped by its steps.
    ensures leaves { (n : Named) → slice_get library.now.modules main ≡ Some n → MatchOption result.1 (result.0 ≢ End.Limit)
        (λ vm. (result.0 ≡ End.Limit)
        × StandsAt library.now n.name room steps (sight S.told P.seen out.old ports.old) (sight S.told P.seen out.new ports.new) vm) }
    ensures silent { speaks result.0 ≡ false → say.new ≡ say.old }
    ensures flushed { IsOver result.0 → S.held out.new ≡ [] }
    ensures none { result.0 ≡ End.NoMemory → (out.new ≡ out.old) × (ports.new ≡ ports.old) }
    ensures counts { Counts (S.count out.old) (S.count out.new) (is_write_fault result.0) }
    ensures faults { CountsKeep (map P.seen ports.old) (map P.seen ports.new) }
{
    program_law();
    runnable_law(library);
    let rows = match Rows::new(alloc, library) {
        Ok(rows) => rows,
        Err(NoMemory) => return (RunEnd::NoMemory, None),
    };
    let vm = match open(alloc, library, &rows, main, room) {
        Ok(vm) => vm,
        Err(NoMemory) => return (RunEnd::NoMemory, None),
    };
    run_on(alloc, library, &rows, vm, steps, out, ports, say)
}

/// Runs the library's module of this number as the main one, in an arena of this room, for these steps at most. What was printed
/// is handed on before anything is said.
pub fn run_library<S: Sink, P: Port, E: Sink>(
    alloc: Global,
    library: &Library,
    main: u32,
    room: Room,
    steps: u64,
    out: &mut S,
    ports: &mut PortSet<P>,
    say: &mut E,
) -> RunEnd
    requires there { main < length library.now.modules }
    ensures runs { (n : Named) → slice_get library.now.modules main ≡ Some n → (said : List ℕ)
        × RunsAs library.now n.name room steps (sight S.told P.seen out.old ports.old) (sight S.told P.seen out.new ports.new) result said
        × Says (E.told say.old) (E.told say.new) (E.count say.old) (E.count say.new) said }
    ensures silent { speaks result ≡ false → say.new ≡ say.old }
    ensures flushed { IsOver result → S.held out.new ≡ [] }
    ensures none { result ≡ End.NoMemory → (out.new ≡ out.old) × (ports.new ≡ ports.old) }
    ensures counts { Counts (S.count out.old) (S.count out.new) (is_write_fault result) }
    ensures faults { CountsKeep (map P.seen ports.old) (map P.seen ports.new) }
{
    let (end, _) = run_for(alloc, library, main, room, steps, out, ports, say);
    end
}
