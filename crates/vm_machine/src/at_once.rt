//! Instructions that are carried out at once, one after another.

ghost use Rattle.std.specs.Prelude.{◌≡◌, ◌<◌, ◌≤◌, None, true};
ghost use Rattle.vm_kept.specs.state_calls.bc_rows.declared.row.Row.{Row as CodeRow};
ghost use Rattle.vm_starting.specs.Kept.{AreFetched};
ghost use Rattle.vm_machine.specs.Acting.{AreFetchedIn, HasFetched, Stepped};
ghost use Rattle.vm_machine.specs.Machine.{IsVm};

use crate::acting::step_act;
use crate::fetching::{fetch_in, fetch_kept, row_of};
use bc_library::Library;
use vm_at_once::{Fetched, Instruction, Rows, act_at_once, store_at_once};
use vm_kept::{registered_law, step_law};
use vm_starting::{Cache, Places, Vm, program_law};

/// The instruction that was fetched, if it is no call and makes no visits. It answers how many steps were taken: none where it is
/// left.
fn act_unpaid(vm: &mut Vm, library: &Library, rows: &Rows<'_>, fetched: Fetched) -> u64
    requires fetched { (row : CodeRow) × HasFetched library.now vm.old row fetched }
    requires rows { rows.now ≡ library.now }
    requires unpaid { vm.old.paid ≡ 0 }
    ensures stepped { Stepped library.now result vm.old vm.new }
    ensures unpaid { vm.new.paid ≡ 0 }
    ensures few { result ≤ 1 }
{
    match fetched.instruction {
        Instruction::Acts(action) => {
            let row = row_of(vm, library, rows, fetched);
            step_act(vm, library, rows, row, action, fetched.end);
            1
        }
        Instruction::Binary(_number) => 0,
        Instruction::Calls(_op, _number) => 0,
    }
}

/// The instruction that was fetched, if it is no call and makes no visits, where an item of a list that is set is carried out at once.
/// It answers how many steps were taken: none where it is left.
#[inline(always)]
fn store_or_act(vm: &mut Vm, library: &Library, rows: &Rows<'_>, fetched: Fetched) -> u64
    requires fetched { (row : CodeRow) × HasFetched library.now vm.old row fetched }
    requires rows { rows.now ≡ library.now }
    requires unpaid { vm.old.paid ≡ 0 }
    ensures stepped { Stepped library.now result vm.old vm.new }
    ensures unpaid { vm.new.paid ≡ 0 }
    ensures few { result ≤ 1 }
{
    step_law();
    registered_law();
    if store_at_once(&mut vm.frames, &mut vm.arena, library, fetched) {
        1
    } else {
        act_unpaid(vm, library, rows, fetched)
    }
}

/// Instructions of one code that are carried out at once, one after another: up to `most` steps, where nothing is paid. How many steps
/// were taken.
#[tactic(auto, using(crate::proofs::AtOnce::none_yet))]
fn run_in(
    vm: &mut Vm,
    library: &Library,
    places: &Places,
    module_number: u32,
    code: u32,
    most: u64,
) -> u64
    requires vm { IsVm library.now vm.old }
    requires goes_on { vm.old.end ≡ None }
    requires unpaid { vm.old.paid ≡ 0 }
    requires kept { AreFetchedIn library.now module_number code places.now }
    ensures stepped { Stepped library.now result vm.old vm.new }
    ensures goes_on { vm.new.end ≡ None }
    ensures unpaid { vm.new.paid ≡ 0 }
    ensures few { result ≤ most }
{
    step_law();
    registered_law();
    let mut taken = 0u64;
    'steps: while most - taken > 1 {
        match fetch_in(vm, library, places, module_number, code) {
            Some(fetched) => match act_at_once(&mut vm.frames, &vm.arena, library, fetched) {
                Some(visits) => {
                    taken += visits + 1;
                }
                None => return taken,
            },
            None => return taken,
        }
    }
    taken
}

/// Instructions of the running call's code that are carried out at once, one after another: up to `most` steps, where nothing is paid.
/// How many steps were taken.
fn run_here(vm: &mut Vm, library: &Library, cache: &Cache, most: u64) -> u64
    requires vm { IsVm library.now vm.old }
    requires goes_on { vm.old.end ≡ None }
    requires unpaid { vm.old.paid ≡ 0 }
    requires kept { AreFetched library.now cache.now }
    ensures stepped { Stepped library.now result vm.old vm.new }
    ensures goes_on { vm.new.end ≡ None }
    ensures unpaid { vm.new.paid ≡ 0 }
    ensures few { result ≤ most }
{
    program_law();
    let (module_number, code, _) = vm.frames.running();
    match cache.places(module_number, code) {
        Some(places) => run_in(vm, library, places, module_number, code, most),
        None => 0,
    }
}

/// The instruction that the machine stands at, if it is no call and makes no visits. It answers how many steps were taken: none where
/// it is left.
#[inline(always)]
fn step_unpaid(vm: &mut Vm, library: &Library, rows: &Rows<'_>, cache: &mut Cache) -> u64
    requires vm { IsVm library.now vm.old }
    requires rows { rows.now ≡ library.now }
    requires goes_on { vm.old.end ≡ None }
    requires unpaid { vm.old.paid ≡ 0 }
    requires kept { AreFetched library.now cache.old }
    ensures stepped { Stepped library.now result vm.old vm.new }
    ensures unpaid { vm.new.paid ≡ 0 }
    ensures few { result ≤ 1 }
    ensures kept { AreFetched library.now cache.new }
{
    let fetched = fetch_kept(vm, library, rows, cache);
    store_or_act(vm, library, rows, fetched)
}

/// Instructions of the running call's code that are carried out at once, and then one that is no call and makes no visits: up to `most`
/// steps, where nothing is paid. How many steps were taken, and whether that last one was.
fn run_through(
    vm: &mut Vm,
    library: &Library,
    rows: &Rows<'_>,
    cache: &mut Cache,
    most: u64,
) -> (u64, bool)
    requires vm { IsVm library.now vm.old }
    requires rows { rows.now ≡ library.now }
    requires unpaid { vm.old.paid ≡ 0 }
    requires kept { AreFetched library.now cache.old }
    ensures stepped { Stepped library.now result.0 vm.old vm.new }
    ensures unpaid { vm.new.paid ≡ 0 }
    ensures few { result.0 ≤ most }
    ensures some { result.1 ≡ true → 0 < result.0 }
    ensures kept { AreFetched library.now cache.new }
{
    match vm.end {
        Some(_end) => (0, false),
        None => {
            let ran = run_here(vm, library, cache, most);
            let left = most - ran;
            if left == 0 {
                return (ran, false);
            }
            let more = step_unpaid(vm, library, rows, cache);
            if more == 0 {
                return (ran, false);
            }
            (ran + more, true)
        }
    }
}

/// Instructions one after another, as far as they are no calls, and make no visits or are carried out at once: up to `most` steps,
/// where nothing is paid. How many steps were taken.
#[tactic(auto, using(crate::proofs::AtOnce::none_yet))]
pub(crate) fn run_at_once(
    vm: &mut Vm,
    library: &Library,
    rows: &Rows<'_>,
    cache: &mut Cache,
    most: u64,
) -> u64
    requires vm { IsVm library.now vm.old }
    requires rows { rows.now ≡ library.now }
    requires kept { AreFetched library.now cache.old }
    ensures stepped { Stepped library.now result vm.old vm.new }
    ensures paid { vm.new.paid ≡ vm.old.paid }
    ensures few { result ≤ most }
    ensures kept { AreFetched library.now cache.new }
{
    if vm.paid > 0 {
        return 0;
    }
    let mut taken = 0u64;
    'steps: while most - taken > 0 {
        let (more, goes_on) = run_through(vm, library, rows, cache, most - taken);
        taken += more;
        if !goes_on {
            return taken;
        }
    }
    taken
}
