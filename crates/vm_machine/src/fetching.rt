//! The instruction that the machine stands at.

ghost use Rattle.std.specs.Prelude.{◌≡◌, ◌<◌, None, IfSome, length, true};
ghost use Rattle.vm_kept.specs.state_calls.bc_rows.declared.row.Row.{Row as CodeRow};
ghost use Rattle.vm_starting.specs.Kept.{AreFetched};
ghost use Rattle.vm_machine.specs.Machine.{IsVm};
ghost use Rattle.vm_machine.specs.Acting.{AreFetchedIn, HasFetched};

use bc_library::Library;
use vm_at_once::{Fetched, Row, Rows, fetch};
use vm_starting::{Cache, Places, Vm, cache_law, names_law, program_law, ready_law, row_law};

/// What is fetched for the running call, and the row of its code. It takes no memory.
pub(crate) fn fetch_at<'b, 'a>(
    vm: &Vm,
    library: &Library,
    rows: &'b Rows<'a>,
) -> (&'b Row<'a>, Fetched)
    requires vm { IsVm library.now vm.now }
    requires rows { rows.now ≡ library.now }
    requires goes_on { vm.now.end ≡ None }
    ensures { HasFetched library.now vm.now result.0.now result.1 }
{
    program_law();
    names_law();
    ready_law();
    let (module_number, code, _) = vm.frames.running();
    let at = vm.frames.offset();
    let Some(row) = rows.row(module_number, code) else {
        unreachable!();
    };
    let fetched = fetch(library, module_number, row, at);
    (row, fetched)
}

/// Is the running call one of this code of this module?
fn is_same(here: u32, running: u32, module_number: u32, code: u32) -> bool
    ensures { result ≡ true → (here ≡ module_number) × (running ≡ code) }
{
    here == module_number && running == code
}

/// What was fetched of this code for the running call, if it stands in the code. It takes no memory.
#[inline(always)]
pub(crate) fn fetch_in(
    vm: &Vm,
    _library: &Library,
    places: &Places,
    module_number: u32,
    code: u32,
) -> Option<Fetched>
    requires vm { IsVm _library.now vm.now }
    requires goes_on { vm.now.end ≡ None }
    requires kept { AreFetchedIn _library.now module_number code places.now }
    ensures { IfSome result (λ fetched. (row : CodeRow) × HasFetched _library.now vm.now row fetched) }
{
    program_law();
    names_law();
    ready_law();
    let (here, running, _) = vm.frames.running();
    let at = vm.frames.offset();
    if !is_same(here, running, module_number, code) {
        return None;
    }
    match places.look(at) {
        Some(fetched) => Some(fetched),
        None => None,
    }
}

/// What is fetched for the running call, which is kept from then on. It takes no memory.
#[inline(always)]
pub(crate) fn fetch_kept(vm: &Vm, library: &Library, rows: &Rows<'_>, cache: &mut Cache) -> Fetched
    requires vm { IsVm library.now vm.now }
    requires rows { rows.now ≡ library.now }
    requires goes_on { vm.now.end ≡ None }
    requires kept { AreFetched library.now cache.old }
    ensures fetched { (row : CodeRow) × HasFetched library.now vm.now row result }
    ensures kept { AreFetched library.now cache.new }
{
    program_law();
    names_law();
    ready_law();
    cache_law();
    let (module_number, code, _) = vm.frames.running();
    let at = vm.frames.offset();
    match cache.look(module_number, code, at) {
        Some(fetched) => fetched,
        None => {
            let (_row, fetched) = fetch_at(vm, library, rows);
            cache.keep(module_number, code, at, fetched);
            fetched
        }
    }
}

/// The row of the running call's code, for which this was fetched.
#[inline(always)]
pub(crate) fn row_of<'b, 'a>(
    vm: &Vm,
    _library: &Library,
    rows: &'b Rows<'a>,
    _fetched: Fetched,
) -> &'b Row<'a>
    requires fetched { (row : CodeRow) × HasFetched _library.now vm.now row _fetched }
    requires rows { rows.now ≡ _library.now }
    ensures { HasFetched _library.now vm.now result.now _fetched }
{
    program_law();
    names_law();
    ready_law();
    row_law();
    let (module_number, code, _) = vm.frames.running();
    let _at = vm.frames.offset();
    match rows.row(module_number, code) {
        Some(row) => row,
        None => unreachable!(),
    }
}
