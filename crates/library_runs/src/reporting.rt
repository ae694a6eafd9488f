//! What is said at the end of a run.

ghost use Rattle.std.specs.Prelude.{◌≡◌, false};
ghost use Rattle.vm_machine.specs.Machine.{IsVm};
ghost use Rattle.library_runs.specs.Reports.{answer_of, said_by};
ghost use Rattle.library_runs.specs.Runs.{Says, speaks};

use crate::ending::RunEnd;
use bc_library::Library;
use mpy_io::Sink;
use prim_outputs::{put_no_room, put_report};
use vm_machine::{End, Vm};

/// Says of a run that is over how it ended, where an exception or want of room ended it. A put that fails changes nothing else.
pub(crate) fn say_end<E: Sink>(vm: &Vm, library: &Library, say: &mut E) -> RunEnd
    requires { IsVm library.now vm.now }
    ensures end { result ≡ answer_of vm.now.end }
    ensures silent { speaks result ≡ false → say.new ≡ say.old }
    ensures said { Says (E.told say.old) (E.told say.new) (E.count say.old) (E.count say.new) (said_by library.now vm.now vm.now.end) }
{
    match vm.end {
        None => RunEnd::Limit,
        Some(End::Ended) => RunEnd::Ended,
        Some(End::Raised(x)) => {
            let _ = put_report(&vm.arena, library, x, say);
            RunEnd::Raised
        }
        Some(End::Memory(room)) => {
            let _ = put_no_room(room, say);
            RunEnd::Memory
        }
    }
}
