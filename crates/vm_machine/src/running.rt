//! The run of a machine.

ghost use Rattle.std.specs.Prelude.{◌≡◌, ◌+◌, ◌<◌, ◌≤◌, ◌^◌, map, IfOk, OnErr, is_err};
ghost use Rattle.mpy_io.specs.Count.{Counts};
ghost use Rattle.port_set.specs.Counts.{CountsKeep};
ghost use Rattle.vm_starting.specs.Kept.{AreFetched};
ghost use Rattle.vm_machine.specs.Machine.{IsVm};
ghost use Rattle.vm_machine.specs.Running.{Runs, RunsToFailure};

use crate::stepping::advance;
use bc_library::Library;
use mpy_io::{Failed, Port, Sink};
use port_set::PortSet;
use vm_at_once::Rows;
use vm_starting::{Cache, Vm};

/// The run of the library for these steps more, or up to its end (`Vm::end`). A run in parts is one run: what is paid on the
/// running instruction stays in `Vm::paid`. Where the sink fails, it goes no further. It takes no memory. What is fetched of the
/// library is kept in its cache, which runs of the library share: an instruction is decoded once, and those that change the running
/// call alone are carried out at once.
pub fn run<S: Sink, P: Port>(
    vm: &mut Vm,
    library: &Library,
    rows: &Rows<'_>,
    cache: &mut Cache,
    out: &mut S,
    ports: &mut PortSet<P>,
    steps: u64,
) -> Result<(), Failed>
    requires vm { IsVm library.now vm.old }
    requires rows { rows.now ≡ library.now }
    requires countable { vm.old.paid + steps < 2 ^ 64 }
    requires kept { AreFetched library.now cache.old }
    ensures vm { IsVm library.now vm.new }
    ensures runs { IfOk result
        (λ done. Runs S.told library.now vm.old (record { out = out.old; ports = map P.seen ports.old })
        (record { out = out.new; ports = map P.seen ports.new }) steps vm.new) }
    ensures failed { OnErr result
        (RunsToFailure S.told library.now vm.old (record { out = out.old; ports = map P.seen ports.old })
        (record { out = out.new; ports = map P.seen ports.new }) steps S.count) }
    ensures counts { Counts (S.count out.old) (S.count out.new) (is_err result) }
    ensures faults { CountsKeep (map P.seen ports.old) (map P.seen ports.new) }
    ensures paid { vm.new.paid ≤ vm.old.paid + steps }
    ensures kept { AreFetched library.now cache.new }
{
    let mut left = steps;
    'steps: while left > 0 {
        match advance(vm, library, rows, cache, out, ports, left) {
            Ok(taken) => {
                left -= taken;
            }
            Err(failed) => return Err(failed),
        }
    }
    Ok(())
}
