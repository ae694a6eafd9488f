//! Calls, and what their stops come to.

ghost use Rattle.std.specs.Prelude.{◌≡◌, ◌<◌, ◌≤◌, ◌^◌, map, is_err};
ghost use Rattle.mpy_io.specs.Count.{Counts};
ghost use Rattle.port_set.specs.Counts.{CountsKeep};
ghost use Rattle.state_values.specs.bc_library.Constants.{items_at, text_at};
ghost use Rattle.state_values.specs.vm_frames.Calls.{OfRunning};
ghost use Rattle.state_calls.specs.vm_fetching.Instructions as fetched_as;
ghost use Rattle.state_values.specs.vm_states.Means.{Program};
ghost use Rattle.state_calls.specs.Runs.{IsFetchedAt};
ghost use Rattle.state_calls.specs.Taken.{IsTaken};
ghost use Rattle.state_exits.specs.Running.{RunsWith};
ghost use Rattle.state_steps.specs.Calling.{end_in, CallsOnBehind, WentBehind};

use arena_heap::Arena;
use bc_library::Library;
use mpy_io::{Failed, Port, Sink};
use port_set::PortSet;
use prim_modules::Modules;
use state_calls::{Bindings, CallStop, Invocation, Operands, call_on};
use state_exits::{CallOp, End, ModuleName, Row, Rows, registered_law, stop_on};
use vm_frames::Frames;

/// CALL_FUNCTION or CALL_METHOD, that was fetched for the running call, of this row, and taken by `state_calls::take_call`, where its
/// visits are paid; where it stops, the stop is raised at its place. It answers how the run ends, if it does. Where the sink
/// fails, the call is still to be made.
#[tactic(none)]
pub fn call<S: Sink, P: Port>(
    frames: &mut Frames,
    arena: &mut Arena,
    library: &Library,
    rows: &Rows<'_>,
    modules: &mut Modules,
    names: &[ModuleName],
    out: &mut S,
    ports: &mut PortSet<P>,
    operands: &Operands,
    bindings: &mut Bindings,
    row: &Row<'_>,
    op: CallOp,
    number: u32,
    end: u32,
    call: Invocation,
) -> Result<Option<End>, Failed>
    requires runs { RunsWith (text_at library.now) (items_at library.now) names.now library.now arena.old modules.old frames.old row.now (record {
      instruction = fetched_as.call op number;
      end = end;
    }) }
    requires read { OfRunning (IsFetchedAt library.now (record { instruction = fetched_as.call op number; end = end })) frames.old.calls }
    requires few { frames.old.slot_room < 2 ^ 32 }
    requires roomy { frames.old.slot_room ≤ bindings.old.room }
    requires rows { rows.now ≡ library.now }
    requires taken { IsTaken library.now op number arena.old frames.old operands.now call }
    ensures comes { (p : Program) → p.shelf ≡ library.now
        → CallsOnBehind S.told S.count p (text_at library.now) (items_at library.now) names.now row.now (record {
          instruction = fetched_as.call op number;
          end = end;
        }) call.callee operands.now (record {
          heap = arena.old;
          out = out.old;
          ports = map P.seen ports.old;
        }) (record {
          heap = arena.new;
          out = out.new;
          ports = map P.seen ports.new;
        }) modules.old modules.new frames.old frames.new result }
    ensures went { (p : Program) → p.shelf ≡ library.now
        → WentBehind p (text_at library.now) (items_at library.now) names.now row.now (record {
          instruction = fetched_as.call op number;
          end = end;
        }) call.size arena.old arena.new modules.old modules.new frames.old frames.new (end_in result) }
    ensures counts { Counts (S.count out.old) (S.count out.new) (is_err result) }
    ensures faults { CountsKeep (map P.seen ports.old) (map P.seen ports.new) }
    ensures rooms { frames.new ≡ record frames.old { calls = frames.new.calls } }
    ensures registry { modules.new.room ≡ modules.old.room }
    ensures room { bindings.new.room ≡ bindings.old.room }
{
    registered_law();
    match call_on(
        frames, arena, library, rows, operands, bindings, out, ports, call, op, number, end,
    ) {
        Ok(()) => Ok(None),
        Err(CallStop::Stops(stop)) => Ok(stop_on(
            frames, arena, library, modules, names, row, stop,
        )),
        Err(CallStop::Out(failed)) => Err(failed),
    }
}
