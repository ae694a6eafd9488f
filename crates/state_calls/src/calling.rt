//! Calls that an instruction makes: what is called is looked at, the visits are paid, and then the call is carried out.

ghost use Rattle.std.specs.Prelude.{◌≡◌, ◌<◌, ◌^◌, map, true, OnErr};
ghost use Rattle.vm_states.specs.mpy_base.declared.builtin.Builtin.{Builtin as BuiltIn};
ghost use Rattle.vm_states.specs.mpy_base.World.{Later};
ghost use Rattle.mpy_io.specs.Count.{Counts};
ghost use Rattle.port_set.specs.Counts.{CountsKeep};
ghost use Rattle.vm_states.specs.bc_library.Constants.{items_at, text_at};
ghost use Rattle.frame_calls.specs.prim_calls.declared.callees.Callee.TheVariants as callees;
ghost use Rattle.vm_states.specs.vm_frames.Calls.{OfRunning};
ghost use Rattle.vm_states.specs.vm_fetching.Instructions as fetched;
ghost use Rattle.frame_calls.specs.Built.{IsCalled, IsKnownCallStop};
ghost use Rattle.state_calls.specs.Called.{CallsIn, HeapComesIn, is_out, of_stop};
ghost use Rattle.state_calls.specs.Runs.{IsFetchedAt, RunsWithin, RunsAgain};
ghost use Rattle.state_calls.specs.Taken.{Keeps, IsTaken};

use crate::entering::call_code;
use arena_heap::Arena;
use frame_calls::{
    Bindings, CallStop, Callee, Invocation, Operands, act_builtin, act_method, refuse_call,
};
use mpy_io::{Port, Sink};
use port_set::PortSet;
use prim_faults::Stop;
use vm_frames::Frames;
use vm_states::{CallOp, Library, Rows, keeps_law, known_law, rows_law};

/// A stop as that of a call.
fn stopped(acted: Result<(), Stop>) -> Result<(), CallStop>
    ensures { result ≡ of_stop acted }
{
    match acted {
        Ok(()) => Ok(()),
        Err(stop) => Err(CallStop::Stops(stop)),
    }
}

/// The call that was taken, where its visits are paid: a method, a built-in or a function of the program is called, or it raises
/// that the value isn't callable. Where it stops, the calls stay. It takes no memory.
pub fn call_on<S: Sink, P: Port>(
    frames: &mut Frames,
    arena: &mut Arena,
    library: &Library,
    rows: &Rows<'_>,
    operands: &Operands,
    bindings: &mut Bindings,
    out: &mut S,
    ports: &mut PortSet<P>,
    call: Invocation,
    op: CallOp,
    number: u32,
    end: u32,
) -> Result<(), CallStop>
    requires runs { RunsWithin bindings.old.room library.now arena.old frames.old (record { instruction = fetched.call op number; end = end }) }
    requires read { OfRunning (IsFetchedAt library.now (record { instruction = fetched.call op number; end = end })) frames.old.calls }
    requires few { frames.old.slot_room < 2 ^ 32 }
    requires rows { rows.now ≡ library.now }
    requires taken { IsTaken library.now op number arena.old frames.old operands.now call }
    ensures called { CallsIn S.told S.count library.now (record { instruction = fetched.call op number; end = end }) call.callee operands.now (record {
      heap = arena.old;
      out = out.old;
      ports = map P.seen ports.old;
    }) (record {
      heap = arena.new;
      out = out.new;
      ports = map P.seen ports.new;
    }) frames.old frames.new result }
    ensures heap { HeapComesIn library.now
        (record { instruction = fetched.call op number; end = end }) call.size arena.old arena.new frames.old frames.new result }
    ensures counts { Counts (S.count out.old) (S.count out.new) (is_out result) }
    ensures ports { is_out result ≡ true → map P.seen ports.new ≡ map P.seen ports.old }
    ensures faults { CountsKeep (map P.seen ports.old) (map P.seen ports.new) }
    ensures again { RunsAgain library.now (record { instruction = fetched.call op number; end = end }) arena.old arena.new frames.old frames.new }
    ensures built { (b : BuiltIn) → call.callee ≡ callees.Built b → IsCalled S.told S.count (text_at library.now) (items_at library.now) (record {
      heap = arena.old;
      out = out.old;
      ports = map P.seen ports.old;
    }) (record {
      heap = arena.new;
      out = out.new;
      ports = map P.seen ports.new;
    }) operands.now.args operands.now.keys b result }
    ensures later { Later arena.old.objects arena.new.objects }
    ensures stop { IsKnownCallStop (text_at library.now) (items_at library.now) arena.new.objects result }
    ensures stays { OnErr result (frames.new ≡ frames.old) }
    ensures keeps { Keeps frames.old frames.new }
    ensures room { bindings.new.room ≡ bindings.old.room }
{
    rows_law();
    known_law();
    keeps_law();
    match call.callee {
        Callee::Method { object, method } => stopped(act_method(
            frames, arena, library, operands, object, method, call.size, end,
        )),
        Callee::Built(b) => act_builtin(
            frames, arena, library, out, ports, operands, b, call.size, end,
        ),
        Callee::NotCallable(value_type) => Err(CallStop::Stops(refuse_call(value_type))),
        Callee::Runs(function) => stopped(call_code(
            frames, arena, library, rows, bindings, operands, function, call, op, number, end,
        )),
    }
}
