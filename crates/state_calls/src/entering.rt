//! Functions of the program that are called.

ghost use Rattle.std.specs.Prelude.{◌≡◌, ◌<◌, ◌^◌, OnErr};
ghost use Rattle.vm_states.specs.bc_library.Constants.{items_at, text_at};
ghost use Rattle.frame_calls.specs.prim_calls.declared.callees.Callee.TheVariants as callees;
ghost use Rattle.vm_states.specs.vm_fetching.Instructions as fetched;
ghost use Rattle.frame_calls.specs.Putting.{IsKnownStop};
ghost use Rattle.state_calls.specs.Called.{ComesIn};
ghost use Rattle.state_calls.specs.Runs.{RunsWithin, RunsAgain};
ghost use Rattle.state_calls.specs.Taken.{Keeps, IsTaken};

use crate::finding::code_of;
use arena_heap::Arena;
use bc_progress::room_law;
use frame_calls::{
    Bindings, Function, FunctionCode, Invocation, Operands, run_function, skip_function,
};
use prim_faults::Stop;
use vm_frames::Frames;
use vm_states::{CallOp, Library, Rows, keeps_law, known_law, rows_law};

/// A function is called: its code is entered, or the call gives None where the library doesn't have the code.
pub(crate) fn call_code(
    frames: &mut Frames,
    arena: &Arena,
    library: &Library,
    rows: &Rows<'_>,
    bindings: &mut Bindings,
    operands: &Operands,
    function: Function,
    call: Invocation,
    op: CallOp,
    number: u32,
    end: u32,
) -> Result<(), Stop>
    requires runs { RunsWithin bindings.old.room library.now arena.now frames.old (record { instruction = fetched.call op number; end = end }) }
    requires few { frames.old.slot_room < 2 ^ 32 }
    requires rows { rows.now ≡ library.now }
    requires taken { IsTaken library.now op number arena.now frames.old operands.now call }
    requires callee { call.callee ≡ callees.Runs function }
    ensures comes { ComesIn library.now (record { instruction = fetched.call op number; end = end })
        (callees.Runs function) operands.now arena.now arena.now frames.old frames.new result }
    ensures again { RunsAgain library.now (record { instruction = fetched.call op number; end = end }) arena.now arena.now frames.old frames.new }
    ensures stop { IsKnownStop (text_at library.now) (items_at library.now) arena.now.objects result }
    ensures stays { OnErr result (frames.new ≡ frames.old) }
    ensures keeps { Keeps frames.old frames.new }
    ensures room { bindings.new.room ≡ bindings.old.room }
{
    rows_law();
    room_law();
    known_law();
    keeps_law();
    let _ = (op, number);
    match code_of(library, rows, function) {
        None => {
            skip_function(frames, call.size, end);
            Ok(())
        }
        Some((module_number, row)) => {
            let code = FunctionCode {
                params: row.params.as_slice(),
                given: row.given,
                locals: row.locals,
            };
            run_function(
                frames,
                arena,
                library,
                bindings,
                operands,
                function,
                &code,
                module_number,
                call.size,
            )
        }
    }
}
