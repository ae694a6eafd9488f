//! Functions that are made.

ghost use Rattle.std.specs.Prelude.{◌≡◌, OnErr};
ghost use Rattle.vm_states.specs.vm_fetching.Instructions as fetched;
ghost use Rattle.vm_states.specs.vm_fetching.declared.operations.MakeOp.TheVariants as make_ops;
ghost use Rattle.state_calls.specs.Names.{AreNames};
ghost use Rattle.state_calls.specs.Runs.{RunsIn, ActsIn};
ghost use Rattle.state_calls.specs.Taken.{Keeps};

use crate::finding::child_in;
use arena_heap::Arena;
use prim_faults::Stop;
use vm_frames::Frames;
use vm_states::{Library, ModuleName, Rows, keeps_law, known_law, rows_law, tops_law};

/// MAKE_FUNCTION, where it was fetched for the running call: a function of the child with the number, without defaults. Where it
/// stops, the calls stay.
pub fn make_function(
    frames: &mut Frames,
    arena: &mut Arena,
    library: &Library,
    rows: &Rows<'_>,
    names: &[ModuleName],
    number: u32,
    end: u32,
) -> Result<(), Stop>
    requires runs { RunsIn library.now arena.old frames.old (record { instruction = fetched.make make_ops.MakeFunction number; end = end }) }
    requires rows { rows.now ≡ library.now }
    requires names { AreNames library.now names.now }
    ensures acts { ActsIn library.now (record {
      instruction = fetched.make make_ops.MakeFunction number;
      end = end;
    }) 0 arena.old arena.new frames.old frames.new result }
    ensures stays { OnErr result (frames.new ≡ frames.old) }
    ensures keeps { Keeps frames.old frames.new }
{
    rows_law();
    known_law();
    keeps_law();
    let (module_number, code, _) = frames.running();
    let child = child_in(rows, names, module_number, code, number);
    frame_calls::make_function(frames, arena, library, child, end)
}

/// MAKE_FUNCTION_DEFARGS, where it was fetched for the running call: a function of the child with the number, with the defaults
/// that lie on top. Where it stops, the calls stay.
pub fn make_function_with(
    frames: &mut Frames,
    arena: &mut Arena,
    library: &Library,
    rows: &Rows<'_>,
    names: &[ModuleName],
    number: u32,
    end: u32,
) -> Result<(), Stop>
    requires runs { RunsIn library.now arena.old frames.old (record { instruction = fetched.make make_ops.MakeFunctionDefargs number; end = end }) }
    requires rows { rows.now ≡ library.now }
    requires names { AreNames library.now names.now }
    ensures acts { ActsIn library.now (record {
      instruction = fetched.make make_ops.MakeFunctionDefargs number;
      end = end;
    }) 0 arena.old arena.new frames.old frames.new result }
    ensures stays { OnErr result (frames.new ≡ frames.old) }
    ensures keeps { Keeps frames.old frames.new }
{
    rows_law();
    known_law();
    keeps_law();
    tops_law();
    let (module_number, code, _) = frames.running();
    let child = child_in(rows, names, module_number, code, number);
    frame_calls::make_function_with(frames, arena, library, child, end)
}
