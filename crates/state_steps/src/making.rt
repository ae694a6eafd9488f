//! Functions that are made, and what their stops come to.

ghost use Rattle.std.specs.Prelude.{◌≡◌};
ghost use Rattle.state_values.specs.bc_library.Constants.{items_at, text_at};
ghost use Rattle.state_calls.specs.vm_fetching.Instructions as fetched_as;
ghost use Rattle.state_calls.specs.vm_fetching.declared.operations.MakeOp.TheVariants as make_ops;
ghost use Rattle.state_values.specs.vm_states.Means.{Program};
ghost use Rattle.state_exits.specs.Running.{RunsWith};
ghost use Rattle.state_steps.specs.Comes.{ComesOnBehind};

use arena_heap::Arena;
use bc_library::Library;
use prim_modules::Modules;
use state_calls::{make_function, make_function_with};
use state_exits::{End, ModuleName, Row, Rows, registered_law, stop_on};
use vm_frames::Frames;

/// MAKE_FUNCTION of the child with the number, that was fetched for the running call, of this row: a function without defaults.
/// Where it stops, the stop is raised at its place. It answers how the run ends, if it does. It makes no visits.
#[tactic(none)]
pub fn make(
    frames: &mut Frames,
    arena: &mut Arena,
    library: &Library,
    rows: &Rows<'_>,
    modules: &mut Modules,
    names: &[ModuleName],
    row: &Row<'_>,
    number: u32,
    end: u32,
) -> Option<End>
    requires runs { RunsWith (text_at library.now) (items_at library.now) names.now library.now arena.old modules.old frames.old row.now (record {
      instruction = fetched_as.make make_ops.MakeFunction number;
      end = end;
    }) }
    requires rows { rows.now ≡ library.now }
    ensures comes { (p : Program) → p.shelf ≡ library.now
        → ComesOnBehind p (text_at library.now) (items_at library.now) names.now row.now (record {
          instruction = fetched_as.make make_ops.MakeFunction number;
          end = end;
        }) 0 arena.old arena.new modules.old modules.new frames.old frames.new result }
    ensures rooms { frames.new ≡ record frames.old { calls = frames.new.calls } }
    ensures registry { modules.new.room ≡ modules.old.room }
{
    registered_law();
    match make_function(frames, arena, library, rows, names, number, end) {
        Ok(()) => None,
        Err(stop) => stop_on(frames, arena, library, modules, names, row, stop),
    }
}

/// MAKE_FUNCTION_DEFARGS of the child with the number, that was fetched for the running call, of this row: a function with the
/// defaults that lie on top. Where it stops, the stop is raised at its place. It answers how the run ends, if it does. It makes no
/// visits.
#[tactic(none)]
pub fn make_with(
    frames: &mut Frames,
    arena: &mut Arena,
    library: &Library,
    rows: &Rows<'_>,
    modules: &mut Modules,
    names: &[ModuleName],
    row: &Row<'_>,
    number: u32,
    end: u32,
) -> Option<End>
    requires runs { RunsWith (text_at library.now) (items_at library.now) names.now library.now arena.old modules.old frames.old row.now (record {
      instruction = fetched_as.make make_ops.MakeFunctionDefargs number;
      end = end;
    }) }
    requires rows { rows.now ≡ library.now }
    ensures comes { (p : Program) → p.shelf ≡ library.now
        → ComesOnBehind p (text_at library.now) (items_at library.now) names.now row.now (record {
          instruction = fetched_as.make make_ops.MakeFunctionDefargs number;
          end = end;
        }) 0 arena.old arena.new modules.old modules.new frames.old frames.new result }
    ensures rooms { frames.new ≡ record frames.old { calls = frames.new.calls } }
    ensures registry { modules.new.room ≡ modules.old.room }
{
    registered_law();
    match make_function_with(frames, arena, library, rows, names, number, end) {
        Ok(()) => None,
        Err(stop) => stop_on(frames, arena, library, modules, names, row, stop),
    }
}
