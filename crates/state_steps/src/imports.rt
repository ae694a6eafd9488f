//! Imports, and what their stops come to.

ghost use Rattle.std.specs.Prelude.{◌≡◌, ◌<◌, ◌^◌, Some, codes};
ghost use Rattle.state_calls.specs.prim_faults.Sights.{under};
ghost use Rattle.state_values.specs.vm_states.Means.{Program};
ghost use Rattle.state_exits.specs.Importing.{fetched_import};
ghost use Rattle.state_exits.specs.Running.{RunsWith};
ghost use Rattle.state_steps.specs.Comes.{ComesOnBehind};

use arena_heap::{Arena, Constants, StrNo};
use bc_library::Library;
use prim_modules::Modules;
use state_exits::{End, ModuleName, Row, Rows, import_on, stop_on};
use vm_frames::Frames;

/// IMPORT_NAME of the text with the number, that was fetched for the running call, of this row; where it stops, the stop is raised
/// at its place. It answers how the run ends, if it does. `key` is the text `__name__`.
#[tactic(none)]
pub fn import<C: Constants>(
    frames: &mut Frames,
    arena: &mut Arena,
    consts: &C,
    library: &Library,
    rows: &Rows<'_>,
    modules: &mut Modules,
    names: &[ModuleName],
    row: &Row<'_>,
    key: StrNo,
    name: u32,
    end: u32,
) -> Option<End>
    requires runs { under C.Constants consts.now RunsWith names.now rows.now arena.old modules.old frames.old row.now (fetched_import name end) }
    requires rows { rows.now ≡ library.now }
    requires key { C.text_of consts.now key ≡ Some (codes "__name__") }
    requires short { frames.old.slot_room < 2 ^ 32 }
    ensures comes { (p : Program) → p.shelf ≡ rows.now
        → under C.Constants consts.now (ComesOnBehind p) names.now row.now
        (fetched_import name end) 0 arena.old arena.new modules.old modules.new frames.old frames.new result }
    ensures rooms { frames.new ≡ record frames.old { calls = frames.new.calls } }
    ensures registry { modules.new.room ≡ modules.old.room }
{
    match import_on(
        frames, arena, consts, library, rows, modules, names, key, name, end,
    ) {
        Ok(()) => None,
        Err(stop) => stop_on(frames, arena, consts, modules, names, row, stop),
    }
}
