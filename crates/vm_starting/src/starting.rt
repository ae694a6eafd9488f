//! The main module begins.

ghost use Rattle.std.specs.Prelude.{◌≡◌, ◌<◌, ◌≤◌, [], length, OnOk, IfOk};
ghost use Rattle.mpy_base.specs.Val.{PlainWorld};
ghost use Rattle.frame_calls.specs.arena_objects.Keys.{AllTold};
ghost use Rattle.vm_states.specs.bc_library.Constants.{items_at, text_at};
ghost use Rattle.frame_calls.specs.bc_machine.Library.{Name};
ghost use Rattle.frame_calls.specs.bc_machine.Machine.{start};
ghost use Rattle.vm_states.specs.frame_moves.Outcomes.{world_of};
ghost use Rattle.vm_states.specs.frame_exits.Ends.{with_modules};
ghost use Rattle.vm_states.specs.Means.{Program, Means};
ghost use Rattle.vm_states.specs.Running.{HasRooms};
ghost use Rattle.vm_states.specs.State.{IsState};
ghost use Rattle.vm_starting.specs.Starting.{Begins, IsMain, started_of};

use crate::shown_program::code_law;
use arena_heap::{Arena, StrNo};
use bc_library::Library;
use bc_progress::start_law;
use mpy_base::NoRoom;
use prim_faults::Stop;
use prim_modules::{Modules, make_module};
use vm_frames::{Frames, Role, moves_law, placed_law};

/// The number of the text `__main__`, which every library has.
pub const MAIN: u32 = 21;

/// The number of the text `__name__`.
pub const NAME: u32 = 23;

/// The main module begins: it is made and registered as `__main__`, and a call of code 0 begins of the library's module of the
/// number, which has these locals. Where it doesn't fit, no call begins.
pub fn start_main(
    frames: &mut Frames,
    arena: &mut Arena,
    library: &Library,
    modules: &mut Modules,
    number: u32,
    locals: u32,
) -> Result<(), NoRoom>
    requires none { frames.old.calls ≡ [] }
    requires locals { locals ≤ frames.old.slot_room }
    requires room { length modules.old.entries < modules.old.room }
    requires all_told { AllTold (text_at library.now) (items_at library.now) arena.old.objects }
    ensures starts { (p : Program) (name : Name) (w : PlainWorld) → p.shelf ≡ library.now → Means p → IsMain p number locals name
        → start p.library name (world_of p.tables (with_modules p.tables w modules.old) arena.old)
        ≡ started_of p result frames.new.calls (world_of p.tables (with_modules p.tables w modules.new) arena.new) }
    ensures state { OnOk result ((p : Program) (name : Name) → p.shelf ≡ library.now → Means p → IsMain p number locals name → HasRooms p frames.old
        → IsState p arena.new.objects frames.new) }
    ensures begins { OnOk result (Begins library.now number locals arena.old arena.new modules.old modules.new frames.new.calls) }
    ensures all_told { AllTold (text_at library.now) (items_at library.now) arena.new.objects }
    ensures kept { modules.new.room ≡ modules.old.room }
    ensures rooms { frames.new ≡ record frames.old { calls = frames.new.calls } }
{
    moves_law();
    placed_law();
    start_law();
    code_law();
    match make_module(arena, library, modules, StrNo::Pool(NAME), MAIN) {
        Ok(made) => {
            frames.push_call(number, 0, made.names, Role::Main, locals);
            Ok(())
        }
        Err(Stop::Full(room)) => Err(room),
        Err(Stop::Raises(_fault)) => unreachable!(),
    }
}
