//! A loaded state is one that the machine runs.

ghost use Rattle.std.specs.Prelude.{◌≡◌, ◌++◌, ℕ, List, map, None, replicate};
ghost use Rattle.std.specs.List.{flat_map, sum_by};
ghost use Rattle.mpy_base.specs.World.{Heap};
ghost use Rattle.mpy_base.specs.Weights.{bytes_of, cells_of};
ghost use Rattle.arena_heap.specs.declared.value.Value.{Value};
ghost use Rattle.arena_heap.specs.Values.{Sound};
ghost use Rattle.bc_library.specs.Shelf.{Shelf};
ghost use Rattle.vm_kept.specs.Kept.{HoldsKept};
ghost use Rattle.vm_kept.specs.state_exits.Modules.{AreRegistered};
ghost use Rattle.vm_starting.specs.vm_states.prim_modules.Registry.{Registry};
ghost use Rattle.vm_starting.specs.vm_states.vm_frames.Calls.{Calls};
ghost use Rattle.vm_starting.specs.vm_states.Means.{Program};
ghost use Rattle.vm_starting.specs.vm_states.Running.{HasRooms};
ghost use Rattle.vm_starting.specs.vm_states.State.{IsState};
ghost use Rattle.vm_starting.specs.Programs.{IsProgramOf};
ghost use Rattle.snap_grammar.specs.declared.parts.Snapshot.{Snapshot};
ghost use Rattle.snap_grammar.specs.Spelling.{Fits};
ghost use Rattle.snap_states.specs.Parts.{bytes_of_parts, cells_of_parts};
ghost use Rattle.snap_states.specs.States.{AreFineObjects, IsShaped};
ghost use Rattle.snap_states.specs.Decoded.{IsDecoded};
ghost use Rattle.snap_loading.specs.Given.{IsLibrary, HasRows};
ghost use Rattle.snap_loading.specs.Shells.{laid, shell_of};

use snap_laws::{frames_law, rooms_law};
use vm_starting::code_law;

/// The objects of a snapshot that are not filled yet lead to objects of their kinds, forwards too, and take the cells and bytes that the
/// snapshot's objects take.
pub fn shells_law()
    ensures sound { (shelf : Shelf) (s : Snapshot) (title : ℕ → ℕ → ℕ) (k : ℕ) → IsLibrary shelf → Fits s → AreFineObjects shelf s
        → Sound (flat_map laid (map (shell_of shelf s title) s.objects) ++ replicate k None) }
    ensures cells { (shelf : Shelf) (s : Snapshot) (title : ℕ → ℕ → ℕ) → sum_by cells_of (map (shell_of shelf s title) s.objects) ≡ cells_of_parts s.objects }
    ensures bytes { (shelf : Shelf) (s : Snapshot) (title : ℕ → ℕ → ℕ) → sum_by bytes_of (map (shell_of shelf s title) s.objects) ≡ bytes_of_parts s.objects }
{}

/// What a snapshot stands for whose conditions hold is a state of each program of the library, with its modules registered, and its slots
/// and entries hold what the plans keep in them: so the machine runs it as it runs its own.
pub fn safe_law()
    ensures { (shelf : Shelf) (s : Snapshot) (heap : Heap Value ℕ) (modules : Registry) (calls : Calls) (p : Program) → IsLibrary shelf
        → Fits s → IsShaped shelf s → HasRows shelf s
        → IsDecoded shelf s heap modules calls.calls → IsProgramOf shelf p → HasRooms p calls
        → IsState p heap.objects calls × AreRegistered p heap modules × HoldsKept p heap.objects calls }
{
    frames_law();
    rooms_law();
    code_law();
}
