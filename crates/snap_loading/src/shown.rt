//! A loaded state has the snapshot that it was loaded from.

ghost use Rattle.std.specs.Prelude.{◌≡◌, ℕ, List};
ghost use Rattle.mpy_base.specs.World.{Heap};
ghost use Rattle.arena_heap.specs.declared.value.Value.{Value};
ghost use Rattle.bc_library.specs.Shelf.{Shelf};
ghost use Rattle.vm_starting.specs.vm_states.prim_modules.Registry.{Registry};
ghost use Rattle.vm_starting.specs.vm_states.vm_frames.Calls.{Call};
ghost use Rattle.vm_starting.specs.Programs.{IsRunnable};
ghost use Rattle.snap_saving.specs.Shown.{snapshot_of};
ghost use Rattle.snap_grammar.specs.declared.parts.Snapshot.{Snapshot};
ghost use Rattle.snap_states.specs.States.{IsShaped};
ghost use Rattle.snap_states.specs.Decoded.{IsDecoded};
ghost use Rattle.snap_loading.specs.Given.{IsLibrary};

use snap_laws::frames_law;

/// The snapshot of what a snapshot stands for whose conditions hold is that snapshot.
pub fn shown_law()
    ensures { (shelf : Shelf) (s : Snapshot) (heap : Heap Value ℕ) (modules : Registry) (calls : List Call) → IsLibrary shelf
        → IsRunnable shelf → IsShaped shelf s
        → IsDecoded shelf s heap modules calls → snapshot_of shelf heap modules calls s.paid ≡ s }
{
    frames_law();
}
