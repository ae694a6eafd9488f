//! A snapshot stands for one state only.

ghost use Rattle.std.specs.Prelude.{◌≡◌, ℕ, List};
ghost use Rattle.mpy_base.specs.World.{Heap};
ghost use Rattle.arena_heap.specs.declared.value.Value.{Value};
ghost use Rattle.bc_library.specs.Shelf.{Shelf};
ghost use Rattle.vm_starting.specs.vm_states.prim_modules.Registry.{Registry};
ghost use Rattle.vm_starting.specs.vm_states.vm_frames.Calls.{Call};
ghost use Rattle.snap_grammar.specs.declared.parts.Snapshot.{Snapshot};
ghost use Rattle.snap_states.specs.States.{IsShaped};
ghost use Rattle.snap_states.specs.Decoded.{IsDecoded};
ghost use Rattle.snap_loading.specs.Coded.{HasOneTitle};

/// What a snapshot stands for whose conditions hold is one heap, one registry of modules, and one stack of calls.
pub fn one_state_law()
    ensures { (shelf : Shelf) (s : Snapshot) (heap other : Heap Value ℕ) (modules others : Registry) (calls more : List Call) → HasOneTitle shelf
        → IsShaped shelf s → IsDecoded shelf s heap modules calls → IsDecoded shelf s other others more
        → (heap ≡ other) × (modules ≡ others) × (calls ≡ more) }
{}
