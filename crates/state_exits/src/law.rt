//! How registered modules stay those of a program.

ghost use Rattle.std.specs.Prelude.{◌≡◌, ◌<◌, ℕ, [], Ok, length, codes};
ghost use Rattle.vm_states.specs.mpy_base.World.{Heap};
ghost use Rattle.vm_states.specs.mpy_base.Val.{PlainWorld};
ghost use Rattle.prim_faults.specs.arena_heap.declared.value.Value.{Value};
ghost use Rattle.bc_progress.specs.py_effects.Heaps.{Formed};
ghost use Rattle.bc_progress.specs.py_effects.Modules.{make_module};
ghost use Rattle.prim_faults.specs.prim_walks.Plain.{plain_name, plain_heap};
ghost use Rattle.vm_states.specs.prim_modules.declared.makings.Made.{Made};
ghost use Rattle.vm_states.specs.prim_modules.Effects.{IsMaking};
ghost use Rattle.vm_states.specs.prim_modules.Registry.{Registry, with_entry};
ghost use Rattle.vm_states.specs.vm_frames.Calls.{Calls};
ghost use Rattle.vm_states.specs.frame_moves.Shown.{running_of};
ghost use Rattle.vm_states.specs.frame_moves.Outcomes.{world_of};
ghost use Rattle.vm_states.specs.frame_exits.Ends.{with_modules};
ghost use Rattle.vm_states.specs.Means.{Program};
ghost use Rattle.vm_states.specs.State.{IsState};
ghost use Rattle.state_exits.specs.Modules.{AreRegistered};
ghost use Rattle.state_exits.specs.Running.{stepped_with};

use bc_machine::sound_law;

/// The registered modules are a program's again behind a step of its calls that registers and forgets none, whatever it does to
/// the heap; and so the main module is the only one where it was made and registered first.
pub fn registered_law()
    ensures stays { (p : Program) (s new : Calls) (paid again : ℕ) (before behind : Heap Value ℕ) (modules : Registry) (w v : PlainWorld)
        → IsState p before.objects s → AreRegistered p before modules
        → stepped_with p paid s w before modules
        ≡ running_of p.tables again new.calls (world_of p.tables (with_modules p.tables v modules) behind)
        → AreRegistered p behind modules }
    ensures begins { (p : Program) (old new : Heap Value ℕ) (before after : Registry) (made : Made) (name : ℕ)
        → Formed (plain_heap p.tables.texts p.tables.tuples old) → before.entries ≡ [] → length p.shelf.modules < before.room
        → plain_name p.tables.texts p.tables.tuples name ≡ codes "__main__"
        → IsMaking p.tables.texts p.tables.tuples old new before after (Ok made) (λ w. make_module w (plain_name p.tables.texts p.tables.tuples name))
        → after ≡ with_entry before (record { name = name; object = made.number }) → AreRegistered p new after }
{
    sound_law();
}
