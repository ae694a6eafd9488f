//! A local gets a value.

ghost use Rattle.std.specs.Prelude.{◌≡◌, Some, drop, slice_set};
ghost use Rattle.vm_states.specs.prim_names.arena_heap.declared.value.Value.{Value as Item};
ghost use Rattle.vm_states.specs.vm_frames.declared.slot.Slot.TheVariants as slots;
ghost use Rattle.vm_states.specs.vm_frames.Calls.{on_running};
ghost use Rattle.vm_states.specs.frame_moves.Shown.{IsTop};
ghost use Rattle.vm_states.specs.vm_fetching.Instructions as fetched;
ghost use Rattle.state_values.specs.Moving.{Runs, GoesBehind};
ghost use Rattle.state_values.specs.Storing.{StoresLocal};

use frame_moves::store_fast;
use vm_frames::Frames;
use vm_states::{LocalOp, keeps_law, tops_law};

/// STORE_FAST, in one byte or in more, where it was fetched for the running call.
pub fn store_local(frames: &mut Frames, op: LocalOp, n: u32, end: u32)
    requires stores { StoresLocal op }
    requires runs { Runs frames.old (record { instruction = fetched.local op n; end = end }) }
    ensures goes { GoesBehind (record { instruction = fetched.local op n; end = end }) frames.old frames.new }
    ensures moved { (v : Item) → IsTop (slots.Value v) frames.old.calls → frames.new ≡ on_running (λ c. record c {
      at = end;
      slots = drop 1 c.slots;
      locals = slice_set c.locals n (Some v);
    }) frames.old }
{
    keeps_law();
    tops_law();
    let _ = op;
    store_fast(frames, n, end);
}
