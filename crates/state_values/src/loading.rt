//! Constants that are loaded.

ghost use Rattle.std.specs.Prelude.{◌≡◌, ◌∷◌};
ghost use Rattle.vm_states.specs.prim_names.arena_heap.declared.value.Value.TheVariants as values;
ghost use Rattle.vm_states.specs.vm_frames.declared.slot.Slot.TheVariants as slots;
ghost use Rattle.vm_states.specs.vm_frames.Calls.{on_running};
ghost use Rattle.vm_states.specs.frame_moves.Stacks.{gone};
ghost use Rattle.vm_states.specs.vm_fetching.Instructions as fetched;
ghost use Rattle.state_values.specs.Moving.{Runs, GoesBehind};

use arena_heap::{StrNo, Value};
use frame_moves::{load_int, load_object, load_text};
use vm_frames::Frames;
use vm_states::keeps_law;

/// A small integer, where its instruction was fetched for the running call.
pub fn load_small(frames: &mut Frames, n: i32, end: u32)
    requires runs { Runs frames.old (record { instruction = fetched.int n; end = end }) }
    ensures goes { GoesBehind (record { instruction = fetched.int n; end = end }) frames.old frames.new }
    ensures moved { frames.new ≡ on_running (λ c. gone end (slots.Value (values.Int n) ∷ c.slots) c) frames.old }
{
    keeps_law();
    load_int(frames, n, end);
}

/// A text, where its instruction was fetched for the running call.
pub fn load_str(frames: &mut Frames, text: StrNo, end: u32)
    requires runs { Runs frames.old (record { instruction = fetched.text text; end = end }) }
    ensures goes { GoesBehind (record { instruction = fetched.text text; end = end }) frames.old frames.new }
    ensures moved { frames.new ≡ on_running (λ c. gone end (slots.Value (values.Str text) ∷ c.slots) c) frames.old }
{
    keeps_law();
    load_text(frames, text, end);
}

/// A constant of the module, where its instruction was fetched for the running call.
pub fn load_constant(frames: &mut Frames, v: Value, end: u32)
    requires runs { Runs frames.old (record { instruction = fetched.object v; end = end }) }
    ensures goes { GoesBehind (record { instruction = fetched.object v; end = end }) frames.old frames.new }
    ensures moved { frames.new ≡ on_running (λ c. gone end (slots.Value v ∷ c.slots) c) frames.old }
{
    keeps_law();
    load_object(frames, v, end);
}
