//! How calls that run a program over an arena stay so.

ghost use Rattle.std.specs.Prelude.{◌≡◌, ℕ, List, Option, All};
ghost use Rattle.frame_exits.specs.mpy_base.World.{Objects, Later};
ghost use Rattle.frame_exits.specs.arena_heap.declared.value.Value.{Value};
ghost use Rattle.frame_exits.specs.arena_objects.Keys.{AllTold};
ghost use Rattle.frame_exits.specs.vm_frames.declared.slot.Slot.{Slot};
ghost use Rattle.frame_exits.specs.vm_frames.Calls.{Call, Calls, on_running};
ghost use Rattle.frame_values.specs.Slots.{with_value, without};
ghost use Rattle.vm_states.specs.Means.{Program};
ghost use Rattle.vm_states.specs.Running.{IsRunning};
ghost use Rattle.vm_states.specs.State.{IsKnownValue, IsKnownSlot, IsKnownLocal, IsKnownCall, IsState};

/// Where the objects of an arena stay of their kinds, and what they hold is told: calls are a state again that stay, and calls
/// that run the program of which the first one goes on with known slots and locals, as with a known value in the place of
/// slots, or without slots.
pub fn known_law()
    ensures stays { (p : Program) (before behind : Objects Value ℕ) (s : Calls) → IsState p before s → Later before behind
        → AllTold p.tables.texts p.tables.tuples behind → IsState p behind s }
    ensures goes_on { (p : Program) (before behind : Objects Value ℕ) (s new : Calls) (at : ℕ) (st : Call → List Slot) (locals : Call → List (Option Value))
        → IsState p before s → Later before behind → AllTold p.tables.texts p.tables.tuples behind → IsRunning p new
        → new ≡ on_running (λ c. record c { at = at; slots = st c; locals = locals c }) s
        → ((c : Call) → IsKnownCall p behind c → All (IsKnownSlot p behind) (st c))
        → ((c : Call) → IsKnownCall p behind c → All (IsKnownLocal p behind) (locals c))
        → IsState p behind new }
    ensures puts { (p : Program) (before behind : Objects Value ℕ) (s new : Calls) (end taken : ℕ) (v : Value)
        → IsState p before s → Later before behind → AllTold p.tables.texts p.tables.tuples behind → IsRunning p new → IsKnownValue p behind v
        → new ≡ on_running (with_value end taken v) s → IsState p behind new }
    ensures takes { (p : Program) (before behind : Objects Value ℕ) (s new : Calls) (end taken : ℕ)
        → IsState p before s → Later before behind → AllTold p.tables.texts p.tables.tuples behind → IsRunning p new
        → new ≡ on_running (without end taken) s → IsState p behind new }
{}
