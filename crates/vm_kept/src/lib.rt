//! What the calls of a program keep while it runs over an arena: exceptions that handlers find, and methods of the objects that
//! look-ups leave.
#![tactic(auto)]

ghost use Rattle.std.specs.Prelude.{◌≡◌, ℕ, ◌+◌, [], ◌∷◌, Some};
ghost use Rattle.state_calls.specs.mpy_base.World.{Objects, Heap, Later};
ghost use Rattle.state_calls.specs.mpy_base.Val.{PlainWorld};
ghost use Rattle.state_calls.specs.arena_heap.declared.value.Value.{Value};
ghost use Rattle.bc_progress.specs.py_effects.Effect.{Place};
ghost use Rattle.state_calls.specs.prim_faults.declared.stop.Stop.{Stop};
ghost use Rattle.state_calls.specs.bc_machine.Library.{Name, Module, Holds, entry_in};
ghost use Rattle.state_calls.specs.bc_machine.Machine.{start};
ghost use Rattle.state_calls.specs.bc_rows.declared.row.Row.{Row};
ghost use Rattle.state_calls.specs.prim_modules.Registry.{Registry};
ghost use Rattle.state_calls.specs.vm_frames.Calls.{Call, Calls, OfRunning, on_running};
ghost use Rattle.state_calls.specs.frame_moves.Shown.{running_of};
ghost use Rattle.state_calls.specs.frame_moves.Outcomes.{world_of, stopping_of};
ghost use Rattle.state_calls.specs.frame_exits.Ends.{with_modules};
ghost use Rattle.state_calls.specs.vm_fetching.declared.operations.CallOp.{CallOp};
ghost use Rattle.state_calls.specs.vm_fetching.Instructions as fetched;
ghost use Rattle.state_calls.specs.frame_calls.Operands.{operands_count};
ghost use Rattle.state_calls.specs.frame_calls.Putting.{with_value};
ghost use Rattle.state_calls.specs.vm_states.Means.{Program, Means};
ghost use Rattle.state_calls.specs.vm_states.Running.{IsRunning};
ghost use Rattle.state_calls.specs.vm_states.Ready.{IsReady};
ghost use Rattle.state_calls.specs.vm_states.State.{IsState};
ghost use Rattle.state_exits.specs.Keeping.{KeepsCause};
ghost use Rattle.state_exits.specs.Running.{fetched_finish, stepped_with};
ghost use Rattle.state_calls.specs.Taken.{HasMethods, callee_slots};
ghost use Rattle.vm_kept.specs.Kept.{HoldsKept};

use bc_progress::known_law;
pub use state_calls::{take_call, visits_call_on};
pub use state_exits::registered_law;

/// Calls that have begun keep nothing yet: where the machine's start of a module comes to them, and where there is one call,
/// without slots and entries.
pub fn begins_law()
    ensures start { (p : Program) (name : Name) (m : Module) (before w : PlainWorld) (heap : Heap Value ℕ) (s : Calls) → Means p
        → entry_in p.library name ≡ Some (Holds m)
        → start p.library name before ≡ running_of p.tables 0 s.calls (world_of p.tables w heap) → HoldsKept p heap.objects s }
    ensures one { (p : Program) (objects : Objects Value ℕ) (s : Calls) (c : Call) → IsRunning p s → s.calls ≡ c ∷ [] → c.slots ≡ []
        → c.entries ≡ [] → HoldsKept p objects s }
{
    known_law();
}

/// Behind a step of the machine that leaves them running, the calls keep exceptions and methods of the objects that there are
/// then, where objects stay of their kinds.
pub fn step_law()
    ensures { (p : Program) (before behind : Heap Value ℕ) (earlier later : Registry) (paid again : ℕ) (w v : PlainWorld) (old new : Calls) → Means p
        → HoldsKept p before.objects old → Later before.objects behind.objects
        → stepped_with p paid old w before earlier ≡ running_of p.tables again new.calls (world_of p.tables (with_modules p.tables v later) behind)
        → HoldsKept p behind.objects new }
{
    known_law();
}

/// Behind a stop that is thrown through them and leaves them running, the calls keep exceptions and methods of the objects that
/// there are then.
pub fn raises_law()
    ensures { (p : Program) (place : Place) (between behind : Heap Value ℕ) (earlier later : Registry) (again : ℕ) (w v : PlainWorld)
        (old new : Calls) (stop : Stop) → Means p
        → HoldsKept p between.objects old → Later between.objects behind.objects
        → stopping_of p.tables place (with_modules p.tables w earlier) between old.calls stop
        ≡ running_of p.tables again new.calls (world_of p.tables (with_modules p.tables v later) behind)
        → HoldsKept p behind.objects new }
{}

/// With any value in the place of what a call takes, and at the next instruction, the calls keep what they kept.
pub fn gives_law()
    ensures { (p : Program) (s new : Calls) (row : Row) (op : CallOp) (number end size : ℕ) (v : Value) (before behind : Objects Value ℕ) → Means p
        → IsReady p s row (record { instruction = fetched.call op number; end = end })
        → size ≡ operands_count number + callee_slots op → HoldsKept p before s → Later before behind
        → new ≡ on_running (with_value end size v) s → HoldsKept p behind new }
{}

/// At the end of a finally a cause lies on top of the running call: None, an exception, a return, or a jump to an instruction.
pub fn cause_law()
    ensures { (p : Program) (objects : Objects Value ℕ) (s : Calls) (row : Row) (end : ℕ) → Means p → IsState p objects s
        → IsReady p s row (fetched_finish end) → HoldsKept p objects s → KeepsCause p s }
{}

/// An object that a look-up left on the running call lies on a method of its type.
pub fn methods_law()
    ensures { (p : Program) (objects : Objects Value ℕ) (s : Calls) → IsState p objects s → HoldsKept p objects s
        → OfRunning (λ c. HasMethods c.slots) s.calls }
{}
