//! What a call of frames does is what the machine's rule says of the frame that it stands for.

ghost use Rattle.std.specs.Prelude.{◌≡◌, ◌<◌, ◌≤◌, ℕ, ◌-◌, ◌∷◌, ◌++◌, List, [], drop, map, length, replicate, Bool, Option, None};
ghost use Rattle.mpy_base.specs.Val.{PlainWorld};
ghost use Rattle.arena_heap.specs.declared.value.Value.{Value};
ghost use Rattle.arena_heap.specs.declared.value.ExcNo.{ExcNo};
ghost use Rattle.arena_heap.specs.declared.value.DictNo.{DictNo};
ghost use Rattle.vm_frames.specs.declared.slot.Slot.{Slot};
ghost use Rattle.vm_frames.specs.declared.slot.Entry.{Entry};
ghost use Rattle.vm_frames.specs.declared.slot.Role.{Role};
ghost use Rattle.vm_frames.specs.Calls.{Call};
ghost use Rattle.vm_frames.specs.Moves.{raised, returned, jumped, kept_in};
ghost use Rattle.bc_labels.specs.Positions.{CodeList, Listed, Starts, position_in};
ghost use Rattle.bc_machine.specs.Library.{Code};
ghost use Rattle.bc_machine.specs.State as states;
ghost use Rattle.bc_machine.specs.State.{State, Running, go, give, throw_in, leave, unwind};
ghost use Rattle.bc_machine.specs.Parts.{new_frame};
ghost use Rattle.bc_machine.specs.Operations.{kept_of};
ghost use Rattle.vm_frames.specs.Views.{View, role_of, slots_of, locals_of, entries_of, starts_of, position_of, frame_of, behind};
ghost use Rattle.vm_frames.specs.Placed.{IsPlaced};

/// In the order of the clauses: going on at an offset; a raise in a frame, which without a handler is one of the frames that
/// wait; a return, which without a finally gives its value to them; a jump out of entries; the frame of a call that begins,
/// with its arguments in its first locals; and the exceptions that entries keep.
pub fn moves_law()
    ensures goes { (view : View) (c : Call) (at : ℕ) (st : List Slot) (es : List Entry) (frames : List states.Frame) (w : PlainWorld)
        → go (position_in (starts_of view c) at) (slots_of view (starts_of view c) st)
        (entries_of (starts_of view c) (position_of view c) es) (frame_of view c) frames w
        ≡ Running 0 (frame_of view (record c { at = at; slots = st; entries = es })) frames w }
    ensures raises { (view : View) (x : ExcNo) (c : Call) (frames : List states.Frame) (w : PlainWorld) (outside : State) → IsPlaced view c
        → throw_in x.cell (frame_of view c).entries (frame_of view c) frames w outside ≡ behind view (raised x c) frames w outside }
    ensures returns { (view : View) (v : Value) (c : Call) (frames : List states.Frame) (w : PlainWorld) → IsPlaced view c
        → leave (view.plain v) (frame_of view c).entries (frame_of view c) frames w
        ≡ behind view (returned v c) frames w (give (view.plain v) (frame_of view c).role frames w) }
    ensures jumps { (view : View) (target count : ℕ) (it : Bool) (c : Call) (frames : List states.Frame) (w : PlainWorld) → IsPlaced view c
        → count ≤ length c.entries
        → unwind (position_in (starts_of view c) target) it count (frame_of view c).entries (frame_of view c).slots (frame_of view c) frames w
        ≡ Running 0 (frame_of view (jumped target count it c.entries c.slots c).call) frames w }
    ensures begins { (view : View) (module_number number : ℕ) (code : Code) (vs : List (Option Value)) (names : DictNo) (role : Role)
        (bytes : List ℕ) (l : CodeList)
        → Listed bytes l → view.starts module_number number ≡ l.offsets
        → new_frame (view.module_name module_number) number code (locals_of view vs) names.cell (role_of view (view.module_name module_number) role)
        ≡ frame_of view (record {
          module_number = module_number;
          code = number;
          at = 0;
          names = names;
          role = role;
          locals = vs ++ replicate (code.locals - length vs) None;
          slots = [];
          entries = [];
        }) }
    ensures keeps { (starts : List ℕ) (position : ℕ) (es : List Entry) → kept_of (entries_of starts position es) ≡ map (λ (x : ExcNo). x.cell) (kept_in es) }
{}

/// A call that stands at an instruction, with handlers at some, stays so: where it goes on at one, sets up or drops an entry,
/// raises, returns or jumps; and one that begins a code that has bytes is so.
pub fn placed_law()
    ensures goes { (view : View) (c : Call) (at : ℕ) (st : List Slot) → IsPlaced view c → Starts (starts_of view c) at
        → IsPlaced view (record c { at = at; slots = st }) }
    ensures sets_up { (view : View) (c : Call) (e : Entry) → IsPlaced view c → Starts (starts_of view c) e.handler
        → IsPlaced view (record c { entries = e ∷ c.entries }) }
    ensures drops { (view : View) (c : Call) → IsPlaced view c → IsPlaced view (record c { entries = drop 1 c.entries }) }
    ensures raises { (view : View) (x : ExcNo) (c : Call) → IsPlaced view c → IsPlaced view (raised x c).call }
    ensures returns { (view : View) (v : Value) (c : Call) → IsPlaced view c → IsPlaced view (returned v c).call }
    ensures jumps { (view : View) (target count : ℕ) (it : Bool) (c : Call) → IsPlaced view c → Starts (starts_of view c) target
        → IsPlaced view (jumped target count it c.entries c.slots c).call }
    ensures begins { (view : View) (c : Call) (bytes : List ℕ) (l : CodeList) → Listed bytes l → 0 < length bytes
        → starts_of view c ≡ l.offsets → c.at ≡ 0 → c.entries ≡ [] → IsPlaced view c }
{}
