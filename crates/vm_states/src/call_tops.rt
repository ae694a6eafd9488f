//! What lies on top of a call's slots, where the machine finds it on the frame that the call stands for.

ghost use Rattle.std.specs.Prelude.{◌≡◌, ℕ, List, length};
ghost use Rattle.frame_exits.specs.vm_frames.declared.slot.Slot.{Slot};
ghost use Rattle.frame_exits.specs.vm_frames.declared.slot.Entry.{Entry};
ghost use Rattle.frame_exits.specs.vm_frames.Calls.{Call};
ghost use Rattle.frame_exits.specs.vm_frames.Views.{View, slots_of, entries_of, frame_of};
ghost use Rattle.vm_states.specs.OnTop as machine;
ghost use Rattle.vm_states.specs.Tops as tops;

/// What the machine finds on top of the frame's slots lies on top of the call's, case by case; and there are as many.
pub fn tops_law()
    ensures one { (view : View) (starts : List ℕ) (st : List Slot) → machine.OneValue (slots_of view starts st) → tops.OneValue st }
    ensures two { (view : View) (starts : List ℕ) (st : List Slot) → machine.TwoValues (slots_of view starts st) → tops.TwoValues st }
    ensures three { (view : View) (starts : List ℕ) (st : List Slot) → machine.ThreeValues (slots_of view starts st) → tops.ThreeValues st }
    ensures items { (view : View) (starts : List ℕ) (count : ℕ) (st : List Slot)
        → machine.Values count machine.Anything (slots_of view starts st) → tops.Values count tops.Anything st }
    ensures arguments { (view : View) (starts : List ℕ) (count : ℕ) (st : List Slot)
        → machine.Values count machine.OneValue (slots_of view starts st) → tops.Values count tops.OneValue st }
    ensures method_arguments { (view : View) (starts : List ℕ) (count : ℕ) (st : List Slot)
        → machine.Values count machine.IsLooked (slots_of view starts st) → tops.Values count (tops.IsLooked view) st }
    ensures dropped { (view : View) (starts : List ℕ) (st : List Slot) → machine.OneDropped (slots_of view starts st) → tops.OneDropped st }
    ensures two_operands { (view : View) (starts : List ℕ) (st : List Slot) → machine.TwoOperands (slots_of view starts st) → tops.TwoOperands st }
    ensures three_operands { (view : View) (starts : List ℕ) (st : List Slot) → machine.ThreeOperands (slots_of view starts st) → tops.ThreeOperands st }
    ensures stored { (view : View) (starts : List ℕ) (st : List Slot) → machine.Stored (slots_of view starts st) → tops.Stored st }
    ensures defaults { (view : View) (starts : List ℕ) (st : List Slot) → machine.Defaults (slots_of view starts st) → tops.Defaults st }
    ensures looked { (view : View) (starts : List ℕ) (st : List Slot) → machine.IsLooked (slots_of view starts st) → tops.IsLooked view st }
    ensures iterator { (view : View) (starts : List ℕ) (st : List Slot) → machine.Iterator (slots_of view starts st) → tops.Iterator st }
    ensures except { (starts : List ℕ) (position : ℕ) (es : List Entry) → machine.Except (entries_of starts position es) → tops.Except es }
    ensures ending { (view : View) (starts : List ℕ) (position : ℕ) (st : List Slot) (es : List Entry)
        → machine.Ending (slots_of view starts st) (entries_of starts position es) → tops.Ending view starts position st es }
    ensures slots { (view : View) (c : Call) → length (frame_of view c).slots ≡ length c.slots }
    ensures entries { (view : View) (c : Call) → length (frame_of view c).entries ≡ length c.entries }
    ensures locals { (view : View) (c : Call) → length (frame_of view c).locals ≡ length c.locals }
{}
