//! A run of a verified library is never stuck.
#![tactic(auto)]

ghost use Rattle.std.specs.Prelude.{◌≡◌, ℕ, List, Some};
ghost use Rattle.bc_machine.specs.mpy_base.World.{Objects, Later};
ghost use Rattle.bc_machine.specs.mpy_base.Val.{Val, PlainWorld};
ghost use Rattle.bc_machine.specs.Library.{Name, Module, Holds, Library, entry_in};
ghost use Rattle.bc_machine.specs.State.{Frame, State, Stuck};
ghost use Rattle.bc_machine.specs.Step.{step};
ghost use Rattle.bc_machine.specs.Machine.{steps, start};
ghost use Rattle.bc_progress.specs.Plans.{Plans, Follows, AreVerified, IsVerifiedLibrary};
ghost use Rattle.bc_progress.specs.Fits.{Stands, Waits, IsWithin, FitsIn, Fits};
ghost use Rattle.bc_progress.specs.Known.{facts_of, objects_of, FitsKnown};

/// A step of a verified library from a state that fits comes to one that does.
pub fn progress_law()
    ensures step { (plans : Plans) (library : Library) (s : State) → Follows plans library
        → Fits plans library s → Fits plans library (step library s) }
    ensures steps { (plans : Plans) (library : Library) (n : ℕ) (s : State) → Follows plans library
        → Fits plans library s → Fits plans library (steps library n s) }
{}

/// A module that a verified library holds starts in a state that fits.
pub fn start_law()
    ensures { (plans : Plans) (library : Library) (name : Name) (m : Module) (w : PlainWorld) → Follows plans library
        → entry_in library name ≡ Some (Holds m) → Fits plans library (start library name w) }
{}

/// A state keeps exceptions and methods that its heap has: a step throws nothing but an exception, which is new, or kept, or
/// raised by the program, and a look-up finds a method of its object's type. So it is with the objects behind a step where it
/// was with them before, as it is where objects keep their kinds.
pub fn known_law()
    ensures step { (plans : Plans) (library : Library) (s : State) → Follows plans library
        → FitsIn (facts_of (objects_of (step library s))) plans library s → FitsKnown plans library (step library s) }
    ensures start { (plans : Plans) (library : Library) (name : Name) (m : Module) (w : PlainWorld) → Follows plans library
        → entry_in library name ≡ Some (Holds m) → FitsKnown plans library (start library name w) }
    ensures later { (plans : Plans) (library : Library) (s : State) (before behind : Objects Val (List ℕ)) → Later before behind
        → FitsIn (facts_of before) plans library s → FitsIn (facts_of behind) plans library s }
    ensures fits { (plans : Plans) (library : Library) (s : State) → FitsKnown plans library s → Fits plans library s }
{}

/// No run of a verified library is stuck.
pub fn never_stuck_law()
    ensures { (library : Library) (name : Name) (m : Module) (w behind : PlainWorld) (n : ℕ) → IsVerifiedLibrary library
        → entry_in library name ≡ Some (Holds m) → steps library n (start library name w) ≡ Stuck behind → ⊥ }
{}

/// The slots and the handler entries of each frame are within the rooms of its code.
pub fn room_law()
    ensures stands { (plans : Plans) (library : Library) (frame : Frame) → Follows plans library
        → (s : Stands plans library frame) → IsWithin (plans frame.module_name frame.code) s.code frame }
    ensures waits { (plans : Plans) (library : Library) (frame : Frame) → Follows plans library
        → (s : Waits plans library frame) → IsWithin (plans frame.module_name frame.code) s.code frame }
{}

/// A library whose modules are verified one by one is.
pub fn library_law()
    ensures { (library : Library) → AreVerified library → IsVerifiedLibrary library }
{}
