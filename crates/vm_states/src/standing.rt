//! What an instruction of a verified library finds on the frame that stands at it.

ghost use Rattle.std.specs.Prelude.{◌≡◌, ℕ, suc, ◌<◌, length, Some, slice_get};
ghost use Rattle.vm_fetching.specs.mpy_tree.Resolved.{ResolvedModule};
ghost use Rattle.bc_progress.specs.bc_machine.Library.{Code, Line, Library, module_of};
ghost use Rattle.bc_progress.specs.bc_machine.State.{Frame};
ghost use Rattle.bc_progress.specs.Plans.{Plans, Follows};
ghost use Rattle.bc_progress.specs.Fits.{Stands};
ghost use Rattle.vm_states.specs.Finds.{Finds, GoesOn};
ghost use Rattle.vm_states.specs.Locals.{IsWithinLocals};

/// A frame of a verified library stands at an instruction, which finds what it takes and room for what it gives; and one that
/// goes on isn't the last of its code.
pub fn standing_law()
    ensures there { (plans : Plans) (library : Library) (frame : Frame) → Follows plans library → (s : Stands plans library frame)
        → (line : Line) × (slice_get s.code.lines frame.position ≡ Some line) }
    ensures finds { (plans : Plans) (library : Library) (frame : Frame) (line : Line) → Follows plans library → (s : Stands plans library frame)
        → slice_get s.code.lines frame.position ≡ Some line → Finds (plans frame.module_name frame.code) library s.code frame line.item }
    ensures goes_on { (plans : Plans) (library : Library) (frame : Frame) (line : Line) → Follows plans library → (s : Stands plans library frame)
        → slice_get s.code.lines frame.position ≡ Some line → GoesOn line.item → suc frame.position < length s.code.lines }
{}

/// The locals that the instructions of a tree's codes name are locals of the codes.
pub fn locals_law()
    ensures { (tree : ResolvedModule) (number position : ℕ) (code : Code) (line : Line) → slice_get (module_of tree).codes number ≡ Some code
        → slice_get code.lines position ≡ Some line → IsWithinLocals code.locals line.item }
{}
