//! What is paid hangs on the heap and the frames alone.

ghost use Rattle.std.specs.Prelude.{◌≡◌, ℕ, List};
ghost use Rattle.bc_machine.specs.mpy_base.Val.{PlainWorld};
ghost use Rattle.bc_machine.specs.Library.{Library};
ghost use Rattle.bc_machine.specs.State.{Frame, Running};
ghost use Rattle.vm_starting.specs.vm_states.Means.{Program};
ghost use Rattle.vm_starting.specs.declared.opening.Vm.{Vm};
ghost use Rattle.vm_machine.specs.Machine.{machine_of};
ghost use Rattle.snap_laws.specs.Kept.{IsPaid};

/// What is paid in a world (`IsPaid`) is paid in each with the same heap, whatever was printed and whatever its ports
/// are: so a machine that has paid its steps in one world has in each.
pub fn paid_anywhere_law()
    ensures states { (library : Library) (paid : ℕ) (frame : Frame) (frames : List Frame) (w v : PlainWorld) → w.heap ≡ v.heap
        → IsPaid library (Running paid frame frames w) → IsPaid library (Running paid frame frames v) }
    ensures machines { (p : Program) (vm : Vm) (w v : PlainWorld) → IsPaid p.library (machine_of p vm w) → IsPaid p.library (machine_of p vm v) }
{}
