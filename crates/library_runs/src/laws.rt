//! What the ports' counts of faults tell of a run.

ghost use Rattle.std.specs.Prelude.{ℕ, List};
ghost use Rattle.mpy_base.specs.declared.room.Room.{Room};
ghost use Rattle.mpy_base.specs.World.{PortState};
ghost use Rattle.port_set.specs.Counts.{AreAccounted};
ghost use Rattle.bc_library.specs.Shelf.{Shelf};
ghost use Rattle.vm_machine.specs.vm_frames.bc_machine.Library.{Name};
ghost use Rattle.vm_machine.specs.vm_starting.vm_states.Means.{Program};
ghost use Rattle.library_runs.specs.declared.ending.RunEnd.{RunEnd};
ghost use Rattle.library_runs.specs.Runs.{GoesOn, GoesSo, RunsAs, RunsSo, Sight, StandsAt, StandsSo, Strayed};
ghost use Rattle.vm_machine.specs.vm_starting.declared.opening.Vm.{Vm};

/// Where each port's count of faults is accounted for behind a run, no port strayed in it: it is the machine's run, also of a machine that
/// goes on, and where it took all its steps it stands at the machine's state behind them.
pub fn accounted_law()
    ensures none { (p : Program) (name : Name) (room : Room) (steps : ℕ) (ports : List PortState) (printed : List ℕ) (old new : Sight)
        → AreAccounted old.ports new.ports → Strayed p name room steps ports printed old new → ⊥ }
    ensures runs { (shelf : Shelf) (name : Name) (room : Room) (steps : ℕ) (old new : Sight) (end : RunEnd) (said : List ℕ)
        → AreAccounted old.ports new.ports → RunsAs shelf name room steps old new end said → RunsSo shelf name room steps old new end said }
    ensures on { (shelf : Shelf) (vm : Vm) (steps : ℕ) (old new : Sight) (end : RunEnd) (said : List ℕ)
        → AreAccounted old.ports new.ports → GoesOn shelf vm steps old new end said → GoesSo shelf vm steps old new end said }
    ensures stands { (shelf : Shelf) (name : Name) (room : Room) (steps : ℕ) (old new : Sight) (vm : Vm)
        → AreAccounted old.ports new.ports → StandsAt shelf name room steps old new vm → StandsSo shelf name room steps old vm }
{}
