//! The machine follows statements and calls: a translation runs as it means.

ghost use Rattle.std.specs.Prelude.{ℕ, List};
ghost use Rattle.bc_scheme.specs.mpy_base.World.{PortState};
ghost use Rattle.bc_scheme.specs.py_meaning.Program.{Program};
ghost use Rattle.bc_scheme.specs.bc_machine.Library.{Library};
ghost use Rattle.bc_scheme.specs.Link.{Links};
ghost use Rattle.bc_scheme.specs.Correct.{Behaves};

/// A library of a program's modules, the translations of its sources and their merges, runs as the program means, with any
/// room and ports: it ends where the meaning ends, in the same world, and nowhere else, and while it is open its output lies
/// between those of the meaning at two bounds.
pub fn behaves_law()
    ensures { (program : Program) (library : Library) (cells bytes : ℕ) (ports : List PortState) → Links program library
        → Behaves program library cells bytes ports }
{}
