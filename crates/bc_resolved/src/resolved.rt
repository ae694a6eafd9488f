//! Files' modules have trees, and the machine runs their trees alone.

ghost use Rattle.std.specs.Prelude.{◌≡◌, ℕ, List};
ghost use Rattle.bc_progress.specs.mpy_base.World.{PortState};
ghost use Rattle.bc_verify.specs.mpy_tree.File.{IsModule};
ghost use Rattle.bc_verify.specs.mpy_tree.Raw as raw;
ghost use Rattle.bc_verify.specs.mpy_tree.Resolved.{ResolvedModule, Resolves};
ghost use Rattle.bc_progress.specs.bc_machine.Library.{Name, Module, Library};
ghost use Rattle.bc_progress.specs.bc_machine.Machine.{run};
ghost use Rattle.bc_progress.specs.Plans.{IsVerifiedLibrary};
ghost use Rattle.bc_resolved.specs.Stored.{Stored, IsMachineModule, IsLibraryOf, ResolveAlike, AllAlike, AllModules, IsVerifiedFile};

use crate::verified::{file_law, module_law};
use bc_progress::library_law;
use bc_verify::resolving_law;

/// Each module that a file holds resolves to a tree, and to one alone.
pub fn resolves_law()
    ensures tree { (m : raw.Module) → IsModule m → (tree : ResolvedModule) × Resolves m tree }
    ensures one { (m : raw.Module) (a b : ResolvedModule) → Resolves m a → Resolves m b → a ≡ b }
{
    file_law();
    resolving_law();
}

/// Modules that resolve alike are one module to the machine, and libraries of such run alike.
pub fn alike_law()
    ensures modules { (a b : raw.Module) (x y : Module) → ResolveAlike a b → IsMachineModule a x → IsMachineModule b y → x ≡ y }
    ensures libraries { (first second : List (Name × Stored)) (x y : Library) → AllAlike first second → IsLibraryOf first x → IsLibraryOf second y → x ≡ y }
    ensures runs { (first second : List (Name × Stored)) (x y : Library) → AllAlike first second → IsLibraryOf first x → IsLibraryOf second y
        → (name : Name) (cells bytes : ℕ) (ports : List PortState) (n : ℕ) → run x name cells bytes ports n ≡ run y name cells bytes ports n }
{
    resolving_law();
}

/// A library of files is a library of the machine, and a verified one where each of its modules is verified.
pub fn stored_law()
    ensures library { (stored : List (Name × Stored)) → AllModules IsModule stored → (library : Library) × IsLibraryOf stored library }
    ensures verified { (stored : List (Name × Stored)) (library : Library) → AllModules IsVerifiedFile stored → IsLibraryOf stored library
        → IsVerifiedLibrary library }
{
    resolves_law();
    module_law();
    library_law();
}
