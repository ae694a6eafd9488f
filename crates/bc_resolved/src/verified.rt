//! The verifier's rules of a tree, of its bytes and of the machine's module.

ghost use Rattle.std.specs.Prelude.{◌≡◌, ℕ};
ghost use Rattle.bc_verify.specs.mpy_tree.File.{IsModule};
ghost use Rattle.bc_verify.specs.mpy_tree.Raw.{Module};
ghost use Rattle.bc_verify.specs.mpy_tree.Resolved.{ResolvedModule, Resolves};
ghost use Rattle.bc_verify.specs.Verified.{IsVerified};
ghost use Rattle.bc_progress.specs.bc_machine.Library.{module_of};
ghost use Rattle.bc_progress.specs.Plans.{Plan, IsVerifiedModule};
ghost use Rattle.bc_resolved.specs.Verified.{IsVerifiedTree};
ghost use Rattle.bc_resolved.specs.Known.{IsKnownTree, HasTexts};
ghost use Rattle.bc_resolved.specs.Rooms.{TakesAtMost, PlanAtMost};

/// A module whose tree is verified is.
pub fn raw_law()
    ensures { (m : Module) (tree : ResolvedModule) → Resolves m tree → IsVerifiedTree tree → IsVerified m }
{}

/// The tree of a verified module is verified.
pub fn tree_law()
    ensures { (m : Module) (tree : ResolvedModule) → HasTexts m → Resolves m tree → IsVerified m → IsVerifiedTree tree }
{}

/// What a file holds has a text for each number of one, and the instructions of its verified tree are known.
pub fn file_law()
    ensures texts { (m : Module) → IsModule m → HasTexts m }
    ensures known { (m : Module) (tree : ResolvedModule) → Resolves m tree → IsVerifiedTree tree → IsKnownTree tree }
{}

/// A verified tree whose instructions are known is a verified module of the machine, and so is what a file holds, where the
/// verifier accepts it; its plans have no more room than its codes take.
pub fn module_law()
    ensures trees { (tree : ResolvedModule) → IsVerifiedTree tree → IsKnownTree tree
        → (plans : ℕ → Plan) × IsVerifiedModule plans (module_of tree) }
    ensures files { (m : Module) (tree : ResolvedModule) → IsModule m → Resolves m tree → IsVerified m
        → (plans : ℕ → Plan) × IsVerifiedModule plans (module_of tree) }
    ensures rooms { (m : Module) (tree : ResolvedModule) → IsModule m → Resolves m tree → IsVerified m
        → (plans : ℕ → Plan) × IsVerifiedModule plans (module_of tree)
        × ((n_state n_exc : ℕ) → TakesAtMost n_state n_exc m → PlanAtMost n_state n_exc plans) }
{}
