//! What holds of modules in images: they are verified as the modules are, and have one fault at most.

ghost use Rattle.std.specs.Prelude.{◌≡◌, ℕ, List};
ghost use Rattle.image_open.specs.bc_verify.Verified.{IsVerified};
ghost use Rattle.mpy_writer.specs.mpy_tree.Raw.{Module};
ghost use Rattle.mpy_writer.specs.mpy_tree.Resolved.{ResolvedModule, Resolves};
ghost use Rattle.image_open.specs.image_grammar.declared.entry.Entry.{Entry};
ghost use Rattle.image_open.specs.image_grammar.declared.fault.ImageFault.{ImageFault};
ghost use Rattle.image_open.specs.image_grammar.Opening.{Base};
ghost use Rattle.image_freeze.specs.Frozen.{FreezeFault, frozen};

/// A module in an image is verified where the module is, and resolves to the same. Modules have one fault at most.
pub fn freeze_law()
    ensures verified { (m : Module) → IsVerified m → IsVerified (frozen m) }
    ensures resolves { (m : Module) (tree : ResolvedModule) → Resolves m tree → Resolves (frozen m) tree }
    ensures one_fault { (front : List ℕ) (below : Base) (entries : List Entry) (f g : ImageFault)
        → FreezeFault front below entries f → FreezeFault front below entries g → f ≡ g }
{}
