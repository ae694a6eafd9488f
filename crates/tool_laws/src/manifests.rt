//! Why modules of a manifest's sources have no image.

ghost use Rattle.std.specs.Prelude.{◌≡◌, ◌⊎◌, ℕ, List, Contains, Some};
ghost use Rattle.mpy_io.specs.Files.{FileOf};
ghost use Rattle.bc_library.specs.Shelf.{Shelf, no_entries};
ghost use Rattle.image_grammar.specs.declared.fault.ImageFault.{ImageFault};
ghost use Rattle.image_grammar.specs.declared.fault.ImageFault.TheVariants.{TooBig, Twice};
ghost use Rattle.image_grammar.specs.Base.{base_of};
ghost use Rattle.frozen_files.specs.Frozen.{RefusesImage};

/// Where a folder tells its files, modules of a manifest's sources that have no image over nothing have too big a one, since a manifest
/// names each module once. Over a base, or one has the name of a module below.
pub fn manifest_law()
    ensures over_nothing { (version : ℕ) (files : FileOf) (manifest : List ℕ) (fault : ImageFault)
        → RefusesImage version no_entries (Some files) manifest fault → fault ≡ TooBig }
    ensures over_base { (version : ℕ) (below : Shelf) (files : FileOf) (manifest : List ℕ) (fault : ImageFault)
        → RefusesImage version below (Some files) manifest fault
        → (fault ≡ TooBig) ⊎ ((name : List ℕ) × (fault ≡ Twice name) × Contains (base_of below).names name) }
{}
