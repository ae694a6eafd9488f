//! Images opened over a library, which has no entries where they lie over nothing.

ghost use Rattle.std.specs.Prelude.{◌≡◌, ◌⊎◌, IfOk, IsTrue, Ok, Err};
ghost use Rattle.qstr_pool.specs.Pool.{all_differ};
ghost use Rattle.image_grammar.specs.bc_library.Own.{IsOwnPool};
ghost use Rattle.image_grammar.specs.bc_library.Shelf.{Shelf};
ghost use Rattle.image_grammar.specs.declared.fault.ImageFault.{ImageFault};
ghost use Rattle.image_grammar.specs.Opening.{FirstFault, pool_below};
ghost use Rattle.image_grammar.specs.Base.{IsOpened, base_of};
ghost use Rattle.image_open.specs.Opens.{Ended, Opens};

use crate::copies::together;
use crate::image::read_image;
use image_grammar::{ImageFault, Library, library_law};
use mpy_base::Refused;
use std::alloc::Global;

/// A library of copies of the modules below and of an image's behind them.
fn read_library(
    alloc: Global,
    below: &Library,
    bytes: &[u8],
) -> Result<Library, Refused<ImageFault>>
    requires { IsOpened below.now }
    ensures ends { Ended below.now bytes.now result }
    ensures proper { (IsOwnPool (pool_below (base_of below.now)) × IsTrue (all_differ below.now.pool.texts))
        ⊎ (result ≡ Err Refused.NoMemory) }
{
    library_law(below);
    let entries = read_image(alloc, below, bytes)?;
    Ok(together(alloc, below, entries)?)
}

/// Opens an image of version 1 or 2 over the library below, to a library of the modules below and behind them the image's,
/// in their order. The texts of its pool have the same numbers there. The modules below are copied.
pub fn open_image(
    alloc: Global,
    below: &Library,
    bytes: &[u8],
) -> Result<Library, Refused<ImageFault>>
    requires { IsOpened below.now }

    // What is opened is an image over the library below of the further modules, which are verified, and what is such an
    // image is opened, unless memory runs out.
    ensures opens { IfOk result (Opens below.now bytes.now) }
    ensures only { (shelf : Shelf) → Opens below.now bytes.now shelf → (result ≡ Ok shelf) ⊎ (result ≡ Err Refused.NoMemory) }

    // A fault is the first one in the order of the bytes.
    ensures first { (fault : ImageFault) → result ≡ Err (Refused.Fault fault)
        → FirstFault (base_of below.now) bytes.now fault }
    ensures fault { (fault : ImageFault) → FirstFault (base_of below.now) bytes.now fault
        → (result ≡ Err (Refused.Fault fault)) ⊎ (result ≡ Err Refused.NoMemory) }

    // What is opened may lie below a further image.
    ensures opened { IfOk result IsOpened }
{
    library_law(below);
    read_library(alloc, below, bytes)
}
