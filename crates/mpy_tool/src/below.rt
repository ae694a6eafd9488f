//! The libraries that commands lie over.

ghost use Rattle.std.specs.Prelude.{◌≡◌, IfOk, IfSome};
ghost use Rattle.image_open.specs.image_grammar.Base.{IsOpened};
ghost use Rattle.mpy_tool.specs.Below as spec;
ghost use Rattle.mpy_tool.specs.Below.{library_below};

use bc_library::Library;
use image_open::over_law;
use mpy_base::NoMemory;
use std::alloc::Global;

/// The library of a base, or one of no entries where there is none.
pub(crate) fn or_nothing(alloc: Global, below: Option<Library>) -> Result<Library, NoMemory>
    requires { IfSome below IsOpened }
    ensures below { IfOk result (λ library. library ≡ library_below below) }
    ensures opened { IfOk result IsOpened }
{
    over_law();
    match below {
        Some(below) => Ok(below),
        None => Library::new(alloc),
    }
}

/// The version of the image that `freeze` writes, by the place of the base's name.
pub(crate) fn image_version(base: Option<usize>) -> u8
    ensures { result ≡ spec.image_version base }
{
    match base {
        None => 1,
        Some(_) => 2,
    }
}

/// Lets the library of a base go.
pub(crate) fn release(_below: Option<Library>) {}
