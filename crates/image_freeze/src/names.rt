//! Names that stand twice.

ghost use Rattle.std.specs.Prelude.{◌≡◌, ◌↔◌, ◌⊎◌, [], ◌++◌, map, Contains, IsTrue, IfNone, IfSome};
ghost use Rattle.std.specs.List.{list_any};
ghost use Rattle.std.specs.Str.{bytes_eq};
ghost use Rattle.mpy_base.specs.declared.refused.Refused.TheVariants as refused;
ghost use Rattle.image_open.specs.image_grammar.declared.fault.ImageFault.TheVariants as faults;
ghost use Rattle.image_open.specs.bc_library.Shelf.{names};
ghost use Rattle.image_open.specs.image_grammar.Image.{Differ};
ghost use Rattle.image_freeze.specs.Frozen.{IsTwice};

use crate::named::Named;
use bc_library::Library;
use image_grammar::{ImageFault, has_name};
use mpy_base::{Refused, Text};
use std::alloc::Global;

/// Whether a module has the name.
fn is_named(modules: &[Named], name: &[u8]) -> bool
    ensures { result ≡ list_any (λ m. bytes_eq name.now m.name) modules.now }
{
    modules.iter().any(|module| name == module.name.bytes())
}

/// Whether a module below or one of these has the name.
fn is_taken(below: &Library, modules: &[Named], name: &[u8]) -> bool
    requires { below.now.refused ≡ [] }
    ensures { IsTrue result ↔ Contains (names below.now ++ map (λ m. m.name) modules.now) name.now }
{
    if has_name(below, name) {
        return true;
    }
    is_named(modules, name)
}

/// The first name that is that of a module below or of an earlier one too.
pub(crate) fn first_twice<'a>(below: &Library, modules: &'a [Named]) -> Option<&'a [u8]>
    requires { below.now.refused ≡ [] }
    ensures twice { IfSome result (λ name. IsTwice (names below.now) (map (λ m. m.name) modules.now) name.now) }
    ensures differ { IfNone result (Differ (names below.now) (map (λ m. m.name) modules.now)) }
{
    for (place, module) in modules.iter().enumerate() {
        if is_taken(below, &modules[..place], module.name.bytes()) {
            return Some(module.name.bytes());
        }
    }
    None
}

/// The fault of a second module of the name.
pub(crate) fn twice(alloc: Global, name: &[u8]) -> Refused<ImageFault>
    ensures { (result ≡ refused.Fault (faults.Twice name.now)) ⊎ (result ≡ refused.NoMemory) }
{
    match Text::new(alloc, name) {
        Ok(name) => Refused::Fault(ImageFault::Twice(name)),
        Err(_) => Refused::NoMemory,
    }
}
