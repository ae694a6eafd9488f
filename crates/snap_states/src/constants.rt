//! The strs among the constants of a library.

ghost use Rattle.std.specs.Prelude.{◌≡◌, ◌↔◌, ℕ, List, length, IfOk, IsTrue, OnOk};
ghost use Rattle.snap_states.specs.Knowing.{Adds, IsModuleStr, holds, str_in, strs_at, strs_to};

use crate::texts::TextSet;
use bc_library::{Library, library_law};
use mpy_base::NoMemory;
use mpy_base::limits::{MAX_DEPTH, MAX_MODULES};
use mpy_tree::Constant;
use std::alloc::Global;

/// Adds the strs of a constant and of its items, to `levels` levels of tuples.
#[cycle(strs)]
fn add_str(
    alloc: Global,
    set: &mut TextSet,
    object: &Constant,
    levels: usize,
) -> Result<(), NoMemory>
    ensures { OnOk result (Adds set.old set.new (str_in levels object.now)) }
{
    match object {
        Constant::Str(text) => {
            set.insert(alloc, text.bytes())?;
            Ok(())
        }
        Constant::Tuple(items) => {
            if levels == 0 {
                return Ok(());
            }
            add_strs(alloc, set, items.as_slice(), levels - 1)
        }
        _ => Ok(()),
    }
}

/// Adds the strs of constants, one after another.
#[cycle(strs)]
fn add_strs(
    alloc: Global,
    set: &mut TextSet,
    objects: &[Constant],
    levels: usize,
) -> Result<(), NoMemory>
    ensures { OnOk result (Adds set.old set.new (strs_to levels objects.now)) }
{
    for object in objects {
        add_str(alloc, set, object, levels)?;
    }
    Ok(())
}

/// How many modules the library has.
fn count_modules(library: &Library) -> u32
    ensures { result ≡ length library.now.modules }
{
    library_law(library);
    for number in 0..MAX_MODULES as u32 {
        match library.module(number) {
            Some(_) => {}
            None => return number,
        }
    }
    MAX_MODULES as u32
}

/// Adds the strs among the constants of the module of a number.
fn add_module(
    alloc: Global,
    set: &mut TextSet,
    library: &Library,
    number: u32,
) -> Result<(), NoMemory>
    ensures { OnOk result (Adds set.old set.new (strs_at library.now number)) }
{
    match library.module(number) {
        Some(verified) => add_strs(alloc, set, verified.module().objects(), MAX_DEPTH),
        None => Ok(()),
    }
}

/// The strs among the constants of the library's modules.
pub(crate) fn strs_of(alloc: Global, library: &Library) -> Result<TextSet, NoMemory>
    ensures { IfOk result (λ set. (text : List ℕ) → IsTrue (holds set text) ↔ IsModuleStr library.now text) }
{
    let mut set = TextSet::new(alloc);
    for number in 0..count_modules(library) {
        add_module(alloc, &mut set, library, number)?;
    }
    Ok(set)
}
