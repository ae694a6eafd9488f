//! The constant strs of a library by their texts.

ghost use Rattle.std.specs.Prelude.{◌≡◌, ℕ, List, Some, None, IfOk, OnOk, length};
ghost use Rattle.std.specs.Prelude.{bytes_eq, position, slice_get, if◌then◌else◌};
ghost use Rattle.std.specs.Option.{option_map, option_or};
ghost use Rattle.bc_library.specs.Constants.{constants_of, numbered};
ghost use Rattle.bc_library.specs.Shelf.{Named, module_at};
ghost use Rattle.bc_library.specs.mpy_tree.declared.module.Constant.{Constant};
ghost use Rattle.snap_states.specs.Decoded.{constant_from, is_str};
ghost use Rattle.snap_loading.specs.Texts.{beside};

use arena_heap::{ConstNo, Constants, StrNo};
use bc_library::{Library, library_law};
use indexmap::IndexMap;
use mpy_base::NoMemory;
use mpy_base::limits::MAX_MODULES;
use std::alloc::Global;

/// The numbers of constant strs by their texts, of equal texts the first.
pub(crate) type Strs = IndexMap<Vec<u8>, ConstNo>;

/// The number of a constant str with this text.
pub(crate) fn str_number(strs: &Strs, text: &[u8]) -> Option<ConstNo>
    ensures { result ≡ beside strs.now.entries text.now }
{
    strs.get(text).copied()
}

/// Puts a number beside a text, unless it has one.
fn add(alloc: Global, strs: &mut Strs, text: &[u8], number: ConstNo) -> Result<(), NoMemory>
    ensures { OnOk result ((other : List ℕ) → beside strs.new.entries other
        ≡ option_or (beside strs.old.entries other) (if bytes_eq other text.now then Some number else None)) }
{
    match str_number(strs, text) {
        Some(_) => Ok(()),
        None => {
            strs.insert(Vec::from_slice(alloc, text)?, number)?;
            Ok(())
        }
    }
}

/// Adds a constant, if it is a str.
fn add_constant(
    alloc: Global,
    strs: &mut Strs,
    library: &Library,
    number: ConstNo,
) -> Result<(), NoMemory>
    ensures { OnOk result ((n : Named) (x : Constant) → slice_get library.now.modules number.«module» ≡ Some n
        → slice_get (constants_of n.held) number.object ≡ Some x
        → (other : List ℕ) → beside strs.new.entries other
        ≡ option_or (beside strs.old.entries other) (if is_str other x then Some number else None)) }
{
    match library.text(StrNo::Object(number)) {
        Some(text) => {
            add(alloc, strs, text, number)?;
            Ok(())
        }
        None => Ok(()),
    }
}

/// Adds the strs among the constants of a module, which has so many.
fn add_module(
    alloc: Global,
    strs: &mut Strs,
    library: &Library,
    module_number: u32,
    count: u32,
) -> Result<(), NoMemory>
    requires { option_map (λ m. length (constants_of m)) (module_at library.now module_number) ≡ Some count }
    ensures { OnOk result ((n : Named) → slice_get library.now.modules module_number ≡ Some n → (other : List ℕ)
        → beside strs.new.entries other
        ≡ option_or (beside strs.old.entries other)
        (option_map (numbered module_number) (position (is_str other) (constants_of n.held)))) }
{
    for object in 0..count {
        add_constant(
            alloc,
            strs,
            library,
            ConstNo {
                module: module_number,
                object,
            },
        )?;
    }
    Ok(())
}

/// The count as a number of 32 bits. A greater one is answered as want of memory.
fn few(count: usize) -> Result<u32, NoMemory>
    ensures { IfOk result (λ n. n ≡ count) }
{
    match u32::try_from(count) {
        Ok(n) => Ok(n),
        Err(_) => Err(NoMemory),
    }
}

/// The strs among the constants of the library's modules. A module with 2^32 constants is answered as want of memory.
pub(crate) fn strs_of(alloc: Global, library: &Library) -> Result<Strs, NoMemory>
    ensures { IfOk result (λ strs. (text : List ℕ)
        → beside strs.entries text ≡ constant_from 0 library.now.modules text) }
{
    library_law(library);
    let mut strs = IndexMap::new(alloc);
    for number in 0..MAX_MODULES as u32 {
        match library.constant_count(number) {
            Some(count) => {
                let count = few(count)?;
                add_module(alloc, &mut strs, library, number, count)?;
            }
            None => return Ok(strs),
        }
    }
    Ok(strs)
}
