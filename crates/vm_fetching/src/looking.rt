//! Texts and objects of a library.

ghost use Rattle.std.specs.Prelude.{◌≡◌, Some, IsSome};
ghost use Rattle.bc_rows.specs.bc_library.Constants.{object_value, text_at};
ghost use Rattle.bc_rows.specs.bc_library.Shelf.{entry_at, table_text};
ghost use Rattle.frame_moves.specs.arena_heap.declared.value.StrNo.TheVariants as strs;

use arena_heap::Value;
use bc_rows::Library;

/// The number in the pool of the text of the module's table that has the number.
#[inline(always)]
pub(crate) fn text_of(library: &Library, module_number: u32, n: u32) -> u32
    requires { IsSome (entry_at library.now module_number n) }
    ensures { text_at library.now (strs.Pool result) ≡ table_text library.now module_number n }
{
    let Some(text) = library.text_number(module_number, n) else {
        unreachable!();
    };
    text
}

/// The value of the object of the module's table that has the number.
#[inline(always)]
pub(crate) fn object_of(library: &Library, module_number: u32, n: u32) -> Value
    requires { IsSome (object_value library.now module_number n) }
    ensures { object_value library.now module_number n ≡ Some result }
{
    let Some(v) = library.object(module_number, n) else {
        unreachable!();
    };
    v
}
