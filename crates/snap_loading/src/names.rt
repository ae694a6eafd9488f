//! The numbers of texts that a snapshot has by their bytes.

ghost use Rattle.std.specs.Prelude.{◌≡◌, Some, true, false};
ghost use Rattle.bc_library.specs.Texts.{text_numbered};
ghost use Rattle.snap_states.specs.Decoded as decoded;

use arena_heap::{Constants, StrNo};
use bc_library::{Library, library_law};
use qstr_pool::static_law;

/// Whether this is the text of the number.
fn is_text(library: &Library, number: u32, text: &[u8]) -> bool
    ensures yes { result ≡ true → text_numbered library.now.pool number ≡ Some text.now }
    ensures no { result ≡ false → text_numbered library.now.pool number ≡ Some text.now → ⊥ }
{
    match library.text(StrNo::Pool(number)) {
        Some(found) => found == text,
        None => false,
    }
}

/// The number of a text that is static or in the library's pool.
pub(crate) fn pool_number(library: &Library, text: &[u8]) -> Option<u32>
    ensures { result ≡ decoded.pool_number library.now.pool text.now }
{
    library_law(library);
    static_law();
    match library.number(text) {
        Some(number) => {
            if is_text(library, number, text) {
                Some(number)
            } else {
                None
            }
        }
        None => None,
    }
}

/// The number of a name, 0 where it is none of the library's.
pub(crate) fn name_number(library: &Library, text: &[u8]) -> u32
    ensures { result ≡ decoded.name_number library.now text.now }
{
    pool_number(library, text).unwrap_or(0)
}

/// The number of a module's name, 0 where the library has no such module.
pub(crate) fn module_title(library: &Library, module: u32) -> u32
    ensures { result ≡ decoded.module_title library.now «module» }
{
    library_law(library);
    static_law();
    match library.title(module) {
        Some(title) => title.name,
        None => 0,
    }
}
