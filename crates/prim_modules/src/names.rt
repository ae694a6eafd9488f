//! The texts of names.

ghost use Rattle.std.specs.Prelude.{◌≡◌, bytes_eq};
ghost use Rattle.prim_assignments.specs.prim_faults.Sights.{sight};

use arena_heap::{Constants, StrNo};
use prim_assignments::name_bytes;

/// Whether a name has this text.
pub(crate) fn is_named<C: Constants>(consts: &C, name: u32, text: &[u8]) -> bool
    ensures { result ≡ bytes_eq ((sight C.Constants consts.now).name name) text.now }
{
    name_bytes(consts, StrNo::Pool(name)) == text
}
