//! The bytes of names.

ghost use Rattle.std.specs.Prelude.{◌≡◌, ◌<◌, All};
ghost use Rattle.prim_faults.specs.Sights.{sight};

use prim_walks::{Constants, StrNo};

/// The bytes of a name: none where the constants have no such text.
pub fn name_bytes<C: Constants>(consts: &C, name: StrNo) -> &[u8]
    ensures bytes { result.now ≡ (sight C.Constants consts.now).text name }
    ensures ascii { All (λ b. b < 128) result.now }
{
    match consts.text(name) {
        Some(bytes) => bytes,
        None => &[],
    }
}
