//! Parts of strs.

ghost use Rattle.std.specs.Prelude.{◌≡◌};
ghost use Rattle.prim_faults.specs.py_primitives.Operators.{is_part};

use memchr::memmem;

/// Whether the bytes have the part in them.
pub(crate) fn has_part(bytes: &[u8], part: &[u8]) -> bool
    ensures { result ≡ is_part part.now bytes.now }
{
    memmem::find(bytes, part).is_some()
}
