//! What a call that is to fail leaves of its piece.

ghost use Rattle.std.specs.Prelude.{◌≡◌};
ghost use Rattle.mpy_io.specs.Memory.{left_of};

/// The first half, rounded down, where the call is listed.
pub fn cut(bytes: &[u8], listed: bool) -> &[u8]
    ensures { result.now ≡ left_of listed bytes.now }
{
    if listed {
        &bytes[..bytes.len() / 2]
    } else {
        bytes
    }
}
