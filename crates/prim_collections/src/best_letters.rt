//! The best of a str's letters. Each is a str of one byte, so their order is that of the bytes.

ghost use Rattle.std.specs.Prelude.{◌≡◌, ◌<◌, length, map, Some, Ok, All, if◌then◌else◌};
ghost use Rattle.std.specs.Ordering.{nat_cmp};
ghost use Rattle.prim_builtins.specs.py_values.Shown.{PlainHeap};
ghost use Rattle.prim_builtins.specs.py_primitives.Iterables.{letter};
ghost use Rattle.prim_builtins.specs.py_primitives.Order.{has_sign};
ghost use Rattle.prim_collections.specs.Best.{plain_extreme, best_among};

use crate::extreme::Extreme;

/// The better of a byte and the best so far.
fn better_byte(extreme: Extreme, byte: u8, best: u8) -> u8
    ensures { result ≡ (if has_sign (plain_extreme extreme) (nat_cmp byte best) then byte else best) }
{
    if extreme.holds(byte.cmp(&best)) {
        byte
    } else {
        best
    }
}

/// The byte of the best letter.
pub(crate) fn best_byte(extreme: Extreme, bytes: &[u8]) -> u8
    requires some { 0 < length bytes.now }
    requires ascii { All (λ b. b < 128) bytes.now }
    ensures answer { (heap : PlainHeap) → (best_among heap (plain_extreme extreme) (map letter bytes.now)).answer ≡ Some (Ok (letter result)) }
    ensures ascii { result < 128 }
{
    let mut best = bytes[0];
    for at in 1..bytes.len() {
        best = better_byte(extreme, bytes[at], best);
    }
    best
}
