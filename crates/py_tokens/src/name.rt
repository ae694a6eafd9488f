//! Names.

ghost use Rattle.std.specs.Prelude.{◌≡◌, ℕ, ◌<◌, ◌≤◌, ◌↔◌, List, ◌++◌, All, IsTrue, length, take, drop, slice_index};
ghost use Rattle.py_tokens.specs.Name.{IsNameStart, IsNamePart, IsName};

/// May a name begin with the byte?
fn is_name_start(byte: u8) -> bool
    ensures { IsTrue result ↔ IsNameStart byte }
{
    byte.is_ascii_alphabetic() || byte == b'_'
}

/// How many letters, digits and underscores stand in front.
fn run_len(bytes: &[u8]) -> usize
    ensures within { result ≤ length bytes.now }
    ensures all { All IsNamePart (take result bytes.now) }
    ensures ends { result < length bytes.now → ¬ IsNamePart (slice_index bytes.now result) }
{
    for (i, byte) in bytes.iter().enumerate() {
        if !is_name_start(*byte) && !byte.is_ascii_digit() {
            return i;
        }
    }
    bytes.len()
}

/// The length of the name in front, and 0 where there is none.
pub fn name_len(bytes: &[u8]) -> usize
    ensures within { result ≤ length bytes.now }
    ensures name { 0 < result → IsName (take result bytes.now) }

    // No name in front is longer, so that 0 says that there is none.
    ensures longest { (text rest : List ℕ) → IsName text → bytes.now ≡ text ++ rest
        → length text ≤ result }
    ensures ends { 0 < result → result < length bytes.now
        → ¬ IsNamePart (slice_index bytes.now result) }
{
    match bytes {
        [first, ..] if is_name_start(*first) => run_len(bytes),
        _ => 0,
    }
}
