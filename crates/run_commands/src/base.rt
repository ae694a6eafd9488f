//! The folder of a file.

ghost use Rattle.std.specs.Prelude.{◌≡◌, ◌⊎◌, ◌<◌, ◌≤◌, ◌-◌, get_or, length, IsUtf8};
ghost use Rattle.run_commands.specs.Base as spec;

/// How many bytes stand up to and with the last `/`.
fn base_length(name: &[u8]) -> usize
    ensures length { result ≡ spec.base_length name.now }
    ensures within { result ≤ length name.now }
    ensures slash { (result ≡ 0) ⊎ ((0 < result) × (get_or name.now (result - 1) 0 ≡ 47)) }
{
    let mut found = 0;
    for (at, byte) in name.iter().enumerate() {
        if *byte == b'/' {
            found = at + 1;
        }
    }
    found
}

/// The folder in which a file of this name lies, with its `/`.
pub fn base_of(name: &[u8]) -> &[u8]
    ensures base { result.now ≡ spec.base_of name.now }
    ensures utf8 { IsUtf8 name.now → IsUtf8 result.now }
{
    &name[..base_length(name)]
}
