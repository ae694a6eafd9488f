//! Dots in names.

ghost use Rattle.std.specs.Prelude.{◌≡◌, ◌<◌, take, length, IfSome};
ghost use Rattle.std.specs.Option.{option_map};
ghost use Rattle.py_effects.specs.Modules.{outer_name};

/// The place of the last dot of a name: what stands before it is the prefix before the name.
pub(crate) fn last_dot(name: &[u8]) -> Option<usize>
    ensures outer { option_map (λ at. take at name.now) result ≡ outer_name name.now }
    ensures within { IfSome result (λ at. at < length name.now) }
{
    let mut at = name.len();
    while at > 0 {
        at -= 1;
        if name[at] == b'.' {
            return Some(at);
        }
    }
    None
}
