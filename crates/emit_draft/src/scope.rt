//! The names of one code.

ghost use Rattle.std.specs.Prelude.{◌≡◌, ◌≤◌, ◌<◌, length, position, IfSome};
ghost use Rattle.std.specs.Str.{bytes_eq};

use mpy_base::{Items, Text};

/// Which names are local, and whether the others are a module's own.
#[derive(Drop)]
pub struct Scope {
    pub is_module: bool,
    /// The locals in slot order.
    pub locals: Items<Text>,
    ghost few: { length locals ≤ 4096 },
}

/// The place of the first local with the name.
fn place_of(locals: &[Text], name: &[u8]) -> Option<usize>
    ensures place { result ≡ position (λ local. bytes_eq name.now local) locals.now }
    ensures within { IfSome result (λ place. place < length locals.now) }
{
    locals.iter().position(|local| name == local.bytes())
}

impl Scope {
    ghost use Rattle.emit_draft.specs.Names.{slot_in};

    /// A local's slot.
    pub fn slot(&self, name: &[u8]) -> Option<u32>
        ensures { result ≡ slot_in self.now.locals name.now }
    {
        match place_of(self.locals.as_slice(), name) {
            Some(place) => Some(place as u32),
            None => None,
        }
    }
}
