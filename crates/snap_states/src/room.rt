//! The room of a snapshot.

ghost use Rattle.std.specs.Prelude.{◌≡◌, ◌↔◌, ◌+◌, ◌<◌, ◌≤◌, IsTrue, MatchOption};
ghost use Rattle.snap_states.specs.Parts.{bytes_of_part, bytes_of_parts, cells_of_part, cells_of_parts};
ghost use Rattle.snap_states.specs.States as states;

use snap_grammar::{ObjectPart, Snapshot};

/// What is left of so many cells without those of an object.
fn take_cells(left: u64, object: &ObjectPart) -> Option<u64>
    ensures { MatchOption result (left < cells_of_part object.now) (λ rest. rest + cells_of_part object.now ≡ left) }
{
    match object {
        ObjectPart::List { room, .. } => left.checked_sub(3 + u64::from(*room)),
        ObjectPart::Dict { room, .. } => left.checked_sub(3 + 3 * u64::from(*room)),
        ObjectPart::Tuple { items } => left.checked_sub(1)?.checked_sub(items.len() as u64),
        ObjectPart::Text { .. } => left.checked_sub(2),
        ObjectPart::Function { .. } | ObjectPart::Range { .. } | ObjectPart::Module { .. } => {
            left.checked_sub(4)
        }
        ObjectPart::Exception { .. } => left.checked_sub(6),
        ObjectPart::Method { .. } => left.checked_sub(3),
    }
}

/// What is left of so many bytes without those of an object.
fn take_bytes(left: u64, object: &ObjectPart) -> Option<u64>
    ensures { MatchOption result (left < bytes_of_part object.now) (λ rest. rest + bytes_of_part object.now ≡ left) }
{
    match object {
        ObjectPart::Text { bytes } => left.checked_sub(bytes.bytes().len() as u64),
        _ => Some(left),
    }
}

/// Whether objects have no more cells than these.
fn hold_cells(objects: &[ObjectPart], used: u32) -> bool
    ensures { IsTrue result ↔ (cells_of_parts objects.now ≤ used) }
{
    let mut left = u64::from(used);
    for object in objects {
        match take_cells(left, object) {
            Some(rest) => left = rest,
            None => return false,
        }
    }
    true
}

/// Whether objects have no more bytes than these.
fn hold_bytes(objects: &[ObjectPart], used: u32) -> bool
    ensures { IsTrue result ↔ (bytes_of_parts objects.now ≤ used) }
{
    let mut left = u64::from(used);
    for object in objects {
        match take_bytes(left, object) {
            Some(rest) => left = rest,
            None => return false,
        }
    }
    true
}

/// Whether the objects fit what is used, and that the sizes, which have limits.
pub fn has_room(snapshot: &Snapshot) -> bool
    ensures { IsTrue result ↔ states.HasRoom snapshot.now }
{
    snapshot.used_cells <= snapshot.cells
        && snapshot.used_bytes <= snapshot.bytes
        && snapshot.cells <= 4_194_304
        && snapshot.bytes <= 16_777_216
        && hold_cells(snapshot.objects.as_slice(), snapshot.used_cells)
        && hold_bytes(snapshot.objects.as_slice(), snapshot.used_bytes)
}
