//! Objects: whether they may be written.

ghost use Rattle.std.specs.Prelude.{◌≡◌, ◌<◌, ℕ, List, length, All, false, IsTrue};
ghost use Rattle.std.specs.List.{flat_map};
ghost use Rattle.mpy_writer.specs.mpy_tree.Canonical.{object_bytes};
ghost use Rattle.mpy_writer.specs.mpy_tree.File.{IsModule, IsObject};
ghost use Rattle.mpy_writer.specs.Writable.{IsFine};

use crate::named::Named;
use mpy_base::limits::{MAX_DEPTH, MAX_IMAGE_BYTES};
use mpy_tree::Constant;

/// Tells whether no text in an object, of at most `levels` levels of tuples, is longer than an image may be.
fn is_short(object: &Constant, levels: usize) -> bool
    requires { (text : List ℕ) × IsObject levels text object.now }
    ensures fine { IsTrue result → IsFine levels object.now }
    ensures long { result ≡ false → MAX_IMAGE_BYTES < length (object_bytes levels object.now) }
{
    match object {
        Constant::None => true,
        Constant::False => true,
        Constant::True => true,
        Constant::Int(_) => true,
        Constant::Str(text) => text.bytes().len() <= MAX_IMAGE_BYTES,
        Constant::Tuple(items) => {
            for item in items.as_slice() {
                if !is_short(item, levels - 1) {
                    return false;
                }
            }
            true
        }
    }
}

/// Tells whether no text in one of the objects is longer than an image may be.
fn are_short(objects: &[Constant]) -> bool
    requires { All (λ object. (text : List ℕ) × IsObject MAX_DEPTH text object) objects.now }
    ensures fine { IsTrue result → All (IsFine MAX_DEPTH) objects.now }
    ensures long { result ≡ false → MAX_IMAGE_BYTES < length (flat_map (object_bytes MAX_DEPTH) objects.now) }
{
    for object in objects {
        if !is_short(object, MAX_DEPTH) {
            return false;
        }
    }
    true
}

/// Tells whether no text in one of the modules' objects is longer than an image may be.
pub(crate) fn objects_are_short(modules: &[Named]) -> bool
    requires { All (λ m. IsModule m.held) modules.now }
    ensures fine { IsTrue result → All (λ m. All (IsFine MAX_DEPTH) m.held.objects) modules.now }
    ensures long { result ≡ false
        → MAX_IMAGE_BYTES < length (flat_map (λ m. flat_map (object_bytes MAX_DEPTH) m.held.objects) modules.now) }
{
    for module in modules {
        if !are_short(module.held.objects()) {
            return false;
        }
    }
    true
}
