//! The objects of modules: whether they may be written, and these bytes.

ghost use Rattle.std.specs.Prelude.{◌≡◌, ◌≤◌, ◌<◌, ◌++◌, ℕ, List, length, All, false, IsTrue, OnOk};
ghost use Rattle.std.specs.List.{flat_map};
ghost use Rattle.mpy_writer.specs.mpy_tree.Canonical.{object_bytes};
ghost use Rattle.mpy_writer.specs.mpy_tree.File.{IsObject};
ghost use Rattle.mpy_writer.specs.Tables.{spelled};
ghost use Rattle.mpy_writer.specs.Writable.{IsFine};
ghost use Rattle.mpy_merge.specs.Merged.{all_objects};

use bc_verify::Verified;
use mpy_base::NoMemory;
use mpy_base::limits::{MAX_DEPTH, MAX_FILE_BYTES, MAX_TABLE};
use mpy_tree::{Constant, module_law};
use mpy_writer::write_constants;
use std::alloc::Global;

/// Tells whether no text in an object, of at most `levels` levels of tuples, is longer than a file may be.
fn is_short(object: &Constant, levels: usize) -> bool
    requires { (text : List ℕ) × IsObject levels text object.now }
    ensures fine { IsTrue result → IsFine levels object.now }
    ensures long { result ≡ false → MAX_FILE_BYTES < length (object_bytes levels object.now) }
{
    match object {
        Constant::None => true,
        Constant::False => true,
        Constant::True => true,
        Constant::Int(_) => true,
        Constant::Str(text) => text.bytes().len() <= MAX_FILE_BYTES,
        Constant::Tuple(items) => {
            for item in items.as_slice() {
                if !is_short(item, levels - 1) {
                    return false;
                }
            }
            true
        }
    }
}

/// Tells whether no text in one of the objects is longer than a file may be.
fn are_short(objects: &[Constant]) -> bool
    requires { All (λ object. (text : List ℕ) × IsObject MAX_DEPTH text object) objects.now }
    ensures fine { IsTrue result → All (IsFine MAX_DEPTH) objects.now }
    ensures long { result ≡ false → MAX_FILE_BYTES < length (flat_map spelled objects.now) }
{
    for object in objects {
        if !is_short(object, MAX_DEPTH) {
            return false;
        }
    }
    true
}

/// Tells whether no text in one of the modules' objects is longer than a file may be.
pub(crate) fn all_short(modules: &[Verified]) -> bool
    ensures fine { IsTrue result → All (IsFine MAX_DEPTH) (all_objects modules.now) }
    ensures long { result ≡ false → MAX_FILE_BYTES < length (flat_map spelled (all_objects modules.now)) }
{
    for module in modules {
        let module = module.module();
        module_law(module);
        if !are_short(module.objects()) {
            return false;
        }
    }
    true
}

/// Adds the objects of the modules.
pub(crate) fn write_objects(
    alloc: Global,
    out: &mut Vec<u8>,
    modules: &[Verified],
) -> Result<(), NoMemory>
    requires { All (IsFine MAX_DEPTH) (all_objects modules.now) }
    ensures { OnOk result (out.new.items ≡ out.old.items ++ flat_map spelled (all_objects modules.now)) }
{
    for module in modules {
        write_constants(alloc, out, module.module().objects())?;
    }
    Ok(())
}

/// How many objects the modules have.
pub(crate) fn count_objects(modules: &[Verified]) -> u32
    requires { length (all_objects modules.now) ≤ MAX_TABLE }
    ensures { result ≡ length (all_objects modules.now) }
{
    let mut count = 0;
    for module in modules {
        count += module.module().objects().len() as u32;
    }
    count
}
