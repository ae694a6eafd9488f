//! Codes as an image has them.

ghost use Rattle.std.specs.Prelude.{◌≡◌, ◌++◌, ℕ, List, OnOk};
ghost use Rattle.mpy_writer.specs.mpy_tree.Canonical.{code_bytes};
ghost use Rattle.mpy_writer.specs.mpy_tree.File.{IsCode};

use mpy_base::NoMemory;
use mpy_merge::write_head;
use mpy_tree::RawCode;

/// Adds a code and those in it, of at most `levels` levels, each with the bytes that it has.
pub(crate) fn write_tree(out: &mut Vec<u8>, code: &RawCode, levels: usize) -> Result<(), NoMemory>
    requires { (texts : ℕ) × (text : List ℕ) × IsCode levels texts text code.now }
    ensures { OnOk result (out.new.items ≡ out.old.items ++ code_bytes levels code.now) }
{
    write_head(out, code.bytes.bytes(), code.children.len())?;
    for child in code.children.as_slice() {
        write_tree(out, child, levels - 1)?;
    }
    Ok(())
}
