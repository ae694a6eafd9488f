//! Objects as they are written.

ghost use Rattle.std.specs.Prelude.{◌≡◌, [], ◌∷◌, ◌++◌, ◌*◌, ◌<◌, ◌^◌, length, All, IfOk, OnOk};
ghost use Rattle.std.specs.List.{flat_map};
ghost use Rattle.std.specs.Fmt.{signed_decimal};
ghost use Rattle.mpy_base.specs.Vuint.{vuint};
ghost use Rattle.mpy_tree.specs.File.{IsSmall, tag_str, tag_int};
ghost use Rattle.mpy_tree.specs.Canonical.{object_bytes};
ghost use Rattle.mpy_writer.specs.Writable.{IsText, IsFine};
ghost use Rattle.mpy_writer.specs.Tables.{spelled};

use mpy_base::limits::MAX_DEPTH;
use mpy_base::{NoMemory, Text, write_vuint};
use mpy_tree::Constant;
use std::alloc::Global;

/// The byte in front of `None`.
const TAG_NONE: u8 = 1;

/// The byte in front of `False`.
const TAG_FALSE: u8 = 2;

/// The byte in front of `True`.
const TAG_TRUE: u8 = 3;

/// The byte in front of a str.
const TAG_STR: u8 = 5;

/// The byte in front of an int.
const TAG_INT: u8 = 7;

/// The byte in front of a tuple.
const TAG_TUPLE: u8 = 10;

/// Adds a text.
fn write_str(out: &mut Vec<u8>, text: &Text) -> Result<(), NoMemory>
    requires { IsText text.now }
    ensures { OnOk result (out.new.items ≡ out.old.items ++ (tag_str ∷ (vuint (length text.now) ++ (text.now ++ 0 ∷ [])))) }
{
    let bytes = text.bytes();
    out.push(TAG_STR)?;
    write_vuint(out, bytes.len() as u32)?;
    out.extend_from_slice(bytes)?;
    out.push(0)?;
    Ok(())
}

/// Adds an integer.
fn write_int(alloc: Global, out: &mut Vec<u8>, n: i32) -> Result<(), NoMemory>
    ensures { OnOk result (out.new.items ≡ out.old.items ++ (tag_int ∷ (vuint (length (signed_decimal n)) ++ signed_decimal n))) }
{
    let digits = format!(in alloc; "{n}")?;
    out.push(TAG_INT)?;
    write_vuint(out, digits.len() as u32)?;
    out.extend_from_slice(digits.as_bytes())?;
    Ok(())
}

/// Adds the objects, with `levels` levels of tuples in each at most.
#[cycle(object)]
fn write_objects(
    alloc: Global,
    out: &mut Vec<u8>,
    objects: &[Constant],
    levels: usize,
) -> Result<(), NoMemory>
    requires { All (IsFine levels) objects.now }
    ensures { OnOk result (out.new.items ≡ out.old.items ++ flat_map (object_bytes levels) objects.now) }
{
    for object in objects {
        write_object(alloc, out, object, levels)?;
    }
    Ok(())
}

/// Adds an object, with `levels` levels of tuples in it at most.
#[cycle(object)]
fn write_object(
    alloc: Global,
    out: &mut Vec<u8>,
    object: &Constant,
    levels: usize,
) -> Result<(), NoMemory>
    requires { IsFine levels object.now }
    ensures { OnOk result (out.new.items ≡ out.old.items ++ object_bytes levels object.now) }
{
    match object {
        Constant::None => out.push(TAG_NONE)?,
        Constant::False => out.push(TAG_FALSE)?,
        Constant::True => out.push(TAG_TRUE)?,
        Constant::Str(text) => write_str(out, text)?,
        Constant::Int(n) => write_int(alloc, out, *n)?,
        Constant::Tuple(items) => {
            out.push(TAG_TUPLE)?;
            write_vuint(out, items.len() as u32)?;
            write_objects(alloc, out, items.as_slice(), levels - 1)?;
        }
    }
    Ok(())
}

/// Adds a table of objects, each as a file has it.
pub fn write_constants(
    alloc: Global,
    out: &mut Vec<u8>,
    objects: &[Constant],
) -> Result<(), NoMemory>
    requires { All (IsFine MAX_DEPTH) objects.now }
    ensures { OnOk result (out.new.items ≡ out.old.items ++ flat_map spelled objects.now) }
{
    write_objects(alloc, out, objects, MAX_DEPTH)
}

/// What is written for an object.
pub(crate) fn object_text(alloc: Global, object: &Constant) -> Result<Vec<u8>, NoMemory>
    requires { IsFine MAX_DEPTH object.now }
    ensures { IfOk result (λ text. text.items ≡ spelled object.now) }
{
    let mut out = Vec::new(alloc);
    write_object(alloc, &mut out, object, MAX_DEPTH)?;
    Ok(out)
}
