//! The constants of a module in preorder, as they are kept.

ghost use Rattle.std.specs.Prelude.{◌≡◌, ℕ, ◌+◌, ◌≤◌, ◌++◌, length, IfOk, OnOk};
ghost use Rattle.std.specs.List.{flat_map};
ghost use Rattle.mpy_tree.specs.declared.module.Constant.{out-Constant};
ghost use Rattle.bc_library.specs.Constants.{preorder, numbered, value_by, values_from};
ghost use Rattle.bc_library.specs.Fine.{Each, Fine};
ghost use Rattle.bc_library.specs.Parts.{own_part_by, parts_from};

use arena_heap::{ConstNo, StrNo, Value};
use mpy_base::limits::MAX_DEPTH;
use mpy_base::{Items, NoMemory, Text};
use mpy_tree::Constant;
use std::alloc::Global;

/// What is kept of a constant.
#[derive(Drop)]
pub(crate) enum Part {
    /// Its value says all.
    Plain,
    /// The bytes of a str.
    Str(Text),
    /// The values of a tuple's items.
    Tuple(Items<Value>),
}

/// What is kept of an object by itself, without the items of a tuple, and its value.
fn own_part(alloc: Global, at: ConstNo, object: &Constant) -> Result<(Part, Value), NoMemory>
    ensures part { IfOk result (λ r. r.0 ≡ own_part_by (out-Constant object.now)) }
    ensures value { IfOk result (λ r. r.1 ≡ value_by at (out-Constant object.now)) }
{
    match object {
        Constant::None => Ok((Part::Plain, Value::None)),
        Constant::False => Ok((Part::Plain, Value::Bool(false))),
        Constant::True => Ok((Part::Plain, Value::Bool(true))),
        Constant::Int(n) => Ok((Part::Plain, Value::Int(*n))),
        Constant::Str(text) => Ok((
            Part::Str(Text::new(alloc, text.bytes())?),
            Value::Str(StrNo::Object(at)),
        )),
        Constant::Tuple(items) => {
            if items.is_empty() {
                Ok((Part::Plain, Value::Empty))
            } else {
                Ok((Part::Plain, Value::Fixed(at)))
            }
        }
    }
}

/// Adds what is kept of an object, and of the items of tuples in it, and gives its value. A table of 2^32 parts is
/// answered as want of memory.
#[cycle(parts)]
fn add_object(
    alloc: Global,
    parts: &mut Vec<Part>,
    number: u32,
    object: &Constant,
    levels: usize,
) -> Result<Value, NoMemory>
    requires fine { Fine levels object.now }
    requires shallow { levels ≤ MAX_DEPTH }
    ensures parts { OnOk result (parts.new.items ≡ parts.old.items
        ++ parts_from number (length parts.old.items) (preorder object.now)) }
    ensures value { IfOk result (λ v. v ≡ value_by (numbered number (length parts.old.items)) (out-Constant object.now)) }
{
    let place = parts.len();
    if place >= u32::MAX as usize {
        return Err(NoMemory);
    }
    let at = ConstNo {
        module: number,
        object: place as u32,
    };
    let (part, value) = own_part(alloc, at, object)?;
    parts.push(part)?;
    let Constant::Tuple(items) = object else {
        return Ok(value);
    };
    let values = add_objects(alloc, parts, number, items.as_slice(), levels - 1)?;
    parts[place] = Part::Tuple(values);
    Ok(value)
}

/// Adds what is kept of objects, one after another, and gives their values.
#[cycle(parts)]
pub(crate) fn add_objects(
    alloc: Global,
    parts: &mut Vec<Part>,
    number: u32,
    objects: &[Constant],
    levels: usize,
) -> Result<Items<Value>, NoMemory>
    requires fine { Each (Fine levels) objects.now }
    requires shallow { levels ≤ MAX_DEPTH }
    ensures parts { OnOk result (parts.new.items ≡ parts.old.items
        ++ parts_from number (length parts.old.items) (flat_map preorder objects.now)) }
    ensures values { IfOk result (λ vs. vs ≡ values_from number (length parts.old.items) objects.now) }
{
    let mut values = Items::new(alloc);
    for object in objects {
        values.push(add_object(alloc, parts, number, object, levels)?)?;
    }
    Ok(values)
}
