//! Copies of objects, with the items of tuples.

ghost use Rattle.std.specs.Prelude.{◌≡◌, IfOk};
ghost use Rattle.image_grammar.specs.bc_library.Fine.{Each, Fine};

use mpy_base::{Items, NoMemory, Text};
use mpy_tree::Constant;
use std::alloc::Global;

/// A copy of an object, of at most `levels` levels of tuples.
fn copy_object(alloc: Global, object: &Constant, levels: usize) -> Result<Constant, NoMemory>
    requires { Fine levels object.now }
    ensures { IfOk result (λ copy. copy ≡ object.now) }
{
    match object {
        Constant::None => Ok(Constant::None),
        Constant::False => Ok(Constant::False),
        Constant::True => Ok(Constant::True),
        Constant::Int(n) => Ok(Constant::Int(*n)),
        Constant::Str(text) => Ok(Constant::Str(Text::new(alloc, text.bytes())?)),
        Constant::Tuple(items) => {
            let mut copies = Items::new(alloc);
            for item in items.as_slice() {
                copies.push(copy_object(alloc, item, levels - 1)?)?;
            }
            Ok(Constant::Tuple(copies))
        }
    }
}

/// A copy of each of the objects.
pub(crate) fn copy_objects(
    alloc: Global,
    objects: &[Constant],
    levels: usize,
) -> Result<Items<Constant>, NoMemory>
    requires { Each (Fine levels) objects.now }
    ensures { IfOk result (λ copies. copies ≡ objects.now) }
{
    let mut copies = Items::new(alloc);
    for object in objects {
        copies.push(copy_object(alloc, object, levels)?)?;
    }
    Ok(copies)
}
