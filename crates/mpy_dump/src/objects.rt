//! The objects of a module's table.

ghost use Rattle.std.specs.Prelude.{◌≡◌, ◌++◌, codes, length};
ghost use Rattle.mpy_dump.specs.Numbered.{numbered};
ghost use Rattle.mpy_dump.specs.Objects as specs;
ghost use Rattle.mpy_dump.specs.Objects.{object_text, item_text};
ghost use Rattle.mpy_dump.specs.Puts.{Puts};

use crate::put::{digits, put};
use crate::texts::put_str;
use itoa::Buffer;
use mpy_io::{Failed, Sink};
use mpy_tree::Constant;

/// Puts an object.
#[cycle(objects)]
pub(crate) fn put_object<S: Sink>(out: &mut S, object: &Constant) -> Result<(), Failed>
    ensures { Puts S.told S.count out.old out.new (object_text object.now) result }
{
    match object {
        Constant::None => put(out, b"None"),
        Constant::False => put(out, b"False"),
        Constant::True => put(out, b"True"),
        Constant::Str(text) => put_str(out, text.bytes()),
        Constant::Int(n) => {
            let mut buffer = Buffer::new();
            put(out, digits(&mut buffer, *n))
        }
        Constant::Tuple(items) => put_tuple(out, items.as_slice()),
    }
}

/// What stands in front of the item of a tuple at the place.
fn gap(place: usize) -> &'static [u8]
    ensures { result.now ≡ specs.gap place }
{
    if place == 0 { b"" } else { b", " }
}

/// What stands behind `count` items of a tuple: a lone one has a comma.
fn closing(count: usize) -> &'static [u8]
    ensures { result.now ≡ specs.closing count }
{
    if count == 1 { b",)" } else { b")" }
}

/// Puts a tuple with such items.
#[cycle(objects)]
fn put_tuple<S: Sink>(out: &mut S, items: &[Constant]) -> Result<(), Failed>
    ensures { Puts S.told S.count out.old out.new
        (codes "(" ++ (numbered (λ place item. item_text place (object_text item)) 0 items.now ++ specs.closing (length items.now))) result }
{
    put(out, b"(")?;
    for (place, item) in items.iter().enumerate() {
        put(out, gap(place))?;
        put_object(out, item)?;
    }
    put(out, closing(items.len()))
}
