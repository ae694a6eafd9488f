//! How a code is reached from the outermost one.

ghost use Rattle.std.specs.Prelude.{◌++◌, codes, decimal};
ghost use Rattle.mpy_dump.specs.Codes.{places, path_text};
ghost use Rattle.mpy_dump.specs.Puts.{Puts};

use crate::put::{digits, put, put_all};
use itoa::Buffer;
use mpy_io::{Failed, Sink};

/// The place of a code among the children of the one above it.
#[derive(Clone, Copy)]
pub(crate) enum Path<'a> {
    Outermost,
    Child(&'a Path<'a>, usize),
}

/// Puts one step of a path: a dot and the place.
fn put_place<S: Sink>(out: &mut S, place: usize) -> Result<(), Failed>
    ensures { Puts S.told S.count out.old out.new (codes "." ++ decimal place) result }
{
    let mut buffer = Buffer::new();
    put_all(out, &[b".", digits(&mut buffer, place)])
}

/// Puts a path.
pub(crate) fn put_path<S: Sink>(out: &mut S, path: &Path<'_>) -> Result<(), Failed>
    ensures { Puts S.told S.count out.old out.new (path_text (places path.now)) result }
{
    match path {
        Path::Outermost => put(out, b"0"),
        Path::Child(above, place) => {
            put_path(out, above)?;
            put_place(out, *place)
        }
    }
}
