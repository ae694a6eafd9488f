//! The line of a making that doesn't fit.

ghost use Rattle.std.specs.Prelude.{◌≡◌, ◌<◌, All, is_err};
ghost use Rattle.prim_builtins.specs.prim_walks.Pens.{Wrote};
ghost use Rattle.prim_outputs.specs.Prints.{Puts, PutsOn};
ghost use Rattle.prim_outputs.specs.Rooms as spec;

use crate::pieces::{write, write_number};
use crate::report_printer::Printer;
use mpy_base::NoRoom;
use mpy_io::{Failed, Sink};
use prim_walks::Pen;

/// What a making asked for, with what ends its line.
fn unit_text(bytes: bool) -> &'static [u8]
    ensures text { result.now ≡ spec.unit_text bytes }
    ensures ascii { All (λ b. b < 128) result.now }
{
    if bytes { b" bytes\n" } else { b" cells\n" }
}

/// Writes the line of a making that doesn't fit.
fn write_no_room<P: Pen>(room: NoRoom, pen: &mut P)
    ensures { Wrote P.Takes pen.old (spec.room_line room) pen.new }
{
    write(pen, b"MemoryError: asked ");
    write_number(pen, room.asked);
    write(pen, b" used ");
    write_number(pen, u64::from(room.used));
    write(pen, b" size ");
    write_number(pen, u64::from(room.size));
    write(pen, unit_text(room.bytes))
}

/// Writes the line to a sink.
fn print_no_room<S: Sink>(room: NoRoom, printer: &mut Printer<S>)
    ensures same_reference { printer.new.out.ghost_name ≡ printer.old.out.ghost_name }
    ensures puts { PutsOn S.told S.count printer.old.failed printer.old.out.now printer.new.out.now printer.new.failed (spec.room_line room) }
{
    write_no_room(room, printer)
}

/// Puts the line of a run that ended because a making doesn't fit, piece by piece. It takes no memory.
pub fn put_no_room<S: Sink>(room: NoRoom, out: &mut S) -> Result<(), Failed>
    ensures { Puts S.told S.count out.old out.new (is_err result) (spec.room_line room) }
{
    let mut printer = Printer::new(out);
    print_no_room(room, &mut printer);
    if printer.failed { Err(Failed) } else { Ok(()) }
}
