//! The command.

ghost use Rattle.std.specs.Prelude.{◌≡◌, ◌≤◌, ◌++◌, ℕ, [], length, decimal, map, Option, Some, Ok};
ghost use Rattle.mpy_io.specs.Files.{FileOf};
ghost use Rattle.bc_library.specs.mpy_tree.Raw.{Module};
ghost use Rattle.command_files.specs.image_runs.Main.{IsMainAt};
ghost use Rattle.library_files.specs.Ends.{HoldsModules};
ghost use Rattle.command_files.specs.mpy_endings.declared.ending.Ending.TheVariants.{WriteFault};
ghost use Rattle.command_files.specs.mpy_endings.Ending.{IsRunStatus, status_of};
ghost use Rattle.command_files.specs.mpy_endings.Line.{Puts, Says, line_of};
ghost use Rattle.run_commands.specs.Ready.{GoLibrary};
ghost use Rattle.run_commands.specs.Run.{EndsRun};
ghost use Rattle.run_commands.specs.Source.{stress_text};
ghost use Rattle.run_commands.specs.Stress.{EndsStress, front_lines, most_assignments, sinks, stress_files, stress_name};

use crate::making::{NAME, codes_of, made_ready};
use crate::ready::Ready;
use crate::run::run_loaded;
use command_files::{Ending, put_three, say_ending};
use itoa::Buffer;
use mpy_base::Room;
use mpy_io::{Failed, Port, Sink};
use port_set::PortSet;
use std::alloc::Global;

/// Puts a number between two pieces of a line.
fn put_number<S: Sink>(out: &mut S, front: &[u8], number: u64, back: &[u8]) -> Result<(), Failed>
    ensures { Puts (S.told out.old) (S.told out.new) (S.count out.old) (S.count out.new) (front.now ++ decimal number ++ back.now) result }
{
    let mut digits = Buffer::new();
    put_three(out, front, digits.format(number).as_bytes(), back)
}

/// Puts the lines in front of the output.
fn put_front<S: Sink>(out: &mut S, bytes: usize, codes: u64) -> Result<(), Failed>
    ensures { Puts (S.told out.old) (S.told out.new) (S.count out.old) (S.count out.new) (front_lines bytes codes) result }
{
    put_number(out, b"source ", bytes as u64, b" bytes\n")?;
    put_number(out, b"codes ", codes, b"\n")
}

/// Says why the made source has no library, and answers the exit status.
fn say_refused<E: Sink>(ending: Ending, say: &mut E) -> u8
    ensures status { result ≡ status_of ending }
    ensures says { Says (E.told say.old) (E.told say.new) (E.count say.old) (E.count say.new) (line_of stress_name ending) }
{
    let _ = say_ending(say, NAME, &ending);
    ending.status()
}

/// Runs the library of the made source, says how that ended, and answers the exit status.
fn run_ready<S: Sink, P: Port, E: Sink>(
    alloc: Global,
    ready: Ready,
    room: Room,
    steps: u64,
    out: &mut S,
    say: &mut E,
    ports: &mut PortSet<P>,
) -> u8
    requires there { (m : Module) × IsMainAt ready.main ready.place m ready.library }
    requires holds { HoldsModules ready.library }
    ensures ended { (seed count faults : ℕ) (files : Option FileOf) → GoLibrary 0 (Some (stress_files seed count)) stress_name (Ok ready)
        → EndsRun (GoLibrary 0) room steps stress_name
        (sinks faults (S.told out.old) (S.count out.old) (E.told say.old) (E.count say.old) (Some (stress_files seed count)))
        (sinks faults (S.told out.new) (S.count out.new) (E.told say.new) (E.count say.new) files)
        (map P.seen ports.old) (map P.seen ports.new) result }
    ensures flushed { IsRunStatus result → S.held out.new ≡ [] }
{
    let ending = run_loaded(alloc, Ok(ready), room, steps, out, ports, say);
    let _ = say_ending(say, NAME, &ending);
    ending.status()
}

/// Lets the library of the made source go, says that its lines couldn't be printed, and answers the exit status.
fn say_unprinted<E: Sink>(_ready: Ready, say: &mut E) -> u8
    ensures status { result ≡ status_of WriteFault }
    ensures says { Says (E.told say.old) (E.told say.new) (E.count say.old) (E.count say.new) (line_of stress_name WriteFault) }
{
    say_refused(Ending::WriteFault, say)
}

/// Prints the lines of the made source, which has this many bytes, runs its library, and answers the exit status.
fn run_made<S: Sink, P: Port, E: Sink>(
    alloc: Global,
    bytes: usize,
    ready: Ready,
    room: Room,
    steps: u64,
    out: &mut S,
    say: &mut E,
    ports: &mut PortSet<P>,
) -> u8
    requires there { (m : Module) × IsMainAt ready.main ready.place m ready.library }
    requires holds { HoldsModules ready.library }
    ensures ended { (seed count faults : ℕ) (files : Option FileOf) → bytes ≡ length (stress_text seed count)
        → GoLibrary 0 (Some (stress_files seed count)) stress_name (Ok ready)
        → EndsStress seed count room steps
        (sinks faults (S.told out.old) (S.count out.old) (E.told say.old) (E.count say.old) files)
        (sinks faults (S.told out.new) (S.count out.new) (E.told say.new) (E.count say.new) files)
        (map P.seen ports.old) (map P.seen ports.new) result }
    ensures flushed { IsRunStatus result → S.held out.new ≡ [] }
{
    let number = codes_of(&ready);
    match put_front(out, bytes, number) {
        Ok(()) => run_ready(alloc, ready, room, steps, out, say, ports),
        Err(Failed) => say_unprinted(ready, say),
    }
}

/// Makes a source of `count` assignments to a dict, prints how many bytes it has and how many codes it compiles to, runs it in an arena
/// of this room, for these steps at most, and answers the exit status. It reads and writes no file.
pub fn stress<S: Sink, P: Port, E: Sink>(
    alloc: Global,
    seed: u32,
    count: u32,
    room: Room,
    steps: u64,
    out: &mut S,
    say: &mut E,
    ports: &mut PortSet<P>,
) -> u8
    requires { count ≤ most_assignments }
    ensures ended { (faults : ℕ) (files : Option FileOf) → EndsStress seed count room steps
        (sinks faults (S.told out.old) (S.count out.old) (E.told say.old) (E.count say.old) files)
        (sinks faults (S.told out.new) (S.count out.new) (E.told say.new) (E.count say.new) files)
        (map P.seen ports.old) (map P.seen ports.new) result }
    ensures flushed { IsRunStatus result → S.held out.new ≡ [] }
{
    match made_ready(alloc, seed, count) {
        Ok((bytes, ready)) => run_made(alloc, bytes, ready, room, steps, out, say, ports),
        Err(ending) => say_refused(ending, say),
    }
}
