//! Reports of exceptions that nothing caught.

ghost use Rattle.std.specs.Prelude.{◌≡◌, ◌<◌, All, is_err, length, map};
ghost use Rattle.mpy_base.specs.Kind.{kind_name};
ghost use Rattle.mpy_base.specs.World.{AnException, IsA};
ghost use Rattle.prim_builtins.specs.arena_heap.Values.{IsTuple, Leads};
ghost use Rattle.prim_builtins.specs.arena_objects.Iterables.{items_in};
ghost use Rattle.prim_builtins.specs.py_values.Shown.{shown};
ghost use Rattle.prim_builtins.specs.py_primitives.Texts.{items_of_tuple, truth_text};
ghost use Rattle.py_effects.specs.Ends.{Raised, arguments_text, end_report, sole_text};
ghost use Rattle.prim_builtins.specs.prim_walks.Pens.{Wrote};
ghost use Rattle.prim_builtins.specs.prim_faults.Sights.{sight, Tells, TellsAll};
ghost use Rattle.prim_outputs.specs.Prints.{Puts, PutsOn};
ghost use Rattle.prim_outputs.specs.Reports.{first_lines};

use crate::pieces::{write, write_number, write_small};
use crate::report_printer::Printer;
use arena_heap::{Arena, Constants, ExcNo, StrNo, Value, exc_parts};
use arena_objects::{item_at, text_bytes};
use mpy_base::Kind;
use mpy_io::{Failed, Sink};
use prim_builtins::name_bytes;
use prim_walks::{Look, Pen, look_at};

/// Writes the first two lines of a report, by the place where its exception was raised.
fn write_place<P: Pen, C: Constants>(consts: &C, file: u32, line: u32, name: u32, pen: &mut P)
    ensures { let see = sight C.Constants consts.now in Wrote P.Takes pen.old (first_lines (see.name file) line (see.name name)) pen.new }
{
    write(pen, b"Traceback (most recent call last):\n  File \"");
    write(pen, name_bytes(consts, StrNo::Pool(file)));
    write(pen, b"\", line ");
    write_number(pen, u64::from(line));
    write(pen, b", in ");
    write(pen, name_bytes(consts, StrNo::Pool(name)));
    write(pen, b"\n")
}

/// How a truth is written.
fn truth_bytes(b: bool) -> &'static [u8]
    ensures text { result.now ≡ truth_text b }
    ensures ascii { All (λ b. b < 128) result.now }
{
    if b { b"True" } else { b"False" }
}

/// Writes the text of a sole argument.
fn write_sole<P: Pen, C: Constants>(arena: &Arena, consts: &C, v: Value, pen: &mut P)
    requires leads { Leads arena.now.objects v }
    requires told { Tells C.Constants consts.now v }
    ensures { let see = sight C.Constants consts.now in Wrote P.Takes pen.old (sole_text (see.heap arena.now) (see.value v)) pen.new }
{
    match v {
        Value::None => write(pen, b"None"),
        Value::Bool(b) => write(pen, truth_bytes(b)),
        Value::Int(n) => write_small(pen, n),
        Value::Str(_) | Value::Text(_) => write(pen, text_bytes(arena, consts, v)),
        _ => write(pen, b"..."),
    }
}

/// How many arguments an exception has.
fn argument_count<C: Constants>(arena: &Arena, consts: &C, args: Value) -> u32
    requires tuple { IsTuple args }
    requires leads { Leads arena.now.objects args }
    requires told { Tells C.Constants consts.now args }
    ensures count { result ≡ length (items_in (C.items_of consts.now) arena.now args) }
    ensures items { let see = sight C.Constants consts.now in items_of_tuple (shown (see.heap arena.now) (see.value args))
        ≡ map see.value (items_in see.tuples arena.now args) }
{
    match look_at(arena, consts, args) {
        Look::Tuple(count) => count,
        _ => 0,
    }
}

/// Writes the text of an exception's arguments.
fn write_arguments<P: Pen, C: Constants>(arena: &Arena, consts: &C, args: Value, pen: &mut P)
    requires tuple { IsTuple args }
    requires leads { Leads arena.now.objects args }
    requires told { Tells C.Constants consts.now args }
    requires all_told { TellsAll C.Constants consts.now arena.now }
    ensures { let see = sight C.Constants consts.now
        in Wrote P.Takes pen.old
        (arguments_text (see.heap arena.now) (items_of_tuple (shown (see.heap arena.now) (see.value args)))) pen.new }
{
    let count = argument_count(arena, consts, args);
    if count == 0 {
        return;
    }
    if count == 1 {
        let only = item_at(arena, consts, args, 0);
        return write_sole(arena, consts, only, pen);
    }
    write(pen, b"...")
}

/// Writes the name of a kind.
#[tactic(auto, using(prim_walks::proofs::AsciiNames::kind_ascii))]
fn write_kind<P: Pen>(pen: &mut P, kind: Kind)
    ensures { Wrote P.Takes pen.old (kind_name kind) pen.new }
{
    write(pen, kind.name().as_bytes())
}

/// Writes the report of an exception.
fn write_report<P: Pen, C: Constants>(arena: &Arena, consts: &C, x: ExcNo, pen: &mut P)
    requires exception { IsA arena.now.objects AnException x.cell }
    requires all_told { TellsAll C.Constants consts.now arena.now }
    ensures { Wrote P.Takes pen.old (end_report ((sight C.Constants consts.now).heap arena.now) (Raised x.cell)) pen.new }
{
    let (kind, args, file, line, name) = exc_parts(arena, x);
    write_place(consts, file, line, name, pen);
    write_kind(pen, kind);
    write(pen, b": ");
    write_arguments(arena, consts, args, pen);
    write(pen, b"\n")
}

/// Writes the report of an exception to a sink.
fn print_report<S: Sink, C: Constants>(
    arena: &Arena,
    consts: &C,
    x: ExcNo,
    printer: &mut Printer<S>,
)
    requires exception { IsA arena.now.objects AnException x.cell }
    requires all_told { TellsAll C.Constants consts.now arena.now }
    ensures same_reference { printer.new.out.ghost_name ≡ printer.old.out.ghost_name }
    ensures puts { PutsOn S.told S.count printer.old.failed printer.old.out.now printer.new.out.now printer.new.failed
        (end_report ((sight C.Constants consts.now).heap arena.now) (Raised x.cell)) }
{
    write_report(arena, consts, x, printer)
}

/// Puts the report of an exception that nothing caught, piece by piece. It takes no memory.
pub fn put_report<S: Sink, C: Constants>(
    arena: &Arena,
    consts: &C,
    x: ExcNo,
    out: &mut S,
) -> Result<(), Failed>
    requires exception { IsA arena.now.objects AnException x.cell }
    requires all_told { TellsAll C.Constants consts.now arena.now }
    ensures { Puts S.told S.count out.old out.new (is_err result) (end_report ((sight C.Constants consts.now).heap arena.now) (Raised x.cell)) }
{
    let mut printer = Printer::new(out);
    print_report(arena, consts, x, &mut printer);
    if printer.failed { Err(Failed) } else { Ok(()) }
}
