//! `print`.

ghost use Rattle.std.specs.Prelude.{◌≡◌, ◌<◌, ◌++◌, ℕ, List, All, Some, Ok, true, is_some, is_err, map, unwrap_or, IfSome, min};
ghost use Rattle.std.specs.Option.{option_map};
ghost use Rattle.prim_builtins.specs.arena_objects.Iterables.{spelled};
ghost use Rattle.prim_builtins.specs.py_primitives.Output.{printed, printed_with};
ghost use Rattle.prim_builtins.specs.py_primitives.Texts.{str_of, joined};
ghost use Rattle.prim_builtins.specs.py_primitives.Walks.{walk_all};
ghost use Rattle.prim_builtins.specs.prim_walks.Pens.{Wrote};
ghost use Rattle.prim_builtins.specs.prim_faults.Sights.{under, sight, TellsAll, KnowsAll, KnowsPairs, KnowsStr, CountsUpTo};
ghost use Rattle.prim_outputs.specs.Ends.{AreStrs, plain_ends};
ghost use Rattle.prim_outputs.specs.Prints.{Puts, PutsOn, in_front, DoesPrint, str_texts};

use crate::keywords::{Given, given_by};
use crate::printer::Printer;
use arena_heap::{Arena, Constants, Value};
use arena_objects::text_bytes;
use mpy_io::{Failed, Sink};
use prim_builtins::Fault;
use prim_walks::{Pen, text_len, visits_text, write_text};

/// Why `print` gives no value.
#[derive(Clone, Copy, Debug, PartialEq, Eq)]
pub enum PrintStop {
    Raises(Fault),
    /// A put failed.
    Out(Failed),
}

/// Whether all these have texts: a text may go too deep.
fn all_end<C: Constants>(arena: &Arena, consts: &C, args: &[Value]) -> bool
    requires known { KnowsAll C.Constants consts.now arena.now args.now }
    requires all_told { TellsAll C.Constants consts.now arena.now }
    ensures { result ≡ is_some (str_texts C.Constants consts.now arena.now args.now) }
{
    for v in args {
        if text_len(arena, consts, *v, true).is_none() {
            return false;
        }
    }
    true
}

/// What stands in front of a text: nothing in front of the first.
#[tactic(auto, using(prim_walks::proofs::PenSteps::wrote_nothing, prim_walks::proofs::PenSteps::wrote_piece, crate::proofs::Fronts::front_is))]
fn put_separator<P: Pen>(pen: &mut P, sep: &[u8], at: usize)
    requires ascii { All (λ b. b < 128) sep.now }
    ensures { Wrote P.Takes pen.old (in_front sep.now at) pen.new }
{
    if at > 0 {
        pen.put(sep);
    }
}

/// Writes the texts of values, with a separator between them.
fn put_texts<P: Pen, C: Constants>(
    arena: &Arena,
    consts: &C,
    args: &[Value],
    sep: &[u8],
    pen: &mut P,
)
    requires known { KnowsAll C.Constants consts.now arena.now args.now }
    requires all_told { TellsAll C.Constants consts.now arena.now }
    requires ascii { All (λ b. b < 128) sep.now }
    requires end { is_some (str_texts C.Constants consts.now arena.now args.now) ≡ true }
    ensures { (texts : List (List ℕ)) → str_texts C.Constants consts.now arena.now args.now ≡ Some texts
        → Wrote P.Takes pen.old (joined sep.now texts) pen.new }
{
    for (at, v) in args.iter().enumerate() {
        put_separator(pen, sep, at);
        let Some(()) = write_text(arena, consts, *v, true, pen) else {
            unreachable!()
        };
    }
}

/// Writes the texts of values, with a separator between them and what stands behind.
fn write_line<S: Sink, C: Constants>(
    arena: &Arena,
    consts: &C,
    args: &[Value],
    sep: &[u8],
    last: &[u8],
    printer: &mut Printer<S>,
)
    requires known { KnowsAll C.Constants consts.now arena.now args.now }
    requires all_told { TellsAll C.Constants consts.now arena.now }
    requires sep { All (λ b. b < 128) sep.now }
    requires last { All (λ b. b < 128) last.now }
    requires end { is_some (str_texts C.Constants consts.now arena.now args.now) ≡ true }
    ensures same_reference { printer.new.out.ghost_name ≡ printer.old.out.ghost_name }
    ensures puts { (texts : List (List ℕ)) → str_texts C.Constants consts.now arena.now args.now ≡ Some texts
        → PutsOn S.told S.count printer.old.failed printer.old.out.now printer.new.out.now printer.new.failed (joined sep.now texts
        ++ last.now) }
{
    put_texts(arena, consts, args, sep, printer);
    printer.put(last);
}

/// Puts the texts of values, with a separator between them and what stands behind.
fn put_line<S: Sink, C: Constants>(
    arena: &Arena,
    consts: &C,
    out: &mut S,
    args: &[Value],
    sep: &[u8],
    last: &[u8],
) -> Result<(), Failed>
    requires known { KnowsAll C.Constants consts.now arena.now args.now }
    requires all_told { TellsAll C.Constants consts.now arena.now }
    requires sep { All (λ b. b < 128) sep.now }
    requires last { All (λ b. b < 128) last.now }
    requires end { is_some (str_texts C.Constants consts.now arena.now args.now) ≡ true }
    ensures { (texts : List (List ℕ)) → str_texts C.Constants consts.now arena.now args.now ≡ Some texts
        → Puts S.told S.count out.old out.new (is_err result) (joined sep.now texts ++ last.now) }
{
    let mut printer = Printer::new(out);
    write_line(arena, consts, args, sep, last, &mut printer);
    if printer.failed { Err(Failed) } else { Ok(()) }
}

/// The bytes of a str that is given, and else others.
fn end_bytes<'a, C: Constants>(
    arena: &'a Arena,
    consts: &'a C,
    given: Option<Value>,
    otherwise: &'a [u8],
) -> &'a [u8]
    requires str { IfSome given (KnowsStr C.Constants consts.now arena.now) }
    requires ascii { All (λ b. b < 128) otherwise.now }
    ensures bytes { result.now ≡ unwrap_or (option_map (spelled (C.text_of consts.now) arena.now) given) otherwise.now }
    ensures ascii { All (λ b. b < 128) result.now }
{
    match given {
        Some(v) => text_bytes(arena, consts, v),
        None => otherwise,
    }
}

/// Prints with what keyword arguments gave. Nothing is put where a text goes too deep.
fn print_with<S: Sink, C: Constants>(
    arena: &Arena,
    consts: &C,
    out: &mut S,
    args: &[Value],
    given: Given,
) -> Result<Value, PrintStop>
    requires known { KnowsAll C.Constants consts.now arena.now args.now }
    requires all_told { TellsAll C.Constants consts.now arena.now }
    requires strs { under C.Constants consts.now AreStrs arena.now given }
    ensures { DoesPrint C.Constants consts.now arena.now S.told S.count out.old out.new result
        (λ heap see. printed_with heap (map see.value args.now) (Ok (plain_ends see.texts see.tuples arena.now given))) }
{
    if !all_end(arena, consts, args) {
        return Err(PrintStop::Raises(Fault::TooDeep));
    }
    let sep = end_bytes(arena, consts, given.sep, b" ");
    let last = end_bytes(arena, consts, given.last, b"\n");
    match put_line(arena, consts, out, args, sep, last) {
        Ok(()) => Ok(Value::None),
        Err(failed) => Err(PrintStop::Out(failed)),
    }
}

/// `print` of these arguments.
pub fn call_print<S: Sink, C: Constants>(
    arena: &Arena,
    consts: &C,
    out: &mut S,
    args: &[Value],
    keys: &[(Value, Value)],
) -> Result<Value, PrintStop>
    requires known { KnowsAll C.Constants consts.now arena.now args.now }
    requires known_keys { KnowsPairs C.Constants consts.now arena.now keys.now }
    requires all_told { TellsAll C.Constants consts.now arena.now }
    ensures { DoesPrint C.Constants consts.now arena.now S.told S.count out.old out.new result
        (λ heap see. printed heap (map see.value args.now) (map see.pair keys.now)) }
{
    match given_by(arena, consts, keys) {
        Ok(given) => print_with(arena, consts, out, args, given),
        Err(fault) => Err(PrintStop::Raises(fault)),
    }
}

/// How many visits the texts of values take one after another, up to the first that goes too deep, `most` at most.
fn visits_texts<C: Constants>(arena: &Arena, consts: &C, args: &[Value], most: u64) -> u64
    requires known { KnowsAll C.Constants consts.now arena.now args.now }
    requires all_told { TellsAll C.Constants consts.now arena.now }
    ensures { let see = sight C.Constants consts.now in result ≡ min (walk_all (str_of (see.heap arena.now)) (map see.value args.now)).visits most }
{
    let mut made = 0;
    for v in args {
        made += visits_text(arena, consts, *v, true, most - made);
        if made == most {
            return most;
        }
        if text_len(arena, consts, *v, true).is_none() {
            return made;
        }
    }
    made
}

/// How many visits `print` of these arguments makes, `most` at most. It goes no further.
pub fn visits_call_print<C: Constants>(
    arena: &Arena,
    consts: &C,
    args: &[Value],
    keys: &[(Value, Value)],
    most: u64,
) -> u64
    requires known { KnowsAll C.Constants consts.now arena.now args.now }
    requires known_keys { KnowsPairs C.Constants consts.now arena.now keys.now }
    requires all_told { TellsAll C.Constants consts.now arena.now }
    ensures { CountsUpTo C.Constants consts.now result most arena.now (λ heap see. printed heap (map see.value args.now) (map see.pair keys.now)) }
{
    match given_by(arena, consts, keys) {
        Ok(_) => visits_texts(arena, consts, args, most),
        Err(_) => 0,
    }
}
