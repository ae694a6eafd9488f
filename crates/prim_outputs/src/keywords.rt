//! The keyword arguments of `print`.

ghost use Rattle.std.specs.Prelude.{◌≡◌, ℕ, List, Ok, IfOk, IfErr, bytes_eq, map};
ghost use Rattle.std.specs.Option.{option_map};
ghost use Rattle.prim_builtins.specs.arena_heap.Values.{Leads};
ghost use Rattle.prim_builtins.specs.py_values.Shown.{shown};
ghost use Rattle.prim_builtins.specs.py_primitives.Output.{Ends, ends_from, if_new, one_end};
ghost use Rattle.prim_builtins.specs.prim_faults.Sights.{under, sight, Tells, Knows, KnowsPairs, KnowsStr, KnowsFault};
ghost use Rattle.prim_outputs.specs.Ends.{AreStrs, IsKnownFound, given_as, nothing_given, plain_ends, plain_found};

use crate::strs::str_of;
use arena_heap::{Arena, Constants, Value};
use prim_builtins::Fault;

/// What stands between the texts and behind them, where it is given.
#[derive(Clone, Copy)]
pub(crate) struct Given {
    pub(crate) sep: Option<Value>,
    pub(crate) last: Option<Value>,
}

/// A str that is given by its name for the first time.
fn new_end<C: Constants>(
    arena: &Arena,
    consts: &C,
    name: Value,
    old: Option<Value>,
    v: Value,
) -> Result<Value, Fault>
    requires name { KnowsStr C.Constants consts.now arena.now name }
    requires leads { Leads arena.now.objects v }
    requires told { Tells C.Constants consts.now v }
    ensures found { let see = sight C.Constants consts.now in (with_bytes : List ℕ → Ends)
        → if_new (see.bytes arena.now name) (option_map (see.bytes arena.now) old) (shown (see.heap arena.now) (see.value v)) with_bytes
        ≡ given_as see.texts see.tuples arena.now with_bytes result }
    ensures str { IfOk result (KnowsStr C.Constants consts.now arena.now) }
    ensures known { IfErr result (KnowsFault C.Constants consts.now arena.now) }
{
    if old.is_some() {
        return Err(Fault::RepeatedKeyword(name));
    }
    match str_of(arena, consts, v) {
        Some(_) => Ok(v),
        None => Err(Fault::NotAStr(name)),
    }
}

fn is_named(bytes: &[u8], name: &str) -> bool
    ensures { result ≡ bytes_eq bytes.now name.now }
{
    bytes == name.as_bytes()
}

/// What is given behind one more keyword argument.
fn one_more<C: Constants>(
    arena: &Arena,
    consts: &C,
    given: Given,
    name: Value,
    v: Value,
) -> Result<Given, Fault>
    requires strs { under C.Constants consts.now AreStrs arena.now given }
    requires name { Knows C.Constants consts.now arena.now name }
    requires value { Knows C.Constants consts.now arena.now v }
    ensures found { let see = sight C.Constants consts.now in plain_found see.texts see.tuples arena.now result
        ≡ one_end (plain_ends see.texts see.tuples arena.now given) (shown (see.heap arena.now) (see.value name))
        (shown (see.heap arena.now) (see.value v)) }
    ensures known { under C.Constants consts.now IsKnownFound arena.now result }
{
    let Some(bytes) = str_of(arena, consts, name) else {
        return Err(Fault::KeywordNotAStr);
    };
    if is_named(bytes, "sep") {
        match new_end(arena, consts, name, given.sep, v) {
            Ok(sep) => Ok(Given {
                sep: Some(sep),
                last: given.last,
            }),
            Err(fault) => Err(fault),
        }
    } else if is_named(bytes, "end") {
        match new_end(arena, consts, name, given.last, v) {
            Ok(last) => Ok(Given {
                sep: given.sep,
                last: Some(last),
            }),
            Err(fault) => Err(fault),
        }
    } else {
        Err(Fault::UnknownKeyword(name))
    }
}

/// What keyword arguments give, from left to right, or the fault of the first that is refused.
pub(crate) fn given_by<C: Constants>(
    arena: &Arena,
    consts: &C,
    keys: &[(Value, Value)],
) -> Result<Given, Fault>
    requires known { KnowsPairs C.Constants consts.now arena.now keys.now }
    ensures found { let see = sight C.Constants consts.now in plain_found see.texts see.tuples arena.now result
        ≡ ends_from (see.heap arena.now) (Ok nothing_given) (map see.pair keys.now) }
    ensures known { under C.Constants consts.now IsKnownFound arena.now result }
{
    let mut given = Given {
        sep: None,
        last: None,
    };
    for pair in keys {
        let (name, v) = *pair;
        match one_more(arena, consts, given, name, v) {
            Ok(more) => given = more,
            Err(fault) => return Err(fault),
        }
    }
    Ok(given)
}
