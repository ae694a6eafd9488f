//! The binding of arguments to the slots of a function's parameters.

ghost use Rattle.std.specs.Prelude.{◌≡◌, ◌-◌, ◌<◌, ◌^◌, length, map, Ok};
ghost use Rattle.prim_types.specs.py_values.Shown.{shown};
ghost use Rattle.prim_outputs.specs.py_effects.Calling.{all_filled, bound, bind as bind_of, default_items};
ghost use Rattle.prim_methods.specs.prim_faults.Sights.{under, sight, TellsAll, Knows, KnowsAll, KnowsPairs};
ghost use Rattle.prim_calls.specs.Binding.{name_text, plain_slots, AreKnown, IsBound, IsKnownBound, plain_bound};

use crate::defaults::put_defaults;
use crate::keywords::put_keywords;
use crate::slots::{empty_slots, put_arguments};
use arena_heap::{Arena, Constants, StrNo, Value};
use prim_builtins::Fault;

/// The parameters of a function: their names, for how many of the last its code has defaults, and the function's defaults.
#[derive(Clone, Copy)]
pub struct Parameters<'a> {
    pub names: &'a [StrNo],
    pub given: u32,
    pub defaults: Value,
}

/// The empty ones of the last slots get their defaults, and then none is to be empty.
fn complete<C: Constants>(
    arena: &Arena,
    consts: &C,
    given: u32,
    defaults: Value,
    slots: &mut [Option<Value>],
) -> Result<(), Fault>
    requires few { length slots.old < 2 ^ 32 }
    requires known_slots { under C.Constants consts.now AreKnown arena.now.objects slots.old }
    requires defaults { Knows C.Constants consts.now arena.now defaults }
    requires all_told { TellsAll C.Constants consts.now arena.now }
    ensures complete { let see = sight C.Constants consts.now in plain_bound see.texts see.tuples arena.now slots.new result
        ≡ all_filled (length slots.old - given) (default_items (shown (see.heap arena.now) (see.value defaults)))
        (Ok (plain_slots see.texts see.tuples slots.old)) }
    ensures known { under C.Constants consts.now IsKnownBound arena.now.objects slots.new result }
{
    let before = slots.len().saturating_sub(given as usize);
    put_defaults(arena, consts, defaults, before, slots);
    let missing = empty_slots(slots) as u32;
    if missing == 0 {
        Ok(())
    } else {
        Err(Fault::Missing(missing))
    }
}

/// Binds what is given: the positional arguments, then the keyword arguments, then defaults.
fn bind_given<C: Constants>(
    arena: &Arena,
    consts: &C,
    params: Parameters<'_>,
    args: &[Value],
    keys: &[(Value, Value)],
    slots: &mut [Option<Value>],
) -> Result<(), Fault>
    requires slots { length slots.old ≡ length params.names.now }
    requires few { length params.names.now < 2 ^ 32 }
    requires few_args { length args.now < 2 ^ 32 }
    requires defaults { Knows C.Constants consts.now arena.now params.defaults }
    requires known { KnowsAll C.Constants consts.now arena.now args.now }
    requires known_keys { KnowsPairs C.Constants consts.now arena.now keys.now }
    requires all_told { TellsAll C.Constants consts.now arena.now }
    ensures bound { let see = sight C.Constants consts.now in plain_bound see.texts see.tuples arena.now slots.new result
        ≡ bound (see.heap arena.now) (map (name_text see.texts) params.entry.names.now) params.entry.given
        (see.value params.entry.defaults) (map see.value args.now) (map see.pair keys.now) }
    ensures known { under C.Constants consts.now IsKnownBound arena.now.objects slots.new result }
{
    if args.len() > params.names.len() {
        return Err(Fault::WrongCount {
            takes: params.names.len() as u32,
            given: args.len() as u32,
        });
    }
    put_arguments(args, slots);
    match put_keywords(arena, consts, params.names, slots, keys) {
        Ok(()) => complete(arena, consts, params.given, params.defaults, slots),
        Err(fault) => Err(fault),
    }
}

/// Binds arguments to the slots of a function's parameters, of which there is one for each: positional arguments first,
/// then keyword arguments, then defaults. What the slots held is lost; after a fault they hold nothing to rely on.
pub fn bind<C: Constants>(
    arena: &Arena,
    consts: &C,
    params: Parameters<'_>,
    args: &[Value],
    keys: &[(Value, Value)],
    slots: &mut [Option<Value>],
) -> Result<(), Fault>
    requires slots { length slots.old ≡ length params.names.now }
    requires few { length params.names.now < 2 ^ 32 }
    requires few_args { length args.now < 2 ^ 32 }
    requires defaults { Knows C.Constants consts.now arena.now params.defaults }
    requires known { KnowsAll C.Constants consts.now arena.now args.now }
    requires known_keys { KnowsPairs C.Constants consts.now arena.now keys.now }
    requires all_told { TellsAll C.Constants consts.now arena.now }
    ensures bound { let see = sight C.Constants consts.now
        in IsBound see.texts see.tuples arena.now slots.new result
        (λ w. bind_of w (map (name_text see.texts) params.entry.names.now) params.entry.given (see.value params.entry.defaults)
        (map see.value args.now) (map see.pair keys.now)) }
    ensures known { under C.Constants consts.now IsKnownBound arena.now.objects slots.new result }
{
    bind_given(arena, consts, params, args, keys, slots)
}
