//! `isinstance`.

ghost use Rattle.std.specs.Prelude.{◌≡◌, ◌<◌, ◌^◌, ◌∷◌, [], length, map, All, ◌||◌};
ghost use Rattle.std.specs.Option.{option_map};
ghost use Rattle.std.specs.List.{list_any};
ghost use Rattle.mpy_base.specs.declared.builtin.Builtin.TheVariants as builtins;
ghost use Rattle.prim_builtins.specs.arena_heap.Values.{Leads};
ghost use Rattle.prim_builtins.specs.arena_heap.Constants.{IsTold};
ghost use Rattle.prim_builtins.specs.arena_objects.Keys.{AllTold};
ghost use Rattle.prim_builtins.specs.py_primitives.Builtins.{is_type as is_type_in};
ghost use Rattle.prim_builtins.specs.py_primitives.Operators.{all_of};
ghost use Rattle.prim_builtins.specs.py_primitives.Calls.{call, call_isinstance as isinstance_in, is_instance as is_instance_in, named_type as named_type_in};
ghost use Rattle.prim_builtins.specs.prim_walks.Plain.{plain, plain_pair, plain_heap};
ghost use Rattle.prim_builtins.specs.prim_faults.Faults.{IsKnown};
ghost use Rattle.prim_builtins.specs.prim_faults.Outcomes.{IsOutcome};
ghost use Rattle.prim_types.specs.Members.{members_in};
ghost use Rattle.prim_types.specs.Types.{IsNamedType, DecidesNumber, DecidesKind, DecidesInstance};

use crate::kinds::{exception_kind, is_under, kind_in};
use crate::members::{member_at, member_count};
use mpy_base::{Builtin, Kind};
use prim_builtins::only_so_many;
use prim_operators::{
    Arena, Constants, Fault, Stop, Value, builtin_name, items_law, number_of, type_name,
};

fn is_type(b: Builtin) -> bool
    ensures { result ≡ is_type_in b }
{
    match b {
        Builtin::Bool
        | Builtin::Int
        | Builtin::Str
        | Builtin::List
        | Builtin::Tuple
        | Builtin::Dict
        | Builtin::Kind(_) => true,
        _ => false,
    }
}

/// The type that a value names, if it names one.
fn named_type(v: Value) -> Option<Builtin>
    ensures { IsNamedType v result }
{
    match v {
        Value::Built(b) if is_type(b) => Some(b),
        Value::Fixed(_) => None,
        _ => None,
    }
}

fn is_number(_arena: &Arena, v: Value) -> bool
    requires { Leads _arena.now.objects v }
    ensures { DecidesNumber _arena.now v result }
{
    number_of(v).is_some()
}

/// Whether a value is an exception of this kind, or of one below it.
fn is_exception_of(arena: &Arena, v: Value, kind: Kind) -> bool
    requires { Leads arena.now.objects v }
    ensures { DecidesKind arena.now v kind result }
{
    match exception_kind(arena, v) {
        Some(own) => is_under(own, kind),
        None => false,
    }
}

/// Whether a value is an instance of a type. A bool is an int too.
fn is_instance(arena: &Arena, v: Value, of: Builtin) -> bool
    requires { Leads arena.now.objects v }
    ensures { DecidesInstance arena.now v of result }
{
    if let Some(kind) = kind_in(of) {
        return is_exception_of(arena, v, kind);
    }
    if of == Builtin::Int {
        return is_number(arena, v);
    }
    type_name(arena, v) == builtin_name(of)
}

/// Whether a value is an instance of one of these types. It gives None where one of them is no type.
fn is_one_of<C: Constants>(arena: &Arena, consts: &C, v: Value, types: Value) -> Option<bool>
    requires leads { Leads arena.now.objects v }
    requires types_lead { Leads arena.now.objects types }
    requires types_told { IsTold (C.text_of consts.now) (C.items_of consts.now) types }
    requires all_told { AllTold (C.text_of consts.now) (C.items_of consts.now) arena.now.objects }
    ensures { result ≡ option_map
        (list_any (is_instance_in (plain_heap (C.text_of consts.now) (C.items_of consts.now) arena.now)
        (plain (C.text_of consts.now) (C.items_of consts.now) v)))
        (all_of named_type_in (map (plain (C.text_of consts.now) (C.items_of consts.now))
        (members_in (C.items_of consts.now) arena.now types))) }
{
    let mut found = false;
    for at in 0..member_count(arena, consts, types) {
        match named_type(member_at(arena, consts, types, at)) {
            Some(of) => found |= is_instance(arena, v, of),
            None => return None,
        }
    }
    Some(found)
}

fn isinstance_of<C: Constants>(
    arena: &Arena,
    consts: &C,
    v: Value,
    types: Value,
) -> Result<Value, Stop>
    requires leads { Leads arena.now.objects v }
    requires types_lead { Leads arena.now.objects types }
    requires types_told { IsTold (C.text_of consts.now) (C.items_of consts.now) types }
    requires all_told { AllTold (C.text_of consts.now) (C.items_of consts.now) arena.now.objects }
    ensures { IsOutcome (C.text_of consts.now) (C.items_of consts.now) arena.now arena.now result
        (isinstance_in (plain_heap (C.text_of consts.now) (C.items_of consts.now) arena.now)
        (plain (C.text_of consts.now) (C.items_of consts.now) v) (plain (C.text_of consts.now) (C.items_of consts.now) types)) }
{
    items_law(arena, consts, types);
    match is_one_of(arena, consts, v, types) {
        Some(found) => Ok(Value::Bool(found)),
        None => Err(Stop::Raises(Fault::NotTypes)),
    }
}

fn two_arguments(args: &[Value]) -> (Value, Value)
    requires { length args.now ≡ 2 }
    ensures { args.now ≡ result.0 ∷ result.1 ∷ [] }
{
    (args[0], args[1])
}

/// `isinstance` of these arguments.
pub fn call_isinstance<C: Constants>(
    arena: &Arena,
    consts: &C,
    args: &[Value],
    keys: &[(Value, Value)],
) -> Result<Value, Stop>
    requires few { length args.now < 2 ^ 32 }
    requires known { All (IsKnown (C.text_of consts.now) (C.items_of consts.now) arena.now.objects) args.now }
    requires all_told { AllTold (C.text_of consts.now) (C.items_of consts.now) arena.now.objects }
    ensures { IsOutcome (C.text_of consts.now) (C.items_of consts.now) arena.now arena.now result
        (call (plain_heap (C.text_of consts.now) (C.items_of consts.now) arena.now) builtins.IsInstance
        (map (plain (C.text_of consts.now) (C.items_of consts.now)) args.now)
        (map (plain_pair (C.text_of consts.now) (C.items_of consts.now)) keys.now)) }
{
    match only_so_many(2, args, keys) {
        Ok(()) => {
            let (v, types) = two_arguments(args);
            isinstance_of(arena, consts, v, types)
        }
        Err(fault) => Err(Stop::Raises(fault)),
    }
}
