//! `keys` and `values` of dicts.

ghost use Rattle.std.specs.Prelude.{◌≡◌, ◌<◌, ◌≤◌, ◌^◌, length, map};
ghost use Rattle.mpy_base.specs.declared.builtin.Builtin.TheVariants as builtins;
ghost use Rattle.mpy_base.specs.World.{ADict, AList, IsA, items_at, pairs_at, room_at, with_list};
ghost use Rattle.prim_assignments.specs.arena_heap.Values.{Leads, IsDict};
ghost use Rattle.prim_builtins.specs.py_primitives.Outcome.{making_list};
ghost use Rattle.prim_assignments.specs.prim_faults.Sights.{calling_method, TellsAll, Does, CountsUpTo};
ghost use Rattle.prim_methods.specs.Halves.{half_of};

use crate::objects::dict_number;
use arena_heap::{Arena, Constants, DictNo, ListNo, Value, dict_at, dict_len, put_in_list};
use prim_builtins::{Stop, only_so_many};

/// What a dict gives of each pair.
#[derive(Clone, Copy)]
enum Half {
    Keys,
    Values,
}

fn chosen(half: Half, key: Value, v: Value) -> Value
    ensures { result ≡ half_of half (key, v) }
{
    match half {
        Half::Keys => key,
        Half::Values => v,
    }
}

/// Puts the keys or the values of a dict into an empty list with room for them.
fn fill(arena: &mut Arena, l: ListNo, d: DictNo, half: Half)
    requires list { IsA arena.old.objects AList l.cell }
    requires dict { IsA arena.old.objects ADict d.cell }
    requires empty { length (items_at arena.old l.cell) ≡ 0 }
    requires room { length (pairs_at arena.old d.cell) ≤ room_at arena.old l.cell }
    ensures { arena.new ≡ with_list arena.old l.cell (map (half_of half) (pairs_at arena.old d.cell)) }
{
    for at in 0..dict_len(arena, d) {
        let Some((key, v)) = dict_at(arena, d, at) else {
            unreachable!()
        };
        put_in_list(arena, l, at, chosen(half, key, v));
    }
}

/// A new list of the keys or the values of a dict.
fn make_half<C: Constants>(
    arena: &mut Arena,
    _consts: &C,
    d: DictNo,
    half: Half,
) -> Result<Value, Stop>
    requires dict { IsA arena.old.objects ADict d.cell }
    requires all_told { TellsAll C.Constants _consts.now arena.old }
    ensures { Does C.Constants _consts.now arena.old arena.new result
        (λ heap see. making_list heap (map see.value (map (half_of half) (pairs_at arena.old d.cell)))) }
{
    let count = dict_len(arena, d) as u64;
    match arena.make_list(count) {
        Ok(l) => {
            fill(arena, l, d, half);
            Ok(Value::List(l))
        }
        Err(room) => Err(Stop::Full(room)),
    }
}

/// `keys` of a dict, with these arguments.
pub fn call_dict_keys<C: Constants>(
    arena: &mut Arena,
    consts: &C,
    object: Value,
    args: &[Value],
    keys: &[(Value, Value)],
) -> Result<Value, Stop>
    requires dict { IsDict object }
    requires leads { Leads arena.old.objects object }
    requires few { length args.now < 2 ^ 32 }
    requires all_told { TellsAll C.Constants consts.now arena.old }
    ensures { Does C.Constants consts.now arena.old arena.new result (calling_method builtins.DictKeys object args.now keys.now) }
{
    let d = dict_number(object);
    match only_so_many(0, args, keys) {
        Ok(()) => make_half(arena, consts, d, Half::Keys),
        Err(fault) => Err(Stop::Raises(fault)),
    }
}

/// `values` of a dict, with these arguments.
pub fn call_dict_values<C: Constants>(
    arena: &mut Arena,
    consts: &C,
    object: Value,
    args: &[Value],
    keys: &[(Value, Value)],
) -> Result<Value, Stop>
    requires dict { IsDict object }
    requires leads { Leads arena.old.objects object }
    requires few { length args.now < 2 ^ 32 }
    requires all_told { TellsAll C.Constants consts.now arena.old }
    ensures { Does C.Constants consts.now arena.old arena.new result (calling_method builtins.DictValues object args.now keys.now) }
{
    let d = dict_number(object);
    match only_so_many(0, args, keys) {
        Ok(()) => make_half(arena, consts, d, Half::Values),
        Err(fault) => Err(Stop::Raises(fault)),
    }
}

/// The visits of `keys`, or `most` if there are more.
pub fn visits_call_dict_keys<C: Constants>(
    arena: &Arena,
    _consts: &C,
    object: Value,
    args: &[Value],
    keys: &[(Value, Value)],
    most: u64,
) -> u64
    requires dict { IsDict object }
    requires leads { Leads arena.now.objects object }
    requires few { length args.now < 2 ^ 32 }
    ensures { CountsUpTo C.Constants _consts.now result most arena.now (calling_method builtins.DictKeys object args.now keys.now) }
{
    let d = dict_number(object);
    match only_so_many(0, args, keys) {
        Ok(()) => most.min(dict_len(arena, d) as u64),
        Err(_) => 0,
    }
}

/// The visits of `values`, or `most` if there are more.
pub fn visits_call_dict_values<C: Constants>(
    arena: &Arena,
    _consts: &C,
    object: Value,
    args: &[Value],
    keys: &[(Value, Value)],
    most: u64,
) -> u64
    requires dict { IsDict object }
    requires leads { Leads arena.now.objects object }
    requires few { length args.now < 2 ^ 32 }
    ensures { CountsUpTo C.Constants _consts.now result most arena.now (calling_method builtins.DictValues object args.now keys.now) }
{
    let d = dict_number(object);
    match only_so_many(0, args, keys) {
        Ok(()) => most.min(dict_len(arena, d) as u64),
        Err(_) => 0,
    }
}
