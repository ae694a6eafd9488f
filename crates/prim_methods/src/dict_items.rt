//! `items` of dicts.

ghost use Rattle.std.specs.Prelude.{◌≡◌, ℕ, ◌+◌, ◌*◌, ◌<◌, ◌≤◌, ◌^◌, ◌∷◌, [], length, map, IfErr, OnOk};
ghost use Rattle.mpy_base.specs.declared.builtin.Builtin.TheVariants as builtins;
ghost use Rattle.mpy_base.specs.World.{TupleObject, ADict, AList, ATuple, IsA, items_at, pairs_at, room_at, with_list};
ghost use Rattle.mpy_base.specs.Weights.{Fits, Made, Refused, used};
ghost use Rattle.prim_assignments.specs.arena_heap.Values.{Leads, IsDict};
ghost use Rattle.prim_builtins.specs.py_primitives.Outcome.{list_of};
ghost use Rattle.prim_builtins.specs.py_primitives.Methods.{making_pairs};
ghost use Rattle.prim_assignments.specs.prim_faults.Sights.{calling_method, TellsAll, Does, CountsUpTo};
ghost use Rattle.prim_methods.specs.PairTuples.{with_tuples, tuples_from, TupleRefused};

use crate::objects::dict_number;
use arena_heap::{
    Arena, Constants, DictNo, ListNo, TupleNo, Value, dict_at, dict_len, put_in_list, tuple_fill,
};
use mpy_base::NoRoom;
use prim_builtins::{Stop, only_so_many};

/// Makes a tuple of two values.
fn make_pair(arena: &mut Arena, key: Value, v: Value) -> Result<(), NoRoom>
    requires key_leads { Leads arena.old.objects key }
    requires leads { Leads arena.old.objects v }
    ensures made { OnOk result (Made arena.old arena.new (used arena.old) (TupleObject (key ∷ v ∷ []))) }
    ensures refused { IfErr result (λ e. Refused arena.old arena.new e 3 0) }
{
    match arena.make_tuple(2) {
        Ok(t) => {
            tuple_fill(arena, t, 0, key);
            tuple_fill(arena, t, 1, v);
            Ok(())
        }
        Err(room) => Err(room),
    }
}

/// Makes a tuple of each pair of a dict.
fn make_pairs(arena: &mut Arena, d: DictNo) -> Result<(), NoRoom>
    requires dict { IsA arena.old.objects ADict d.cell }
    ensures ok { OnOk result (arena.new ≡ with_tuples arena.old (pairs_at arena.old d.cell)) }
    ensures fits { OnOk result (Fits arena.old (3 * length (pairs_at arena.old d.cell)) 0) }
    ensures refused { IfErr result (λ e. TupleRefused arena.old arena.new e (pairs_at arena.old d.cell)) }
{
    arena.room_law();
    for at in 0..dict_len(arena, d) {
        let Some((key, v)) = dict_at(arena, d, at) else {
            unreachable!()
        };
        make_pair(arena, key, v)?;
    }
    Ok(())
}

/// Puts `count` tuples, of which the first has the cell `first`, into an empty list that has room for them.
fn put_tuples(arena: &mut Arena, l: ListNo, first: u32, count: u32)
    requires list { IsA arena.old.objects AList l.cell }
    requires tuples { (k : ℕ) → k < count → IsA arena.old.objects ATuple (first + 3 * k) }
    requires few { first + 3 * count < 2 ^ 32 }
    requires empty { length (items_at arena.old l.cell) ≡ 0 }
    requires room { count ≤ room_at arena.old l.cell }
    ensures { arena.new ≡ with_list arena.old l.cell (tuples_from first count) }
{
    for k in 0..count {
        let t = TupleNo {
            cell: first + 3 * k,
        };
        put_in_list(arena, l, k, Value::Tuple(t));
    }
}

/// Fills an empty list with new tuples of the pairs of a dict. Where one doesn't fit, those in front of it stay, and the
/// list stays empty.
fn fill_with_tuples(arena: &mut Arena, l: ListNo, d: DictNo) -> Result<(), NoRoom>
    requires list { IsA arena.old.objects AList l.cell }
    requires dict { IsA arena.old.objects ADict d.cell }
    requires empty { length (items_at arena.old l.cell) ≡ 0 }
    requires room { length (pairs_at arena.old d.cell) ≤ room_at arena.old l.cell }
    ensures ok { OnOk result (arena.new
        ≡ with_list (with_tuples arena.old (pairs_at arena.old d.cell)) l.cell
        (tuples_from (used arena.old) (length (pairs_at arena.old d.cell)))) }
    ensures fits { OnOk result (Fits arena.old (3 * length (pairs_at arena.old d.cell)) 0) }
    ensures refused { IfErr result (λ e. TupleRefused arena.old arena.new e (pairs_at arena.old d.cell)) }
{
    arena.room_law();
    let first = arena.used().cells;
    let count = dict_len(arena, d);
    match make_pairs(arena, d) {
        Ok(()) => {
            put_tuples(arena, l, first, count);
            Ok(())
        }
        Err(room) => Err(room),
    }
}

/// A new list of new tuples of the pairs of a dict.
fn make_items<C: Constants>(arena: &mut Arena, _consts: &C, d: DictNo) -> Result<Value, Stop>
    requires dict { IsA arena.old.objects ADict d.cell }
    requires all_told { TellsAll C.Constants _consts.now arena.old }
    ensures { Does C.Constants _consts.now arena.old arena.new result (λ heap see. let pairs = map see.pair (pairs_at arena.old d.cell)
        in list_of heap (length pairs) (λ behind. making_pairs behind pairs)) }
{
    let count = dict_len(arena, d) as u64;
    match arena.make_list(count) {
        Ok(l) => match fill_with_tuples(arena, l, d) {
            Ok(()) => Ok(Value::List(l)),
            Err(room) => Err(Stop::Full(room)),
        },
        Err(room) => Err(Stop::Full(room)),
    }
}

/// `items` of a dict, with these arguments.
pub fn call_dict_items<C: Constants>(
    arena: &mut Arena,
    consts: &C,
    object: Value,
    args: &[Value],
    keys: &[(Value, Value)],
) -> Result<Value, Stop>
    requires dict { IsDict object }
    requires leads { Leads arena.old.objects object }
    requires few { length args.now < 2 ^ 32 }
    requires all_told { TellsAll C.Constants consts.now arena.old }
    ensures { Does C.Constants consts.now arena.old arena.new result (calling_method builtins.DictItems object args.now keys.now) }
{
    let d = dict_number(object);
    match only_so_many(0, args, keys) {
        Ok(()) => make_items(arena, consts, d),
        Err(fault) => Err(Stop::Raises(fault)),
    }
}

/// The visits of `items`, or `most` if there are more.
pub fn visits_call_dict_items<C: Constants>(
    arena: &Arena,
    _consts: &C,
    object: Value,
    args: &[Value],
    keys: &[(Value, Value)],
    most: u64,
) -> u64
    requires dict { IsDict object }
    requires leads { Leads arena.now.objects object }
    requires few { length args.now < 2 ^ 32 }
    ensures { CountsUpTo C.Constants _consts.now result most arena.now (calling_method builtins.DictItems object args.now keys.now) }
{
    let d = dict_number(object);
    match only_so_many(0, args, keys) {
        Ok(()) => most.min(dict_len(arena, d) as u64),
        Err(_) => 0,
    }
}
