//! `insert` of lists.

ghost use Rattle.std.specs.Prelude.{◌≡◌, ◌<◌, ◌≤◌, ◌^◌, length, map};
ghost use Rattle.mpy_base.specs.declared.builtin.Builtin.TheVariants as builtins;
ghost use Rattle.mpy_base.specs.World.{AList, IsA, items_at};
ghost use Rattle.prim_assignments.specs.arena_heap.Values.{Leads, IsList};
ghost use Rattle.prim_builtins.specs.py_primitives.Iterables.{place_before as place_in};
ghost use Rattle.prim_builtins.specs.py_primitives.Methods.{insert_item};
ghost use Rattle.prim_assignments.specs.prim_faults.Sights.{calling_method, Tells, TellsAll, KnowsAll, Does};

use crate::objects::list_number;
use crate::puts::put_item;
use arena_heap::{Arena, Constants, ListNo, Value, list_len};
use prim_builtins::{Stop, number_of, only_so_many};

/// The place in front of which an index puts an item. A negative one counts from the end.
fn place_before(len: u32, index: i32) -> u32
    ensures place { result ≡ place_in len index }
    ensures within { result ≤ len }
{
    if index >= 0 {
        len.min(index as u32)
    } else {
        len.saturating_sub(index.unsigned_abs())
    }
}

/// Puts a value in front of the item that an index names.
fn insert<C: Constants>(
    arena: &mut Arena,
    consts: &C,
    l: ListNo,
    index: Value,
    v: Value,
) -> Result<Value, Stop>
    requires list { IsA arena.old.objects AList l.cell }
    requires index_leads { Leads arena.old.objects index }
    requires leads { Leads arena.old.objects v }
    requires told { Tells C.Constants consts.now v }
    requires all_told { TellsAll C.Constants consts.now arena.old }
    ensures { Does C.Constants consts.now arena.old arena.new result
        (λ heap see. insert_item heap l.cell (map see.value (items_at arena.old l.cell)) (see.value index) (see.value v)) }
{
    match number_of(arena, index) {
        Ok(number) => {
            let at = place_before(list_len(arena, l), number);
            put_item(arena, consts, l, at, v)
        }
        Err(fault) => Err(Stop::Raises(fault)),
    }
}

/// `insert` of a list, with these arguments.
pub fn call_list_insert<C: Constants>(
    arena: &mut Arena,
    consts: &C,
    object: Value,
    args: &[Value],
    keys: &[(Value, Value)],
) -> Result<Value, Stop>
    requires list { IsList object }
    requires leads { Leads arena.old.objects object }
    requires few { length args.now < 2 ^ 32 }
    requires known { KnowsAll C.Constants consts.now arena.old args.now }
    requires all_told { TellsAll C.Constants consts.now arena.old }
    ensures { Does C.Constants consts.now arena.old arena.new result (calling_method builtins.ListInsert object args.now keys.now) }
{
    let l = list_number(object);
    match only_so_many(2, args, keys) {
        Ok(()) => insert(arena, consts, l, args[0], args[1]),
        Err(fault) => Err(Stop::Raises(fault)),
    }
}
