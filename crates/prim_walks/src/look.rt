//! What a walk sees of a value.

ghost use Rattle.std.specs.Prelude.{◌≡◌};
ghost use Rattle.arena_objects.specs.arena_heap.Values.{Leads};
ghost use Rattle.arena_objects.specs.arena_heap.Constants.{IsTold};
ghost use Rattle.py_primitives.specs.py_values.Shown.{shown};
ghost use Rattle.prim_walks.specs.Plain.{plain, plain_heap};
ghost use Rattle.prim_walks.specs.Looks.{seen, IsLook};

use arena_objects::{
    Arena, Constants, DictNo, Value, list_len, range_parts, text_bytes, tuple_len,
};

/// What a walk sees of a value. A tuple or list comes with its count of items.
#[derive(Clone, Copy)]
pub enum Look<'a> {
    Nothing,
    Number(i32),
    Text(&'a [u8]),
    Tuple(u32),
    Items(u32),
    Pairs(DictNo),
    Range { start: i32, stop: i32, step: i32 },
    Other,
}

/// A look at a value.
pub fn look_at<'a, C: Constants>(arena: &'a Arena, consts: &'a C, v: Value) -> Look<'a>
    requires leads { Leads arena.now.objects v }
    requires told { IsTold (C.text_of consts.now) (C.items_of consts.now) v }
    ensures shown { seen (C.text_of consts.now) (C.items_of consts.now) arena.now v result
        ≡ shown (plain_heap (C.text_of consts.now) (C.items_of consts.now) arena.now)
        (plain (C.text_of consts.now) (C.items_of consts.now) v) }
    ensures parts { IsLook (C.text_of consts.now) (C.items_of consts.now) arena.now v result }
{
    match v {
        Value::None => Look::Nothing,
        Value::Bool(b) => Look::Number(b as i32),
        Value::Int(n) => Look::Number(n),
        Value::Str(_) | Value::Text(_) => Look::Text(text_bytes(arena, consts, v)),
        Value::Fixed(c) => Look::Tuple(consts.len(c).unwrap()),
        Value::Empty => Look::Tuple(0),
        Value::Tuple(t) => Look::Tuple(tuple_len(arena, t)),
        Value::List(l) => Look::Items(list_len(arena, l)),
        Value::Dict(d) => Look::Pairs(d),
        Value::Range(r) => {
            let (start, stop, step) = range_parts(arena, r);
            Look::Range { start, stop, step }
        }
        _ => Look::Other,
    }
}
