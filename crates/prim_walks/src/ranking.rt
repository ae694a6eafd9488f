//! What a look at two values tells of their order.

ghost use Rattle.std.specs.Prelude.{◌≡◌, Bool, Result};
ghost use Rattle.std.specs.declared.cmp.Ordering.{Ordering as Rank};
ghost use Rattle.py_primitives.specs.mpy_base.Val.{Val as PlainValue};
ghost use Rattle.arena_objects.specs.arena_heap.Values.{Leads};
ghost use Rattle.arena_objects.specs.arena_heap.Constants.{IsTold};
ghost use Rattle.py_primitives.specs.py_values.Shown.{shown};
ghost use Rattle.py_primitives.specs.py_values.Equality.{Walk};
ghost use Rattle.py_primitives.specs.Order.{order_shown, Unordered as PlainUnordered};
ghost use Rattle.prim_walks.specs.Plain.{plain, plain_heap};
ghost use Rattle.prim_walks.specs.Orders.{ranked, IsRanking};

use crate::look::{Look, look_at};
use arena_objects::{Arena, Constants, Value};
use std::cmp::Ordering;

/// What a look at two values tells of their order.
#[derive(Clone, Copy)]
pub(crate) enum Ranking {
    Decided(Ordering),
    /// That of their items, of which these are the numbers on the left and on the right.
    Items(u32, u32),
    Unordered,
}

/// What two values tell of their order.
pub(crate) fn rank<C: Constants>(arena: &Arena, consts: &C, a: Value, b: Value) -> Ranking
    requires a_leads { Leads arena.now.objects a }
    requires b_leads { Leads arena.now.objects b }
    requires a_told { IsTold (C.text_of consts.now) (C.items_of consts.now) a }
    requires b_told { IsTold (C.text_of consts.now) (C.items_of consts.now) b }
    ensures ranked { (equal : PlainValue → PlainValue → Walk Bool) (order : PlainValue → PlainValue → Walk (Result Rank PlainUnordered))
        → ranked (C.text_of consts.now) (C.items_of consts.now) arena.now a b equal order result
        ≡ order_shown equal order (plain (C.text_of consts.now) (C.items_of consts.now) a)
        (plain (C.text_of consts.now) (C.items_of consts.now) b)
        (shown (plain_heap (C.text_of consts.now) (C.items_of consts.now) arena.now)
        (plain (C.text_of consts.now) (C.items_of consts.now) a))
        (shown (plain_heap (C.text_of consts.now) (C.items_of consts.now) arena.now)
        (plain (C.text_of consts.now) (C.items_of consts.now) b)) }
    ensures parts { IsRanking (C.text_of consts.now) (C.items_of consts.now) arena.now a b result }
{
    let other = look_at(arena, consts, b);
    match look_at(arena, consts, a) {
        Look::Number(m) => match other {
            Look::Number(n) => Ranking::Decided(m.cmp(&n)),
            _ => Ranking::Unordered,
        },
        Look::Text(s) => match other {
            Look::Text(t) => Ranking::Decided(s.cmp(&t)),
            _ => Ranking::Unordered,
        },
        Look::Tuple(m) => match other {
            Look::Tuple(n) => Ranking::Items(m, n),
            _ => Ranking::Unordered,
        },
        Look::Items(m) => match other {
            Look::Items(n) => Ranking::Items(m, n),
            _ => Ranking::Unordered,
        },
        _ => Ranking::Unordered,
    }
}
