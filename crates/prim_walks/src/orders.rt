//! Order, visit by visit.

ghost use Rattle.std.specs.Prelude.{◌≡◌, length, map, min, IfOk, IfErr, IfSome};
ghost use Rattle.std.specs.Option.{option_map};
ghost use Rattle.arena_objects.specs.arena_heap.Values.{Leads};
ghost use Rattle.arena_objects.specs.arena_heap.Constants.{IsTold};
ghost use Rattle.arena_objects.specs.Keys.{AllTold};
ghost use Rattle.arena_objects.specs.Iterables.{items_in};
ghost use Rattle.py_primitives.specs.py_values.Equality.{equal_within};
ghost use Rattle.py_primitives.specs.Order.{order as order_of, order_within, order_items as order_of_items};
ghost use Rattle.prim_walks.specs.Plain.{plain, plain_heap};
ghost use Rattle.prim_walks.specs.Orders.{plain_order, plain_answer, BothLead};
ghost use Rattle.prim_walks.specs.Runs.{run};

use crate::budget::{Budget, Halt};
use crate::equality::equal_values;
use crate::ranking::{Ranking, rank};
use arena_objects::{Arena, Constants, Value, item_at};
use py_primitives::limits::MAX_WALK_DEPTH;
use std::cmp::Ordering;

/// Two values that have no order.
#[derive(Clone, Copy, Debug, PartialEq, Eq)]
pub struct Unordered {
    pub left: Value,
    pub right: Value,
}

/// The order of two values, or two values in them that have none. It is None where the comparison goes too deep.
pub fn order<C: Constants>(
    arena: &Arena,
    consts: &C,
    a: Value,
    b: Value,
) -> Option<Result<Ordering, Unordered>>
    requires a_leads { Leads arena.now.objects a }
    requires b_leads { Leads arena.now.objects b }
    requires a_told { IsTold (C.text_of consts.now) (C.items_of consts.now) a }
    requires b_told { IsTold (C.text_of consts.now) (C.items_of consts.now) b }
    requires all_told { AllTold (C.text_of consts.now) (C.items_of consts.now) arena.now.objects }
    ensures answer { option_map (plain_order (C.text_of consts.now) (C.items_of consts.now)) result
        ≡ (order_of (plain_heap (C.text_of consts.now) (C.items_of consts.now) arena.now)
        (plain (C.text_of consts.now) (C.items_of consts.now) a) (plain (C.text_of consts.now) (C.items_of consts.now) b)).answer }
    ensures lead { IfSome result (λ found. IfErr found (BothLead arena.now.objects)) }
{
    let mut budget = Budget { left: None };
    order_values(arena, consts, a, b, MAX_WALK_DEPTH as u32, &mut budget).ok()
}

/// How many visits the order of two values takes, `most` at most. It goes no further.
pub fn visits_order<C: Constants>(arena: &Arena, consts: &C, a: Value, b: Value, most: u64) -> u64
    requires a_leads { Leads arena.now.objects a }
    requires b_leads { Leads arena.now.objects b }
    requires a_told { IsTold (C.text_of consts.now) (C.items_of consts.now) a }
    requires b_told { IsTold (C.text_of consts.now) (C.items_of consts.now) b }
    requires all_told { AllTold (C.text_of consts.now) (C.items_of consts.now) arena.now.objects }
    ensures visits { result
        ≡ min (order_of (plain_heap (C.text_of consts.now) (C.items_of consts.now) arena.now)
        (plain (C.text_of consts.now) (C.items_of consts.now) a) (plain (C.text_of consts.now) (C.items_of consts.now) b)).visits most }
{
    let mut budget = Budget { left: Some(most) };
    let _ = order_values(arena, consts, a, b, MAX_WALK_DEPTH as u32, &mut budget);
    budget.made_of(most)
}

/// Orders two values, no deeper than this, within the budget.
#[cycle(order_values)]
fn order_values<C: Constants>(
    arena: &Arena,
    consts: &C,
    a: Value,
    b: Value,
    depth: u32,
    budget: &mut Budget,
) -> Result<Result<Ordering, Unordered>, Halt>
    requires a_leads { Leads arena.now.objects a }
    requires b_leads { Leads arena.now.objects b }
    requires a_told { IsTold (C.text_of consts.now) (C.items_of consts.now) a }
    requires b_told { IsTold (C.text_of consts.now) (C.items_of consts.now) b }
    requires all_told { AllTold (C.text_of consts.now) (C.items_of consts.now) arena.now.objects }
    ensures ran { run (order_within (plain_heap (C.text_of consts.now) (C.items_of consts.now) arena.now) depth
        (plain (C.text_of consts.now) (C.items_of consts.now) a) (plain (C.text_of consts.now) (C.items_of consts.now) b)) budget.old.left
        ≡ (plain_answer (C.text_of consts.now) (C.items_of consts.now) result, budget.new.left) }
    ensures lead { IfOk result (λ found. IfErr found (BothLead arena.now.objects)) }
{
    if depth == 0 {
        return Err(Halt::TooDeep);
    }
    match budget.spend() {
        Ok(()) => {}
        Err(halt) => return Err(halt),
    }
    match rank(arena, consts, a, b) {
        Ranking::Decided(ordering) => Ok(Ok(ordering)),
        Ranking::Items(m, n) => order_items(arena, consts, a, b, m, n, depth - 1, budget),
        Ranking::Unordered => Ok(Err(Unordered { left: a, right: b })),
    }
}

/// Orders the items of two lists or tuples: by the first pair that differs, or else by their counts.
#[cycle(order_values)]
fn order_items<C: Constants>(
    arena: &Arena,
    consts: &C,
    a: Value,
    b: Value,
    m: u32,
    n: u32,
    depth: u32,
    budget: &mut Budget,
) -> Result<Result<Ordering, Unordered>, Halt>
    requires a_leads { Leads arena.now.objects a }
    requires b_leads { Leads arena.now.objects b }
    requires a_told { IsTold (C.text_of consts.now) (C.items_of consts.now) a }
    requires b_told { IsTold (C.text_of consts.now) (C.items_of consts.now) b }
    requires all_told { AllTold (C.text_of consts.now) (C.items_of consts.now) arena.now.objects }
    requires a_count { m ≡ length (items_in (C.items_of consts.now) arena.now a) }
    requires b_count { n ≡ length (items_in (C.items_of consts.now) arena.now b) }
    ensures ran { run (order_of_items (equal_within (plain_heap (C.text_of consts.now) (C.items_of consts.now) arena.now) depth)
        (order_within (plain_heap (C.text_of consts.now) (C.items_of consts.now) arena.now) depth)
        (map (plain (C.text_of consts.now) (C.items_of consts.now)) (items_in (C.items_of consts.now) arena.now a))
        (map (plain (C.text_of consts.now) (C.items_of consts.now)) (items_in (C.items_of consts.now) arena.now b))) budget.old.left
        ≡ (plain_answer (C.text_of consts.now) (C.items_of consts.now) result, budget.new.left) }
    ensures lead { IfOk result (λ found. IfErr found (BothLead arena.now.objects)) }
{
    for at in 0..m.min(n) {
        let x = item_at(arena, consts, a, at);
        let y = item_at(arena, consts, b, at);
        match equal_values(arena, consts, x, y, depth, budget) {
            Ok(true) => {}
            Ok(false) => return order_values(arena, consts, x, y, depth, budget),
            Err(halt) => return Err(halt),
        }
    }
    Ok(Ok(m.cmp(&n)))
}
