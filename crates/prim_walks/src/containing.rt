//! Whether a list or tuple has an item that equals a value, visit by visit.

ghost use Rattle.std.specs.Prelude.{◌≡◌, map, min};
ghost use Rattle.arena_objects.specs.arena_heap.Values.{Leads};
ghost use Rattle.arena_objects.specs.arena_heap.Constants.{IsTold};
ghost use Rattle.arena_objects.specs.Keys.{AllTold};
ghost use Rattle.arena_objects.specs.Iterables.{items_in};
ghost use Rattle.py_primitives.specs.Operators.{contains_equal};
ghost use Rattle.prim_walks.specs.Plain.{plain, plain_heap};
ghost use Rattle.prim_walks.specs.Runs.{run};

use crate::budget::{Budget, Halt};
use crate::equality::equal_values;
use arena_objects::{Arena, Constants, Value, item_at, item_count};
use py_primitives::limits::MAX_WALK_DEPTH;

/// Whether an iterable has an item that equals a value, or None where a comparison goes too deep. A str has no items.
pub fn contains<C: Constants>(arena: &Arena, consts: &C, over: Value, v: Value) -> Option<bool>
    requires over_leads { Leads arena.now.objects over }
    requires leads { Leads arena.now.objects v }
    requires over_told { IsTold (C.text_of consts.now) (C.items_of consts.now) over }
    requires told { IsTold (C.text_of consts.now) (C.items_of consts.now) v }
    requires all_told { AllTold (C.text_of consts.now) (C.items_of consts.now) arena.now.objects }
    ensures answer { result
        ≡ (contains_equal (plain_heap (C.text_of consts.now) (C.items_of consts.now) arena.now)
        (plain (C.text_of consts.now) (C.items_of consts.now) v)
        (map (plain (C.text_of consts.now) (C.items_of consts.now)) (items_in (C.items_of consts.now) arena.now over))).answer }
{
    let mut budget = Budget { left: None };
    find_equal(arena, consts, over, v, &mut budget).ok()
}

/// How many visits the search for an equal item takes, `most` at most. It goes no further.
pub fn visits_contains<C: Constants>(
    arena: &Arena,
    consts: &C,
    over: Value,
    v: Value,
    most: u64,
) -> u64
    requires over_leads { Leads arena.now.objects over }
    requires leads { Leads arena.now.objects v }
    requires over_told { IsTold (C.text_of consts.now) (C.items_of consts.now) over }
    requires told { IsTold (C.text_of consts.now) (C.items_of consts.now) v }
    requires all_told { AllTold (C.text_of consts.now) (C.items_of consts.now) arena.now.objects }
    ensures visits { result
        ≡ min (contains_equal (plain_heap (C.text_of consts.now) (C.items_of consts.now) arena.now)
        (plain (C.text_of consts.now) (C.items_of consts.now) v)
        (map (plain (C.text_of consts.now) (C.items_of consts.now)) (items_in (C.items_of consts.now) arena.now over))).visits most }
{
    let mut budget = Budget { left: Some(most) };
    let _ = find_equal(arena, consts, over, v, &mut budget);
    budget.made_of(most)
}

/// Looks for an equal item, within the budget.
fn find_equal<C: Constants>(
    arena: &Arena,
    consts: &C,
    over: Value,
    v: Value,
    budget: &mut Budget,
) -> Result<bool, Halt>
    requires over_leads { Leads arena.now.objects over }
    requires leads { Leads arena.now.objects v }
    requires over_told { IsTold (C.text_of consts.now) (C.items_of consts.now) over }
    requires told { IsTold (C.text_of consts.now) (C.items_of consts.now) v }
    requires all_told { AllTold (C.text_of consts.now) (C.items_of consts.now) arena.now.objects }
    ensures { run (contains_equal (plain_heap (C.text_of consts.now) (C.items_of consts.now) arena.now)
        (plain (C.text_of consts.now) (C.items_of consts.now) v)
        (map (plain (C.text_of consts.now) (C.items_of consts.now)) (items_in (C.items_of consts.now) arena.now over))) budget.old.left
        ≡ (result, budget.new.left) }
{
    for at in 0..item_count(arena, consts, over) {
        let item = item_at(arena, consts, over, at);
        match equal_values(arena, consts, item, v, MAX_WALK_DEPTH as u32, budget) {
            Ok(true) => return Ok(true),
            Ok(false) => {}
            Err(halt) => return Err(halt),
        }
    }
    Ok(false)
}
