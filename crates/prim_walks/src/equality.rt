//! Equality, visit by visit.

ghost use Rattle.std.specs.Prelude.{◌≡◌, length, map, min};
ghost use Rattle.py_primitives.specs.mpy_base.World.{ADict, IsA, pairs_at};
ghost use Rattle.arena_objects.specs.arena_heap.Values.{Leads};
ghost use Rattle.arena_objects.specs.arena_heap.Constants.{IsTold};
ghost use Rattle.arena_objects.specs.Keys.{AllTold};
ghost use Rattle.arena_objects.specs.Iterables.{items_in};
ghost use Rattle.py_primitives.specs.py_values.Equality.{equal as equality, equal_within, all_equal, all_found};
ghost use Rattle.prim_walks.specs.Plain.{plain, plain_pair, plain_heap};
ghost use Rattle.prim_walks.specs.Runs.{run};

use crate::budget::{Budget, Halt};
use crate::meeting::{Meeting, meet};
use crate::pairs::pair_at;
use arena_objects::{Arena, Constants, DictNo, Value, dict_get, dict_len, item_at};
use py_primitives::limits::MAX_WALK_DEPTH;

/// Whether two values are equal, or None where the comparison goes too deep.
pub fn equal<C: Constants>(arena: &Arena, consts: &C, a: Value, b: Value) -> Option<bool>
    requires a_leads { Leads arena.now.objects a }
    requires b_leads { Leads arena.now.objects b }
    requires a_told { IsTold (C.text_of consts.now) (C.items_of consts.now) a }
    requires b_told { IsTold (C.text_of consts.now) (C.items_of consts.now) b }
    requires all_told { AllTold (C.text_of consts.now) (C.items_of consts.now) arena.now.objects }
    ensures answer { result
        ≡ (equality (plain_heap (C.text_of consts.now) (C.items_of consts.now) arena.now)
        (plain (C.text_of consts.now) (C.items_of consts.now) a) (plain (C.text_of consts.now) (C.items_of consts.now) b)).answer }
{
    let mut budget = Budget { left: None };
    equal_values(arena, consts, a, b, MAX_WALK_DEPTH as u32, &mut budget).ok()
}

/// How many visits the comparison of two values makes, `most` at most. It goes no further.
pub fn visits_equal<C: Constants>(arena: &Arena, consts: &C, a: Value, b: Value, most: u64) -> u64
    requires a_leads { Leads arena.now.objects a }
    requires b_leads { Leads arena.now.objects b }
    requires a_told { IsTold (C.text_of consts.now) (C.items_of consts.now) a }
    requires b_told { IsTold (C.text_of consts.now) (C.items_of consts.now) b }
    requires all_told { AllTold (C.text_of consts.now) (C.items_of consts.now) arena.now.objects }
    ensures visits { result
        ≡ min (equality (plain_heap (C.text_of consts.now) (C.items_of consts.now) arena.now)
        (plain (C.text_of consts.now) (C.items_of consts.now) a) (plain (C.text_of consts.now) (C.items_of consts.now) b)).visits most }
{
    let mut budget = Budget { left: Some(most) };
    let _ = equal_values(arena, consts, a, b, MAX_WALK_DEPTH as u32, &mut budget);
    budget.made_of(most)
}

/// Compares two values, no deeper than this, within the budget.
#[cycle(equal_values)]
pub(crate) fn equal_values<C: Constants>(
    arena: &Arena,
    consts: &C,
    a: Value,
    b: Value,
    depth: u32,
    budget: &mut Budget,
) -> Result<bool, Halt>
    requires a_leads { Leads arena.now.objects a }
    requires b_leads { Leads arena.now.objects b }
    requires a_told { IsTold (C.text_of consts.now) (C.items_of consts.now) a }
    requires b_told { IsTold (C.text_of consts.now) (C.items_of consts.now) b }
    requires all_told { AllTold (C.text_of consts.now) (C.items_of consts.now) arena.now.objects }
    ensures { run (equal_within (plain_heap (C.text_of consts.now) (C.items_of consts.now) arena.now) depth
        (plain (C.text_of consts.now) (C.items_of consts.now) a) (plain (C.text_of consts.now) (C.items_of consts.now) b)) budget.old.left
        ≡ (result, budget.new.left) }
{
    if depth == 0 {
        return Err(Halt::TooDeep);
    }
    match budget.spend() {
        Ok(()) => {}
        Err(halt) => return Err(halt),
    }
    match meet(arena, consts, a, b) {
        Meeting::Decided(same) => Ok(same),
        Meeting::Items(count) => equal_items(arena, consts, a, b, count, depth - 1, budget),
        Meeting::Pairs(d, e) => equal_pairs(arena, consts, d, e, depth - 1, budget),
    }
}

/// Compares the items of two lists or tuples, pair by pair.
#[cycle(equal_values)]
fn equal_items<C: Constants>(
    arena: &Arena,
    consts: &C,
    a: Value,
    b: Value,
    count: u32,
    depth: u32,
    budget: &mut Budget,
) -> Result<bool, Halt>
    requires a_leads { Leads arena.now.objects a }
    requires b_leads { Leads arena.now.objects b }
    requires a_told { IsTold (C.text_of consts.now) (C.items_of consts.now) a }
    requires b_told { IsTold (C.text_of consts.now) (C.items_of consts.now) b }
    requires all_told { AllTold (C.text_of consts.now) (C.items_of consts.now) arena.now.objects }
    requires a_count { count ≡ length (items_in (C.items_of consts.now) arena.now a) }
    requires b_count { count ≡ length (items_in (C.items_of consts.now) arena.now b) }
    ensures { run (all_equal (plain_heap (C.text_of consts.now) (C.items_of consts.now) arena.now)
        (equal_within (plain_heap (C.text_of consts.now) (C.items_of consts.now) arena.now) depth)
        (map (plain (C.text_of consts.now) (C.items_of consts.now)) (items_in (C.items_of consts.now) arena.now a))
        (map (plain (C.text_of consts.now) (C.items_of consts.now)) (items_in (C.items_of consts.now) arena.now b))) budget.old.left
        ≡ (result, budget.new.left) }
{
    for at in 0..count {
        let x = item_at(arena, consts, a, at);
        let y = item_at(arena, consts, b, at);
        match equal_values(arena, consts, x, y, depth, budget) {
            Ok(true) => {}
            Ok(false) => return Ok(false),
            Err(halt) => return Err(halt),
        }
    }
    Ok(true)
}

/// Compares the values of two dicts by the keys of the first.
#[cycle(equal_values)]
fn equal_pairs<C: Constants>(
    arena: &Arena,
    consts: &C,
    d: DictNo,
    e: DictNo,
    depth: u32,
    budget: &mut Budget,
) -> Result<bool, Halt>
    requires first { IsA arena.now.objects ADict d.cell }
    requires second { IsA arena.now.objects ADict e.cell }
    requires all_told { AllTold (C.text_of consts.now) (C.items_of consts.now) arena.now.objects }
    ensures { run (all_found (plain_heap (C.text_of consts.now) (C.items_of consts.now) arena.now)
        (equal_within (plain_heap (C.text_of consts.now) (C.items_of consts.now) arena.now) depth)
        (map (plain_pair (C.text_of consts.now) (C.items_of consts.now)) (pairs_at arena.now d.cell))
        (map (plain_pair (C.text_of consts.now) (C.items_of consts.now)) (pairs_at arena.now e.cell))) budget.old.left
        ≡ (result, budget.new.left) }
{
    arena.sound_law();
    for at in 0..dict_len(arena, d) {
        let (key, x) = pair_at(arena, consts, d, at);
        let Some(y) = dict_get(arena, consts, e, key) else {
            return Ok(false);
        };
        match equal_values(arena, consts, x, y, depth, budget) {
            Ok(true) => {}
            Ok(false) => return Ok(false),
            Err(halt) => return Err(halt),
        }
    }
    Ok(true)
}
