//! Exceptions and the handlers that take them.

ghost use Rattle.std.specs.Prelude.{◌≡◌, map, Some};
ghost use Rattle.std.specs.Option.{option_map};
ghost use Rattle.std.specs.List.{list_any};
ghost use Rattle.prim_builtins.specs.arena_heap.Values.{Leads};
ghost use Rattle.prim_builtins.specs.arena_heap.Constants.{IsTold};
ghost use Rattle.prim_builtins.specs.arena_objects.Keys.{AllTold};
ghost use Rattle.prim_builtins.specs.py_values.Shown.{shown};
ghost use Rattle.prim_builtins.specs.py_primitives.Operators.{op_match as match_in, match_kinds, members, all_of};
ghost use Rattle.prim_builtins.specs.py_primitives.Operators.{is_under as is_under_in, named_kind as named_kind_in};
ghost use Rattle.prim_builtins.specs.prim_walks.Plain.{plain, plain_heap};
ghost use Rattle.prim_builtins.specs.prim_faults.Outcomes.{IsOutcome};
ghost use Rattle.prim_types.specs.Members.{members_in};

use crate::kinds::{exception_kind, is_under, named_kind};
use crate::members::{member_at, member_count};
use mpy_base::Kind;
use prim_operators::{Arena, Constants, Fault, Stop, Value, items_law};

/// Whether one of these kinds takes exceptions of this one. It gives None where one of them is no kind.
fn takes<C: Constants>(arena: &Arena, consts: &C, kind: Kind, kinds: Value) -> Option<bool>
    requires leads { Leads arena.now.objects kinds }
    requires told { IsTold (C.text_of consts.now) (C.items_of consts.now) kinds }
    requires all_told { AllTold (C.text_of consts.now) (C.items_of consts.now) arena.now.objects }
    ensures { result ≡ option_map (list_any (is_under_in kind))
        (all_of named_kind_in (map (plain (C.text_of consts.now) (C.items_of consts.now))
        (members_in (C.items_of consts.now) arena.now kinds))) }
{
    let mut found = false;
    for at in 0..member_count(arena, consts, kinds) {
        match named_kind(member_at(arena, consts, kinds, at)) {
            Some(other) => found |= is_under(kind, other),
            None => return None,
        }
    }
    Some(found)
}

fn match_kind<C: Constants>(
    arena: &Arena,
    consts: &C,
    kind: Kind,
    kinds: Value,
) -> Result<Value, Stop>
    requires leads { Leads arena.now.objects kinds }
    requires told { IsTold (C.text_of consts.now) (C.items_of consts.now) kinds }
    requires all_told { AllTold (C.text_of consts.now) (C.items_of consts.now) arena.now.objects }
    ensures { IsOutcome (C.text_of consts.now) (C.items_of consts.now) arena.now arena.now result
        (match_kinds (plain_heap (C.text_of consts.now) (C.items_of consts.now) arena.now) (Some kind)
        (all_of named_kind_in (members (plain (C.text_of consts.now) (C.items_of consts.now) kinds)
        (shown (plain_heap (C.text_of consts.now) (C.items_of consts.now) arena.now)
        (plain (C.text_of consts.now) (C.items_of consts.now) kinds))))) }
{
    items_law(arena, consts, kinds);
    match takes(arena, consts, kind, kinds) {
        Some(found) => Ok(Value::Bool(found)),
        None => Err(Stop::Raises(Fault::UnsupportedMatch)),
    }
}

/// Whether a handler of the kind on the right, or of one of a tuple of kinds, takes the exception on the left.
pub fn op_match<C: Constants>(
    arena: &Arena,
    consts: &C,
    left: Value,
    right: Value,
) -> Result<Value, Stop>
    requires left_leads { Leads arena.now.objects left }
    requires right_leads { Leads arena.now.objects right }
    requires right_told { IsTold (C.text_of consts.now) (C.items_of consts.now) right }
    requires all_told { AllTold (C.text_of consts.now) (C.items_of consts.now) arena.now.objects }
    ensures { IsOutcome (C.text_of consts.now) (C.items_of consts.now) arena.now arena.now result
        (match_in (plain_heap (C.text_of consts.now) (C.items_of consts.now) arena.now)
        (plain (C.text_of consts.now) (C.items_of consts.now) left) (plain (C.text_of consts.now) (C.items_of consts.now) right)) }
{
    match exception_kind(arena, left) {
        Some(kind) => match_kind(arena, consts, kind, right),
        None => Err(Stop::Raises(Fault::UnsupportedMatch)),
    }
}
