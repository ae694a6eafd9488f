//! What a look at two values leaves to be compared.

ghost use Rattle.std.specs.Prelude.{◌≡◌, ◌≢◌, Bool, false, nat_eq, length, pos, if◌then◌else◌};
ghost use Rattle.py_primitives.specs.mpy_base.Val.{Val as PlainValue};
ghost use Rattle.py_primitives.specs.mpy_base.World.{ADict, IsA, pairs_at};
ghost use Rattle.arena_objects.specs.arena_heap.Values.{Leads};
ghost use Rattle.arena_objects.specs.arena_heap.Constants.{IsTold};
ghost use Rattle.py_primitives.specs.py_values.Shown.{shown};
ghost use Rattle.py_primitives.specs.py_values.Equality.{Walk, equal_shown};
ghost use Rattle.prim_walks.specs.Plain.{plain, plain_heap};
ghost use Rattle.prim_walks.specs.Meetings.{met, IsMeeting};

use crate::identity::is_same;
use crate::look::{Look, look_at};
use crate::ranges::{is_one_number, is_same_range};
use arena_objects::{Arena, Constants, DictNo, Value, dict_len};

/// What a look at two values leaves to be compared.
#[derive(Clone, Copy)]
pub(crate) enum Meeting {
    Decided(bool),
    /// As many items on either side.
    Items(u32),
    Pairs(DictNo, DictNo),
}

/// Lists and tuples of different length differ at once.
fn of_counts(m: u32, n: u32) -> Meeting
    ensures { result ≡ (if nat_eq m n then Meeting.Items m else Meeting.Decided false) }
{
    if m == n {
        Meeting::Items(m)
    } else {
        Meeting::Decided(false)
    }
}

/// And so do dicts.
fn of_dicts(arena: &Arena, d: DictNo, e: DictNo) -> Meeting
    requires first { IsA arena.now.objects ADict d.cell }
    requires second { IsA arena.now.objects ADict e.cell }
    ensures { result ≡ (if nat_eq (length (pairs_at arena.now d.cell)) (length (pairs_at arena.now e.cell)) then Meeting.Pairs d e else Meeting.Decided false) }
{
    if dict_len(arena, d) == dict_len(arena, e) {
        Meeting::Pairs(d, e)
    } else {
        Meeting::Decided(false)
    }
}

/// What two values leave to be compared.
pub(crate) fn meet<C: Constants>(arena: &Arena, consts: &C, a: Value, b: Value) -> Meeting
    requires a_leads { Leads arena.now.objects a }
    requires b_leads { Leads arena.now.objects b }
    requires a_told { IsTold (C.text_of consts.now) (C.items_of consts.now) a }
    requires b_told { IsTold (C.text_of consts.now) (C.items_of consts.now) b }
    ensures met { (equal : PlainValue → PlainValue → Walk Bool)
        → met (C.text_of consts.now) (C.items_of consts.now) arena.now a b equal result
        ≡ equal_shown (plain_heap (C.text_of consts.now) (C.items_of consts.now) arena.now) equal
        (plain (C.text_of consts.now) (C.items_of consts.now) a) (plain (C.text_of consts.now) (C.items_of consts.now) b)
        (shown (plain_heap (C.text_of consts.now) (C.items_of consts.now) arena.now)
        (plain (C.text_of consts.now) (C.items_of consts.now) a))
        (shown (plain_heap (C.text_of consts.now) (C.items_of consts.now) arena.now)
        (plain (C.text_of consts.now) (C.items_of consts.now) b)) }
    ensures parts { IsMeeting (C.text_of consts.now) (C.items_of consts.now) arena.now a b result }
{
    let same = is_same(a, b);
    let other = look_at(arena, consts, b);
    match look_at(arena, consts, a) {
        Look::Number(m) => match other {
            Look::Number(n) => Meeting::Decided(is_one_number(m, n)),
            _ => Meeting::Decided(same),
        },
        Look::Text(s) => match other {
            Look::Text(t) => Meeting::Decided(s == t),
            _ => Meeting::Decided(same),
        },
        Look::Tuple(m) => match other {
            Look::Tuple(n) => of_counts(m, n),
            _ => Meeting::Decided(same),
        },
        Look::Items(m) => match other {
            Look::Items(n) => of_counts(m, n),
            _ => Meeting::Decided(same),
        },
        Look::Pairs(d) => match other {
            Look::Pairs(e) => of_dicts(arena, d, e),
            _ => Meeting::Decided(same),
        },
        Look::Range { start, stop, step } => match other {
            Look::Range {
                start: first,
                stop: last,
                step: way,
            } => { Meeting::Decided(is_same_range(start, stop, step, first, last, way)) }
            _ => Meeting::Decided(same),
        },
        _ => Meeting::Decided(same),
    }
}
