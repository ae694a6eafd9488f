//! `str` and `repr`.

ghost use Rattle.std.specs.Prelude.{◌≡◌, ◌+◌, ◌-◌, ◌<◌, ◌≤◌, ◌^◌, length, min, take, drop, map, IsSome, IfSome, All};
ghost use Rattle.mpy_base.specs.World.{AText, IsA, Later, text_at, with_text};
ghost use Rattle.prim_builtins.specs.arena_heap.Values.{Leads};
ghost use Rattle.prim_builtins.specs.arena_heap.Constants.{IsTold};
ghost use Rattle.prim_builtins.specs.arena_objects.Keys.{AllTold};
ghost use Rattle.prim_builtins.specs.py_primitives.Outcome.{after_walk, making_text};
ghost use Rattle.prim_builtins.specs.py_primitives.Calls.{call};
ghost use Rattle.prim_builtins.specs.prim_walks.Plain.{plain, plain_pair, plain_heap};
ghost use Rattle.prim_builtins.specs.prim_walks.Whole.{text_of as text_of_walk};
ghost use Rattle.prim_builtins.specs.prim_faults.Faults.{IsKnown};
ghost use Rattle.prim_builtins.specs.prim_faults.Outcomes.{IsOutcome};
ghost use Rattle.prim_types.specs.Texts.{found_text, text_in, IsApart, shown_by, written_over};

use prim_builtins::one_argument;
use prim_operators::{
    Arena, Constants, Fault, Stop, StrNo, TextNo, TextPart, Value, text_fill, text_len, text_part,
    visits_text, whole_text,
};

/// How many bytes a part has.
fn part_size(part: &TextPart) -> usize
    requires { part.now.count ≤ 4096 }
    ensures size { result ≡ length (take part.now.count part.now.bytes) }
    ensures few { result ≤ 4096 }
{
    let _room = part.bytes.len();
    part.count
}

/// Writes a part of a text over the bytes from a place on.
fn put_part(arena: &mut Arena, t: TextNo, from: u32, part: &[u8])
    requires text { IsA arena.old.objects AText t.cell }
    requires few { length (text_at arena.old t.cell) < 2 ^ 32 }
    requires within { from + length part.now ≤ length (text_at arena.old t.cell) }
    requires ascii { All (λ b. b < 128) part.now }
    ensures put { arena.new ≡ with_text arena.old t.cell (written_over from part.now (text_at arena.old t.cell)) }
    ensures later { Later arena.old.objects arena.new.objects }
{
    for at in 0..part.len() {
        text_fill(arena, t, from + at as u32, part[at]);
    }
}

/// Writes the next part of a value's text from a place on, and gives how many bytes it has.
fn put_next<C: Constants>(
    arena: &mut Arena,
    consts: &C,
    v: Value,
    raw: bool,
    t: TextNo,
    from: u32,
) -> u32
    requires leads { Leads arena.old.objects v }
    requires told { IsTold (C.text_of consts.now) (C.items_of consts.now) v }
    requires all_told { AllTold (C.text_of consts.now) (C.items_of consts.now) arena.old.objects }
    requires text { IsA arena.old.objects AText t.cell }
    requires few { length (text_at arena.old t.cell) < 2 ^ 32 }
    requires found { IsSome (found_text (C.text_of consts.now) (C.items_of consts.now) arena.old raw v) }
    requires room { length (text_at arena.old t.cell) ≡ length (text_in (C.text_of consts.now) (C.items_of consts.now) arena.old raw v) }
    requires within { from < length (text_at arena.old t.cell) }
    ensures count { result ≡ min 4096 (length (text_at arena.old t.cell) - from) }
    ensures put { arena.new
        ≡ with_text arena.old t.cell
        (written_over from (take 4096 (drop from (text_in (C.text_of consts.now) (C.items_of consts.now) arena.old raw v)))
        (text_at arena.old t.cell)) }
    ensures later { Later arena.old.objects arena.new.objects }
{
    let part = text_part(arena, consts, v, raw, from as u64).unwrap();
    put_part(arena, t, from, &part.bytes[..part.count]);
    part_size(&part) as u32
}

/// Writes the text of a value to a text of its length, part by part.
fn fill_by_parts<C: Constants>(
    arena: &mut Arena,
    consts: &C,
    v: Value,
    raw: bool,
    t: TextNo,
    count: u32,
)
    requires leads { Leads arena.old.objects v }
    requires told { IsTold (C.text_of consts.now) (C.items_of consts.now) v }
    requires all_told { AllTold (C.text_of consts.now) (C.items_of consts.now) arena.old.objects }
    requires text { IsA arena.old.objects AText t.cell }
    requires found { IsSome (found_text (C.text_of consts.now) (C.items_of consts.now) arena.old raw v) }
    requires apart { IsApart (C.text_of consts.now) (C.items_of consts.now) arena.old raw v t.cell }
    requires bytes { length (text_in (C.text_of consts.now) (C.items_of consts.now) arena.old raw v) ≡ count }
    requires room { length (text_at arena.old t.cell) ≡ count }
    ensures filled { arena.new ≡ with_text arena.old t.cell (text_in (C.text_of consts.now) (C.items_of consts.now) arena.old raw v) }
    ensures later { Later arena.old.objects arena.new.objects }
{
    let mut from = 0;
    while from < count {
        from += put_next(arena, consts, v, raw, t, from);
    }
}

/// The text of a value, which is written in one walk over bytes that the arena lends, or None where it lends none that
/// are enough.
fn text_at_once<C: Constants>(
    arena: &mut Arena,
    consts: &C,
    v: Value,
    raw: bool,
    count: u32,
) -> Option<Vec<u8>>
    requires leads { Leads arena.old.objects v }
    requires told { IsTold (C.text_of consts.now) (C.items_of consts.now) v }
    requires all_told { AllTold (C.text_of consts.now) (C.items_of consts.now) arena.old.objects }
    requires bytes { length (text_in (C.text_of consts.now) (C.items_of consts.now) arena.old raw v) ≡ count }
    ensures same { arena.new ≡ arena.old }
    ensures text { IfSome result (λ text. text.items ≡ text_in (C.text_of consts.now) (C.items_of consts.now) arena.old raw v) }
    ensures ascii { IfSome result (λ text. All (λ b. b < 128) text.items) }
{
    let scratch = arena.lend_scratch()?;
    if scratch.capacity() < count as usize {
        arena.return_scratch(scratch);
        return None;
    }
    whole_text(arena, consts, v, raw, scratch)
}

/// Writes the text of a value to a text of its length.
fn fill_text<C: Constants>(
    arena: &mut Arena,
    consts: &C,
    v: Value,
    raw: bool,
    t: TextNo,
    count: u32,
)
    requires leads { Leads arena.old.objects v }
    requires told { IsTold (C.text_of consts.now) (C.items_of consts.now) v }
    requires all_told { AllTold (C.text_of consts.now) (C.items_of consts.now) arena.old.objects }
    requires text { IsA arena.old.objects AText t.cell }
    requires found { IsSome (found_text (C.text_of consts.now) (C.items_of consts.now) arena.old raw v) }
    requires apart { IsApart (C.text_of consts.now) (C.items_of consts.now) arena.old raw v t.cell }
    requires bytes { length (text_in (C.text_of consts.now) (C.items_of consts.now) arena.old raw v) ≡ count }
    requires room { length (text_at arena.old t.cell) ≡ count }
    ensures filled { arena.new ≡ with_text arena.old t.cell (text_in (C.text_of consts.now) (C.items_of consts.now) arena.old raw v) }
    ensures later { Later arena.old.objects arena.new.objects }
{
    match text_at_once(arena, consts, v, raw, count) {
        Some(text) => {
            put_part(arena, t, 0, &text);
            arena.return_scratch(text);
        }
        None => fill_by_parts(arena, consts, v, raw, t, count),
    }
}

/// A text that is the text of a value, which has `len` bytes. The empty one is a constant.
fn make_filled<C: Constants>(
    arena: &mut Arena,
    consts: &C,
    v: Value,
    raw: bool,
    len: u64,
) -> Result<Value, Stop>
    requires leads { Leads arena.old.objects v }
    requires told { IsTold (C.text_of consts.now) (C.items_of consts.now) v }
    requires all_told { AllTold (C.text_of consts.now) (C.items_of consts.now) arena.old.objects }
    requires found { IsSome (found_text (C.text_of consts.now) (C.items_of consts.now) arena.old raw v) }
    requires len { len ≡ min (length (text_in (C.text_of consts.now) (C.items_of consts.now) arena.old raw v)) (2 ^ 64 - 1) }
    ensures { IsOutcome (C.text_of consts.now) (C.items_of consts.now) arena.old arena.new result
        (making_text (plain_heap (C.text_of consts.now) (C.items_of consts.now) arena.old)
        (text_in (C.text_of consts.now) (C.items_of consts.now) arena.old raw v)) }
{
    if len == 0 {
        consts.empty_law();
        return Ok(Value::Str(StrNo::Pool(1)));
    }
    arena.sound_law();
    consts.items_law();
    let before = arena.used().bytes;
    match arena.make_text(len) {
        Ok(t) => {
            let count = arena.used().bytes - before;
            fill_text(arena, consts, v, raw, t, count);
            Ok(Value::Text(t))
        }
        Err(room) => Err(Stop::Full(room)),
    }
}

/// The text of a value, which is made: its str where it is raw, and else its repr.
fn make_shown<C: Constants>(
    arena: &mut Arena,
    consts: &C,
    v: Value,
    raw: bool,
) -> Result<Value, Stop>
    requires leads { Leads arena.old.objects v }
    requires told { IsTold (C.text_of consts.now) (C.items_of consts.now) v }
    requires all_told { AllTold (C.text_of consts.now) (C.items_of consts.now) arena.old.objects }
    ensures { IsOutcome (C.text_of consts.now) (C.items_of consts.now) arena.old arena.new result
        (after_walk (plain_heap (C.text_of consts.now) (C.items_of consts.now) arena.old)
        (text_of_walk (plain_heap (C.text_of consts.now) (C.items_of consts.now) arena.old) raw
        (plain (C.text_of consts.now) (C.items_of consts.now) v))
        (making_text (plain_heap (C.text_of consts.now) (C.items_of consts.now) arena.old))) }
{
    match text_len(arena, consts, v, raw) {
        Some(len) => make_filled(arena, consts, v, raw, len),
        None => Err(Stop::Raises(Fault::TooDeep)),
    }
}

/// `str` of these arguments, or `repr` of them where it isn't raw.
pub fn call_shown<C: Constants>(
    arena: &mut Arena,
    consts: &C,
    args: &[Value],
    keys: &[(Value, Value)],
    raw: bool,
) -> Result<Value, Stop>
    requires few { length args.now < 2 ^ 32 }
    requires known { All (IsKnown (C.text_of consts.now) (C.items_of consts.now) arena.old.objects) args.now }
    requires all_told { AllTold (C.text_of consts.now) (C.items_of consts.now) arena.old.objects }
    ensures { IsOutcome (C.text_of consts.now) (C.items_of consts.now) arena.old arena.new result
        (call (plain_heap (C.text_of consts.now) (C.items_of consts.now) arena.old) (shown_by raw)
        (map (plain (C.text_of consts.now) (C.items_of consts.now)) args.now)
        (map (plain_pair (C.text_of consts.now) (C.items_of consts.now)) keys.now)) }
{
    match one_argument(args, keys) {
        Ok(v) => make_shown(arena, consts, v, raw),
        Err(fault) => Err(Stop::Raises(fault)),
    }
}

/// How many visits `call_shown` makes, `most` at most. It goes no further.
pub fn visits_call_shown<C: Constants>(
    arena: &Arena,
    consts: &C,
    args: &[Value],
    keys: &[(Value, Value)],
    raw: bool,
    most: u64,
) -> u64
    requires few { length args.now < 2 ^ 32 }
    requires known { All (IsKnown (C.text_of consts.now) (C.items_of consts.now) arena.now.objects) args.now }
    requires all_told { AllTold (C.text_of consts.now) (C.items_of consts.now) arena.now.objects }
    ensures { result ≡ min (call (plain_heap (C.text_of consts.now) (C.items_of consts.now) arena.now) (shown_by raw)
        (map (plain (C.text_of consts.now) (C.items_of consts.now)) args.now)
        (map (plain_pair (C.text_of consts.now) (C.items_of consts.now)) keys.now)).visits most }
{
    match one_argument(args, keys) {
        Ok(v) => visits_text(arena, consts, v, raw, most),
        Err(_) => 0,
    }
}
