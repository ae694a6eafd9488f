//! The texts of values: how long they are, how many visits they take, and the texts themselves.

ghost use Rattle.std.specs.Prelude.{◌≡◌, ◌≤◌, ◌<◌, ◌-◌, ◌^◌, length, min, take, drop, None, OnSome, IfSome, IfNone, All, vec_capacity};
ghost use Rattle.std.specs.Option.{option_map};
ghost use Rattle.arena_objects.specs.arena_heap.Values.{Leads};
ghost use Rattle.arena_objects.specs.arena_heap.Constants.{IsTold};
ghost use Rattle.arena_objects.specs.Keys.{AllTold};
ghost use Rattle.prim_walks.specs.Plain.{plain, plain_heap};
ghost use Rattle.prim_walks.specs.Whole.{text_of, WroteText};

use crate::budget::Budget;
use crate::parts::{Cutter, TextPart};
use crate::pen::Pen;
use crate::ruler::Ruler;
use crate::writer::Writer;
use crate::writing::write_value;
use arena_objects::{Arena, Constants, Value};
use py_primitives::limits::MAX_WALK_DEPTH;

/// Writes the text of a value: its str where it is raw, and else its repr. It gives None where the text goes too deep.
pub fn write_text<P: Pen, C: Constants>(
    arena: &Arena,
    consts: &C,
    v: Value,
    raw: bool,
    pen: &mut P,
) -> Option<()>
    requires leads { Leads arena.now.objects v }
    requires told { IsTold (C.text_of consts.now) (C.items_of consts.now) v }
    requires all_told { AllTold (C.text_of consts.now) (C.items_of consts.now) arena.now.objects }
    ensures text { OnSome result
        (WroteText P.Takes (text_of (plain_heap (C.text_of consts.now) (C.items_of consts.now) arena.now) raw
        (plain (C.text_of consts.now) (C.items_of consts.now) v)).answer pen.old pen.new) }
    ensures none { IfNone result
        ((text_of (plain_heap (C.text_of consts.now) (C.items_of consts.now) arena.now) raw
        (plain (C.text_of consts.now) (C.items_of consts.now) v)).answer ≡ None) }
{
    let mut budget = Budget { left: None };
    match write_value(
        arena,
        consts,
        v,
        raw,
        MAX_WALK_DEPTH as u32,
        &mut budget,
        pen,
    ) {
        Ok(()) => Some(()),
        Err(_) => None,
    }
}

/// How many bytes the text of a value has, or None where the text goes too deep. The count stands still at 2^64 - 1.
pub fn text_len<C: Constants>(arena: &Arena, consts: &C, v: Value, raw: bool) -> Option<u64>
    requires leads { Leads arena.now.objects v }
    requires told { IsTold (C.text_of consts.now) (C.items_of consts.now) v }
    requires all_told { AllTold (C.text_of consts.now) (C.items_of consts.now) arena.now.objects }
    ensures { result ≡ option_map (λ text. min (length text) (2 ^ 64 - 1))
        (text_of (plain_heap (C.text_of consts.now) (C.items_of consts.now) arena.now) raw
        (plain (C.text_of consts.now) (C.items_of consts.now) v)).answer }
{
    let mut ruler = Ruler { bytes: 0 };
    match write_text(arena, consts, v, raw, &mut ruler) {
        Some(()) => Some(ruler.bytes),
        None => None,
    }
}

/// How many visits the text of a value takes, `most` at most. It goes no further.
pub fn visits_text<C: Constants>(arena: &Arena, consts: &C, v: Value, raw: bool, most: u64) -> u64
    requires leads { Leads arena.now.objects v }
    requires told { IsTold (C.text_of consts.now) (C.items_of consts.now) v }
    requires all_told { AllTold (C.text_of consts.now) (C.items_of consts.now) arena.now.objects }
    ensures visits { result
        ≡ min (text_of (plain_heap (C.text_of consts.now) (C.items_of consts.now) arena.now) raw
        (plain (C.text_of consts.now) (C.items_of consts.now) v)).visits most }
{
    let mut budget = Budget { left: Some(most) };
    let mut ruler = Ruler { bytes: 0 };
    let _ = write_value(
        arena,
        consts,
        v,
        raw,
        MAX_WALK_DEPTH as u32,
        &mut budget,
        &mut ruler,
    );
    budget.made_of(most)
}

/// A part of the text of a value: its bytes from a place on, 4,096 at most. It gives None where the text goes too deep.
pub fn text_part<C: Constants>(
    arena: &Arena,
    consts: &C,
    v: Value,
    raw: bool,
    from: u64,
) -> Option<TextPart>
    requires leads { Leads arena.now.objects v }
    requires told { IsTold (C.text_of consts.now) (C.items_of consts.now) v }
    requires all_told { AllTold (C.text_of consts.now) (C.items_of consts.now) arena.now.objects }
    ensures part { option_map (λ part. take part.count part.bytes) result
        ≡ option_map (λ text. take 4096 (drop from text))
        (text_of (plain_heap (C.text_of consts.now) (C.items_of consts.now) arena.now) raw
        (plain (C.text_of consts.now) (C.items_of consts.now) v)).answer }
    ensures within { IfSome result (λ part. part.count ≤ 4096) }
    ensures ascii { IfSome result (λ part. All (λ b. b < 128) (take part.count part.bytes)) }
{
    let part = TextPart {
        bytes: [0; 4096],
        count: 0,
    };
    let mut cutter = Cutter { skip: from, part };
    match write_text(arena, consts, v, raw, &mut cutter) {
        Some(()) => Some(cutter.part),
        None => None,
    }
}

/// The text of a value, which is written in one walk over the bytes of a vector that has room for it. It gives None where
/// the text goes too deep.
pub fn whole_text<C: Constants>(
    arena: &Arena,
    consts: &C,
    v: Value,
    raw: bool,
    bytes: Vec<u8>,
) -> Option<Vec<u8>>
    requires leads { Leads arena.now.objects v }
    requires told { IsTold (C.text_of consts.now) (C.items_of consts.now) v }
    requires all_told { AllTold (C.text_of consts.now) (C.items_of consts.now) arena.now.objects }
    requires room { IfSome (text_of (plain_heap (C.text_of consts.now) (C.items_of consts.now) arena.now) raw
        (plain (C.text_of consts.now) (C.items_of consts.now) v)).answer (λ text. length text ≤ vec_capacity bytes) }
    ensures text { option_map (λ text. text.items) result
        ≡ (text_of (plain_heap (C.text_of consts.now) (C.items_of consts.now) arena.now) raw
        (plain (C.text_of consts.now) (C.items_of consts.now) v)).answer }
    ensures ascii { IfSome result (λ text. All (λ b. b < 128) text.items) }
{
    let mut bytes = bytes;
    bytes.clear();
    let mut writer = Writer { bytes };
    match write_text(arena, consts, v, raw, &mut writer) {
        Some(()) => Some(writer.bytes),
        None => None,
    }
}
