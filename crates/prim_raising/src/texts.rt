//! The texts of faults, which are made.

ghost use Rattle.std.specs.Prelude.{◌≡◌, ◌<◌, ◌^◌, length, All, IsSome};
ghost use Rattle.mpy_base.specs.World.{AText, IsA, Later, text_at, with_text};
ghost use Rattle.prim_types.specs.arena_objects.Iterables.{or_nothing, spelled};
ghost use Rattle.prim_types.specs.py_primitives.Faults.{fault_text};
ghost use Rattle.prim_types.specs.py_primitives.Outcome.{making_text};
ghost use Rattle.prim_types.specs.prim_faults.Faults.{plain_fault, name_in};
ghost use Rattle.prim_types.specs.prim_faults.Sights.{under, TellsAll, KnowsStr, KnowsFault, Does};
ghost use Rattle.prim_raising.specs.Makings.{as_value, IsApart, HasCounts};

use mpy_base::NoRoom;
use prim_types::{
    Arena, Constants, Fault, StrNo, TextNo, Value, fault_byte, fault_len, text_bytes, text_fill,
};

/// The bytes of a constant text are below 0x80.
fn constant_law<C: Constants>(consts: &C, name: StrNo)
    requires { IsSome (C.text_of consts.now name) }
    ensures { All (λ b. b < 128) (or_nothing (C.text_of consts.now name)) }
{
    let _text = consts.text(name).unwrap();
}

/// The bytes of a str are below 0x80.
fn str_law<C: Constants>(arena: &Arena, consts: &C, name: Value)
    requires { KnowsStr C.Constants consts.now arena.now name }
    ensures { All (λ b. b < 128) (spelled (C.text_of consts.now) arena.now name) }
{
    let _text = text_bytes(arena, consts, name);
}

/// The bytes of the name that a fault has are below 0x80.
fn name_law<C: Constants>(arena: &Arena, consts: &C, fault: Fault)
    requires { KnowsFault C.Constants consts.now arena.now fault }
    ensures { All (λ b. b < 128) (under C.Constants consts.now name_in arena.now fault) }
{
    match fault {
        Fault::NoAttribute { name, .. } | Fault::NoSuchName(name) | Fault::NotImported(name) => {
            constant_law(consts, name)
        }
        Fault::UnknownKeyword(name) | Fault::RepeatedKeyword(name) | Fault::NotAStr(name) => {
            str_law(arena, consts, name)
        }
        Fault::NoModule { name, .. } => constant_law(consts, name),
        _ => {}
    }
}

/// A count fits 32 bits.
fn one_count(_count: u32)
    ensures { _count < 2 ^ 32 }
{}

/// Two counts fit 32 bits each.
fn two_counts(_first: u32, _second: u32)
    ensures { (_first < 2 ^ 32) × (_second < 2 ^ 32) }
{}

/// The counts of a fault fit 32 bits.
fn count_law(fault: Fault)
    ensures { HasCounts fault }
{
    match fault {
        Fault::WrongCount { takes, given } => two_counts(takes, given),
        Fault::TooFew { least, given } => two_counts(least, given),
        Fault::TooMany { most, given } => two_counts(most, given),
        Fault::Missing(count) | Fault::UnpacksMore(count) | Fault::UnpacksFewer(count) => one_count(
            count,
        ),
        _ => {}
    }
}

/// The bytes of a fault's text are below 0x80.
fn ascii_law<C: Constants>(arena: &Arena, consts: &C, fault: Fault)
    requires { KnowsFault C.Constants consts.now arena.now fault }
    ensures { All (λ b. b < 128) (fault_text (under C.Constants consts.now plain_fault arena.now fault)) }
{
    name_law(arena, consts, fault);
    count_law(fault);
}

/// Writes the text of a fault to a text of its length.
fn fill_fault<C: Constants>(arena: &mut Arena, consts: &C, t: TextNo, fault: Fault)
    requires text { IsA arena.old.objects AText t.cell }
    requires known { KnowsFault C.Constants consts.now arena.old fault }
    requires apart { IsApart t.cell fault }
    requires few { length (text_at arena.old t.cell) < 2 ^ 32 }
    requires room { length (text_at arena.old t.cell) ≡ length (fault_text (under C.Constants consts.now plain_fault arena.old fault)) }
    ensures filled { arena.new ≡ with_text arena.old t.cell (fault_text (under C.Constants consts.now plain_fault arena.old fault)) }
    ensures later { Later arena.old.objects arena.new.objects }
{
    ascii_law(arena, consts, fault);
    for at in 0..fault_len(arena, consts, fault) {
        let byte = fault_byte(arena, consts, fault, at);
        text_fill(arena, t, at as u32, byte);
    }
}

/// A text that is the text of a fault. The empty one is a constant.
pub(crate) fn make_fault_text<C: Constants>(
    arena: &mut Arena,
    consts: &C,
    fault: Fault,
) -> Result<Value, NoRoom>
    requires known { KnowsFault C.Constants consts.now arena.old fault }
    requires all_told { TellsAll C.Constants consts.now arena.old }
    ensures { Does C.Constants consts.now arena.old arena.new (as_value (λ v. v) result)
        (λ heap see. making_text heap (fault_text (under C.Constants consts.now plain_fault arena.old fault))) }
{
    let len = fault_len(arena, consts, fault);
    if len == 0 {
        consts.empty_law();
        return Ok(Value::Str(StrNo::Pool(1)));
    }
    arena.room_law();
    match arena.make_text(len as u64) {
        Ok(t) => {
            fill_fault(arena, consts, t, fault);
            Ok(Value::Text(t))
        }
        Err(room) => Err(room),
    }
}
