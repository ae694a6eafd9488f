//! `chr`: a number of 7 bits as a text of one byte.

ghost use Rattle.std.specs.Prelude.{◌≡◌, ◌<◌, ◌^◌, ◌⊎◌, pos, ◌<ℤ◌, [], ◌∷◌, length, IfSome, MatchOption};
ghost use Rattle.prim_operators.specs.mpy_base.declared.builtin.Builtin.TheVariants as builtins;
ghost use Rattle.prim_operators.specs.arena_heap.Values.{Leads};
ghost use Rattle.prim_operators.specs.py_primitives.Outcome.{making_text};
ghost use Rattle.prim_operators.specs.py_primitives.Calls.{with_number, character as character_in};
ghost use Rattle.prim_operators.specs.prim_faults.Sights.{calling, TellsAll, KnowsAll, Does};

use crate::arguments::one_argument;
use crate::numbers::number_of;
use prim_operators::{Arena, Constants, Fault, Stop, Value, make_byte};

/// The byte that has this code, if it is one below 0x80.
fn ascii_code(z: i32) -> Option<u8>
    ensures code { MatchOption result ((z <ℤ pos 0) ⊎ (pos 127 <ℤ z)) (λ byte. z ≡ pos byte) }
    ensures ascii { IfSome result (λ byte. byte < 128) }
{
    if z < 0 || z > 127 {
        return None;
    }
    Some(z as u8)
}

/// A text of one byte.
pub fn letter<C: Constants>(arena: &mut Arena, _consts: &C, byte: u8) -> Result<Value, Stop>
    requires ascii { byte < 128 }
    requires all_told { TellsAll C.Constants _consts.now arena.old }
    ensures { Does C.Constants _consts.now arena.old arena.new result (λ heap see. making_text heap (byte ∷ [])) }
{
    match make_byte(arena, byte) {
        Ok(letter) => Ok(Value::Text(letter)),
        Err(room) => Err(Stop::Full(room)),
    }
}

/// The character that has this code.
fn character<C: Constants>(arena: &mut Arena, consts: &C, z: i32) -> Result<Value, Stop>
    requires all_told { TellsAll C.Constants consts.now arena.old }
    ensures { Does C.Constants consts.now arena.old arena.new result (λ heap see. character_in heap z) }
{
    match ascii_code(z) {
        Some(byte) => letter(arena, consts, byte),
        None => Err(Stop::Raises(Fault::NoCode)),
    }
}

/// `chr` of one value.
fn chr_of<C: Constants>(arena: &mut Arena, consts: &C, v: Value) -> Result<Value, Stop>
    requires leads { Leads arena.old.objects v }
    requires all_told { TellsAll C.Constants consts.now arena.old }
    ensures { Does C.Constants consts.now arena.old arena.new result (λ heap see. with_number heap (see.value v) (character_in heap)) }
{
    match number_of(arena, v) {
        Ok(z) => character(arena, consts, z),
        Err(fault) => Err(Stop::Raises(fault)),
    }
}

/// `chr` of these arguments.
pub fn call_chr<C: Constants>(
    arena: &mut Arena,
    consts: &C,
    args: &[Value],
    keys: &[(Value, Value)],
) -> Result<Value, Stop>
    requires few { length args.now < 2 ^ 32 }
    requires known { KnowsAll C.Constants consts.now arena.old args.now }
    requires all_told { TellsAll C.Constants consts.now arena.old }
    ensures { Does C.Constants consts.now arena.old arena.new result (calling builtins.Chr args.now keys.now) }
{
    match one_argument(args, keys) {
        Ok(v) => chr_of(arena, consts, v),
        Err(fault) => Err(Stop::Raises(fault)),
    }
}
