//! `int`.

ghost use Rattle.std.specs.Prelude.{◌≡◌, ◌+◌, ◌-◌, ◌*◌, ◌<◌, ◌≤◌, ◌^◌, ℕ, min, pos, neg_ℤ, length, map, reverse, ◌∷◌, true, IfSome, All};
ghost use Rattle.std.specs.Char.{is_ascii_digit};
ghost use Rattle.std.specs.Option.{option_map};
ghost use Rattle.mpy_base.specs.declared.builtin.Builtin.TheVariants as builtins;
ghost use Rattle.prim_builtins.specs.arena_heap.Values.{Leads};
ghost use Rattle.prim_builtins.specs.arena_heap.Constants.{IsTold};
ghost use Rattle.prim_builtins.specs.arena_objects.Keys.{AllTold};
ghost use Rattle.prim_builtins.specs.py_values.Small.{checked};
ghost use Rattle.prim_builtins.specs.py_values.Shown.{shown};
ghost use Rattle.prim_builtins.specs.py_primitives.Outcome.{gives};
ghost use Rattle.prim_builtins.specs.py_primitives.Operators.{gives_number};
ghost use Rattle.mpy_base.specs.Val.{Int};
ghost use Rattle.prim_builtins.specs.py_primitives.Calls.{call, int_of as int_in, gives_numeral, signed_number, with_number};
ghost use Rattle.prim_builtins.specs.py_primitives.Calls.{digits_number as digits_in, without_blanks, trimmed as trimmed_in};
ghost use Rattle.prim_builtins.specs.prim_walks.Plain.{plain, plain_pair, plain_heap};
ghost use Rattle.prim_builtins.specs.prim_faults.Faults.{IsKnown};
ghost use Rattle.prim_builtins.specs.prim_faults.Outcomes.{IsOutcome};
ghost use Rattle.prim_builtins.specs.prim_operators.Changeless.{IsAnswerOf};

use prim_builtins::{gives_count, number_of, one_argument};
use prim_operators::{Arena, Constants, Fault, Look, NumFault, Stop, Value, look_at};

/// Past all small integers.
const PAST: u64 = 2_147_483_648;

fn without_front(bytes: &[u8]) -> &[u8]
    ensures { result.now ≡ without_blanks bytes.now }
{
    let mut rest = bytes;
    'more: while let Some((byte, behind)) = rest.split_first() {
        if *byte != b' ' {
            return rest;
        }
        rest = behind;
    }
    rest
}

fn without_end(bytes: &[u8]) -> &[u8]
    ensures { result.now ≡ reverse (without_blanks (reverse bytes.now)) }
{
    let mut rest = bytes;
    'more: while let Some((byte, before)) = rest.split_last() {
        if *byte != b' ' {
            return rest;
        }
        rest = before;
    }
    rest
}

/// The bytes without the blanks at their ends.
fn trimmed(bytes: &[u8]) -> &[u8]
    ensures { result.now ≡ trimmed_in bytes.now }
{
    without_end(without_front(bytes))
}

/// A number with one digit more. It stands still at 2^31.
fn with_digit(number: u64, digit: u8) -> u64
    requires bound { number ≤ 2 ^ 31 }
    requires digit { is_ascii_digit digit ≡ true }
    ensures number { (n : ℕ) → number ≡ min n (2 ^ 31) → result ≡ min (10 * n + (digit - 48)) (2 ^ 31) }
    ensures bound { result ≤ 2 ^ 31 }
{
    (10 * number + u64::from(digit - b'0')).min(PAST)
}

/// The number that digits are, and 2^31 for each past it.
fn digits_number(digits: &[u8]) -> Option<u64>
    ensures number { result ≡ option_map (λ n. min n (2 ^ 31)) (digits_in digits.now) }
    ensures bound { IfSome result (λ n. n ≤ 2 ^ 31) }
{
    if digits.is_empty() {
        return None;
    }
    let mut number = 0;
    for digit in digits {
        if !digit.is_ascii_digit() {
            return None;
        }
        number = with_digit(number, *digit);
    }
    Some(number)
}

/// A number below 0, or the fault of one that is out of range.
fn gives_negative(n: u64) -> Result<Value, Stop>
    requires { n ≤ 2 ^ 31 }
    ensures { IsAnswerOf result (λ heap. gives_number heap (checked (neg_ℤ (pos n)))) }
{
    if n > 1_073_741_824 {
        return Err(Stop::Raises(Fault::Arithmetic(NumFault::Overflow)));
    }
    Ok(Value::Int(-(n as i32)))
}

fn negative(digits: &[u8]) -> Result<Value, Stop>
    ensures { IsAnswerOf result (λ heap. gives_numeral heap (option_map (λ n. neg_ℤ (pos n)) (digits_in digits.now))) }
{
    match digits_number(digits) {
        Some(n) => gives_negative(n),
        None => Err(Stop::Raises(Fault::NoNumeral)),
    }
}

fn positive(digits: &[u8]) -> Result<Value, Stop>
    ensures { IsAnswerOf result (λ heap. gives_numeral heap (option_map pos (digits_in digits.now))) }
{
    match digits_number(digits) {
        Some(n) => gives_count(n as usize),
        None => Err(Stop::Raises(Fault::NoNumeral)),
    }
}

fn with_sign(byte: u8, digits: &[u8], bytes: &[u8]) -> Result<Value, Stop>
    requires { bytes.now ≡ byte ∷ digits.now }
    ensures { IsAnswerOf result (λ heap. gives_numeral heap (signed_number bytes.now)) }
{
    if byte == b'-' {
        return negative(digits);
    }
    if byte == b'+' {
        return positive(digits);
    }
    positive(bytes)
}

/// The number of a sign and digits.
fn signed(bytes: &[u8]) -> Result<Value, Stop>
    ensures { IsAnswerOf result (λ heap. gives_numeral heap (signed_number bytes.now)) }
{
    match bytes.split_first() {
        Some((byte, digits)) => with_sign(*byte, digits, bytes),
        None => positive(bytes),
    }
}

/// The number that a value counts as.
fn number<C: Constants>(arena: &Arena, _consts: &C, v: Value) -> Result<Value, Stop>
    requires leads { Leads arena.now.objects v }
    requires all_told { AllTold (C.text_of _consts.now) (C.items_of _consts.now) arena.now.objects }
    ensures { IsOutcome (C.text_of _consts.now) (C.items_of _consts.now) arena.now arena.now result
        (with_number (plain_heap (C.text_of _consts.now) (C.items_of _consts.now) arena.now)
        (plain (C.text_of _consts.now) (C.items_of _consts.now) v)
        (λ z. gives (Int z) (plain_heap (C.text_of _consts.now) (C.items_of _consts.now) arena.now))) }
{
    match number_of(arena, v) {
        Ok(z) => Ok(Value::Int(z)),
        Err(fault) => Err(Stop::Raises(fault)),
    }
}

fn int_of<C: Constants>(arena: &Arena, consts: &C, v: Value) -> Result<Value, Stop>
    requires leads { Leads arena.now.objects v }
    requires told { IsTold (C.text_of consts.now) (C.items_of consts.now) v }
    requires all_told { AllTold (C.text_of consts.now) (C.items_of consts.now) arena.now.objects }
    ensures { IsOutcome (C.text_of consts.now) (C.items_of consts.now) arena.now arena.now result
        (int_in (plain_heap (C.text_of consts.now) (C.items_of consts.now) arena.now)
        (plain (C.text_of consts.now) (C.items_of consts.now) v)
        (shown (plain_heap (C.text_of consts.now) (C.items_of consts.now) arena.now)
        (plain (C.text_of consts.now) (C.items_of consts.now) v))) }
{
    match look_at(arena, consts, v) {
        Look::Text(bytes) => signed(trimmed(bytes)),
        Look::Nothing
        | Look::Number(_)
        | Look::Tuple(_)
        | Look::Items(_)
        | Look::Pairs(_)
        | Look::Range { .. }
        | Look::Other => number(arena, consts, v),
    }
}

/// `int` of these arguments.
pub fn call_int<C: Constants>(
    arena: &Arena,
    consts: &C,
    args: &[Value],
    keys: &[(Value, Value)],
) -> Result<Value, Stop>
    requires few { length args.now < 2 ^ 32 }
    requires known { All (IsKnown (C.text_of consts.now) (C.items_of consts.now) arena.now.objects) args.now }
    requires all_told { AllTold (C.text_of consts.now) (C.items_of consts.now) arena.now.objects }
    ensures { IsOutcome (C.text_of consts.now) (C.items_of consts.now) arena.now arena.now result
        (call (plain_heap (C.text_of consts.now) (C.items_of consts.now) arena.now) builtins.Int
        (map (plain (C.text_of consts.now) (C.items_of consts.now)) args.now)
        (map (plain_pair (C.text_of consts.now) (C.items_of consts.now)) keys.now)) }
{
    match one_argument(args, keys) {
        Ok(v) => int_of(arena, consts, v),
        Err(fault) => Err(Stop::Raises(fault)),
    }
}
