//! The arguments of calls.

ghost use Rattle.std.specs.Prelude.{◌≡◌, ◌≢◌, ◌<◌, ◌≤◌, ◌^◌, [], ◌∷◌, length, IfOk, IfErr};
ghost use Rattle.prim_operators.specs.py_primitives.Calls.{Exactly, Between};
ghost use Rattle.prim_operators.specs.prim_faults.declared.fault.Fault.TheVariants as faults;
ghost use Rattle.prim_builtins.specs.Arguments.{IsRefusal, IsMiscount, IsMisgiven, IsOtherCount};

use prim_operators::{Fault, Value};

/// The fault of keyword arguments, if there are any.
fn no_keywords(keys: &[(Value, Value)]) -> Result<(), Fault>
    ensures none { IfOk result (λ _. keys.now ≡ []) }
    ensures some { IfErr result (λ fault. keys.now ≢ []) }
    ensures fault { IfErr result (λ fault. fault ≡ faults.NoKeywords) }
{
    if keys.is_empty() {
        Ok(())
    } else {
        Err(Fault::NoKeywords)
    }
}

/// Another count of arguments is refused.
fn so_many(takes: u32, args: &[Value]) -> Result<(), Fault>
    requires few { length args.now < 2 ^ 32 }
    ensures as_many { IfOk result (λ _. length args.now ≡ takes) }
    ensures others { IfErr result (λ fault. length args.now ≢ takes) }
    ensures fault { IfErr result (λ fault. fault ≡ faults.WrongCount takes (length args.now)) }
{
    let given = args.len() as u32;
    if given == takes {
        Ok(())
    } else {
        Err(Fault::WrongCount { takes, given })
    }
}

/// A count of arguments out of these bounds is refused.
fn between(least: u32, most: u32, args: &[Value]) -> Result<(), Fault>
    requires few { length args.now < 2 ^ 32 }
    ensures as_many { IfOk result (λ _. (least ≤ length args.now) × (length args.now ≤ most)) }
    ensures fault { IfErr result (IsMiscount least most (length args.now)) }
{
    let given = args.len() as u32;
    if given < least {
        Err(Fault::TooFew { least, given })
    } else if given > most {
        Err(Fault::TooMany { most, given })
    } else {
        Ok(())
    }
}

/// Whether there are `takes` arguments and no keyword arguments, or the fault of what is wrong.
pub fn only_so_many(takes: u32, args: &[Value], keys: &[(Value, Value)]) -> Result<(), Fault>
    requires few { length args.now < 2 ^ 32 }
    ensures as_many { IfOk result (λ _. length args.now ≡ takes) }
    ensures no_keywords { IfOk result (λ _. keys.now ≡ []) }
    ensures cause { IfErr result (IsMisgiven (IsOtherCount takes (length args.now)) keys.now) }
    ensures refused { IfErr result (λ fault. IsRefusal (Exactly takes) args.now keys.now fault) }
{
    match no_keywords(keys) {
        Ok(()) => so_many(takes, args),
        Err(fault) => Err(fault),
    }
}

/// The argument of a call that takes one and no keyword arguments, or the call's fault.
pub fn one_argument(args: &[Value], keys: &[(Value, Value)]) -> Result<Value, Fault>
    requires few { length args.now < 2 ^ 32 }
    ensures given { IfOk result (λ v. args.now ≡ v ∷ []) }
    ensures no_keywords { IfOk result (λ _. keys.now ≡ []) }
    ensures refused { IfErr result (λ fault. IsRefusal (Exactly 1) args.now keys.now fault) }
{
    match only_so_many(1, args, keys) {
        Ok(()) => Ok(args[0]),
        Err(fault) => Err(fault),
    }
}

/// From `least` to `most` arguments are taken, and no keyword arguments.
pub fn only_between(
    least: u32,
    most: u32,
    args: &[Value],
    keys: &[(Value, Value)],
) -> Result<(), Fault>
    requires few { length args.now < 2 ^ 32 }
    ensures as_many { IfOk result (λ _. (least ≤ length args.now) × (length args.now ≤ most)) }
    ensures no_keywords { IfOk result (λ _. keys.now ≡ []) }
    ensures cause { IfErr result (IsMisgiven (IsMiscount least most (length args.now)) keys.now) }
    ensures refused { IfErr result (λ fault. IsRefusal (Between least most) args.now keys.now fault) }
{
    match no_keywords(keys) {
        Ok(()) => between(least, most, args),
        Err(fault) => Err(fault),
    }
}
