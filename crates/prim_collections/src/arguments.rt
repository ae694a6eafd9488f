//! The arguments of calls.

ghost use Rattle.std.specs.Prelude.{◌≡◌, ◌<◌, ◌^◌, [], length, IfOk, IfErr};
ghost use Rattle.prim_builtins.specs.py_primitives.Calls.{AtLeast, Between};
ghost use Rattle.prim_builtins.specs.Arguments.{IsRefusal};
ghost use Rattle.prim_collections.specs.Collected.{AreOptional};

use arena_heap::Value;
use prim_builtins::{Fault, only_between};

/// The only argument, where there is one.
pub(crate) fn optional_argument(
    args: &[Value],
    keys: &[(Value, Value)],
) -> Result<Option<Value>, Fault>
    requires few { length args.now < 2 ^ 32 }
    ensures given { IfOk result (AreOptional args.now) }
    ensures no_keywords { IfOk result (λ _. keys.now ≡ []) }
    ensures refused { IfErr result (λ fault. IsRefusal (Between 0 1) args.now keys.now fault) }
{
    match only_between(0, 1, args, keys) {
        Ok(()) if args.is_empty() => Ok(None),
        Ok(()) => Ok(Some(args[0])),
        Err(fault) => Err(fault),
    }
}

/// Some arguments are taken, and no keyword arguments.
pub(crate) fn some_arguments(args: &[Value], keys: &[(Value, Value)]) -> Result<(), Fault>
    ensures some { IfOk result (λ _. 0 < length args.now) }
    ensures no_keywords { IfOk result (λ _. keys.now ≡ []) }
    ensures refused { IfErr result (λ fault. IsRefusal (AtLeast 1) args.now keys.now fault) }
{
    if !keys.is_empty() {
        Err(Fault::NoKeywords)
    } else if args.is_empty() {
        Err(Fault::TooFew { least: 1, given: 0 })
    } else {
        Ok(())
    }
}
