//! What operators see of their operands.

ghost use Rattle.std.specs.Prelude.{◌≡◌};
ghost use Rattle.prim_faults.specs.arena_heap.Values.{HasSmall};
ghost use Rattle.prim_operators.specs.Operands.{number_in};

use prim_faults::{SmallInt, Value};

/// The number that a value counts as, if it does.
pub fn number_of(v: Value) -> Option<SmallInt>
    requires { HasSmall v }
    ensures { result ≡ number_in v }
{
    match v {
        Value::Bool(b) => SmallInt::new(b as i32),
        Value::Int(n) => SmallInt::new(n),
        _ => None,
    }
}
