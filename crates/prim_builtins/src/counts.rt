//! Numbers that are no less than 0.

ghost use Rattle.std.specs.Prelude.{pos};
ghost use Rattle.prim_operators.specs.py_values.Small.{checked};
ghost use Rattle.prim_operators.specs.py_primitives.Operators.{gives_number};
ghost use Rattle.prim_operators.specs.Changeless.{IsAnswerOf};

use prim_operators::{Fault, NumFault, Stop, Value};

/// The greatest small int, 2^30 - 1.
const GREATEST: usize = 1_073_741_823;

/// A number, or the fault of one that is out of range.
pub fn gives_count(n: usize) -> Result<Value, Stop>
    ensures { IsAnswerOf result (λ heap. gives_number heap (checked (pos n))) }
{
    if n > GREATEST {
        return Err(Stop::Raises(Fault::Arithmetic(NumFault::Overflow)));
    }
    Ok(Value::Int(n as i32))
}
