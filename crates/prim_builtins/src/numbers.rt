//! Arguments that are numbers.

ghost use Rattle.std.specs.Prelude.{◌≡◌, Some, None, IfOk, IfErr};
ghost use Rattle.prim_operators.specs.arena_heap.Values.{Leads, IsSmall};
ghost use Rattle.prim_operators.specs.Operands.{number_in};
ghost use Rattle.prim_builtins.specs.Numbers.{IsNoNumber};

use prim_operators::{Arena, Fault, Value, type_of};

/// The number that an argument counts as. Other values are refused.
pub fn number_of(arena: &Arena, v: Value) -> Result<i32, Fault>
    requires { Leads arena.now.objects v }
    ensures number { IfOk result (λ z. number_in v ≡ Some z) }
    ensures small { IfOk result IsSmall }
    ensures other { IfErr result (λ fault. number_in v ≡ None) }
    ensures fault { IfErr result (IsNoNumber arena.now v) }
{
    match v {
        Value::Bool(b) => Ok(b as i32),
        Value::Int(z) => Ok(z),
        _ => Err(Fault::NotANumber(type_of(arena, v))),
    }
}
