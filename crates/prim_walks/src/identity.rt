//! Identity of values that hold nothing that could be compared.

ghost use Rattle.std.specs.Prelude.{◌≡◌, ℕ, List, Option, bytes_eq};
ghost use Rattle.arena_objects.specs.arena_heap.declared.value.Value.{Value as Item};
ghost use Rattle.arena_objects.specs.arena_heap.declared.value.StrNo.{StrNo as TextName};
ghost use Rattle.arena_objects.specs.arena_heap.declared.value.ConstNo.{ConstNo as TupleName};
ghost use Rattle.py_primitives.specs.py_values.Names.{builtin_name as name_of};
ghost use Rattle.py_primitives.specs.py_values.Equality.{is_same as is_one_thing};
ghost use Rattle.prim_walks.specs.Plain.{plain};
ghost use Rattle.prim_walks.specs.Numbers.{number_in};

use crate::names::builtin_name;
use arena_objects::Value;
use py_primitives::Builtin;

/// The number of the object that a value leads to, if it does.
fn number_of(v: Value) -> Option<u32>
    ensures { (texts : TextName → Option (List ℕ)) (tuples : TupleName → Option (List Item)) → result ≡ number_in (plain texts tuples v) }
{
    match v {
        Value::List(l) => Some(l.cell),
        Value::Dict(d) => Some(d.cell),
        Value::Tuple(t) => Some(t.cell),
        Value::Text(t) => Some(t.cell),
        Value::Fun(f) => Some(f.cell),
        Value::Exc(e) => Some(e.cell),
        Value::Method(m) => Some(m.cell),
        Value::Range(r) => Some(r.cell),
        Value::Module(m) => Some(m.cell),
        _ => None,
    }
}

/// A built-in is known by its name.
fn is_one_builtin(x: Builtin, y: Builtin) -> bool
    ensures { result ≡ bytes_eq (name_of x) (name_of y) }
{
    builtin_name(x) == builtin_name(y)
}

/// Whether two values are one thing: None is, a built-in, and an object.
pub(crate) fn is_same(a: Value, b: Value) -> bool
    ensures { (texts : TextName → Option (List ℕ)) (tuples : TupleName → Option (List Item))
        → result ≡ is_one_thing (plain texts tuples a) (plain texts tuples b) }
{
    match a {
        Value::None => match b {
            Value::None => true,
            _ => false,
        },
        Value::Built(x) => match b {
            Value::Built(y) => is_one_builtin(x, y),
            _ => false,
        },
        _ => match number_of(a) {
            Some(m) => match number_of(b) {
                Some(n) => m == n,
                None => false,
            },
            None => false,
        },
    }
}
