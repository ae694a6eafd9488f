//! The values that a snapshot's parts stand for.

ghost use Rattle.std.specs.Prelude.{◌≡◌, unwrap_or};
ghost use Rattle.std.specs.Option.{option_map};
ghost use Rattle.snap_states.specs.Decoded as decoded;
ghost use Rattle.snap_loading.specs.Looked.{IsLookup};

use crate::lookup::{Lookup, object_value};
use crate::names::pool_number;
use crate::strs::str_number;
use arena_heap::{ConstNo, StrNo, Value};
use mpy_base::Builtin;
use snap_grammar::ValuePart;
use snap_states::builtin_called;

/// A constant of this text.
fn constant_str(lookup: &Lookup, text: &[u8]) -> StrNo
    requires { IsLookup lookup.now }
    ensures { result
        ≡ unwrap_or (option_map StrNo.Object (decoded.constant_from 0 lookup.now.library.now.modules text.now)) (StrNo.Pool 0) }
{
    match str_number(&lookup.strs, text) {
        Some(number) => StrNo::Object(number),
        None => StrNo::Pool(0),
    }
}

/// A constant str of this text: a text of the pool where there is one.
fn str_of(lookup: &Lookup, text: &[u8]) -> StrNo
    requires { IsLookup lookup.now }
    ensures { result ≡ decoded.str_of lookup.now.library.now text.now }
{
    match pool_number(lookup.library, text) {
        Some(number) => StrNo::Pool(number),
        None => constant_str(lookup, text),
    }
}

/// The built-in of a name, one of them where there is none.
fn built_in(name: &[u8]) -> Value
    ensures { result ≡ Value.Built (unwrap_or (decoded.builtin_called name.now) Builtin.Print) }
{
    match builtin_called(name) {
        Some(b) => Value::Built(b),
        None => Value::Built(Builtin::Print),
    }
}

/// The value that a part stands for.
pub(crate) fn value_of(lookup: &Lookup, part: &ValuePart) -> Value
    requires { IsLookup lookup.now }
    ensures { result ≡ decoded.value_of lookup.now.library.now lookup.now.snapshot.now part.now }
{
    match part {
        ValuePart::None => Value::None,
        ValuePart::False => Value::Bool(false),
        ValuePart::True => Value::Bool(true),
        ValuePart::Int(n) => Value::Int(*n),
        ValuePart::Object(number) => object_value(lookup, *number),
        ValuePart::Str(text) => Value::Str(str_of(lookup, text.bytes())),
        ValuePart::Fixed(module, object) => Value::Fixed(ConstNo {
            module: *module,
            object: *object,
        }),
        ValuePart::Empty => Value::Empty,
        ValuePart::Named(name) => built_in(name.bytes()),
    }
}
