//! Values.

ghost use Rattle.std.specs.Prelude.{◌≡◌, ◌↔◌, length, Some, All, IsTrue, option_and_then, slice_get};
ghost use Rattle.std.specs.Option.{option_map};
ghost use Rattle.bc_library.specs.Constants.{items_at, numbered};
ghost use Rattle.snap_states.specs.Knowing.{IsKnown, IsReceiver, object_kind};
ghost use Rattle.snap_states.specs.States as states;

use crate::kinds::{PartKind, is_kind, method_of};
use crate::known::{Known, is_constant, is_object, kind_at};
use crate::naming::builtin_called;
use arena_heap::{ConstNo, Constants};
use bc_library::Library;
use mpy_base::Builtin;
use snap_grammar::{ObjectPart, Snapshot, ValuePart};

/// Whether the name is that of a built-in that is no method.
fn is_builtin(name: &[u8]) -> bool
    ensures { IsTrue result ↔ states.IsBuiltin name.now }
{
    match builtin_called(name) {
        Some(builtin) => method_of(builtin).is_none(),
        None => false,
    }
}

/// How many items a constant tuple has.
fn fixed_count(library: &Library, module_number: u32, number: u32) -> Option<u32>
    ensures { result ≡ option_map length (items_at library.now (numbered module_number number)) }
{
    library.len(ConstNo {
        module: module_number,
        object: number,
    })
}

/// Whether a constant is a tuple that has items.
fn is_fixed(library: &Library, module_number: u32, number: u32) -> bool
    ensures { IsTrue result ↔ states.IsFixed library.now module_number number }
{
    match fixed_count(library, module_number, number) {
        Some(count) => count > 0,
        None => false,
    }
}

/// Whether a value may stand anywhere.
pub(crate) fn is_plain(known: &Known, v: &ValuePart) -> bool
    requires { IsKnown known.now }
    ensures { IsTrue result ↔ states.IsPlain known.now.library.now known.now.snapshot.now v.now }
{
    match v {
        ValuePart::None
        | ValuePart::False
        | ValuePart::True
        | ValuePart::Int(_)
        | ValuePart::Empty => true,
        ValuePart::Object(number) => is_object(known, *number),
        ValuePart::Str(text) => is_constant(known, text.bytes()),
        ValuePart::Fixed(module_number, number) => is_fixed(known.library, *module_number, *number),
        ValuePart::Named(name) => is_builtin(name.bytes()),
    }
}

/// Whether each of the values may stand anywhere.
pub(crate) fn are_plain(known: &Known, values: &[ValuePart]) -> bool
    requires { IsKnown known.now }
    ensures { IsTrue result ↔ All (states.IsPlain known.now.library.now known.now.snapshot.now) values.now }
{
    for v in values {
        if !is_plain(known, v) {
            return false;
        }
    }
    true
}

/// The kind of object that a value is: constants are strs and tuples too.
pub(crate) fn kind_of(snapshot: &Snapshot, v: &ValuePart) -> Option<PartKind>
    ensures { option_map object_kind result ≡ states.kind_of_part snapshot.now v.now }
{
    match v {
        ValuePart::None
        | ValuePart::False
        | ValuePart::True
        | ValuePart::Int(_)
        | ValuePart::Named(_) => None,
        ValuePart::Object(number) => kind_at(snapshot, *number),
        ValuePart::Str(_) => Some(PartKind::Text),
        ValuePart::Fixed(_, _) | ValuePart::Empty => Some(PartKind::Tuple),
    }
}

/// Whether a value is of this kind.
pub(crate) fn is_of_kind(snapshot: &Snapshot, kind: PartKind, v: &ValuePart) -> bool
    ensures { IsTrue result ↔ (states.kind_of_part snapshot.now v.now ≡ Some (object_kind kind)) }
{
    is_kind(kind_of(snapshot, v), kind)
}

/// Whether an iterator goes over objects of this kind.
fn is_iterable(kind: Option<PartKind>) -> bool
    ensures { IsTrue result ↔ states.IsIterable (option_map object_kind kind) }
{
    match kind {
        Some(
            PartKind::List | PartKind::Tuple | PartKind::Text | PartKind::Dict | PartKind::Range,
        ) => true,
        _ => false,
    }
}

/// Whether an iterator may go over a value.
pub(crate) fn is_over(known: &Known, v: &ValuePart) -> bool
    requires { IsKnown known.now }
    ensures { IsTrue result ↔ states.IsOver known.now.library.now known.now.snapshot.now v.now }
{
    is_plain(known, v) && is_iterable(kind_of(known.snapshot, v))
}

/// Whether a value is an object of this method's type.
fn is_receiver(snapshot: &Snapshot, method: Builtin, v: &ValuePart) -> bool
    ensures { IsTrue result ↔ IsReceiver snapshot.now method v.now }
{
    match method_of(method) {
        Some(kind) => is_of_kind(snapshot, kind, v),
        None => false,
    }
}

/// Whether the name is that of a method, and the value an object of its type.
pub(crate) fn is_bound(known: &Known, name: &[u8], v: &ValuePart) -> bool
    requires { IsKnown known.now }
    ensures { IsTrue result ↔ states.IsBound known.now.library.now known.now.snapshot.now name.now v.now }
{
    match builtin_called(name) {
        Some(method) => is_receiver(known.snapshot, method, v) && is_plain(known, v),
        None => false,
    }
}

/// How many items the tuple object of a number has.
fn made_count(snapshot: &Snapshot, number: u32) -> Option<usize>
    ensures { result ≡ option_and_then states.count_in_part (slice_get snapshot.now.objects number) }
{
    match snapshot.objects.get(number as usize) {
        Some(ObjectPart::Tuple { items }) => Some(items.len()),
        _ => None,
    }
}

/// How many items a value has that is a tuple.
pub(crate) fn tuple_count(known: &Known, v: &ValuePart) -> Option<usize>
    ensures { result ≡ states.tuple_count known.now.library.now known.now.snapshot.now v.now }
{
    match v {
        ValuePart::None
        | ValuePart::False
        | ValuePart::True
        | ValuePart::Int(_)
        | ValuePart::Str(_)
        | ValuePart::Named(_) => None,
        ValuePart::Object(number) => made_count(known.snapshot, *number),
        ValuePart::Fixed(module_number, number) => {
            match fixed_count(known.library, *module_number, *number) {
                Some(count) => Some(count as usize),
                None => None,
            }
        }
        ValuePart::Empty => Some(0),
    }
}
