//! Objects.

ghost use Rattle.std.specs.Prelude.{◌≡◌, ◌↔◌, ◌<◌, ◌∷◌, ◌⊎◌, ℕ, codes, length, All, Contains, IfOk, IsTrue, Some};
ghost use Rattle.mpy_base.specs.Weights.{IsRoom};
ghost use Rattle.mpy_base.specs.Kind.{kind_name};
ghost use Rattle.bc_library.specs.Shelf.{names};
ghost use Rattle.snap_states.specs.Knowing.{HasParts, IsKnown};
ghost use Rattle.snap_states.specs.Shapes.{HasDefaults};
ghost use Rattle.snap_states.specs.States as states;

use crate::keys::{are_once, is_key};
use crate::kinds::PartKind;
use crate::known::{Known, is_free, is_namespace};
use crate::naming::{is_name, kind_called};
use crate::values::{are_plain, is_bound, is_of_kind, is_plain, tuple_count};
use bc_library::{Library, Member};
use bc_prelude::prelude_law;
use bc_rows::Rows;
use mpy_base::{Kind, NoMemory, room_for, room_law};
use snap_grammar::{ObjectPart, PairPart, ValuePart};
use std::alloc::Global;

/// Whether the room is 4, 8, 16 and so on.
fn is_room(room: u32) -> bool
    ensures { IsTrue result ↔ IsRoom room }
{
    room_law();
    match room_for(u64::from(room)) {
        Some(least) => least == u64::from(room),
        None => false,
    }
}

/// Whether the room holds so many items.
fn has_items(room: u32, items: usize) -> bool
    ensures { IsTrue result ↔ states.HasItems room items }
{
    is_room(room) && items <= room as usize
}

/// Whether the bytes are a text that an object has.
fn is_text(bytes: &[u8]) -> bool
    ensures { IsTrue result ↔ ((0 < length bytes.now) × All (λ b. b < 128) bytes.now) }
{
    !bytes.is_empty() && bytes.iter().all(|byte| *byte < 128)
}

/// Whether a pair is a key and a value.
fn is_fine_pair(known: &Known, pair: &PairPart) -> bool
    requires { IsKnown known.now }
    ensures { IsTrue result ↔ states.IsFinePair known.now.library.now known.now.snapshot.now pair.now }
{
    is_key(known.snapshot, &pair.key) && is_plain(known, &pair.key) && is_plain(known, &pair.value)
}

/// Whether each of the pairs is a key and a value.
fn are_fine_pairs(known: &Known, pairs: &[PairPart]) -> bool
    requires { IsKnown known.now }
    ensures { IsTrue result ↔ All (states.IsFinePair known.now.library.now known.now.snapshot.now) pairs.now }
{
    for pair in pairs {
        if !is_fine_pair(known, pair) {
            return false;
        }
    }
    true
}

/// Whether a pair is one of a namespace.
fn has_name(known: &Known, pair: &PairPart) -> bool
    ensures { IsTrue result ↔ states.HasName known.now.library.now known.now.snapshot.now pair.now }
{
    match &pair.key {
        ValuePart::Str(text) => is_name(known.library, text.bytes()),
        _ => false,
    }
}

/// Whether each of the pairs is one of a namespace.
fn have_names(known: &Known, pairs: &[PairPart]) -> bool
    ensures { IsTrue result ↔ All (states.HasName known.now.library.now known.now.snapshot.now) pairs.now }
{
    for pair in pairs {
        if !has_name(known, pair) {
            return false;
        }
    }
    true
}

/// Whether the pairs are those of a namespace, where the dict is a module's.
fn have_names_if_owned(known: &Known, number: usize, pairs: &[PairPart]) -> bool
    requires known { IsKnown known.now }
    requires there { number < length known.now.snapshot.now.objects }
    ensures { IsTrue result
        ↔ ((m : ℕ) → states.NamesOf known.now.snapshot.now m number
        → All (states.HasName known.now.library.now known.now.snapshot.now) pairs.now) }
{
    if is_free(known, number) {
        return true;
    }
    have_names(known, pairs)
}

/// Whether the object of a number is a dict as it has to be.
fn is_fine_dict(
    alloc: Global,
    known: &Known,
    number: usize,
    room: u32,
    pairs: &[PairPart],
) -> Result<bool, NoMemory>
    requires known { IsKnown known.now }
    requires there { number < length known.now.snapshot.now.objects }
    ensures { IfOk result (λ fine. IsTrue fine ↔ states.IsFineDict known.now.library.now known.now.snapshot.now number room pairs.now) }
{
    if !has_items(room, pairs.len()) {
        return Ok(false);
    }
    if !are_fine_pairs(known, pairs) {
        return Ok(false);
    }
    if !have_names_if_owned(known, number, pairs) {
        return Ok(false);
    }
    are_once(alloc, known.snapshot, pairs)
}

/// How many defaults a code has.
fn defaults_of(rows: &Rows, module_number: u32, code: u32) -> Option<u32>
    ensures { (count : ℕ) → HasDefaults rows.now module_number code count ↔ (result ≡ Some count) }
{
    prelude_law();
    match rows.row(module_number, code) {
        Some(row) => Some(row.given),
        None => None,
    }
}

/// Whether so many were counted.
fn is_count(counted: Option<usize>, count: u32) -> bool
    ensures { IsTrue result ↔ (counted ≡ Some count) }
{
    match counted {
        Some(n) => n == count as usize,
        None => false,
    }
}

/// Whether the defaults are None or a tuple of so many items.
fn are_defaults(known: &Known, count: u32, defaults: &ValuePart) -> bool
    requires { IsKnown known.now }
    ensures { IsTrue result ↔ ((defaults.now ≡ ValuePart.None) ⊎ (states.tuple_count known.now.library.now known.now.snapshot.now defaults.now ≡ Some count)) }
{
    match defaults {
        ValuePart::None => true,
        _ => is_count(tuple_count(known, defaults), count),
    }
}

/// Whether a function's namespace and defaults are as they have to be, where its code has so many defaults.
fn has_parts(known: &Known, count: u32, names: u32, defaults: &ValuePart) -> bool
    requires { IsKnown known.now }
    ensures { IsTrue result ↔ HasParts known.now.library.now known.now.snapshot.now count names defaults.now }
{
    if !is_namespace(known, names) {
        return false;
    }
    if !is_plain(known, defaults) {
        return false;
    }
    are_defaults(known, count, defaults)
}

/// Whether a function is as it has to be.
fn is_fine_function(
    known: &Known,
    module_number: u32,
    code: u32,
    names: u32,
    defaults: &ValuePart,
) -> bool
    requires { IsKnown known.now }
    ensures { IsTrue result ↔ states.IsFineFunction known.now.library.now known.now.snapshot.now module_number code names defaults.now }
{
    match defaults_of(known.rows, module_number, code) {
        Some(count) => has_parts(known, count, names, defaults),
        None => false,
    }
}

/// Whether the name is that of a kind of exceptions.
fn is_kind(name: &[u8]) -> bool
    ensures { IsTrue result ↔ ((kind : Kind) × (kind_name kind ≡ name.now)) }
{
    kind_called(name).is_some()
}

/// Whether an exception is as it has to be.
fn is_fine_exception(known: &Known, kind: &[u8], args: &ValuePart, file: &[u8], name: &[u8]) -> bool
    requires { IsKnown known.now }
    ensures { IsTrue result ↔ states.IsFineException known.now.library.now known.now.snapshot.now kind.now args.now file.now name.now }
{
    is_kind(kind)
        && is_of_kind(known.snapshot, PartKind::Tuple, args)
        && is_plain(known, args)
        && is_name(known.library, file)
        && is_name(known.library, name)
}

/// Whether the name is that of the main module.
fn is_main(name: &[u8]) -> bool
    ensures { IsTrue result ↔ (name.now ≡ codes "__main__") }
{
    name == b"__main__".as_slice()
}

/// Whether a name leads to a module.
fn is_module(member: Option<Member>) -> bool
    ensures { IsTrue result ↔ ((place : ℕ) × (member ≡ Some (Member.Module place))) }
{
    match member {
        Some(Member::Module(_)) => true,
        Some(Member::Refused) | None => false,
    }
}

/// Whether the name is that of a module of the library.
fn is_module_name(library: &Library, name: &[u8]) -> bool
    ensures { IsTrue result ↔ Contains (names library.now) name.now }
{
    is_module(library.find(name))
}

/// Whether the name is that of the main module or of one of the library's.
fn is_known_name(library: &Library, name: &[u8]) -> bool
    ensures { IsTrue result ↔ Contains (codes "__main__" ∷ names library.now) name.now }
{
    if is_main(name) {
        return true;
    }
    is_module_name(library, name)
}

/// Whether a module is as it has to be.
fn is_fine_module(known: &Known, name: &[u8], names: u32) -> bool
    requires { IsKnown known.now }
    ensures { IsTrue result ↔ states.IsFineModule known.now.library.now known.now.snapshot.now name.now names }
{
    is_known_name(known.library, name) && is_namespace(known, names)
}

/// Whether the object of a number is as it has to be.
fn is_fine_object(
    alloc: Global,
    known: &Known,
    number: usize,
    object: &ObjectPart,
) -> Result<bool, NoMemory>
    requires known { IsKnown known.now }
    requires there { number < length known.now.snapshot.now.objects }
    ensures { IfOk result (λ fine. IsTrue fine ↔ states.IsFineObject known.now.library.now known.now.snapshot.now number object.now) }
{
    match object {
        ObjectPart::List { room, items } => {
            Ok(has_items(*room, items.len()) && are_plain(known, items.as_slice()))
        }
        ObjectPart::Dict { room, pairs } => {
            is_fine_dict(alloc, known, number, *room, pairs.as_slice())
        }
        ObjectPart::Tuple { items } => {
            Ok(!items.is_empty() && are_plain(known, items.as_slice()))
        }
        ObjectPart::Text { bytes } => Ok(is_text(bytes.bytes())),
        ObjectPart::Function {
            module_number,
            code,
            names,
            defaults,
        } => Ok(is_fine_function(known, *module_number, *code, *names, defaults)),
        ObjectPart::Exception {
            kind,
            args,
            file,
            line: _,
            name,
        } => Ok(is_fine_exception(known, kind.bytes(), args, file.bytes(), name.bytes())),
        ObjectPart::Method { object, method } => Ok(is_bound(known, method.bytes(), object)),
        ObjectPart::Range {
            start: _,
            stop: _,
            step,
        } => Ok(*step != 0),
        ObjectPart::Module { name, names } => Ok(is_fine_module(known, name.bytes(), *names)),
    }
}

/// Whether all objects are as they have to be.
pub fn are_fine_objects(alloc: Global, known: &Known) -> Result<bool, NoMemory>
    requires { IsKnown known.now }
    ensures { IfOk result (λ fine. IsTrue fine ↔ states.AreFineObjects known.now.library.now known.now.snapshot.now) }
{
    let objects = known.snapshot.objects.as_slice();
    for (number, object) in objects.iter().enumerate() {
        if !is_fine_object(alloc, known, number, object)? {
            return Ok(false);
        }
    }
    Ok(true)
}
