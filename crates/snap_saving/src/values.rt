//! Values of a snapshot.

ghost use Rattle.std.specs.Prelude.{◌≡◌, ◌<◌, ◌≤◌, ◌∷◌, [], ◌++◌, length, is_some, slice_index, unwrap_or, if◌then◌else◌, OnOk, IfOk};
ghost use Rattle.std.specs.Option.{option_map};
ghost use Rattle.mpy_base.specs.Weights.{used};
ghost use Rattle.mpy_base.specs.World.{object};
ghost use Rattle.prim_walks.specs.py_values.Names.{builtin_name as name_of_builtin};
ghost use Rattle.bc_library.specs.Constants.{items_at, text_at};
ghost use Rattle.snap_saving.specs.Put.{number, text, value};
ghost use Rattle.snap_saving.specs.Shown.{bool_part, fixed_part};
ghost use Rattle.snap_saving.specs.Steps.{ArePlaces, found, pair_bytes, value_bytes};

use crate::bytes::{put_byte, put_number, put_tagged, put_text};
use crate::names::{put_builtin, text_of};
use arena_heap::{Arena, ConstNo, Constants, StrNo, Value, object_at};
use bc_library::Library;
use mpy_base::{Builtin, NoMemory};
use std::alloc::Global;

/// How many objects begin at a cell: one or none.
#[tactic(auto, using(crate::proofs::Places::begins_one, crate::proofs::Places::begins_none))]
fn count_at(arena: &Arena, cell: u32) -> u32
    requires { cell < used arena.now }
    ensures is { result ≡ (if is_some (object arena.now.objects cell) then 1 else 0) }
    ensures few { result ≤ 1 }
{
    match object_at(arena, cell) {
        Some(_) => 1,
        None => 0,
    }
}

/// For each cell how many objects were made before one that begins there, and how many there are.
pub(crate) fn places_of(alloc: Global, arena: &Arena) -> Result<Vec<u32>, NoMemory>
    ensures { IfOk result (λ places. ArePlaces arena.now places.items) }
{
    let used = arena.used().cells;
    let mut places = Vec::new(alloc);
    let mut count = 0;
    for cell in 0..used {
        places.push(count)?;
        count += count_at(arena, cell);
    }
    places.push(count)?;
    Ok(places)
}

/// The number at an index, 0 where there is none.
fn number_at(numbers: &[u32], i: usize) -> u32
    ensures { result ≡ slice_index numbers.now i }
{
    if i < numbers.len() { numbers[i] } else { 0 }
}

/// How many objects were made before the one that begins at a cell.
pub(crate) fn place(places: &[u32], cell: u32) -> u32
    ensures { result ≡ found places.now cell }
{
    let last = places.len().saturating_sub(1);
    number_at(places, (cell as usize).min(last))
}

/// A bool.
fn put_bool(out: &mut Vec<u8>, b: bool) -> Result<(), NoMemory>
    ensures { OnOk result (out.new.items ≡ out.old.items ++ value (bool_part b)) }
{
    match b {
        true => put_byte(out, 2),
        false => put_byte(out, 1),
    }
}

/// The value that is an object.
fn put_reference(out: &mut Vec<u8>, places: &[u32], cell: u32) -> Result<(), NoMemory>
    ensures { OnOk result (out.new.items ≡ out.old.items ++ (4 ∷ number (found places.now cell))) }
{
    out.push(4)?;
    put_number(out, place(places, cell))?;
    Ok(())
}

/// The value that is a constant str.
fn put_str(out: &mut Vec<u8>, library: &Library, s: StrNo) -> Result<(), NoMemory>
    ensures { OnOk result (out.new.items ≡ out.old.items ++ (5 ∷ text (unwrap_or (text_at library.now s) []))) }
{
    out.push(5)?;
    put_text(out, text_of(library, s))?;
    Ok(())
}

/// How many items a constant tuple has, 0 where it is none.
fn item_count(library: &Library, c: ConstNo) -> u32
    ensures { result ≡ unwrap_or (option_map length (items_at library.now c)) 0 }
{
    library.len(c).unwrap_or(0)
}

/// The value that is a constant tuple.
#[tactic(auto, using(crate::proofs::Adding::fixed_empty, crate::proofs::Adding::fixed_some))]
fn put_fixed(out: &mut Vec<u8>, library: &Library, c: ConstNo) -> Result<(), NoMemory>
    ensures { OnOk result (out.new.items ≡ out.old.items ++ value (fixed_part c (items_at library.now c))) }
{
    if item_count(library, c) == 0 {
        put_byte(out, 7)
    } else {
        put_constant(out, c)
    }
}

/// The value that is a constant tuple that has items.
fn put_constant(out: &mut Vec<u8>, c: ConstNo) -> Result<(), NoMemory>
    ensures { OnOk result (out.new.items ≡ out.old.items ++ (6 ∷ (number c.«module» ++ number c.object))) }
{
    out.push(6)?;
    put_number(out, c.module)?;
    put_number(out, c.object)?;
    Ok(())
}

/// The value that is a built-in.
fn put_named(out: &mut Vec<u8>, b: Builtin) -> Result<(), NoMemory>
    ensures { OnOk result (out.new.items ≡ out.old.items ++ (8 ∷ text (name_of_builtin b))) }
{
    out.push(8)?;
    put_builtin(out, b)?;
    Ok(())
}

/// A value.
pub(crate) fn put_value(
    out: &mut Vec<u8>,
    library: &Library,
    places: &[u32],
    v: Value,
) -> Result<(), NoMemory>
    ensures { OnOk result (out.new.items ≡ out.old.items ++ value_bytes library.now (found places.now) v) }
{
    match v {
        Value::None => put_byte(out, 0),
        Value::Bool(b) => put_bool(out, b),
        Value::Int(z) => put_tagged(out, 3, z),
        Value::Str(s) => put_str(out, library, s),
        Value::Fixed(c) => put_fixed(out, library, c),
        Value::Empty => put_byte(out, 7),
        Value::List(l) => put_reference(out, places, l.cell),
        Value::Dict(d) => put_reference(out, places, d.cell),
        Value::Tuple(t) => put_reference(out, places, t.cell),
        Value::Text(t) => put_reference(out, places, t.cell),
        Value::Fun(f) => put_reference(out, places, f.cell),
        Value::Exc(e) => put_reference(out, places, e.cell),
        Value::Method(m) => put_reference(out, places, m.cell),
        Value::Range(r) => put_reference(out, places, r.cell),
        Value::Module(m) => put_reference(out, places, m.cell),
        Value::Built(b) => put_named(out, b),
    }
}

/// A pair of a dict: its key and its value.
pub(crate) fn put_pair(
    out: &mut Vec<u8>,
    library: &Library,
    places: &[u32],
    pair: (Value, Value),
) -> Result<(), NoMemory>
    ensures { OnOk result (out.new.items ≡ out.old.items ++ pair_bytes library.now (found places.now) pair) }
{
    put_value(out, library, places, pair.0)?;
    put_value(out, library, places, pair.1)?;
    Ok(())
}
