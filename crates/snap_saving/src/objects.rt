//! Objects of a snapshot.

ghost use Rattle.std.specs.Prelude.{◌≡◌, ◌<◌, ◌∷◌, ◌++◌, option_map, Some, OnOk};
ghost use Rattle.std.specs.List.{flat_map};
ghost use Rattle.mpy_base.specs.Weights.{used};
ghost use Rattle.mpy_base.specs.World.{AList, ADict, ATuple, AText, FunctionObject, ExceptionObject, MethodObject, RangeObject};
ghost use Rattle.mpy_base.specs.World.{ModuleObject, IsA, items_at, pairs_at, text_at};
ghost use Rattle.arena_heap.specs.Values.{BeginsAt};
ghost use Rattle.snap_saving.specs.Put.{integer, number, text};
ghost use Rattle.snap_saving.specs.Saved.{IfFault, IsLong};
ghost use Rattle.snap_saving.specs.Shown.{name_of};
ghost use Rattle.snap_saving.specs.Steps.{bytes_at, found, object_bytes, pair_bytes, value_bytes};

use crate::bytes::{is_long, put_integer, put_number, put_tagged, put_text};
use crate::fault::SaveFault;
use crate::names::{module_of, put_builtin, text_of};
use crate::values::{place, put_pair, put_value};
use arena_heap::{
    Arena, DictNo, ListNo, ModuleNo, ObjectNo, StrNo, TextNo, TupleNo, Value, dict_at, dict_len,
    dict_room, exc_parts, fun_parts, list_at, list_len, list_room, made_text, method_parts,
    module_parts, object_at, range_parts, tuple_at, tuple_len,
};
use bc_library::Library;
use mpy_base::{Builtin, Kind, NoMemory, Refused};

/// The items of a list.
fn put_items(
    out: &mut Vec<u8>,
    library: &Library,
    arena: &Arena,
    places: &[u32],
    l: ListNo,
) -> Result<(), Refused<SaveFault>>
    requires { IsA arena.now.objects AList l.cell }
    ensures ok { OnOk result (out.new.items ≡ out.old.items ++ flat_map (value_bytes library.now (found places.now)) (items_at arena.now l.cell)) }
    ensures fault { IfFault result (IsLong (out.old.items ++ flat_map (value_bytes library.now (found places.now)) (items_at arena.now l.cell))) }
{
    for at in 0..list_len(arena, l) {
        let v = list_at(arena, l, at).unwrap();
        put_value(out, library, places, v)?;
        if is_long(out) {
            return Err(Refused::Fault(SaveFault::TooBig));
        }
    }
    Ok(())
}

/// The items of a tuple that was made.
fn put_fields(
    out: &mut Vec<u8>,
    library: &Library,
    arena: &Arena,
    places: &[u32],
    t: TupleNo,
) -> Result<(), Refused<SaveFault>>
    requires { IsA arena.now.objects ATuple t.cell }
    ensures ok { OnOk result (out.new.items ≡ out.old.items ++ flat_map (value_bytes library.now (found places.now)) (items_at arena.now t.cell)) }
    ensures fault { IfFault result (IsLong (out.old.items ++ flat_map (value_bytes library.now (found places.now)) (items_at arena.now t.cell))) }
{
    for at in 0..tuple_len(arena, t) {
        let v = tuple_at(arena, t, at).unwrap();
        put_value(out, library, places, v)?;
        if is_long(out) {
            return Err(Refused::Fault(SaveFault::TooBig));
        }
    }
    Ok(())
}

/// The pairs of a dict.
fn put_pairs(
    out: &mut Vec<u8>,
    library: &Library,
    arena: &Arena,
    places: &[u32],
    d: DictNo,
) -> Result<(), Refused<SaveFault>>
    requires { IsA arena.now.objects ADict d.cell }
    ensures ok { OnOk result (out.new.items ≡ out.old.items ++ flat_map (pair_bytes library.now (found places.now)) (pairs_at arena.now d.cell)) }
    ensures fault { IfFault result (IsLong (out.old.items ++ flat_map (pair_bytes library.now (found places.now)) (pairs_at arena.now d.cell))) }
{
    for at in 0..dict_len(arena, d) {
        let pair = dict_at(arena, d, at).unwrap();
        put_pair(out, library, places, pair)?;
        if is_long(out) {
            return Err(Refused::Fault(SaveFault::TooBig));
        }
    }
    Ok(())
}

/// The tag, the room and the count of a list or dict.
fn put_sized(out: &mut Vec<u8>, tag: u8, room: u32, count: u32) -> Result<(), NoMemory>
    ensures { OnOk result (out.new.items ≡ out.old.items ++ (tag ∷ (number room ++ number count))) }
{
    out.push(tag)?;
    put_number(out, room)?;
    put_number(out, count)?;
    Ok(())
}

/// The tag and the count of a tuple.
fn put_counted(out: &mut Vec<u8>, tag: u8, count: u32) -> Result<(), NoMemory>
    ensures { OnOk result (out.new.items ≡ out.old.items ++ (tag ∷ number count)) }
{
    out.push(tag)?;
    put_number(out, count)?;
    Ok(())
}

/// A list.
fn put_list(
    out: &mut Vec<u8>,
    library: &Library,
    arena: &Arena,
    places: &[u32],
    l: ListNo,
) -> Result<(), Refused<SaveFault>>
    requires { IsA arena.now.objects AList l.cell }
    ensures ok { OnOk result (out.new.items ≡ out.old.items ++ bytes_at library.now (found places.now) arena.now l.cell) }
    ensures fault { IfFault result (IsLong (out.old.items ++ bytes_at library.now (found places.now) arena.now l.cell)) }
{
    put_sized(out, 1, list_room(arena, l), list_len(arena, l))?;
    put_items(out, library, arena, places, l)
}

/// A dict.
fn put_dict(
    out: &mut Vec<u8>,
    library: &Library,
    arena: &Arena,
    places: &[u32],
    d: DictNo,
) -> Result<(), Refused<SaveFault>>
    requires { IsA arena.now.objects ADict d.cell }
    ensures ok { OnOk result (out.new.items ≡ out.old.items ++ bytes_at library.now (found places.now) arena.now d.cell) }
    ensures fault { IfFault result (IsLong (out.old.items ++ bytes_at library.now (found places.now) arena.now d.cell)) }
{
    put_sized(out, 2, dict_room(arena, d), dict_len(arena, d))?;
    put_pairs(out, library, arena, places, d)
}

/// A tuple.
fn put_tuple(
    out: &mut Vec<u8>,
    library: &Library,
    arena: &Arena,
    places: &[u32],
    t: TupleNo,
) -> Result<(), Refused<SaveFault>>
    requires { IsA arena.now.objects ATuple t.cell }
    ensures ok { OnOk result (out.new.items ≡ out.old.items ++ bytes_at library.now (found places.now) arena.now t.cell) }
    ensures fault { IfFault result (IsLong (out.old.items ++ bytes_at library.now (found places.now) arena.now t.cell)) }
{
    put_counted(out, 3, tuple_len(arena, t))?;
    put_fields(out, library, arena, places, t)
}

/// A text.
fn put_made_text(out: &mut Vec<u8>, arena: &Arena, t: TextNo) -> Result<(), NoMemory>
    requires { IsA arena.now.objects AText t.cell }
    ensures { OnOk result (out.new.items ≡ out.old.items ++ (4 ∷ text (text_at arena.now t.cell))) }
{
    out.push(4)?;
    put_text(out, made_text(arena, t))?;
    Ok(())
}

/// A function, by the numbers of its module's name and of its code, its namespace and its defaults.
fn put_function(
    out: &mut Vec<u8>,
    library: &Library,
    places: &[u32],
    parts: (u32, u32, u32, DictNo, Value),
) -> Result<(), NoMemory>
    ensures { OnOk result (out.new.items ≡ out.old.items
        ++ object_bytes library.now (found places.now) (Some (FunctionObject parts.0 parts.1 parts.2 parts.3.cell parts.4))) }
{
    out.push(5)?;
    put_number(out, module_of(library, parts.1))?;
    put_number(out, parts.2)?;
    put_number(out, place(places, parts.3.cell))?;
    put_value(out, library, places, parts.4)?;
    Ok(())
}

/// Where an exception was raised: a file, a line and a name.
fn put_place(
    out: &mut Vec<u8>,
    library: &Library,
    file: u32,
    line: u32,
    name: u32,
) -> Result<(), NoMemory>
    ensures { OnOk result (out.new.items ≡ out.old.items ++ (text (name_of library.now file) ++ (number line ++ text (name_of library.now name)))) }
{
    put_text(out, text_of(library, StrNo::Pool(file)))?;
    put_number(out, line)?;
    put_text(out, text_of(library, StrNo::Pool(name)))?;
    Ok(())
}

/// An exception, by its kind, its arguments and its place.
#[tactic(auto, using(crate::proofs::Naming::short_kind))]
fn put_exception(
    out: &mut Vec<u8>,
    library: &Library,
    places: &[u32],
    parts: (Kind, Value, u32, u32, u32),
) -> Result<(), NoMemory>
    ensures { OnOk result (out.new.items ≡ out.old.items
        ++ object_bytes library.now (found places.now) (Some (ExceptionObject parts.0 parts.1 parts.2 parts.3 parts.4))) }
{
    out.push(6)?;
    put_text(out, parts.0.name().as_bytes())?;
    put_value(out, library, places, parts.1)?;
    put_place(out, library, parts.2, parts.3, parts.4)?;
    Ok(())
}

/// A bound method, by its object and its method.
fn put_method(
    out: &mut Vec<u8>,
    library: &Library,
    places: &[u32],
    parts: (Value, Builtin),
) -> Result<(), NoMemory>
    ensures { OnOk result (out.new.items ≡ out.old.items ++ object_bytes library.now (found places.now) (Some (MethodObject parts.0 parts.1))) }
{
    out.push(7)?;
    put_value(out, library, places, parts.0)?;
    put_builtin(out, parts.1)?;
    Ok(())
}

/// A range, by its start, its stop and its step.
fn put_range(out: &mut Vec<u8>, parts: (i32, i32, i32)) -> Result<(), NoMemory>
    ensures { OnOk result (out.new.items ≡ out.old.items ++ (8 ∷ (integer parts.0 ++ (integer parts.1 ++ integer parts.2)))) }
{
    put_tagged(out, 8, parts.0)?;
    put_integer(out, parts.1)?;
    put_integer(out, parts.2)?;
    Ok(())
}

/// A module, by its name and its namespace.
fn put_module(
    out: &mut Vec<u8>,
    library: &Library,
    places: &[u32],
    parts: (u32, Option<DictNo>),
) -> Result<(), NoMemory>
    ensures { OnOk result (out.new.items ≡ out.old.items
        ++ object_bytes library.now (found places.now) (Some (ModuleObject parts.0 (option_map (λ names. names.cell) parts.1)))) }
{
    out.push(9)?;
    put_text(out, text_of(library, StrNo::Pool(parts.0)))?;
    match parts.1 {
        Some(names) => put_number(out, place(places, names.cell))?,
        None => put_number(out, 0)?,
    }
    Ok(())
}

/// An object.
fn put_object(
    out: &mut Vec<u8>,
    library: &Library,
    arena: &Arena,
    places: &[u32],
    object: ObjectNo,
    cell: u32,
) -> Result<(), Refused<SaveFault>>
    requires { BeginsAt arena.now.objects cell object }
    ensures ok { OnOk result (out.new.items ≡ out.old.items ++ bytes_at library.now (found places.now) arena.now cell) }
    ensures fault { IfFault result (IsLong (out.old.items ++ bytes_at library.now (found places.now) arena.now cell)) }
{
    match object {
        ObjectNo::List(l) => put_list(out, library, arena, places, l),
        ObjectNo::Dict(d) => put_dict(out, library, arena, places, d),
        ObjectNo::Tuple(t) => put_tuple(out, library, arena, places, t),
        ObjectNo::Text(t) => {
            put_made_text(out, arena, t)?;
            Ok(())
        }
        ObjectNo::Fun(f) => {
            put_function(out, library, places, fun_parts(arena, f))?;
            Ok(())
        }
        ObjectNo::Exc(e) => {
            put_exception(out, library, places, exc_parts(arena, e))?;
            Ok(())
        }
        ObjectNo::Method(m) => {
            put_method(out, library, places, method_parts(arena, m))?;
            Ok(())
        }
        ObjectNo::Range(r) => {
            put_range(out, range_parts(arena, r))?;
            Ok(())
        }
        ObjectNo::Module(m) => {
            put_module(out, library, places, module_parts(arena, m))?;
            Ok(())
        }
    }
}

/// The object that begins at a cell, if one does.
fn put_cell(
    out: &mut Vec<u8>,
    library: &Library,
    arena: &Arena,
    places: &[u32],
    cell: u32,
) -> Result<(), Refused<SaveFault>>
    requires { cell < used arena.now }
    ensures ok { OnOk result (out.new.items ≡ out.old.items ++ bytes_at library.now (found places.now) arena.now cell) }
    ensures fault { IfFault result (IsLong (out.old.items ++ bytes_at library.now (found places.now) arena.now cell)) }
{
    match object_at(arena, cell) {
        Some(object) => put_object(out, library, arena, places, object, cell),
        None => Ok(()),
    }
}

/// The objects, in the order of making.
pub(crate) fn put_objects(
    out: &mut Vec<u8>,
    library: &Library,
    arena: &Arena,
    places: &[u32],
) -> Result<(), Refused<SaveFault>>
    ensures ok { OnOk result (out.new.items ≡ out.old.items ++ flat_map (object_bytes library.now (found places.now)) arena.now.objects) }
    ensures fault { IfFault result (IsLong (out.old.items ++ flat_map (object_bytes library.now (found places.now)) arena.now.objects)) }
{
    let used = arena.used().cells;
    for cell in 0..used {
        put_cell(out, library, arena, places, cell)?;
        if is_long(out) {
            return Err(Refused::Fault(SaveFault::TooBig));
        }
    }
    Ok(())
}
