//! `split`.

ghost use Rattle.std.specs.Prelude.{◌≡◌, ℕ, List, ◌+◌, ◌<◌, ◌≤◌, ◌^◌, length, map, [], All, OnOk, IfErr};
ghost use Rattle.mpy_base.specs.declared.builtin.Builtin.TheVariants as builtins;
ghost use Rattle.mpy_base.specs.World.{AList, IsA, items_at, room_at, with_list};
ghost use Rattle.mpy_base.specs.Weights.{used};
ghost use Rattle.prim_builtins.specs.arena_heap.Values.{Leads, IsStr};
ghost use Rattle.prim_builtins.specs.py_values.Shown.{shown};
ghost use Rattle.prim_builtins.specs.py_primitives.Methods.{str_method, list_of_texts, of_str, split_by};
ghost use Rattle.prim_builtins.specs.prim_faults.Sights.{under, calling_method, Tells, TellsAll, Knows, KnowsAll, KnowsStr, Does};
ghost use Rattle.prim_str_methods.specs.Parts.{IsCut, cut_bytes};
ghost use Rattle.prim_str_methods.specs.Pieces.{IsSplit, pieces_from, piece_value, piece_values, cell_behind, cells_behind};
ghost use Rattle.prim_str_methods.specs.Pieces.{with_piece, with_pieces, FitsPiece, FitPieces, PieceRefused, PiecesRefused};

use crate::arguments::no_str;
use crate::cuts::{Cut, put_cut, str_len};
use crate::parts::is_str;
use crate::pieces::{Split, next_piece};
use arena_heap::{Arena, Constants, ListNo, StrNo, TextNo, Value, list_len, put_in_list};
use mpy_base::NoRoom;
use prim_builtins::{Fault, Stop, only_between};

/// How many pieces a str has.
fn count_pieces<C: Constants>(arena: &Arena, consts: &C, object: Value, split: Split) -> u64
    requires object { KnowsStr C.Constants consts.now arena.now object }
    requires split { under C.Constants consts.now IsSplit arena.now split }
    ensures { result ≡ length (pieces_from (C.text_of consts.now) arena.now split object 0) }
{
    let mut at = 0;
    let mut count = 0;
    while let Some(piece) = next_piece(arena, consts, object, split, at) {
        at = piece.next;
        count += 1;
    }
    count
}

/// Makes the text of a piece. An empty piece is a constant.
fn make_piece<C: Constants>(arena: &mut Arena, consts: &C, cut: Cut) -> Result<(), NoRoom>
    requires { under C.Constants consts.now IsCut arena.old cut }
    ensures ok { OnOk result (arena.new ≡ with_piece arena.old (cut_bytes (C.text_of consts.now) arena.old cut)) }
    ensures fits { OnOk result (FitsPiece arena.old (cut_bytes (C.text_of consts.now) arena.old cut)) }
    ensures refused { IfErr result (λ e. PieceRefused arena.old arena.new e (cut_bytes (C.text_of consts.now) arena.old cut)) }
{
    if cut.len == 0 {
        return Ok(());
    }
    let t = arena.make_text(cut.len as u64)?;
    put_cut(arena, consts, t, 0, cut);
    Ok(())
}

/// Makes the text of each piece of a str.
fn make_pieces<C: Constants>(
    arena: &mut Arena,
    consts: &C,
    object: Value,
    split: Split,
) -> Result<(), NoRoom>
    requires object { KnowsStr C.Constants consts.now arena.old object }
    requires split { under C.Constants consts.now IsSplit arena.old split }
    ensures ok { OnOk result (arena.new ≡ with_pieces arena.old (pieces_from (C.text_of consts.now) arena.old split object 0)) }
    ensures fits { OnOk result (FitPieces arena.old (pieces_from (C.text_of consts.now) arena.old split object 0)) }
    ensures refused { IfErr result (λ e. PiecesRefused arena.old arena.new e (pieces_from (C.text_of consts.now) arena.old split object 0)) }
{
    let mut at = 0;
    while let Some(piece) = next_piece(arena, consts, object, split, at) {
        match make_piece(arena, consts, piece.cut) {
            Ok(()) => at = piece.next,
            Err(room) => return Err(room),
        }
    }
    Ok(())
}

/// The str of a piece of this length: the text that has this number, or the empty constant.
fn value_of(len: u32, cell: u32) -> Value
    ensures { (piece : List ℕ) → length piece ≡ len → result ≡ piece_value cell piece }
{
    if len == 0 {
        Value::Str(StrNo::Pool(1))
    } else {
        Value::Text(TextNo { cell })
    }
}

/// The number of cells that are used behind the text of a piece of this length.
fn cell_after(len: u32, cell: u32) -> u32
    requires { 0 < len → cell + 2 < 2 ^ 32 }
    ensures { (piece : List ℕ) → length piece ≡ len → result ≡ cell_behind cell piece }
{
    if len == 0 { cell } else { cell + 2 }
}

/// Puts the strs of a str's pieces, whose texts were made from a number on, into an empty list that has room for them.
fn put_pieces<C: Constants>(
    arena: &mut Arena,
    consts: &C,
    l: ListNo,
    first: u32,
    object: Value,
    split: Split,
)
    requires list { IsA arena.old.objects AList l.cell }
    requires object { KnowsStr C.Constants consts.now arena.old object }
    requires split { under C.Constants consts.now IsSplit arena.old split }
    requires empty { items_at arena.old l.cell ≡ [] }
    requires room { length (pieces_from (C.text_of consts.now) arena.old split object 0) ≤ room_at arena.old l.cell }
    requires texts { All (Leads arena.old.objects) (piece_values first (pieces_from (C.text_of consts.now) arena.old split object 0)) }
    requires few { cells_behind first (pieces_from (C.text_of consts.now) arena.old split object 0) < 2 ^ 32 }
    ensures { arena.new ≡ with_list arena.old l.cell (piece_values first (pieces_from (C.text_of consts.now) arena.old split object 0)) }
{
    let mut at = 0;
    let mut cell = first;
    while let Some(piece) = next_piece(arena, consts, object, split, at) {
        let v = value_of(piece.cut.len, cell);
        let end = list_len(arena, l);
        put_in_list(arena, l, end, v);
        at = piece.next;
        cell = cell_after(piece.cut.len, cell);
    }
}

/// The number of the next object.
fn cells_used(arena: &Arena) -> u32
    ensures { result ≡ used arena.now }
{
    arena.used().cells
}

/// Fills a new list with the pieces of a str. Where a text doesn't fit, the list has no items.
fn fill_list<C: Constants>(
    arena: &mut Arena,
    consts: &C,
    l: ListNo,
    object: Value,
    split: Split,
) -> Result<(), NoRoom>
    requires list { IsA arena.old.objects AList l.cell }
    requires object { KnowsStr C.Constants consts.now arena.old object }
    requires split { under C.Constants consts.now IsSplit arena.old split }
    requires empty { items_at arena.old l.cell ≡ [] }
    requires room { length (pieces_from (C.text_of consts.now) arena.old split object 0) ≤ room_at arena.old l.cell }
    ensures ok { OnOk result (arena.new
        ≡ with_list (with_pieces arena.old (pieces_from (C.text_of consts.now) arena.old split object 0)) l.cell
        (piece_values (used arena.old) (pieces_from (C.text_of consts.now) arena.old split object 0))) }
    ensures fits { OnOk result (FitPieces arena.old (pieces_from (C.text_of consts.now) arena.old split object 0)) }
    ensures refused { IfErr result (λ e. PiecesRefused arena.old arena.new e (pieces_from (C.text_of consts.now) arena.old split object 0)) }
{
    consts.empty_law();
    let first = cells_used(arena);
    make_pieces(arena, consts, object, split)?;
    arena.room_law();
    put_pieces(arena, consts, l, first, object, split);
    Ok(())
}

/// A list of the pieces of a str.
fn split_pieces<C: Constants>(
    arena: &mut Arena,
    consts: &C,
    object: Value,
    split: Split,
) -> Result<Value, Stop>
    requires object { KnowsStr C.Constants consts.now arena.old object }
    requires split { under C.Constants consts.now IsSplit arena.old split }
    requires all_told { TellsAll C.Constants consts.now arena.old }
    ensures { Does C.Constants consts.now arena.old arena.new result (λ heap see. list_of_texts heap (pieces_from see.texts arena.old split object 0)) }
{
    consts.empty_law();
    let count = count_pieces(arena, consts, object, split);
    match arena.make_list(count) {
        Ok(l) => match fill_list(arena, consts, l, object, split) {
            Ok(()) => Ok(Value::List(l)),
            Err(room) => Err(Stop::Full(room)),
        },
        Err(room) => Err(Stop::Full(room)),
    }
}

/// The pieces between separators.
fn split_between<C: Constants>(
    arena: &mut Arena,
    consts: &C,
    object: Value,
    v: Value,
) -> Result<Value, Stop>
    requires object { KnowsStr C.Constants consts.now arena.old object }
    requires known { Knows C.Constants consts.now arena.old v }
    requires all_told { TellsAll C.Constants consts.now arena.old }
    ensures { Does C.Constants consts.now arena.old arena.new result
        (λ heap see. of_str heap (see.value object) (see.value v) (shown heap (see.value v)) (split_by heap (see.bytes arena.old object))) }
{
    if !is_str(v) {
        return Err(Stop::Raises(no_str(arena, object, v)));
    }
    if str_len(arena, consts, v) == 0 {
        return Err(Stop::Raises(Fault::EmptySeparator));
    }
    split_pieces(arena, consts, object, Split::By(v))
}

/// The words of a str, or the pieces between separators.
fn split_with<C: Constants>(
    arena: &mut Arena,
    consts: &C,
    object: Value,
    args: &[Value],
) -> Result<Value, Stop>
    requires object { KnowsStr C.Constants consts.now arena.old object }
    requires known { KnowsAll C.Constants consts.now arena.old args.now }
    requires all_told { TellsAll C.Constants consts.now arena.old }
    requires few { length args.now ≤ 1 }
    ensures { Does C.Constants consts.now arena.old arena.new result
        (λ heap see. str_method heap builtins.StrSplit (see.value object) (see.bytes arena.old object) (map see.value args.now)) }
{
    if args.is_empty() {
        split_pieces(arena, consts, object, Split::Words)
    } else {
        split_between(arena, consts, object, args[0])
    }
}

/// `split` of a str and these arguments.
pub fn call_str_split<C: Constants>(
    arena: &mut Arena,
    consts: &C,
    object: Value,
    args: &[Value],
    keys: &[(Value, Value)],
) -> Result<Value, Stop>
    requires few { length args.now < 2 ^ 32 }
    requires str { IsStr object }
    requires leads { Leads arena.old.objects object }
    requires told { Tells C.Constants consts.now object }
    requires known { KnowsAll C.Constants consts.now arena.old args.now }
    requires all_told { TellsAll C.Constants consts.now arena.old }
    ensures { Does C.Constants consts.now arena.old arena.new result (calling_method builtins.StrSplit object args.now keys.now) }
{
    match only_between(0, 1, args, keys) {
        Ok(()) => split_with(arena, consts, object, args),
        Err(fault) => Err(Stop::Raises(fault)),
    }
}
