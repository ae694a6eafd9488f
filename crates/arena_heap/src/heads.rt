//! The first cells of objects, read by their kinds.

ghost use Rattle.std.specs.Prelude.{◌≡◌, ◌<◌, length, Some};
ghost use Rattle.qstr_pool.specs.mpy_base.World.{AList, ATuple, AText, ADict, AFunction, AnException, AMethod, ARange, AModule};
ghost use Rattle.arena_heap.specs.Cells.{heads, kind_at};

use crate::cells::{Cell, Region, Span};
use qstr_pool::{Builtin, Kind};

/// Where a list's items lie.
#[inline(always)]
pub(crate) fn list_region(cells: &Vec<Cell>, at: u32) -> Region
    requires within { at < length cells.now.items }
    requires list { kind_at (heads cells.now.items at) ≡ Some AList }
    ensures { heads cells.now.items at ≡ Cell.ListHead result }
{
    match cells[at as usize] {
        Cell::ListHead(region) => region,
        _ => unreachable!(),
    }
}

/// Where a dict's pairs lie.
#[inline(always)]
pub(crate) fn dict_region(cells: &Vec<Cell>, at: u32) -> Region
    requires within { at < length cells.now.items }
    requires dict { kind_at (heads cells.now.items at) ≡ Some ADict }
    ensures { heads cells.now.items at ≡ Cell.DictHead result }
{
    match cells[at as usize] {
        Cell::DictHead(region) => region,
        _ => unreachable!(),
    }
}

/// How many items a tuple has.
pub(crate) fn tuple_count(cells: &Vec<Cell>, at: u32) -> u32
    requires within { at < length cells.now.items }
    requires tuple { kind_at (heads cells.now.items at) ≡ Some ATuple }
    ensures { heads cells.now.items at ≡ Cell.TupleHead result }
{
    match cells[at as usize] {
        Cell::TupleHead(count) => count,
        _ => unreachable!(),
    }
}

/// Where a text's bytes lie.
pub(crate) fn text_span(cells: &Vec<Cell>, at: u32) -> Span
    requires within { at < length cells.now.items }
    requires text { kind_at (heads cells.now.items at) ≡ Some AText }
    ensures { heads cells.now.items at ≡ Cell.TextHead result }
{
    match cells[at as usize] {
        Cell::TextHead(span) => span,
        _ => unreachable!(),
    }
}

/// The numbers of a function's name, its module and its code.
#[inline(always)]
pub(crate) fn fun_head(cells: &Vec<Cell>, at: u32) -> (u32, u32, u32)
    requires within { at < length cells.now.items }
    requires function { kind_at (heads cells.now.items at) ≡ Some AFunction }
    ensures { heads cells.now.items at ≡ Cell.FunHead result.0 result.1 result.2 }
{
    match cells[at as usize] {
        Cell::FunHead { name, module, code } => (name, module, code),
        _ => unreachable!(),
    }
}

/// An exception's kind.
pub(crate) fn exc_kind(cells: &Vec<Cell>, at: u32) -> Kind
    requires within { at < length cells.now.items }
    requires exception { kind_at (heads cells.now.items at) ≡ Some AnException }
    ensures { heads cells.now.items at ≡ Cell.ExcHead result }
{
    match cells[at as usize] {
        Cell::ExcHead(kind) => kind,
        _ => unreachable!(),
    }
}

/// The method of a bound method.
pub(crate) fn bound_method(cells: &Vec<Cell>, at: u32) -> Builtin
    requires within { at < length cells.now.items }
    requires method { kind_at (heads cells.now.items at) ≡ Some AMethod }
    ensures { heads cells.now.items at ≡ Cell.MethodHead result }
{
    match cells[at as usize] {
        Cell::MethodHead(method) => method,
        _ => unreachable!(),
    }
}

/// The start, the stop and the step of a range.
#[inline(always)]
pub(crate) fn range_head(cells: &Vec<Cell>, at: u32) -> (i32, i32, i32)
    requires within { at < length cells.now.items }
    requires range { kind_at (heads cells.now.items at) ≡ Some ARange }
    ensures { heads cells.now.items at ≡ Cell.RangeHead result.0 result.1 result.2 }
{
    match cells[at as usize] {
        Cell::RangeHead { start, stop, step } => (start, stop, step),
        _ => unreachable!(),
    }
}

/// A module's name.
pub(crate) fn module_name(cells: &Vec<Cell>, at: u32) -> u32
    requires within { at < length cells.now.items }
    requires is_module { kind_at (heads cells.now.items at) ≡ Some AModule }
    ensures { heads cells.now.items at ≡ Cell.ModuleHead result }
{
    match cells[at as usize] {
        Cell::ModuleHead(name) => name,
        _ => unreachable!(),
    }
}
