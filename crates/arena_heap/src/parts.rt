//! The parts of functions, exceptions, bound methods, ranges and modules.

ghost use Rattle.std.specs.Prelude.{◌≡◌, ◌≢◌, ◌<◌, pos, None, Some, IfSome, MatchOption, option_map};
ghost use Rattle.qstr_pool.specs.mpy_base.World.{FunctionObject, ExceptionObject, MethodObject, RangeObject, ModuleObject, ADict};
ghost use Rattle.qstr_pool.specs.mpy_base.World.{AFunction, AnException, AMethod, ARange, AModule, IsA, Later, object};
ghost use Rattle.qstr_pool.specs.mpy_base.World.{with_place, with_names};
ghost use Rattle.qstr_pool.specs.mpy_base.Weights.{used};
ghost use Rattle.arena_heap.specs.Values.{BeginsAt, Leads, IsSmall, IsTuple, IsDefaults, IsMethodOf};

use crate::arena::Arena;
use crate::cells::Cell;
use crate::heads::{bound_method, exc_kind, fun_head, module_name, range_head};
use crate::value::{DictNo, ExcNo, FunNo, MethodNo, ModuleNo, ObjectNo, RangeNo, Value};
use qstr_pool::{Builtin, Kind};

/// The object that begins at a cell, or None where none does.
pub fn object_at(arena: &Arena, cell: u32) -> Option<ObjectNo>
    requires { cell < used arena.now }
    ensures { MatchOption result (object arena.now.objects cell ≡ None) (BeginsAt arena.now.objects cell) }
{
    arena.cells[cell as usize].object(cell)
}

/// The numbers of a function's name, its module and its code, then its namespace and its defaults.
#[inline(always)]
pub fn fun_parts(arena: &Arena, f: FunNo) -> (u32, u32, u32, DictNo, Value)
    requires { IsA arena.now.objects AFunction f.cell }
    ensures parts { object arena.now.objects f.cell ≡ Some (FunctionObject result.0 result.1 result.2 result.3.cell result.4) }
    ensures names { IsA arena.now.objects ADict result.3.cell }
    ensures leads { Leads arena.now.objects result.4 }
    ensures defaults { IsDefaults result.4 }
{
    let (name, module, code) = fun_head(&arena.cells, f.cell);
    let names = arena.cells[f.cell as usize + 1].dict();
    let defaults = arena.cells[f.cell as usize + 2].value();
    (name, module, code, names, defaults)
}

/// An exception's kind, its arguments, and its place: a file, a line and a name.
pub fn exc_parts(arena: &Arena, e: ExcNo) -> (Kind, Value, u32, u32, u32)
    requires { IsA arena.now.objects AnException e.cell }
    ensures parts { object arena.now.objects e.cell ≡ Some (ExceptionObject result.0 result.1 result.2 result.3 result.4) }
    ensures leads { Leads arena.now.objects result.1 }
    ensures tuple { IsTuple result.1 }
{
    let kind = exc_kind(&arena.cells, e.cell);
    let args = arena.cells[e.cell as usize + 1].value();
    let (file, line, name) = arena.cells[e.cell as usize + 2].place();
    (kind, args, file, line, name)
}

/// The object and the method of a bound method.
pub fn method_parts(arena: &Arena, m: MethodNo) -> (Value, Builtin)
    requires { IsA arena.now.objects AMethod m.cell }
    ensures parts { object arena.now.objects m.cell ≡ Some (MethodObject result.0 result.1) }
    ensures leads { Leads arena.now.objects result.0 }
    ensures method { IsMethodOf result.1 result.0 }
{
    let method = bound_method(&arena.cells, m.cell);
    let object = arena.cells[m.cell as usize + 1].value();
    (object, method)
}

/// The start, the stop and the step of a range.
#[inline(always)]
pub fn range_parts(arena: &Arena, r: RangeNo) -> (i32, i32, i32)
    requires { IsA arena.now.objects ARange r.cell }
    ensures parts { object arena.now.objects r.cell ≡ Some (RangeObject result.0 result.1 result.2) }
    ensures start { IsSmall result.0 }
    ensures stop { IsSmall result.1 }
    ensures step { IsSmall result.2 }
    ensures nonzero { result.2 ≢ pos 0 }
{
    range_head(&arena.cells, r.cell)
}

/// The name of a module, and its namespace where one is set.
pub fn module_parts(arena: &Arena, m: ModuleNo) -> (u32, Option<DictNo>)
    requires { IsA arena.now.objects AModule m.cell }
    ensures parts { object arena.now.objects m.cell ≡ Some (ModuleObject result.0 (option_map (λ names. names.cell) result.1)) }
    ensures names { IfSome result.1 (λ names. IsA arena.now.objects ADict names.cell) }
{
    let name = module_name(&arena.cells, m.cell);
    let names = arena.cells[m.cell as usize + 1].names();
    (name, names)
}

/// Sets the place of an exception: where it was raised last.
pub fn exc_place(arena: &mut Arena, e: ExcNo, file: u32, line: u32, name: u32)
    requires { IsA arena.old.objects AnException e.cell }
    ensures placed { arena.new ≡ with_place arena.old e.cell file line name }
    ensures later { Later arena.old.objects arena.new.objects }
{
    arena.cells[e.cell as usize + 2] = Cell::Place { file, line, name };
}

/// Sets the namespace of a module.
pub fn module_names(arena: &mut Arena, m: ModuleNo, names: DictNo)
    requires is_module { IsA arena.old.objects AModule m.cell }
    requires names { IsA arena.old.objects ADict names.cell }
    ensures named { arena.new ≡ with_names arena.old m.cell names.cell }
    ensures later { Later arena.old.objects arena.new.objects }
{
    arena.cells[m.cell as usize + 1] = Cell::Dict(names);
}
