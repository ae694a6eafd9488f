//! New objects. Each takes its weight in cells and bytes, or nothing where that doesn't fit.

ghost use Rattle.std.specs.Prelude.{◌≡◌, ◌≢◌, ℕ, pos, suc, ◌+◌, ◌*◌, ◌<◌, ◌≤◌, length, [], ◌∷◌, ◌++◌, replicate, None, IfOk, IfErr, OnErr, vec_len};
ghost use Rattle.std.specs.Vec.{vec_capacity};
ghost use Rattle.qstr_pool.specs.mpy_base.World.{ListObject, TupleObject, TextObject, DictObject, FunctionObject};
ghost use Rattle.qstr_pool.specs.mpy_base.World.{ExceptionObject, MethodObject, RangeObject, ModuleObject, AList, ATuple, AText};
ghost use Rattle.qstr_pool.specs.mpy_base.World.{ADict, AFunction, AnException, AMethod, ARange, AModule, IsA, Later};
ghost use Rattle.qstr_pool.specs.mpy_base.Weights.{room_for, Fits, Made, Refused, no_room};
ghost use Rattle.arena_heap.specs.Values.{Leads, IsSmall, IsTuple, IsDefaults, IsMethodOf};
ghost use Rattle.arena_heap.specs.Cells.{blank};

use crate::arena::Arena;
use crate::cells::{Cell, Region, Span};
use crate::value::{
    DictNo, ExcNo, FunNo, ListNo, MethodNo, ModuleNo, RangeNo, TextNo, TupleNo, Value,
};
use qstr_pool::{Builtin, Kind, NoRoom, room_for};

/// Takes the head of an object, some of its parts, and `more` blank cells.
pub(crate) fn take_cells(cells: &mut Vec<Cell>, head: Cell, parts: &[Cell], more: u32)
    requires { vec_len cells.old + suc (length parts.now + more) ≤ vec_capacity cells.old }
    ensures items { cells.new.items ≡ cells.old.items ++ head ∷ (parts.now ++ replicate more blank) }
    ensures capacity { vec_capacity cells.old ≤ vec_capacity cells.new }
{
    let _ = cells.push(head);
    let _ = cells.extend_from_slice(parts);
    let len = cells.len();
    let _ = cells.resize(len + more as usize, Cell::None);
}

/// Takes `count` zero bytes.
pub(crate) fn take_bytes(bytes: &mut Vec<u8>, count: u32)
    requires { vec_len bytes.old + count ≤ vec_capacity bytes.old }
    ensures items { bytes.new.items ≡ bytes.old.items ++ replicate count 0 }
    ensures capacity { vec_capacity bytes.old ≤ vec_capacity bytes.new }
{
    let len = bytes.len();
    let _ = bytes.resize(len + count as usize, 0);
}

impl Arena {
    /// Asks for `head` cells, and `each` for each place of the room for `items` items. Gives the room.
    pub(crate) fn ask_room(&self, head: u64, each: u64, items: u64) -> Result<u32, NoRoom>
        requires { 0 < each }
        ensures room { IfOk result (λ room. room ≡ room_for items) }
        ensures fits { IfOk result (λ room. Fits self.now (head + each * room_for items) 0) }
        ensures told { IfErr result (λ e. e ≡ no_room self.now (head + each * room_for items) 0) }
        ensures err { OnErr result (Fits self.now (head + each * room_for items) 0 → ⊥) }
    {
        let room = room_for(items).unwrap_or(u64::MAX);
        self.ask(room.saturating_mul(each).saturating_add(head), 0)?;
        Ok(room as u32)
    }

    /// A new list, empty, with the room that holds `items` items.
    pub fn make_list(&mut self, items: u64) -> Result<ListNo, NoRoom>
        ensures made { IfOk result (λ l. Made self.old self.new l.cell (ListObject [] (room_for items))) }
        ensures refused { IfErr result (λ e. Refused self.old self.new e (3 + room_for items) 0) }
        ensures kind { IfOk result (λ l. IsA self.new.objects AList l.cell) }
        ensures later { Later self.old.objects self.new.objects }
    {
        let room = self.ask_room(3, 1, items)?;
        let cell = self.cells.len() as u32;
        let start = cell + 3;
        let region = Region {
            start,
            len: 0,
            room,
        };
        take_cells(&mut self.cells, Cell::ListHead(region), &[], 2 + room);
        Ok(ListNo { cell })
    }

    /// A new dict, empty, with the room that holds `pairs` pairs.
    pub fn make_dict(&mut self, pairs: u32) -> Result<DictNo, NoRoom>
        ensures made { IfOk result (λ d. Made self.old self.new d.cell (DictObject [] (room_for pairs))) }
        ensures refused { IfErr result (λ e. Refused self.old self.new e (3 + 3 * room_for pairs) 0) }
        ensures kind { IfOk result (λ d. IsA self.new.objects ADict d.cell) }
        ensures later { Later self.old.objects self.new.objects }
    {
        let room = self.ask_room(3, 3, pairs as u64)?;
        let cell = self.cells.len() as u32;
        let start = cell + 3;
        let region = Region {
            start,
            len: 0,
            room,
        };
        take_cells(&mut self.cells, Cell::DictHead(region), &[], 2 + 3 * room);
        Ok(DictNo { cell })
    }

    /// A new tuple of `count` places, each of which holds None.
    pub fn make_tuple(&mut self, count: u64) -> Result<TupleNo, NoRoom>
        requires { 0 < count }
        ensures made { IfOk result (λ t. Made self.old self.new t.cell (TupleObject (replicate count Value.None))) }
        ensures refused { IfErr result (λ e. Refused self.old self.new e (1 + count) 0) }
        ensures kind { IfOk result (λ t. IsA self.new.objects ATuple t.cell) }
        ensures later { Later self.old.objects self.new.objects }
    {
        self.ask(count.saturating_add(1), 0)?;
        let cell = self.cells.len() as u32;
        let count = count as u32;
        take_cells(&mut self.cells, Cell::TupleHead(count), &[], count);
        Ok(TupleNo { cell })
    }

    /// A new text of `count` zero bytes.
    pub fn make_text(&mut self, count: u64) -> Result<TextNo, NoRoom>
        requires { 0 < count }
        ensures made { IfOk result (λ t. Made self.old self.new t.cell (TextObject (replicate count 0))) }
        ensures refused { IfErr result (λ e. Refused self.old self.new e 2 count) }
        ensures kind { IfOk result (λ t. IsA self.new.objects AText t.cell) }
        ensures later { Later self.old.objects self.new.objects }
    {
        self.ask(2, count)?;
        let cell = self.cells.len() as u32;
        let start = self.bytes.len() as u32;
        let len = count as u32;
        take_bytes(&mut self.bytes, len);
        take_cells(&mut self.cells, Cell::TextHead(Span { start, len }), &[], 1);
        Ok(TextNo { cell })
    }

    /// A new function, with the numbers of its name, its module and its code, the namespace of its module, and its
    /// defaults: a tuple, or None.
    pub fn make_fun(
        &mut self,
        name: u32,
        module: u32,
        code: u32,
        names: DictNo,
        defaults: Value,
    ) -> Result<FunNo, NoRoom>
        requires names { IsA self.old.objects ADict names.cell }
        requires leads { Leads self.old.objects defaults }
        requires defaults { IsDefaults defaults }
        ensures made { IfOk result (λ f. Made self.old self.new f.cell (FunctionObject name «module» code names.cell defaults)) }
        ensures refused { IfErr result (λ e. Refused self.old self.new e 4 0) }
        ensures kind { IfOk result (λ f. IsA self.new.objects AFunction f.cell) }
        ensures later { Later self.old.objects self.new.objects }
    {
        self.ask(4, 0)?;
        let cell = self.cells.len() as u32;
        let parts = [Cell::Dict(names), Cell::of(defaults)];
        take_cells(
            &mut self.cells,
            Cell::FunHead { name, module, code },
            &parts,
            1,
        );
        Ok(FunNo { cell })
    }

    /// A new exception, whose place is the empty file, line 0 and the empty name.
    pub fn make_exc(&mut self, kind: Kind, args: Value) -> Result<ExcNo, NoRoom>
        requires leads { Leads self.old.objects args }
        requires tuple { IsTuple args }
        ensures made { IfOk result (λ e. Made self.old self.new e.cell (ExceptionObject kind args 1 0 1)) }
        ensures refused { IfErr result (λ e. Refused self.old self.new e 6 0) }
        ensures kind { IfOk result (λ e. IsA self.new.objects AnException e.cell) }
        ensures later { Later self.old.objects self.new.objects }
    {
        self.ask(6, 0)?;
        let cell = self.cells.len() as u32;
        let parts = [
            Cell::of(args),
            Cell::Place {
                file: 1,
                line: 0,
                name: 1,
            },
        ];
        take_cells(&mut self.cells, Cell::ExcHead(kind), &parts, 3);
        Ok(ExcNo { cell })
    }

    /// A new bound method, of an object and a method of its type.
    pub fn make_method(&mut self, object: Value, method: Builtin) -> Result<MethodNo, NoRoom>
        requires leads { Leads self.old.objects object }
        requires method { IsMethodOf method object }
        ensures made { IfOk result (λ m. Made self.old self.new m.cell (MethodObject object method)) }
        ensures refused { IfErr result (λ e. Refused self.old self.new e 3 0) }
        ensures kind { IfOk result (λ m. IsA self.new.objects AMethod m.cell) }
        ensures later { Later self.old.objects self.new.objects }
    {
        self.ask(3, 0)?;
        let cell = self.cells.len() as u32;
        let parts = [Cell::of(object)];
        take_cells(&mut self.cells, Cell::MethodHead(method), &parts, 1);
        Ok(MethodNo { cell })
    }

    /// A new range.
    pub fn make_range(&mut self, start: i32, stop: i32, step: i32) -> Result<RangeNo, NoRoom>
        requires start { IsSmall start }
        requires stop { IsSmall stop }
        requires step { IsSmall step }
        requires nonzero { step ≢ pos 0 }
        ensures made { IfOk result (λ r. Made self.old self.new r.cell (RangeObject start stop step)) }
        ensures refused { IfErr result (λ e. Refused self.old self.new e 4 0) }
        ensures kind { IfOk result (λ r. IsA self.new.objects ARange r.cell) }
        ensures later { Later self.old.objects self.new.objects }
    {
        self.ask(4, 0)?;
        let cell = self.cells.len() as u32;
        take_cells(
            &mut self.cells,
            Cell::RangeHead { start, stop, step },
            &[],
            3,
        );
        Ok(RangeNo { cell })
    }

    /// A new module, which has no namespace yet.
    pub fn make_module(&mut self, name: u32) -> Result<ModuleNo, NoRoom>
        ensures made { IfOk result (λ m. Made self.old self.new m.cell (ModuleObject name None)) }
        ensures refused { IfErr result (λ e. Refused self.old self.new e 4 0) }
        ensures kind { IfOk result (λ m. IsA self.new.objects AModule m.cell) }
        ensures later { Later self.old.objects self.new.objects }
    {
        self.ask(4, 0)?;
        let cell = self.cells.len() as u32;
        take_cells(&mut self.cells, Cell::ModuleHead(name), &[], 3);
        Ok(ModuleNo { cell })
    }
}
