//! Arenas that are made of given objects, whatever numbers they hold of one another.

ghost use Rattle.std.specs.Prelude.{◌≡◌, List, [], ◌++◌, ◌+◌, ◌^◌, ◌<◌, ◌≤◌, All, IfOk, length, map, Option, replicate, Some, vec_len};
ghost use Rattle.std.specs.List.{sum_by};
ghost use Rattle.std.specs.Vec.{vec_capacity};
ghost use Rattle.qstr_pool.specs.mpy_base.Weights.{bytes_of, cells_of};
ghost use Rattle.arena_heap.specs.Building.{all_laid, blank_count, HasRoom, heap_with, laid, part_count, shell_head, shell_object, shell_parts, shell_text};
ghost use Rattle.arena_heap.specs.Cells.{blank, Holds};
ghost use Rattle.arena_heap.specs.Values.{ArenaObject, Sound};

use crate::arena::Arena;
use crate::cells::{Cell, Region, Span};
use crate::makings::{take_bytes, take_cells};
use crate::value::{DictNo, Value};
use qstr_pool::{Builtin, Kind, NoMemory, Room};
use std::alloc::Global;

/// An object of an arena that is made of given objects: as it stays, but for what lists, dicts and tuples hold.
#[derive(Clone, Copy, Debug)]
pub enum Shell<'a> {
    /// An empty list.
    List {
        room: u32,
    },
    /// An empty dict.
    Dict {
        room: u32,
    },
    /// A tuple of so many places, each of which holds None.
    Tuple {
        count: u32,
    },
    Text {
        bytes: &'a [u8],
    },
    /// The numbers of its name, its module and its code, the namespace of its module, and its defaults.
    Fun {
        name: u32,
        module: u32,
        code: u32,
        names: DictNo,
        defaults: Value,
    },
    /// Its kind, its arguments, and where it was raised last.
    Exc {
        kind: Kind,
        args: Value,
        file: u32,
        line: u32,
        name: u32,
    },
    Method {
        object: Value,
        method: Builtin,
    },
    Range {
        start: i32,
        stop: i32,
        step: i32,
    },
    /// Its name and its namespace.
    Module {
        name: u32,
        names: DictNo,
    },
}

impl<'a> Shell<'a> {
    /// The first cell of the object, where it begins at this cell and its bytes at this byte.
    fn head(self, cell: u32, byte: u32) -> Cell
        requires few { cell + cells_of (shell_object self) < 2 ^ 32 }
        requires few_bytes { bytes_of (shell_object self) < 2 ^ 32 }
        ensures { result ≡ shell_head cell byte self.entry }
    {
        match self {
            Shell::List { room } => Cell::ListHead(region_behind(cell, room)),
            Shell::Dict { room } => Cell::DictHead(region_behind(cell, room)),
            Shell::Tuple { count } => Cell::TupleHead(count),
            Shell::Text { bytes } => Cell::TextHead(Span {
                start: byte,
                len: bytes.len() as u32,
            }),
            Shell::Fun {
                name,
                module,
                code,
                ..
            } => Cell::FunHead { name, module, code },
            Shell::Exc { kind, .. } => Cell::ExcHead(kind),
            Shell::Method { method, .. } => Cell::MethodHead(method),
            Shell::Range { start, stop, step } => Cell::RangeHead { start, stop, step },
            Shell::Module { name, .. } => Cell::ModuleHead(name),
        }
    }

    /// Its parts that stand behind its first cell, and None where there is no such part.
    fn parts(self) -> [Cell; 2]
        ensures { result ≡ shell_parts self.entry }
    {
        match self {
            Shell::Fun {
                names,
                defaults,
                ..
            } => [Cell::Dict(names), Cell::of(defaults)],
            Shell::Exc {
                args,
                file,
                line,
                name,
                ..
            } => [Cell::of(args), Cell::Place { file, line, name }],
            Shell::Method { object, .. } => [Cell::of(object), Cell::None],
            Shell::Module { names, .. } => [Cell::Dict(names), Cell::None],
            _ => [Cell::None, Cell::None],
        }
    }

    /// How many of these parts there are.
    fn part_count(self) -> usize
        ensures count { result ≡ part_count self.entry }
        ensures few { result ≤ 2 }
    {
        match self {
            Shell::Fun { .. } | Shell::Exc { .. } => 2,
            Shell::Method { .. } | Shell::Module { .. } => 1,
            _ => 0,
        }
    }

    /// How many cells stand behind the first one and these parts.
    fn blank_count(self) -> u32
        requires { cells_of (shell_object self) < 2 ^ 32 }
        ensures { result ≡ blank_count self.entry }
    {
        match self {
            Shell::List { room } => 2 + room,
            Shell::Dict { room } => 2 + 3 * room,
            Shell::Tuple { count } => count,
            Shell::Exc { .. } | Shell::Range { .. } => 3,
            Shell::Module { .. } => 2,
            Shell::Text { .. } | Shell::Fun { .. } | Shell::Method { .. } => 1,
        }
    }

    /// The bytes of a text, and none of other objects.
    fn text(self) -> &'a [u8]
        ensures { result.now ≡ shell_text self.entry }
    {
        match self {
            Shell::Text { bytes } => bytes,
            _ => &[],
        }
    }
}

/// The region of an empty list or dict that begins at this cell.
fn region_behind(cell: u32, room: u32) -> Region
    requires { cell + 3 < 2 ^ 32 }
    ensures { result ≡ record { start = cell + 3; len = 0; room = room } }
{
    Region {
        start: cell + 3,
        len: 0,
        room,
    }
}

/// Takes cells that belong to no object.
fn take_blanks(cells: &mut Vec<Cell>, count: u32)
    requires { vec_len cells.old + count ≤ vec_capacity cells.old }
    ensures items { cells.new.items ≡ cells.old.items ++ replicate count blank }
    ensures capacity { vec_capacity cells.old ≤ vec_capacity cells.new }
{
    let len = cells.len();
    let _ = cells.resize(len + count as usize, Cell::None);
}

/// Takes bytes, which are these.
fn put_bytes(bytes: &mut Vec<u8>, text: &[u8])
    requires { vec_len bytes.old + length text.now ≤ vec_capacity bytes.old }
    ensures items { bytes.new.items ≡ bytes.old.items ++ text.now }
    ensures capacity { vec_capacity bytes.old ≤ vec_capacity bytes.new }
{
    let _ = bytes.extend_from_slice(text);
}

/// Takes the cells and the bytes of an object.
fn put_shell(cells: &mut Vec<Cell>, bytes: &mut Vec<u8>, shell: Shell<'_>)
    requires room { HasRoom shell }
    requires cells { vec_len cells.old + cells_of (shell_object shell) ≤ vec_capacity cells.old }
    requires bytes { vec_len bytes.old + bytes_of (shell_object shell) ≤ vec_capacity bytes.old }
    requires few_cells { vec_len cells.old + cells_of (shell_object shell) < 2 ^ 32 }
    requires few_bytes { vec_len bytes.old + bytes_of (shell_object shell) < 2 ^ 32 }
    ensures holds { (objects : List (Option ArenaObject)) → Holds (Some 0) cells.old.items bytes.old.items objects
        → Holds (Some 0) cells.new.items bytes.new.items (objects ++ laid (shell_object shell.entry)) }
    ensures byte_len { vec_len bytes.new ≡ vec_len bytes.old + bytes_of (shell_object shell.entry) }
    ensures capacity { vec_capacity cells.old ≤ vec_capacity cells.new }
    ensures byte_capacity { vec_capacity bytes.old ≤ vec_capacity bytes.new }
{
    let head = shell.head(cells.len() as u32, bytes.len() as u32);
    let parts = shell.parts();
    let count = shell.part_count();
    put_bytes(bytes, shell.text());
    take_cells(cells, head, &parts[..count], shell.blank_count());
}

/// Takes the cells and the bytes of objects, one behind the other.
fn put_shells(cells: &mut Vec<Cell>, bytes: &mut Vec<u8>, shells: &[Shell<'_>])
    requires empty { Holds (Some 0) cells.old.items bytes.old.items [] }
    requires no_bytes { vec_len bytes.old ≡ 0 }
    requires rooms { All HasRoom shells.now }
    requires cells { sum_by cells_of (map shell_object shells.now) ≤ vec_capacity cells.old }
    requires bytes { sum_by bytes_of (map shell_object shells.now) ≤ vec_capacity bytes.old }
    requires few_cells { sum_by cells_of (map shell_object shells.now) < 2 ^ 32 }
    requires few_bytes { sum_by bytes_of (map shell_object shells.now) < 2 ^ 32 }
    ensures holds { Holds (Some 0) cells.new.items bytes.new.items (all_laid (map shell_object shells.now)) }
    ensures len { vec_len cells.new ≡ sum_by cells_of (map shell_object shells.now) }
    ensures byte_len { vec_len bytes.new ≡ sum_by bytes_of (map shell_object shells.now) }
    ensures capacity { vec_capacity cells.old ≤ vec_capacity cells.new }
    ensures byte_capacity { vec_capacity bytes.old ≤ vec_capacity bytes.new }
{
    for shell in shells {
        put_shell(cells, bytes, *shell);
    }
}

impl Arena {
    /// An arena of this room with these objects, one behind the other, of which so much is used. The numbers in them may lead to
    /// any of them, also to those behind. It takes all its memory here, and time linear in what is used.
    pub fn with_shells(
        alloc: Global,
        room: Room,
        used: Room,
        shells: &[Shell<'_>],
    ) -> Result<Arena, NoMemory>
        requires rooms { All HasRoom shells.now }
        requires sound { Sound (heap_with (map shell_object shells.now) used room).objects }
        requires cells { sum_by cells_of (map shell_object shells.now) ≤ used.cells }
        requires bytes { sum_by bytes_of (map shell_object shells.now) ≤ used.bytes }
        requires cells_fit { used.cells ≤ room.cells }
        requires bytes_fit { used.bytes ≤ room.bytes }
        ensures { IfOk result (λ arena. arena ≡ heap_with (map shell_object shells.now) used room) }
    {
        let mut cells = Vec::with_capacity(alloc, room.cells as usize)?;
        let mut bytes = Vec::with_capacity(alloc, room.bytes as usize)?;
        let scratch = Vec::with_capacity(alloc, room.bytes as usize)?;
        put_shells(&mut cells, &mut bytes, shells);
        let blanks = used.cells - cells.len() as u32;
        let zeros = used.bytes - bytes.len() as u32;
        take_blanks(&mut cells, blanks);
        take_bytes(&mut bytes, zeros);
        Ok(Arena {
            cells,
            bytes,
            room,
            keys: Some(0),
            scratch: Some(scratch),
        })
    }
}
