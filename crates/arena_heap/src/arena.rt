//! The arena, and what fits it.

ghost use Rattle.std.specs.Prelude.{◌≡◌, ℕ, ◌^◌, ◌<◌, IfOk, IfErr, OnOk, OnErr};
ghost use Rattle.qstr_pool.specs.mpy_base.World.{object};
ghost use Rattle.qstr_pool.specs.mpy_base.Weights.{empty, used, Fits, no_room};
ghost use Rattle.arena_heap.specs.Values.{Sound, IsWithinRoom, HasOwnRoom, HasFew};

use crate::cells::Cell;
use qstr_pool::{NoMemory, NoRoom, Room};
use std::alloc::Global;
use std::marker::Model;

/// A fixed arena, which contracts see as its objects and the room used.
#[derive(Drop)]
pub struct Arena {
    pub(crate) cells: Vec<Cell>,
    pub(crate) bytes: Vec<u8>,
    pub(crate) room: Room,
    /// The texts among the keys of dicts lie below this cell. None: one of them was written later, and dicts aren't linked
    /// any more.
    pub(crate) keys: Option<u32>,
    /// Room for the bytes of a text that is being made, unless it is lent.
    pub(crate) scratch: Option<Vec<u8>>,
}

impl Model for Arena {
    ghost use Rattle.std.specs.Prelude.{ℕ};
    ghost use Rattle.std.specs.Vec.{vec_capacity};
    ghost use Rattle.qstr_pool.specs.mpy_base.World.{Heap};
    ghost use Rattle.arena_heap.specs.declared.value.Value.{Value as Item};
    ghost use Rattle.arena_heap.specs.Cells.{heap_of, IsArena};

    ghost Value = { Heap Item ℕ };

    ghost view = { λ a. heap_of a.cells.items a.bytes.items a.room.cells a.room.bytes };

    ghost invariant = { λ a. IsArena a.keys a.cells.items a.bytes.items a.room.cells a.room.bytes (vec_capacity a.cells) (vec_capacity a.bytes) };
}

impl Arena {
    /// An empty arena of this room. It takes all its memory here.
    pub fn new(alloc: Global, room: Room) -> Result<Arena, NoMemory>
        ensures { IfOk result (λ arena. arena ≡ empty room.cells room.bytes) }
    {
        let cells = Vec::with_capacity(alloc, room.cells as usize)?;
        let bytes = Vec::with_capacity(alloc, room.bytes as usize)?;
        let scratch = Vec::with_capacity(alloc, room.bytes as usize)?;
        Ok(Arena {
            cells,
            bytes,
            room,
            keys: Some(0),
            scratch: Some(scratch),
        })
    }

    /// Lends a vector that was taken with the arena: it has room for as many bytes as the arena, so that a text is made
    /// there first, in one go. None: it is lent already. `return_scratch` gives it back.
    pub fn lend_scratch(&mut self) -> Option<Vec<u8>>
        ensures same { self.new ≡ self.old }
    {
        self.scratch.take()
    }

    /// Takes back what `lend_scratch` lent.
    pub fn return_scratch(&mut self, scratch: Vec<u8>)
        ensures same { self.new ≡ self.old }
    {
        self.scratch = Some(scratch);
    }

    /// The room that there is.
    pub fn room(&self) -> Room
        ensures cells { result.cells ≡ self.now.cell_size }
        ensures bytes { result.bytes ≡ self.now.byte_size }
    {
        self.room
    }

    /// The room used.
    pub fn used(&self) -> Room
        ensures cells { result.cells ≡ used self.now }
        ensures bytes { result.bytes ≡ self.now.bytes }
    {
        Room {
            cells: self.cells.len() as u32,
            bytes: self.bytes.len() as u32,
        }
    }

    /// Whether `cells` more cells and `bytes` more bytes fit.
    pub(crate) fn ask(&self, cells: u64, bytes: u64) -> Result<(), NoRoom>
        ensures ok { OnOk result (Fits self.now cells bytes) }
        ensures told { IfErr result (λ e. e ≡ no_room self.now cells bytes) }
        ensures err { OnErr result (Fits self.now cells bytes → ⊥) }
        ensures few { self.now.cell_size < 2 ^ 32 }
    {
        let cells_used = self.cells.len() as u32;
        if cells > (self.room.cells - cells_used) as u64 {
            return Err(NoRoom {
                asked: cells,
                used: cells_used,
                size: self.room.cells,
                bytes: false,
            });
        }
        let bytes_used = self.bytes.len() as u32;
        if bytes > (self.room.bytes - bytes_used) as u64 {
            return Err(NoRoom {
                asked: bytes,
                used: bytes_used,
                size: self.room.bytes,
                bytes: true,
            });
        }
        Ok(())
    }

    /// The objects of an arena are formed, and their values lead to objects of their kinds.
    pub fn sound_law(&self)
        ensures { Sound self.now.objects }
    {
        let _ = &self.room;
    }

    /// An arena's lists and dicts hold no more than their rooms, which are such as they get (`HasOwnRoom`), its objects few
    /// items, and what is used of the arena lies within it.
    pub fn room_law(&self)
        ensures rooms { (n : ℕ) → IsWithinRoom (object self.now.objects n) }
        ensures own_rooms { (n : ℕ) → HasOwnRoom (object self.now.objects n) }
        ensures few_items { (n : ℕ) → HasFew (object self.now.objects n) }
        ensures fits { Fits self.now 0 0 }
        ensures few { self.now.cell_size < 2 ^ 32 }
        ensures few_bytes { self.now.byte_size < 2 ^ 32 }
    {
        let _ = &self.room;
    }
}
