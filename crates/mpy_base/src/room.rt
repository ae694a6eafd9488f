//! The room of an arena, and what is said of a making that doesn't fit.

ghost use Rattle.std.specs.Prelude.{ℕ, ◌^◌, ◌<◌, ◌≤◌};
ghost use Rattle.std.specs.Option.{SomeIff};
ghost use Rattle.mpy_base.specs.Weights.{room_for, IsRoomFor};

/// Cells, and bytes of texts.
#[derive(Clone, Copy, Debug, PartialEq, Eq)]
pub struct Room {
    pub cells: u32,
    pub bytes: u32,
}

/// A making that doesn't fit: what it asked for (2^64-1 where it asked for more), and what is used of which size, in
/// cells or in bytes.
#[derive(Clone, Copy, Debug, PartialEq, Eq)]
pub struct NoRoom {
    pub asked: u64,
    pub used: u32,
    pub size: u32,
    pub bytes: bool,
}

/// The room of a list or dict that is made for `items` items, or None where it has no number of 64 bits.
pub fn room_for(items: u64) -> Option<u64>
    ensures { SomeIff result (room_for items < 2 ^ 64) (room_for items) }
{
    let least = items.max(4);
    if least > 1 << 63 {
        None
    } else {
        Some(least.next_power_of_two())
    }
}

/// The law of rooms: each is the least of 4, 8, 16 and so on that holds the items.
pub fn room_law()
    ensures { (items : ℕ) → IsRoomFor items (room_for items) }
{}
