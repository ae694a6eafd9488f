//! The arena of a snapshot.

ghost use Rattle.std.specs.Prelude.{◌≡◌, ℕ, IfOk};
ghost use Rattle.snap_grammar.specs.Spelling.{Fits};
ghost use Rattle.snap_states.specs.Decoded as decoded;
ghost use Rattle.snap_states.specs.States.{AreFineObjects, HasRoom};
ghost use Rattle.snap_loading.specs.Given.{IsLibrary};
ghost use Rattle.snap_loading.specs.Looked.{IsLookup};

use crate::filling::fill;
use crate::lookup::Lookup;
use crate::safe::shells_law;
use crate::shells::shells_of;
use crate::titles::titles_law;
use arena_heap::Arena;
use mpy_base::{NoMemory, Room};
use std::alloc::Global;
use vm_machine::Rows;

/// The arena of a snapshot: its objects one behind the other, and then the cells that belong to none.
pub(crate) fn arena_of(alloc: Global, lookup: &Lookup, rows: &Rows<'_>) -> Result<Arena, NoMemory>
    requires lookup { IsLookup lookup.now }
    requires rows { rows.now ≡ lookup.now.library.now }
    requires library { IsLibrary lookup.now.library.now }
    requires fits { Fits lookup.now.snapshot.now }
    requires fine { AreFineObjects lookup.now.library.now lookup.now.snapshot.now }
    requires room { HasRoom lookup.now.snapshot.now }
    ensures { IfOk result (λ arena. (title : ℕ → ℕ → ℕ) → decoded.AreTitles lookup.now.library.now title
        → arena ≡ decoded.heap_of lookup.now.library.now lookup.now.snapshot.now title) }
{
    titles_law(lookup.library, rows);
    shells_law();
    let snapshot = lookup.snapshot;
    let room = Room {
        cells: snapshot.cells,
        bytes: snapshot.bytes,
    };
    let used = Room {
        cells: snapshot.used_cells,
        bytes: snapshot.used_bytes,
    };
    let shells = shells_of(alloc, lookup, rows)?;
    let mut arena = Arena::with_shells(alloc, room, used, shells.as_slice())?;
    fill(&mut arena, lookup);
    Ok(arena)
}
