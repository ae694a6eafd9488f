//! The bytes of a state.

ghost use Rattle.std.specs.Prelude.{◌≡◌, ◌<◌, ◌≤◌, ◌^◌, ◌++◌, length, IfOk, OnOk};
ghost use Rattle.std.specs.Bool.{OnTrue, OnFalse};
ghost use Rattle.std.specs.List.{flat_map};
ghost use Rattle.mpy_base.specs.declared.limits.TheConstants.{MAX_CALLS as LIMIT};
ghost use Rattle.snap_grammar.specs.Spelling.{Fits};
ghost use Rattle.snap_saving.specs.Put.{whole};
ghost use Rattle.snap_saving.specs.Saved.{IfFault, IsLong, IsTooBig};
ghost use Rattle.snap_saving.specs.Shown.{IsSnapshotOf, snapshot_of};
ghost use Rattle.snap_saving.specs.Steps.{ArePlaces, calls_bytes, found, head_bytes, heap_bytes, registered_bytes, registry_bytes};

use crate::bytes::{is_long, put_number};
use crate::fault::SaveFault;
use crate::frames::put_frames;
use crate::objects::put_objects;
use crate::values::{place, places_of};
use arena_heap::Arena;
use bc_library::Library;
use mpy_base::limits::MAX_CALLS;
use mpy_base::{NoMemory, Refused};
use prim_modules::{Entry, Modules};
use std::alloc::Global;
use vm_frames::Frames;

/// So many paid steps are too many.
const MANY_STEPS: u64 = 9_223_372_036_854_775_808;

/// The header, the room and what is used of it, and the paid steps.
fn put_head(out: &mut Vec<u8>, arena: &Arena, paid: u64) -> Result<(), NoMemory>
    ensures { OnOk result (out.new.items ≡ out.old.items ++ head_bytes arena.now paid) }
{
    let room = arena.room();
    let used = arena.used();
    out.extend_from_slice(&[0x4d, 0x53, 1, 0x1f])?;
    put_number(out, room.cells)?;
    put_number(out, room.bytes)?;
    put_number(out, used.cells)?;
    put_number(out, used.bytes)?;
    out.extend_from_slice(&paid.to_le_bytes())?;
    Ok(())
}

/// The registered modules.
fn put_modules(out: &mut Vec<u8>, places: &[u32], modules: &[Entry]) -> Result<(), NoMemory>
    ensures { OnOk result (out.new.items ≡ out.old.items ++ flat_map (registered_bytes (found places.now)) modules.now) }
{
    for entry in modules {
        put_number(out, place(places, entry.object.cell))?;
    }
    Ok(())
}

/// How many objects there are, and these.
fn put_heap(
    out: &mut Vec<u8>,
    library: &Library,
    arena: &Arena,
    places: &[u32],
) -> Result<(), Refused<SaveFault>>
    requires { ArePlaces arena.now places.now }
    ensures ok { OnOk result (out.new.items ≡ out.old.items ++ heap_bytes library.now (found places.now) arena.now) }
    ensures fault { IfFault result (IsLong (out.old.items ++ heap_bytes library.now (found places.now) arena.now)) }
{
    put_number(out, place(places, arena.used().cells))?;
    put_objects(out, library, arena, places)
}

/// How many registered modules there are, and these.
fn put_registry(out: &mut Vec<u8>, places: &[u32], modules: &Modules) -> Result<(), NoMemory>
    ensures { OnOk result (out.new.items ≡ out.old.items ++ registry_bytes (found places.now) modules.now) }
{
    let entries = modules.entries();
    put_number(out, entries.len() as u32)?;
    put_modules(out, places, entries)?;
    Ok(())
}

/// How many frames there are, and these.
fn put_calls(
    out: &mut Vec<u8>,
    library: &Library,
    places: &[u32],
    frames: &Frames,
) -> Result<(), Refused<SaveFault>>
    ensures ok { OnOk result (out.new.items ≡ out.old.items ++ calls_bytes library.now (found places.now) frames.now.calls) }
    ensures fault { IfFault result (IsLong (out.old.items ++ calls_bytes library.now (found places.now) frames.now.calls)) }
{
    put_number(out, frames.depth())?;
    put_frames(out, library, places, frames)
}

/// A state whose objects have these places.
fn put_state(
    out: &mut Vec<u8>,
    library: &Library,
    arena: &Arena,
    places: &[u32],
    modules: &Modules,
    frames: &Frames,
    paid: u64,
) -> Result<(), Refused<SaveFault>>
    requires { ArePlaces arena.now places.now }
    ensures ok { OnOk result (out.new.items ≡ out.old.items ++ whole (snapshot_of library.now arena.now modules.now frames.now.calls paid)) }
    ensures fault { IfFault result (IsLong (out.old.items ++ whole (snapshot_of library.now arena.now modules.now frames.now.calls paid))) }
{
    put_head(out, arena, paid)?;
    put_heap(out, library, arena, places)?;
    put_registry(out, places, modules)?;
    put_calls(out, library, places, frames)
}

/// Whether more steps are paid than may be.
fn are_many(paid: u64) -> bool
    ensures yes { OnTrue result (2 ^ 63 ≤ paid) }
    ensures no { OnFalse result (paid < 2 ^ 63) }
{
    paid >= MANY_STEPS
}

/// Whether there are more frames than a run may have.
fn is_deep(frames: &Frames) -> bool
    ensures yes { OnTrue result (LIMIT < length frames.now.calls) }
    ensures no { OnFalse result (length frames.now.calls ≤ LIMIT) }
{
    frames.depth() as usize > MAX_CALLS
}

/// The snapshot of a state of the library: of its arena, its registered modules, its calls, and the steps that are paid on the running
/// instruction.
pub fn save(
    alloc: Global,
    library: &Library,
    arena: &Arena,
    modules: &Modules,
    frames: &Frames,
    paid: u64,
) -> Result<Vec<u8>, Refused<SaveFault>>
    ensures saved { IfOk result (λ bytes. IsSnapshotOf library.now arena.now modules.now frames.now.calls paid bytes.items) }

    // It is one that is read again.
    ensures fits { OnOk result (Fits (snapshot_of library.now arena.now modules.now frames.now.calls paid)) }

    // A fault comes exactly where the state has no snapshot.
    ensures few_bytes { IfOk result (λ bytes. length bytes.items ≤ 4194304) }
    ensures few_steps { OnOk result (paid < 2 ^ 63) }
    ensures few_calls { OnOk result (length frames.now.calls ≤ LIMIT) }
    ensures fault { IfFault result (IsTooBig library.now arena.now modules.now frames.now.calls paid) }
{
    if are_many(paid) {
        return Err(Refused::Fault(SaveFault::TooBig));
    }
    if is_deep(frames) {
        return Err(Refused::Fault(SaveFault::TooBig));
    }
    let places = places_of(alloc, arena)?;
    let mut out = Vec::new(alloc);
    put_state(&mut out, library, arena, &places, modules, frames, paid)?;
    if is_long(&out) {
        return Err(Refused::Fault(SaveFault::TooBig));
    }
    Ok(out)
}
