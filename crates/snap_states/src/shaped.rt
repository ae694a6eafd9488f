//! Whether a snapshot is a state of a library, but for its paid steps.

ghost use Rattle.std.specs.Prelude.{◌≡◌, ◌↔◌, IfOk, IsTrue};
ghost use Rattle.snap_states.specs.Knowing.{IsKnown};
ghost use Rattle.snap_states.specs.Grouped.{HasCount, HasGroups};
ghost use Rattle.snap_states.specs.States.{IsShaped};

use crate::frames::are_fine_frames;
use crate::known::Known;
use crate::objects::are_fine_objects;
use crate::registered::are_registered_parts;
use crate::room::has_room;
use bc_library::Library;
use bc_rows::Rows;
use mpy_base::NoMemory;
use mpy_base::limits::MAX_CALLS;
use snap_grammar::{FramePart, Snapshot};
use std::alloc::Global;

/// Are there frames, and no more than there may be?
fn has_count(frames: &[FramePart]) -> bool
    ensures { IsTrue result ↔ HasCount frames.now }
{
    !frames.is_empty() && frames.len() <= MAX_CALLS
}

/// Are the objects, the registered modules and the frames those of a state?
fn has_groups(alloc: Global, known: &Known<'_>) -> Result<bool, NoMemory>
    requires { IsKnown known.now }
    ensures { IfOk result (λ b. IsTrue b ↔ HasGroups known.now.library.now known.now.snapshot.now) }
{
    if !are_fine_objects(alloc, known)? {
        return Ok(false);
    }
    if !are_registered_parts(alloc, known.snapshot)? {
        return Ok(false);
    }
    let fine = are_fine_frames(alloc, known, known.snapshot.frames.as_slice())?;
    Ok(fine)
}

/// Is the snapshot a state of the library, but for its paid steps? In a time that grows with both.
#[tactic(auto, using(crate::proofs::Grouping::shaped_by, crate::proofs::Grouping::count_of))]
pub fn is_shaped(
    alloc: Global,
    library: &Library,
    rows: &Rows<'_>,
    snapshot: &Snapshot,
) -> Result<bool, NoMemory>
    requires { rows.now ≡ library.now }
    ensures { IfOk result (λ b. IsTrue b ↔ IsShaped library.now snapshot.now) }
{
    if !has_room(snapshot) {
        return Ok(false);
    }
    if !has_count(snapshot.frames.as_slice()) {
        return Ok(false);
    }
    let known = Known::new(alloc, library, rows, snapshot)?;
    let fine = has_groups(alloc, &known)?;
    Ok(fine)
}
