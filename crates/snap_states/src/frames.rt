//! Whether the frames of a snapshot are those of a state.

ghost use Rattle.std.specs.Prelude.{◌≡◌, ◌↔◌, ℕ, IsTrue, IfOk, IfSome, IfNone, All, Some, None, length, reverse, slice_get, option_copied};
ghost use Rattle.bc_library.specs.bc_flow.Action.{action};
ghost use Rattle.bc_library.specs.bc_flow.Verified.{at};
ghost use Rattle.bc_library.specs.bc_flow.Views.{table_of};
ghost use Rattle.bc_library.specs.bc_shapes.Views.{at_of};
ghost use Rattle.snap_states.specs.Frames.{AreShapes, FitsShape, HasParts, HasStack, StandsIn, assigned, is_call, is_import};
ghost use Rattle.snap_states.specs.Fronts.{StartOnce};
ghost use Rattle.snap_states.specs.Knowing.{IsKnown};
ghost use Rattle.snap_grammar.specs.declared.parts.RolePart.TheVariants as roles;
ghost use Rattle.snap_states.specs.States.{AreEntriesAt, AreFineFrames, IsEntryAt, IsFineFrame, IsFineLocal, IsFineRole, KeepsFine, Waits};

use crate::jumps::{jumps_lead_on, shape_at};
use crate::kinds::PartKind;
use crate::known::{Known, is_at, is_namespace};
use crate::shapes::{Shapes, shapes_of};
use crate::slots::{behind, position_of, stack_of};
use crate::values::is_plain;
use bc_flow::{Instr, Item, Op, action_at, locals, takes};
use bc_shapes::{Entry, NoMemory, Shape};
use snap_grammar::{EntryPart, FramePart, RolePart, SlotPart};
use std::alloc::Global;

/// Is the part a value that may stand anywhere, or empty?
fn is_fine_local(known: &Known<'_>, part: &SlotPart) -> bool
    requires { IsKnown known.now }
    ensures { IsTrue result ↔ IsFineLocal known.now.library.now known.now.snapshot.now part.now }
{
    match part {
        SlotPart::Value(v) => is_plain(known, v),
        SlotPart::Empty => true,
        SlotPart::Iterator { .. }
        | SlotPart::Left { .. }
        | SlotPart::Return(_)
        | SlotPart::Jump { .. } => false,
    }
}

/// Is each part a value that may stand anywhere, or empty?
fn are_fine_locals(known: &Known<'_>, parts: &[SlotPart]) -> bool
    requires { IsKnown known.now }
    ensures { IsTrue result ↔ All (IsFineLocal known.now.library.now known.now.snapshot.now) parts.now }
{
    for part in parts {
        if !is_fine_local(known, part) {
            return false;
        }
    }
    true
}

/// Does the entry keep nothing, or an exception while it is active?
fn keeps_fine(known: &Known<'_>, entry: &EntryPart) -> bool
    requires { IsKnown known.now }
    ensures { IsTrue result ↔ KeepsFine known.now.snapshot.now entry.now }
{
    match entry.kept {
        None => true,
        Some(number) => entry.active && is_at(known.snapshot, PartKind::Exception, number),
    }
}

/// Does each entry keep nothing, or an exception while it is active?
fn keep_fine(known: &Known<'_>, entries: &[EntryPart]) -> bool
    requires { IsKnown known.now }
    ensures { IsTrue result ↔ All (KeepsFine known.now.snapshot.now) entries.now }
{
    for entry in entries {
        if !keeps_fine(known, entry) {
            return false;
        }
    }
    true
}

/// Does the instruction at the position start at the offset?
fn starts_at(offsets: &[usize], position: usize, offset: u32) -> bool
    ensures { IsTrue result ↔ (slice_get offsets.now position ≡ Some offset) }
{
    match offsets.get(position) {
        None => false,
        Some(start) => *start == offset as usize,
    }
}

/// Is the part the entry, whose handler starts at the part's offset?
fn is_entry_at(offsets: &[usize], part: &EntryPart, entry: Entry) -> bool
    ensures { IsTrue result ↔ IsEntryAt offsets.now part.now entry }
{
    part.is_finally == entry.is_finally
        && part.active == entry.active
        && part.height as usize == entry.height
        && starts_at(offsets, entry.handler, part.handler)
}

/// Are the parts, of which the lowest stands first, the entries, of which the topmost does?
fn are_entries_at(offsets: &[usize], parts: &[EntryPart], entries: &[Entry]) -> bool
    ensures { IsTrue result ↔ AreEntriesAt offsets.now (reverse parts.now) entries.now }
{
    if parts.len() != entries.len() {
        return false;
    }
    for i in 0..entries.len() {
        if !is_entry_at(offsets, &parts[parts.len() - 1 - i], entries[i]) {
            return false;
        }
    }
    true
}

/// Does a frame that ends an import lead to a module?
fn is_fine_role(known: &Known<'_>, role: &RolePart) -> bool
    requires { IsKnown known.now }
    ensures { IsTrue result ↔ IsFineRole known.now.snapshot.now role.now }
{
    match role {
        RolePart::Main | RolePart::Call => true,
        RolePart::Import(number) => is_at(known.snapshot, PartKind::Module, *number),
    }
}

/// Is all of the frame fine but its slots, where there are so many locals and these entries?
fn has_parts(
    known: &Known<'_>,
    f: &FramePart,
    locals: usize,
    offsets: &[usize],
    entries: &[Entry],
) -> bool
    requires { IsKnown known.now }
    ensures { IsTrue result ↔ HasParts known.now.library.now known.now.snapshot.now f.now locals offsets.now entries.now }
{
    is_namespace(known, f.names)
        && is_fine_role(known, &f.role)
        && f.locals.len() == locals
        && are_fine_locals(known, f.locals.as_slice())
        && are_entries_at(offsets, f.entries.as_slice(), entries)
        && keep_fine(known, f.entries.as_slice())
}

/// Is the instruction a call?
fn is_call(item: Item) -> bool
    ensures { result ≡ is_call item }
{
    match item {
        Item::Plain(Instr::Num(op, _)) => matches!(op, Op::CallFunction | Op::CallMethod),
        _ => false,
    }
}

/// Is the instruction an import?
fn is_import(item: Item) -> bool
    ensures { result ≡ is_import item }
{
    match item {
        Item::Plain(Instr::Name(op, _)) => op == Op::ImportName,
        _ => false,
    }
}

/// How many slots the instruction took for what the frame above waits for, if it is such an instruction.
#[tactic(auto, using(crate::proofs::Framing::call_waits, crate::proofs::Framing::no_call, crate::proofs::Framing::import_waits, crate::proofs::Framing::no_import))]
fn taken_by(above: Option<&RolePart>, size: usize, item: Item) -> Option<usize>
    ensures some { IfSome result (λ n. Waits (option_copied above.entry) item (action size item) n) }
    ensures none { IfNone result ((n : ℕ) → Waits (option_copied above.entry) item (action size item) n → ⊥) }
{
    match above {
        None => Some(0),
        Some(RolePart::Main) => None,
        Some(RolePart::Call) => {
            if is_call(item) {
                Some(takes(&action_at(size, item)).len())
            } else {
                None
            }
        }
        Some(RolePart::Import(_)) => { if is_import(item) { Some(0) } else { None } }
    }
}

/// Are the slots of the frame those of the shape at its position, without those that its call took, and does each kept jump
/// lead on?
fn has_stack(
    alloc: Global,
    known: &Known<'_>,
    above: Option<&RolePart>,
    f: &FramePart,
    shapes: &Shapes,
    position: usize,
    shape: &Shape,
) -> Result<bool, NoMemory>
    requires known { IsKnown known.now }
    requires asked { StartOnce shapes.now.offsets.items }
    ensures { IfOk result (λ b. IsTrue b
        ↔ HasStack known.now.library.now known.now.snapshot.now
        (option_copied above.entry) f.now shapes.now.code.items.items shapes.now.offsets.items (assigned shapes.now) position
        (at_of shape.now)) }
{
    if position >= shapes.code.items.len() {
        return Ok(false);
    }
    let item = shapes.code.items[position];
    match taken_by(above, shapes.code.items.len(), item) {
        None => Ok(false),
        Some(taken) => {
            let kinds = behind(&shape.slots, taken);
            match stack_of(alloc, known, &shapes.offsets, kinds, f.slots.as_slice())? {
                None => Ok(false),
                Some(stack) => Ok(jumps_lead_on(&shapes.states, &shape.entries, &stack)),
            }
        }
    }
}

/// Is the frame fine where this shape holds at its position?
fn fits_shape(
    alloc: Global,
    known: &Known<'_>,
    above: Option<&RolePart>,
    f: &FramePart,
    shapes: &Shapes,
    position: usize,
    shape: &Shape,
) -> Result<bool, NoMemory>
    requires known { IsKnown known.now }
    requires asked { StartOnce shapes.now.offsets.items }
    ensures { IfOk result (λ b. IsTrue b
        ↔ FitsShape known.now.library.now known.now.snapshot.now (option_copied above.entry) f.now shapes.now position (at_of shape.now)) }
{
    let locals = locals(&shapes.code);
    if !has_parts(known, f, locals, &shapes.offsets, &shape.entries) {
        return Ok(false);
    }
    let fits = has_stack(alloc, known, above, f, shapes, position, shape)?;
    Ok(fits)
}

/// Does the frame stand at an instruction of these shapes?
fn stands_in(
    alloc: Global,
    known: &Known<'_>,
    above: Option<&RolePart>,
    f: &FramePart,
    shapes: &Shapes,
) -> Result<bool, NoMemory>
    requires known { IsKnown known.now }
    requires asked { StartOnce shapes.now.offsets.items }
    ensures { IfOk result (λ b. IsTrue b ↔ StandsIn known.now.library.now known.now.snapshot.now (option_copied above.entry) f.now shapes.now) }
{
    match position_of(&shapes.offsets, f.at) {
        None => Ok(false),
        Some(position) => match shape_at(&shapes.states, position) {
            None => Ok(false),
            Some(shape) => {
                let fits = fits_shape(alloc, known, above, f, shapes, position, shape)?;
                Ok(fits)
            }
        },
    }
}

/// Is the frame one of a state, below one of the role `above` or as the innermost?
fn is_fine_frame(
    alloc: Global,
    known: &Known<'_>,
    above: Option<&RolePart>,
    f: &FramePart,
) -> Result<bool, NoMemory>
    requires { IsKnown known.now }
    ensures { IfOk result (λ b. IsTrue b ↔ IsFineFrame known.now.library.now known.now.snapshot.now (option_copied above.entry) f.now) }
{
    match shapes_of(alloc, known.library, known.rows, f.module_number, f.code)? {
        None => Ok(false),
        Some(shapes) => {
            let fits = stands_in(alloc, known, above, f, &shapes)?;
            Ok(fits)
        }
    }
}

/// Is the frame main's?
fn is_main(role: Option<&RolePart>) -> bool
    ensures { IsTrue result ↔ (option_copied role.entry ≡ Some roles.Main) }
{
    match role {
        Some(RolePart::Main) => true,
        _ => false,
    }
}

/// Are the frames, of which the outermost stands first, those of a state? Takes the flow of the code of each.
pub fn are_fine_frames(
    alloc: Global,
    known: &Known<'_>,
    frames: &[FramePart],
) -> Result<bool, NoMemory>
    requires known { IsKnown known.now }
    ensures { IfOk result (λ b. IsTrue b ↔ AreFineFrames known.now.library.now known.now.snapshot.now None (reverse frames.now)) }
{
    let mut above = None;
    for i in 0..frames.len() {
        let f = &frames[frames.len() - 1 - i];
        if is_main(above) {
            return Ok(false);
        }
        if !is_fine_frame(alloc, known, above, f)? {
            return Ok(false);
        }
        above = Some(&f.role);
    }
    Ok(is_main(above))
}
