//! Instructions by their families.

ghost use Rattle.std.specs.Prelude.{◌≡◌, Ok, true, false};
ghost use Rattle.state_values.specs.prim_assignments.prim_faults.Sights.{under};
ghost use Rattle.state_values.specs.vm_fetching.Instructions as fetched;
ghost use Rattle.state_values.specs.Moving.{fetched_item};
ghost use Rattle.state_values.specs.vm_states.Acting.{RunsOver};
ghost use Rattle.state_values.specs.Keeping.{ActsKeeping};
ghost use Rattle.vm_at_once.specs.AtOnce.{ActsAtOnce};

use crate::doing::done;
use crate::items::{load_item, store_item};
use crate::iterators::iterate;
use crate::jumps::test_at_once;
use crate::locals::local_at_once;
use crate::names::name_at_once;
use crate::operators::binary_at_once;
use arena_heap::{Arena, Constants};
use state_values::{
    Action, Fetched, Instruction, ItemOp, Step, jump, load_int, load_object, load_text, move_on,
    unary_op,
};
use vm_frames::Frames;

/// An operation on an item: one that is loaded is carried out.
#[inline(always)]
fn item_at_once<C: Constants>(
    frames: &mut Frames,
    arena: &Arena,
    consts: &C,
    op: ItemOp,
    end: u32,
) -> Option<u64>
    requires runs { under C.Constants consts.now RunsOver arena.now frames.old (fetched_item op end) }
    ensures { under C.Constants consts.now ActsAtOnce (fetched_item op end) arena.now frames.old frames.new result }
{
    match op {
        ItemOp::LoadSubscr => load_item(frames, arena, consts, end),
        ItemOp::StoreSubscr | ItemOp::StoreMap => None,
    }
}

/// An instruction that stays in the running call: it is carried out if it comes to no stop and changes no object.
#[inline(always)]
fn step_at_once<C: Constants>(
    frames: &mut Frames,
    arena: &Arena,
    consts: &C,
    step: Step,
    end: u32,
) -> Option<u64>
    requires runs { under C.Constants consts.now RunsOver arena.now frames.old (record { instruction = fetched.stays step; end = end }) }
    ensures acts { under C.Constants consts.now ActsAtOnce (record { instruction = fetched.stays step; end = end }) arena.now frames.old frames.new result }
{
    match step {
        Step::Move(op) => done(move_on(frames, arena, consts, op, end)),
        Step::Int(n) => done(load_int(frames, arena, consts, n, end)),
        Step::Text(text) => done(load_text(frames, arena, consts, text, end)),
        Step::Object(v) => done(load_object(frames, arena, consts, v, end)),
        Step::Local(op, n) => local_at_once(frames, arena, consts, op, n, end),
        Step::Item(op) => item_at_once(frames, arena, consts, op, end),
        Step::Name(op, name) => name_at_once(frames, arena, consts, op, name, end),
        Step::Unary(number) => done(unary_op(frames, arena, consts, number, end)),
        Step::Jump(target) => done(jump(frames, arena, consts, target, end)),
        Step::Test(op, target) => test_at_once(frames, arena, consts, op, target, end),
        Step::ForIter(target) => iterate(frames, arena, consts, target, end),
        _ => None,
    }
}

/// Carries out what was fetched for the running call, if it changes that call alone and comes to no stop: constants, locals,
/// names that are looked up, moves of slots, items of lists, jumps, iterators over lists and ranges, operators over one value, and over
/// two small integers. It answers the visits
/// that it makes; None where it is left.
#[inline(always)]
pub fn act_at_once<C: Constants>(
    frames: &mut Frames,
    arena: &Arena,
    consts: &C,
    fetched: Fetched,
) -> Option<u64>
    requires runs { under C.Constants consts.now RunsOver arena.now frames.old fetched }
    ensures acts { under C.Constants consts.now ActsAtOnce fetched arena.now frames.old frames.new result }
{
    let end = fetched.end;
    match fetched.instruction {
        Instruction::Acts(action) => match action {
            Action::Stays(step) => step_at_once(frames, arena, consts, step, end),
            _ => None,
        },
        Instruction::Binary(number) => binary_at_once(frames, arena, consts, number, end),
        Instruction::Calls(_op, _number) => None,
    }
}

/// An instruction that stays in the running call: it is carried out if it sets an item of a list at a small integer that counts from
/// its front. Whether it was done.
#[inline(always)]
fn store_step<C: Constants>(
    frames: &mut Frames,
    arena: &mut Arena,
    consts: &C,
    step: Step,
    end: u32,
) -> bool
    requires runs { under C.Constants consts.now RunsOver arena.old frames.old (record { instruction = fetched.stays step; end = end }) }
    ensures done { result ≡ true
        → under C.Constants consts.now ActsKeeping (record { instruction = fetched.stays step; end = end }) 0 arena.old arena.new
        frames.old frames.new (Ok tt) }
    ensures left { result ≡ false → (frames.new ≡ frames.old) × (arena.new ≡ arena.old) }
{
    match step {
        Step::Item(op) => match op {
            ItemOp::StoreSubscr => store_item(frames, arena, consts, end),
            _ => false,
        },
        _ => false,
    }
}

/// Carries out what was fetched for the running call, if it sets an item of a list at a small integer that counts from its front.
/// Whether it was done.
#[inline(always)]
pub fn store_at_once<C: Constants>(
    frames: &mut Frames,
    arena: &mut Arena,
    consts: &C,
    fetched: Fetched,
) -> bool
    requires runs { under C.Constants consts.now RunsOver arena.old frames.old fetched }
    ensures done { result ≡ true → under C.Constants consts.now ActsKeeping fetched 0 arena.old arena.new frames.old frames.new (Ok tt) }
    ensures left { result ≡ false → (frames.new ≡ frames.old) × (arena.new ≡ arena.old) }
{
    match fetched.instruction {
        Instruction::Acts(action) => match action {
            Action::Stays(step) => store_step(frames, arena, consts, step, fetched.end),
            _ => false,
        },
        _ => false,
    }
}
