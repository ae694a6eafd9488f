//! Instructions that stay in the running call and operators, and what their stops come to.

ghost use Rattle.std.specs.Prelude.{◌≡◌, ◌≤◌, length};
ghost use Rattle.state_values.specs.bc_library.Shelf.{Shelf};
ghost use Rattle.state_calls.specs.prim_faults.Sights.{under};
ghost use Rattle.state_calls.specs.vm_fetching.Instructions as fetched_as;
ghost use Rattle.state_values.specs.vm_states.Means.{Program};
ghost use Rattle.state_values.specs.vm_states.Acting.{RunsOver};
ghost use Rattle.state_exits.specs.Running.{RunsWith};
ghost use Rattle.state_values.specs.Keeping.{ActsKeeping};
ghost use Rattle.state_steps.specs.Comes.{ComesOnBehind};
ghost use Rattle.state_values.specs.Operators.{visits_binary};

use arena_heap::{Arena, Constants, Value};
use prim_faults::Stop;
use prim_modules::Modules;
use state_exits::{End, ModuleName, Row, Step, registered_law, stop_on};
use state_values::{
    attribute_on, binary_op, build_on, for_iter, get_iter_stack, handle_on, item_on, jump,
    load_int, load_object, load_text, local_on, move_on, name_on, test_jump, unary_op, unwind_jump,
};
use vm_frames::Frames;

/// An instruction that stays in the running call, by what it works on. It makes no visits.
#[tactic(none)]
fn act_on<C: Constants>(
    frames: &mut Frames,
    arena: &mut Arena,
    consts: &C,
    items: &mut [Value],
    step: Step,
    end: u32,
) -> Result<(), Stop>
    requires places { frames.old.slot_room ≤ length items.old }
    requires runs { under C.Constants consts.now RunsOver arena.old frames.old (record { instruction = fetched_as.stays step; end = end }) }
    ensures acts { under C.Constants consts.now ActsKeeping
        (record { instruction = fetched_as.stays step; end = end }) 0 arena.old arena.new frames.old frames.new result }
{
    match step {
        Step::Move(op) => move_on(frames, arena, consts, op, end),
        Step::Int(n) => load_int(frames, arena, consts, n, end),
        Step::Text(text) => load_text(frames, arena, consts, text, end),
        Step::Object(v) => load_object(frames, arena, consts, v, end),
        Step::Local(op, n) => local_on(frames, arena, consts, op, n, end),
        Step::Item(op) => item_on(frames, arena, consts, op, end),
        Step::Build(op, n) => build_on(frames, arena, consts, items, op, n, end),
        Step::Name(op, name) => name_on(frames, arena, consts, op, name, end),
        Step::Attribute(op, name) => attribute_on(frames, arena, consts, op, name, end),
        Step::Unary(number) => unary_op(frames, arena, consts, number, end),
        Step::Jump(target) => jump(frames, arena, consts, target, end),
        Step::Test(op, target) => test_jump(frames, arena, consts, op, target, end),
        Step::Handle(op, target) => handle_on(frames, arena, consts, op, target, end),
        Step::Iterate => get_iter_stack(frames, arena, consts, end),
        Step::ForIter(target) => for_iter(frames, arena, consts, target, end),
        Step::Unwind { target, byte } => unwind_jump(frames, arena, consts, target, byte, end),
    }
}

/// An instruction that stays in the running call, of this row, for which it was fetched; where it stops, the stop is raised at its
/// place. It answers how the run ends, if it does. Places are lent for as many items as a call has slots. It makes no visits.
#[tactic(none)]
pub fn operate<C: Constants>(
    frames: &mut Frames,
    arena: &mut Arena,
    consts: &C,
    modules: &mut Modules,
    names: &[ModuleName],
    items: &mut [Value],
    row: &Row<'_>,
    step: Step,
    end: u32,
) -> Option<End>
    requires places { frames.old.slot_room ≤ length items.old }
    requires runs { (shelf : Shelf) × under C.Constants consts.now RunsWith names.now shelf arena.old modules.old frames.old row.now
        (record { instruction = fetched_as.stays step; end = end }) }
    ensures comes { (p : Program)
        → under C.Constants consts.now (ComesOnBehind p) names.now row.now
        (record { instruction = fetched_as.stays step; end = end }) 0 arena.old arena.new modules.old modules.new frames.old frames.new result }
    ensures rooms { frames.new ≡ record frames.old { calls = frames.new.calls } }
    ensures registry { modules.new.room ≡ modules.old.room }
{
    registered_law();
    match act_on(frames, arena, consts, items, step, end) {
        Ok(()) => None,
        Err(stop) => stop_on(frames, arena, consts, modules, names, row, stop),
    }
}

/// An operator over two operands that was fetched for the running call, of this row; where it stops, the stop is raised at its
/// place. It answers how the run ends, if it does. Its visits are those of `state_values::visits_binary_op`.
#[tactic(none)]
pub fn operate_binary<C: Constants>(
    frames: &mut Frames,
    arena: &mut Arena,
    consts: &C,
    modules: &mut Modules,
    names: &[ModuleName],
    row: &Row<'_>,
    number: u8,
    end: u32,
) -> Option<End>
    requires runs { (shelf : Shelf) × under C.Constants consts.now RunsWith names.now shelf arena.old modules.old frames.old row.now
        (record { instruction = fetched_as.binary number; end = end }) }
    ensures comes { (p : Program)
        → under C.Constants consts.now (ComesOnBehind p) names.now row.now (record { instruction = fetched_as.binary number; end = end })
        (under C.Constants consts.now visits_binary arena.old frames.old.calls number) arena.old arena.new modules.old modules.new
        frames.old frames.new result }
    ensures rooms { frames.new ≡ record frames.old { calls = frames.new.calls } }
    ensures registry { modules.new.room ≡ modules.old.room }
{
    registered_law();
    match binary_op(frames, arena, consts, number, end) {
        Ok(()) => None,
        Err(stop) => stop_on(frames, arena, consts, modules, names, row, stop),
    }
}
