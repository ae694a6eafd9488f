//! Names of modules that are looked up.

ghost use Rattle.state_values.specs.vm_fetching.Instructions as fetched;
ghost use Rattle.state_values.specs.prim_assignments.prim_faults.Sights.{under};
ghost use Rattle.state_values.specs.vm_fetching.declared.operations.NameOp.TheVariants as name_ops;
ghost use Rattle.state_values.specs.vm_states.Acting.{RunsOver};
ghost use Rattle.vm_at_once.specs.AtOnce.{ActsAtOnce};

use crate::doing::done;
use arena_heap::{Arena, Constants, StrNo};
use state_values::{NameOp, acting_law};
use vm_frames::Frames;

/// LOAD_NAME.
#[inline(always)]
fn load_name<C: Constants>(
    frames: &mut Frames,
    arena: &Arena,
    consts: &C,
    name: StrNo,
    end: u32,
) -> Option<u64>
    requires runs { under C.Constants consts.now RunsOver arena.now frames.old (record { instruction = fetched.name name_ops.LoadName name; end = end }) }
    ensures { under C.Constants consts.now ActsAtOnce (record {
      instruction = fetched.name name_ops.LoadName name;
      end = end;
    }) arena.now frames.old frames.new result }
{
    acting_law();
    done(frame_values::load_name(frames, arena, consts, name, end))
}

/// LOAD_GLOBAL.
#[inline(always)]
fn load_global<C: Constants>(
    frames: &mut Frames,
    arena: &Arena,
    consts: &C,
    name: StrNo,
    end: u32,
) -> Option<u64>
    requires runs { under C.Constants consts.now RunsOver arena.now frames.old (record { instruction = fetched.name name_ops.LoadGlobal name; end = end }) }
    ensures { under C.Constants consts.now ActsAtOnce (record {
      instruction = fetched.name name_ops.LoadGlobal name;
      end = end;
    }) arena.now frames.old frames.new result }
{
    acting_law();
    done(frame_values::load_name(frames, arena, consts, name, end))
}

/// An operation on a name of the running call's module: one that is looked up is carried out.
#[inline(always)]
pub(crate) fn name_at_once<C: Constants>(
    frames: &mut Frames,
    arena: &Arena,
    consts: &C,
    op: NameOp,
    name: StrNo,
    end: u32,
) -> Option<u64>
    requires runs { under C.Constants consts.now RunsOver arena.now frames.old (record { instruction = fetched.name op name; end = end }) }
    ensures { under C.Constants consts.now ActsAtOnce (record { instruction = fetched.name op name; end = end }) arena.now frames.old frames.new result }
{
    match op {
        NameOp::LoadName => load_name(frames, arena, consts, name, end),
        NameOp::LoadGlobal => load_global(frames, arena, consts, name, end),
        NameOp::StoreName | NameOp::StoreGlobal | NameOp::DeleteName | NameOp::DeleteGlobal => None,
    }
}
