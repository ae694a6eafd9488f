//! Displays, and sequences that are unpacked. Values are on their way in memory that the caller lends, a place for each.

ghost use Rattle.std.specs.Prelude.{◌≡◌, ◌≤◌, length};
ghost use Rattle.vm_states.specs.prim_names.prim_faults.Sights.{under};
ghost use Rattle.vm_states.specs.vm_fetching.Instructions as fetched;
ghost use Rattle.vm_states.specs.vm_fetching.declared.operations.BuildOp.TheVariants as build_ops;
ghost use Rattle.vm_states.specs.Acting.{RunsOver};
ghost use Rattle.state_values.specs.Keeping.{ActsKeeping};

use crate::law::acting_law;
use arena_heap::{Arena, Constants, Value};
use prim_faults::Stop;
use vm_frames::Frames;
use vm_states::{BuildOp, tops_law};

/// BUILD_TUPLE, where a place is lent for each item.
fn build_tuple<C: Constants>(
    frames: &mut Frames,
    arena: &mut Arena,
    consts: &C,
    items: &mut [Value],
    n: u32,
    end: u32,
) -> Result<(), Stop>
    requires places { length items.old ≡ n }
    requires runs { under C.Constants consts.now RunsOver arena.old frames.old (record { instruction = fetched.build build_ops.BuildTuple n; end = end }) }
    ensures acts { under C.Constants consts.now ActsKeeping (record {
      instruction = fetched.build build_ops.BuildTuple n;
      end = end;
    }) 0 arena.old arena.new frames.old frames.new result }
{
    acting_law();
    tops_law();
    let _ = n;
    frame_values::build_tuple(frames, arena, consts, items, end)
}

/// BUILD_LIST, where a place is lent for each item.
fn build_list<C: Constants>(
    frames: &mut Frames,
    arena: &mut Arena,
    consts: &C,
    items: &mut [Value],
    n: u32,
    end: u32,
) -> Result<(), Stop>
    requires places { length items.old ≡ n }
    requires runs { under C.Constants consts.now RunsOver arena.old frames.old (record { instruction = fetched.build build_ops.BuildList n; end = end }) }
    ensures acts { under C.Constants consts.now ActsKeeping (record {
      instruction = fetched.build build_ops.BuildList n;
      end = end;
    }) 0 arena.old arena.new frames.old frames.new result }
{
    acting_law();
    tops_law();
    let _ = n;
    frame_values::build_list(frames, arena, consts, items, end)
}

/// BUILD_MAP, with room for a number of pairs.
fn build_map<C: Constants>(
    frames: &mut Frames,
    arena: &mut Arena,
    consts: &C,
    pairs: u32,
    end: u32,
) -> Result<(), Stop>
    requires runs { under C.Constants consts.now RunsOver arena.old frames.old (record { instruction = fetched.build build_ops.BuildMap pairs; end = end }) }
    ensures acts { under C.Constants consts.now ActsKeeping (record {
      instruction = fetched.build build_ops.BuildMap pairs;
      end = end;
    }) 0 arena.old arena.new frames.old frames.new result }
{
    acting_law();
    frame_values::build_map(frames, arena, consts, pairs, end)
}

/// UNPACK_SEQUENCE, where a place is lent for each item.
fn unpack_sequence<C: Constants>(
    frames: &mut Frames,
    arena: &mut Arena,
    consts: &C,
    items: &mut [Value],
    n: u32,
    end: u32,
) -> Result<(), Stop>
    requires places { length items.old ≡ n }
    requires runs { under C.Constants consts.now RunsOver arena.old frames.old (record {
      instruction = fetched.build build_ops.UnpackSequence n;
      end = end;
    }) }
    ensures acts { under C.Constants consts.now ActsKeeping (record {
      instruction = fetched.build build_ops.UnpackSequence n;
      end = end;
    }) 0 arena.old arena.new frames.old frames.new result }
{
    acting_law();
    tops_law();
    let _ = n;
    frame_values::unpack_sequence(frames, arena, consts, items, end)
}

/// A collection that is made or taken apart, of as many items as the number says, for which places are lent. It makes no visits.
pub fn build_on<C: Constants>(
    frames: &mut Frames,
    arena: &mut Arena,
    consts: &C,
    items: &mut [Value],
    op: BuildOp,
    n: u32,
    end: u32,
) -> Result<(), Stop>
    requires places { frames.old.slot_room ≤ length items.old }
    requires runs { under C.Constants consts.now RunsOver arena.old frames.old (record { instruction = fetched.build op n; end = end }) }
    ensures acts { under C.Constants consts.now ActsKeeping (record { instruction = fetched.build op n; end = end }) 0 arena.old arena.new frames.old frames.new result }
{
    tops_law();
    match op {
        BuildOp::BuildTuple => {
            build_tuple(frames, arena, consts, &mut items[..n as usize], n, end)
        }
        BuildOp::BuildList => build_list(frames, arena, consts, &mut items[..n as usize], n, end),
        BuildOp::BuildMap => build_map(frames, arena, consts, n, end),
        BuildOp::UnpackSequence => {
            unpack_sequence(frames, arena, consts, &mut items[..n as usize], n, end)
        }
    }
}
