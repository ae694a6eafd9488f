//! What an instruction acts as, by what it does and how it leaves the calls.

ghost use Rattle.std.specs.Prelude.{ℕ, List, Option, Result, Ok};
ghost use Rattle.vm_states.specs.mpy_base.World.{Heap};
ghost use Rattle.vm_states.specs.prim_names.arena_heap.declared.value.Value.{Value};
ghost use Rattle.vm_states.specs.prim_names.arena_heap.declared.value.StrNo.{StrNo};
ghost use Rattle.vm_states.specs.prim_names.arena_heap.declared.value.ConstNo.{ConstNo};
ghost use Rattle.vm_states.specs.prim_names.prim_faults.declared.stop.Stop.{Stop};
ghost use Rattle.vm_states.specs.vm_frames.Calls.{Calls};
ghost use Rattle.vm_states.specs.frame_values.Effects.{Leaves};
ghost use Rattle.vm_states.specs.vm_fetching.declared.instruction.Fetched.{Fetched};
ghost use Rattle.state_values.specs.Moving.{GoesBehind};
ghost use Rattle.state_values.specs.Keeping.{ActsKeeping};
ghost use Rattle.state_values.specs.Onward.{StartsBehind, DoesBehind, GoesOnward, Changed};

use vm_states::{keeps_law, known_law};

/// An instruction acts in each program as it does there, where the running call goes on at the start of an instruction with known
/// slots and locals; and one that moves frames alone acts as it goes, where the running call stays known.
pub fn acting_law()
    ensures acts { (texts : StrNo → Option (List ℕ)) (tuples : ConstNo
        → Option (List Value)) (fetched : Fetched) (visits offset : ℕ) (before behind : Heap Value ℕ) (old new : Calls)
        (result : Result (Unit {0}) Stop)
        → StartsBehind fetched offset → DoesBehind texts tuples fetched visits before behind old new result
        → GoesOnward texts tuples behind.objects offset old new result
        → Leaves texts tuples before behind result → ActsKeeping texts tuples fetched visits before behind old new result }
    ensures moves { (texts : StrNo → Option (List ℕ)) (tuples : ConstNo → Option (List Value)) (fetched : Fetched) (heap : Heap Value ℕ) (old new : Calls)
        → GoesBehind fetched old new → Changed texts tuples heap.objects old new → ActsKeeping texts tuples fetched 0 heap heap old new (Ok tt) }
{
    keeps_law();
    known_law();
}
