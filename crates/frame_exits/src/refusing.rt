//! Imports that fail before a module begins.

ghost use Rattle.std.specs.Prelude.{◌≡◌, ℕ, List, Option, IsSome, Err, nat_lt, length};
ghost use Rattle.mpy_base.specs.declared.limits.TheConstants.{MAX_CALLS as LIMIT};
ghost use Rattle.mpy_base.specs.World.{Heap};
ghost use Rattle.mpy_base.specs.Val.{PlainWorld};
ghost use Rattle.frame_moves.specs.bc_ops.declared.instr.Op.TheVariants as ops;
ghost use Rattle.frame_moves.specs.arena_heap.declared.value.Value.{Value as Item};
ghost use Rattle.frame_moves.specs.arena_heap.declared.value.StrNo.{StrNo as TextName};
ghost use Rattle.frame_moves.specs.arena_heap.declared.value.StrNo.TheVariants as strs;
ghost use Rattle.frame_moves.specs.arena_heap.declared.value.ConstNo.{ConstNo as TupleName};
ghost use Rattle.bc_library.specs.Shelf.{Shelf};
ghost use Rattle.frame_moves.specs.bc_machine.Library.{Library, Names};
ghost use Rattle.frame_moves.specs.py_effects.Effect.{Place};
ghost use Rattle.frame_moves.specs.prim_walks.Plain.{plain_name};
ghost use Rattle.frame_moves.specs.prim_faults.Outcomes.{IsKnownAnswer};
ghost use Rattle.frame_moves.specs.vm_frames.Calls.{Call};
ghost use Rattle.frame_moves.specs.Shown.{Tables, step_of};
ghost use Rattle.frame_moves.specs.Outcomes.{world_of, stopping_of};
ghost use Rattle.frame_exits.specs.declared.importing.Import.TheVariants as imports;
ghost use Rattle.frame_moves.specs.prim_faults.declared.stop.Stop.TheVariants as stops;
ghost use Rattle.frame_exits.specs.Importing.{AreOperands, IsImport, StandsFor, refusal_fault};

use crate::importing::Refusal;
use arena_heap::StrNo;
use prim_modules::{Fault, Stop};

/// The fault of an import of the name.
fn fault_of(name: u32, refusal: Refusal) -> Fault
    ensures { result ≡ refusal_fault name refusal }
{
    match refusal {
        Refusal::Relative => Fault::RelativeImport,
        Refusal::Missing { len } => Fault::NoModule {
            name: StrNo::Pool(name),
            len,
        },
        Refusal::Incompatible => Fault::IncompatibleFile,
        Refusal::TooDeep => Fault::TooDeep,
    }
}

/// The import of the name fails so, and the calls stay.
pub fn refuse_import(name: u32, refusal: Refusal) -> Stop
    ensures fault { result ≡ stops.Raises (refusal_fault name refusal) }
    ensures steps { (tables : Tables) (shelf : Shelf) (library : Library) (w : PlainWorld) (heap : Heap Item ℕ) (calls : List Call)
        (from level : Item) → AreOperands from level calls
        → IsImport tables.texts tables.tuples shelf (world_of tables w heap) (nat_lt (length calls) LIMIT)
        (plain_name tables.texts tables.tuples name) from level (imports.Stops refusal) → StandsFor tables shelf library
        → (place : Place) (paid : ℕ)
        → step_of tables library place paid calls (world_of tables w heap)
        (Names ops.ImportName (plain_name tables.texts tables.tuples name)) ≡ stopping_of tables place w heap calls result }
    ensures known { (texts : TextName → Option (List ℕ)) (tuples : TupleName
        → Option (List Item)) (shelf : Shelf) (w : PlainWorld) (heap : Heap Item ℕ) (calls : List Call) (from level : Item)
        → IsImport texts tuples shelf w (nat_lt (length calls) LIMIT) (plain_name texts tuples name) from level (imports.Stops refusal)
        → IsSome (texts (strs.Pool name))
        → IsKnownAnswer texts tuples heap.objects (Err result) }
{
    Stop::Raises(fault_of(name, refusal))
}
