//! Modules that an import begins.

ghost use Rattle.std.specs.Prelude.{◌≡◌, ◌<◌, ◌≤◌, ℕ, All, Some, Err, IsSome, IfErr, codes, length, slice_get, true};
ghost use Rattle.mpy_base.specs.declared.limits.TheConstants.{MAX_CALLS as LIMIT};
ghost use Rattle.mpy_base.specs.Val.{PlainWorld};
ghost use Rattle.frame_moves.specs.bc_ops.declared.instr.Op.TheVariants as ops;
ghost use Rattle.frame_moves.specs.arena_heap.declared.value.StrNo.TheVariants as strs;
ghost use Rattle.frame_moves.specs.arena_heap.declared.value.Value.{Value as Item};
ghost use Rattle.bc_library.specs.Shelf.{Shelf};
ghost use Rattle.frame_moves.specs.bc_machine.Library.{Library, Name, Names};
ghost use Rattle.frame_moves.specs.py_effects.Effect.{Place};
ghost use Rattle.frame_moves.specs.prim_faults.Sights.{under, TellsAll, KnowsAnswer};
ghost use Rattle.frame_moves.specs.vm_frames.Placed.{IsPlaced};
ghost use Rattle.frame_moves.specs.Shown.{Tables, view_of, step_of};
ghost use Rattle.frame_moves.specs.Outcomes.{world_of, outcome_of};
ghost use Rattle.frame_exits.specs.Names.{AreTablesOf};
ghost use Rattle.frame_exits.specs.Ends.{with_modules};
ghost use Rattle.frame_exits.specs.Known.{Keeps};
ghost use Rattle.frame_exits.specs.declared.importing.Import.TheVariants as imports;
ghost use Rattle.frame_exits.specs.Importing.{AreOperands, IsImport, StandsFor};
ghost use Rattle.frame_exits.specs.Beginning.{IsOutermost, HasImported};
ghost use Rattle.frame_exits.specs.declared.names.ModuleName.{ModuleName as NameNumbers};

use crate::names::ModuleName;
use arena_heap::{Arena, Constants, StrNo};
use frame_moves::{Frames, Role, moves_law, placed_law};
use prim_modules::{Modules, Stop, make_module};

/// The number of the text of a module's name.
fn name_of(names: &[ModuleName], number: u32) -> ModuleName
    requires { number < length names.now }
    ensures { slice_get names.now number ≡ Some result }
{
    names[number as usize]
}

/// The import begins the module of the number, whose code 0 has these locals: a module is made and registered, and a call of
/// the code begins over the importing one, which stays at its instruction. Where the module doesn't fit, the calls and the
/// registered modules stay. `key` is the text `__name__`.
pub fn begin_import<C: Constants>(
    frames: &mut Frames,
    arena: &mut Arena,
    consts: &C,
    modules: &mut Modules,
    names: &[ModuleName],
    key: StrNo,
    number: u32,
    locals: u32,
) -> Result<(), Stop>
    requires key { C.text_of consts.now key ≡ Some (codes "__name__") }
    requires told { All (λ m. IsSome (C.text_of consts.now (strs.Pool m.name))) names.now }
    requires named { number < length names.now }
    requires shallow { length frames.old.calls < LIMIT }
    requires locals { locals ≤ frames.old.slot_room }
    requires room { length modules.old.entries < modules.old.room }
    requires all_told { TellsAll C.Constants consts.now arena.old }
    ensures steps { (tables : Tables) (shelf : Shelf) (library : Library) (w : PlainWorld) (name : Name) (from level : Item)
        → under C.Constants consts.now AreTablesOf names.now tables → AreOperands from level frames.old.calls
        → IsImport tables.texts tables.tuples shelf (world_of tables (with_modules tables w modules.old) arena.old) true name from level
        (imports.Begin number) → StandsFor tables shelf library → IsOutermost tables library number locals → (place : Place) (paid : ℕ)
        → step_of tables library place paid frames.old.calls (world_of tables (with_modules tables w modules.old) arena.old)
        (Names ops.ImportName name)
        ≡ outcome_of tables place (with_modules tables w modules.new) arena.new frames.old.calls frames.new.calls result }
    ensures begun { (m : NameNumbers) → slice_get names.now number ≡ Some m
        → HasImported number locals m.name frames.old frames.new modules.old modules.new result }
    ensures placed { (tables : Tables) (library : Library) → IsOutermost tables library number locals
        → All (IsPlaced (view_of tables)) frames.old.calls → All (IsPlaced (view_of tables)) frames.new.calls }
    ensures stop { IfErr result (λ stop. KnowsAnswer C.Constants consts.now arena.new (Err stop)) }
    ensures keeps { under C.Constants consts.now Keeps (length names.now) arena.old.objects arena.new.objects frames.old.calls frames.new.calls }
{
    moves_law();
    placed_law();
    let name = name_of(names, number);
    match make_module(arena, consts, modules, key, name.name) {
        Err(stop) => Err(stop),
        Ok(made) => {
            frames.push_call(number, 0, made.names, Role::Import(made.number), locals);
            Ok(())
        }
    }
}
