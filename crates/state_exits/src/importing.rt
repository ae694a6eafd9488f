//! Imports, and the modules that they begin.

ghost use Rattle.std.specs.Prelude.{◌≡◌, ◌<◌, ◌^◌, ℕ, Some, IsSome, codes, length, nat_lt};
ghost use Rattle.vm_states.specs.mpy_base.declared.limits.TheConstants.{MAX_CALLS as LIMIT};
ghost use Rattle.vm_states.specs.mpy_base.Val.{PlainWorld};
ghost use Rattle.prim_faults.specs.arena_heap.declared.value.Value.{Value as Item};
ghost use Rattle.vm_states.specs.bc_rows.declared.row.Row.{Row as CodeRow};
ghost use Rattle.vm_states.specs.bc_rows.Codes.{code_numbered};
ghost use Rattle.vm_states.specs.bc_rows.Rows.{IsRow};
ghost use Rattle.prim_faults.specs.Sights.{under, sight};
ghost use Rattle.vm_states.specs.prim_modules.Registry.{plain_modules};
ghost use Rattle.vm_states.specs.frame_exits.declared.importing.Import.TheVariants as imports;
ghost use Rattle.vm_states.specs.frame_exits.Importing.{AreOperands, IsImport};
ghost use Rattle.vm_states.specs.Means.{Program};
ghost use Rattle.state_exits.specs.Running.{RunsWith};
ghost use Rattle.state_exits.specs.Importing.{fetched_import, ImportsBehind};

use arena_heap::{Arena, Constants, StrNo};
use bc_machine::sound_law;
use bc_progress::room_law;
use prim_faults::Stop;
use vm_frames::Frames;
use vm_states::{
    Import, Library, ModuleName, Modules, Rows, begin_import, import_name, keeps_law, known_law,
    put_import, refuse_import, rows_law, standing_law, tops_law,
};

/// The locals of the outermost code of a module, which are fewer than 2^32.
fn outermost_locals(rows: &Rows<'_>, number: u32) -> u32
    requires there { IsSome (code_numbered rows.now number 0) }
    requires short { (row : CodeRow) → IsRow rows.now number 0 row → row.locals < 2 ^ 32 }
    ensures { (row : CodeRow) × IsRow rows.now number 0 row × (result ≡ row.locals) }
{
    let Some(row) = rows.row(number, 0) else {
        unreachable!();
    };
    row.locals as u32
}

/// The import that was fetched for the running call begins the module of the number.
fn begin<C: Constants>(
    frames: &mut Frames,
    arena: &mut Arena,
    consts: &C,
    rows: &Rows<'_>,
    modules: &mut Modules,
    names: &[ModuleName],
    key: StrNo,
    name: u32,
    number: u32,
) -> Result<(), Stop>
    requires runs { (row : CodeRow) × (end : ℕ)
        × under C.Constants consts.now RunsWith names.now rows.now arena.old modules.old frames.old row (fetched_import name end) }
    requires key { C.text_of consts.now key ≡ Some (codes "__name__") }
    requires short { frames.old.slot_room < 2 ^ 32 }
    requires import { let see = sight C.Constants consts.now in (from level : Item) (w : PlainWorld)
        → AreOperands from level frames.old.calls
        → IsImport see.texts see.tuples rows.now (record w { modules = plain_modules see.texts see.tuples modules.old })
        (nat_lt (length frames.old.calls) LIMIT) (see.name name) from level (imports.Begin number) }
    ensures comes { (p : Program) (row : CodeRow) (end : ℕ) → p.shelf ≡ rows.now
        → under C.Constants consts.now
        (ImportsBehind p) names.now row name end arena.old arena.new modules.old modules.new frames.old frames.new result }
    ensures rooms { frames.new ≡ record frames.old { calls = frames.new.calls } }
    ensures registry { modules.new.room ≡ modules.old.room }
{
    keeps_law();
    room_law();
    rows_law();
    sound_law();
    standing_law();
    tops_law();
    let locals = outermost_locals(rows, number);
    begin_import(frames, arena, consts, modules, names, key, number, locals)
}

/// IMPORT_NAME of the text with the number, where it was fetched for the running call: the module goes in the place of the
/// operands and the call goes on at `end`; or a module begins over the call, which stays; or the import fails. `key` is the text
/// `__name__`.
pub fn import_on<C: Constants>(
    frames: &mut Frames,
    arena: &mut Arena,
    consts: &C,
    library: &Library,
    rows: &Rows<'_>,
    modules: &mut Modules,
    names: &[ModuleName],
    key: StrNo,
    name: u32,
    end: u32,
) -> Result<(), Stop>
    requires runs { (row : CodeRow) × under C.Constants consts.now RunsWith names.now rows.now arena.old modules.old frames.old row (fetched_import name end) }
    requires rows { rows.now ≡ library.now }
    requires key { C.text_of consts.now key ≡ Some (codes "__name__") }
    requires short { frames.old.slot_room < 2 ^ 32 }
    ensures comes { (p : Program) (row : CodeRow) → p.shelf ≡ rows.now
        → under C.Constants consts.now
        (ImportsBehind p) names.now row name end arena.old arena.new modules.old modules.new frames.old frames.new result }
    ensures rooms { frames.new ≡ record frames.old { calls = frames.new.calls } }
    ensures registry { modules.new.room ≡ modules.old.room }
{
    keeps_law();
    known_law();
    sound_law();
    tops_law();
    match import_name(frames, consts, modules, library, name) {
        Import::Put(v) => {
            put_import(frames, v, end);
            Ok(())
        }
        Import::Begin(number) => {
            begin(
                frames, arena, consts, rows, modules, names, key, name, number,
            )
        }
        Import::Stops(refusal) => Err(refuse_import(name, refusal)),
    }
}
