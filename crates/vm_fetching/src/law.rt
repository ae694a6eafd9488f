//! The machine's step of a call is that of what is fetched for it.

ghost use Rattle.std.specs.Prelude.{◌≡◌, ◌∷◌, ℕ, List, Some, slice_get};
ghost use Rattle.frame_moves.specs.mpy_base.Val.{PlainWorld};
ghost use Rattle.bc_prelude.specs.Lines as lines;
ghost use Rattle.frame_moves.specs.bc_labels.Positions.{CodeList, position_in};
ghost use Rattle.bc_rows.specs.bc_library.Shelf.{Shelf};
ghost use Rattle.frame_moves.specs.bc_machine.Library.{Code, Module, Library, entry_in, module_in};
ghost use Rattle.frame_moves.specs.bc_machine.Step.{step};
ghost use Rattle.bc_rows.specs.declared.row.Row.{Row};
ghost use Rattle.frame_moves.specs.vm_frames.Calls.{Call};
ghost use Rattle.frame_moves.specs.Shown.{Tables, IsNext, IsAt, running_of, step_of};
ghost use Rattle.vm_fetching.specs.declared.instruction.Fetched.{Fetched};
ghost use Rattle.vm_fetching.specs.Fetches.{Fetches};
ghost use Rattle.vm_fetching.specs.Shows.{item_of_fetched};

/// Where an instruction is fetched at a call's offset of the row that the call's code runs as: the machine's step of the calls
/// is that of the instruction, at the place that the module's file, the row's table and the code's name say; the offset of
/// its end is that of the next instruction; and an offset of the code is that of its position.
pub fn step_law()
    ensures step { (names : Tables) (library : Library) (shelf : Shelf) (row : Row) (l : CodeList) (m : Module) (code : Code)
        (fetched : Fetched) (c : Call) (cs : List Call) (paid : ℕ) (w : PlainWorld)
        → module_in (entry_in library (names.module_name c.module_number)) ≡ Some m → slice_get m.codes c.code ≡ Some code
        → names.starts c.module_number c.code ≡ l.offsets → Fetches shelf names row l code c.at fetched
        → step library (running_of names paid (c ∷ cs) w)
        ≡ step_of names library (record {
          file = m.file;
          line = lines.line_of row.line_table.now c.at;
          name = code.name;
        }) paid (c ∷ cs) w (item_of_fetched names l.offsets fetched.instruction) }
    ensures next { (names : Tables) (shelf : Shelf) (row : Row) (l : CodeList) (code : Code) (fetched : Fetched) (c : Call) (cs : List Call)
        → names.starts c.module_number c.code ≡ l.offsets → Fetches shelf names row l code c.at fetched → IsNext names fetched.end (c ∷ cs) }
    ensures at { (names : Tables) (l : CodeList) (c : Call) (cs : List Call) (offset : ℕ)
        → names.starts c.module_number c.code ≡ l.offsets → IsAt names offset (position_in l.offsets offset) (c ∷ cs) }
{}
