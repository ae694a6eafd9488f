//! The names of a library's modules.

ghost use Rattle.std.specs.Prelude.{List, IsSome, All};
ghost use Rattle.frame_calls.specs.arena_heap.declared.value.StrNo.TheVariants as strs;
ghost use Rattle.vm_states.specs.frame_exits.declared.names.ModuleName.{ModuleName as NameNumbers};
ghost use Rattle.vm_states.specs.frame_exits.Left.{HasLast};
ghost use Rattle.vm_states.specs.frame_exits.Names.{AreTablesOf};
ghost use Rattle.vm_states.specs.Means.{Program, Means};
ghost use Rattle.vm_starting.specs.Titles.{AreTitles};

/// What the names of modules say of a program of the library: they are those of its tables, and their texts and those of their
/// last parts are told.
pub fn names_law()
    ensures tables { (p : Program) (names : List NameNumbers) → Means p → AreTitles p.shelf names → AreTablesOf p.tables.texts p.tables.tuples names p.tables }
    ensures told { (p : Program) (names : List NameNumbers) → Means p → AreTitles p.shelf names → All (λ m. IsSome (p.tables.texts (strs.Pool m.name))) names }
    ensures last { (p : Program) (names : List NameNumbers) → Means p → AreTitles p.shelf names → All (HasLast p.tables.texts p.tables.tuples) names }
{}
