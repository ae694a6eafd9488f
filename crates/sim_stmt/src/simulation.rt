//! The machine follows each expression, statement, call and import, in at most 16 steps for each turn.

ghost use Rattle.std.specs.Prelude.{◌≡◌, ℕ, List, Some};
ghost use Rattle.bc_scheme.specs.mpy_base.World.{PortState};
ghost use Rattle.bc_scheme.specs.mpy_base.Val.{Val, Nil};
ghost use Rattle.bc_scheme.specs.py_effects.Ends.{new_world};
ghost use Rattle.bc_scheme.specs.py_effects.Modules.{prefixes, first_of};
ghost use Rattle.bc_scheme.specs.py_meaning.Program.{Program, Text, OfText, content_at};
ghost use Rattle.bc_scheme.specs.py_meaning.Statements.{last_of};
ghost use Rattle.bc_scheme.specs.bc_machine.Library.{Name, Library};
ghost use Rattle.bc_scheme.specs.bc_machine.State.{Role, Frame, State};
ghost use Rattle.bc_scheme.specs.bc_machine.Step.{step};
ghost use Rattle.bc_scheme.specs.bc_machine.Machine.{start, steps};
ghost use Rattle.bc_scheme.specs.Link.{Links};
ghost use Rattle.sim_stmt.specs.Order.{InOrder};
ghost use Rattle.sim_stmt.specs.Follows.{FollowsExpressions, FollowsStatements, FollowsBlocks, FollowsCalls, FollowsMethods, FollowsImports, HasSite};

/// Each expression of a translated module, wherever its code stands: the machine comes to the code's end with the value and
/// the world of the meaning, raises its exception, or ends for want of room where the meaning does.
pub fn expressions_law()
    ensures { (program : Program) (library : Library) → Links program library → FollowsExpressions program library }
{}

/// Each statement and each block, with each of the five completions, through handlers, finallys and the loops within these.
pub fn statements_law()
    ensures statements { (program : Program) (library : Library) → Links program library → FollowsStatements program library }
    ensures blocks { (program : Program) (library : Library) → Links program library → FollowsBlocks program library }
{}

/// Each call: of a value, and of what a method look-up left.
pub fn calls_law()
    ensures values { (program : Program) (library : Library) → Links program library → FollowsCalls program library }
    ensures methods { (program : Program) (library : Library) → Links program library → FollowsMethods program library }
{}

/// Each import of a dotted name: with None the first module is given, and with names the last.
pub fn imports_law()
    ensures first { (program : Program) (library : Library) → Links program library → FollowsImports program library Nil (λ name. first_of (prefixes name)) }
    ensures last { (program : Program) (library : Library) → Links program library → (names : Val) → (names ≡ Nil → ⊥)
        → FollowsImports program library names (λ name. last_of (prefixes name)) }
{}

/// Each state of a run is in order, as these laws ask.
pub fn order_law()
    ensures step { (library : Library) (s : State) → InOrder library s → InOrder library (step library s) }
    ensures runs { (library : Library) (name : Name) (cells bytes : ℕ) (ports : List PortState) (n : ℕ)
        → InOrder library (steps library n (start library name (new_world cells bytes ports))) }
{}

/// Each text of a program has its code in a library of its modules, and where a frame begins on that code both sides run the
/// text, as these laws ask.
pub fn sites_law()
    ensures { (program : Program) (library : Library) → Links program library
        → (name : Name) (number : ℕ) (text : Text) → content_at program name number ≡ Some (OfText text)
        → (names : ℕ) (role : Role) (waiting : List Frame) → HasSite library name number text names role waiting }
{}
