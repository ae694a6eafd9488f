//! The meaning of sources: what a program prints, how it ends and what its world is then, within a bound on its turns.

ghost use Rattle.std.specs.Prelude.{◌≡◌, ◌≤◌, ℕ, List, true};
ghost use Rattle.py_effects.specs.mpy_base.World.{PortState};
ghost use Rattle.py_effects.specs.mpy_base.Val.{PlainWorld};
ghost use Rattle.py_effects.specs.Names.{Locals};
ghost use Rattle.py_effects.specs.Ends.{is_over, new_world};
ghost use Rattle.py_effects.specs.Growth.{Prints};
ghost use Rattle.py_effects.specs.Heaps.{WorldFollows, NamesStand};
ghost use Rattle.py_meaning.specs.Tree.{Expr, Stmt};
ghost use Rattle.py_meaning.specs.Program.{Program};
ghost use Rattle.py_meaning.specs.Outcomes.{EOpen};
ghost use Rattle.py_meaning.specs.Frames.{Frame};
ghost use Rattle.py_meaning.specs.Meaning.{main_run, sem, meaning};
ghost use Rattle.py_meaning.specs.Bounds.{Late, world_e, left_e, world_s, left_s};

/// Without turns nothing is done.
pub fn open_law()
    ensures { (program : Program) (names : ℕ) (w : PlainWorld) → main_run program names 0 w ≡ EOpen w }
{}

/// A run that has ended is the same at every greater bound: its end, and all of its world.
pub fn ended_law()
    ensures runs { (program : Program) (cells bytes : ℕ) (ports : List PortState) (t s : ℕ) → t ≤ s
        → is_over (meaning program cells bytes ports t).end ≡ true
        → meaning program cells bytes ports s ≡ meaning program cells bytes ports t }
    ensures evaluations { (program : Program) (n m : ℕ) → n ≤ m → Late (sem program n) (sem program m) }
{}

/// What is printed within some turns begins what is printed at every greater bound, and what an evaluation prints comes
/// behind what was printed before it. No turn comes back.
pub fn prefix_law()
    ensures runs { (program : Program) (cells bytes : ℕ) (ports : List PortState) (t s : ℕ) → t ≤ s
        → Prints (meaning program cells bytes ports t).world (meaning program cells bytes ports s).world }
    ensures expressions { (program : Program) (n : ℕ) (frame : Frame) (env : Locals) (line : ℕ) (e : Expr) (t : ℕ) (w : PlainWorld)
        → Prints w (world_e ((sem program n).eval frame env line e t w)) }
    ensures statements { (program : Program) (n : ℕ) (frame : Frame) (handled : List ℕ) (line : ℕ) (s : Stmt) (env : Locals) (t : ℕ) (w : PlainWorld)
        → Prints w (world_s ((sem program n).exec frame handled line s env t w)) }
    ensures turns { (program : Program) (n : ℕ) (frame : Frame) (env : Locals) (line : ℕ) (e : Expr) (t : ℕ) (w : PlainWorld)
        → left_e ((sem program n).eval frame env line e t w) ≤ t }
    ensures statement_turns { (program : Program) (n : ℕ) (frame : Frame) (handled : List ℕ) (line : ℕ) (s : Stmt) (env : Locals) (t : ℕ) (w : PlainWorld)
        → left_s ((sem program n).exec frame handled line s env t w) ≤ t }
{}

/// An evaluation whose frame's names stand in a dict keeps the world sound: what is used stays used, objects stay of their
/// kind, functions and modules keep the dicts of their names, and what is registered is a module with its names.
pub fn sound_law()
    ensures expressions { (program : Program) (n : ℕ) (frame : Frame) (env : Locals) (line : ℕ) (e : Expr) (t : ℕ) (w : PlainWorld) → NamesStand frame.names w
        → WorldFollows w (world_e ((sem program n).eval frame env line e t w)) }
    ensures statements { (program : Program) (n : ℕ) (frame : Frame) (handled : List ℕ) (line : ℕ) (s : Stmt) (env : Locals) (t : ℕ)
        (w : PlainWorld) → NamesStand frame.names w
        → WorldFollows w (world_s ((sem program n).exec frame handled line s env t w)) }
    ensures runs { (program : Program) (cells bytes : ℕ) (ports : List PortState) (t : ℕ)
        → WorldFollows (new_world cells bytes ports) (meaning program cells bytes ports t).world }
{}
