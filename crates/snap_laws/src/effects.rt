//! Effects over worlds whose objects have other numbers.

ghost use Rattle.std.specs.Prelude.{◌≡◌, ℕ, List, Option, map};
ghost use Rattle.std.specs.Option.{option_map};
ghost use Rattle.bc_machine.specs.mpy_base.declared.builtin.Builtin.{Builtin};
ghost use Rattle.bc_machine.specs.mpy_base.Val.{Val, PlainWorld};
ghost use Rattle.bc_machine.specs.py_primitives.Faults.{Fault};
ghost use Rattle.bc_machine.specs.py_primitives.Outcome.{Outcome};
ghost use Rattle.bc_machine.specs.py_effects.Effect.{Effect, Place, on_heap, fault_at, given};
ghost use Rattle.bc_machine.specs.py_effects.Names.{Locals, load_global, store_global, delete_global, load_local, load_method};
ghost use Rattle.bc_machine.specs.py_effects.Names.{import_from, store_pair, raise_value, raise_again};
ghost use Rattle.bc_machine.specs.py_effects.Calling.{Keys, callee_of, call_method, bind};
ghost use Rattle.bc_machine.specs.py_effects.Modules.{make_function, make_module, module_named, forget_module, store_module};
ghost use Rattle.bc_machine.specs.py_effects.Ends.{End, end_report};
ghost use Rattle.snap_laws.specs.Renamed.{Renaming, value, pair};
ghost use Rattle.snap_laws.specs.Outcomes.{IsOutcome, fault_as};
ghost use Rattle.snap_laws.specs.Worlds.{IsWorld, IsEffect, IsGiven, IsFailure, IsCallee, locals_as, looked_as, made_as, end_as};

/// A primitive that concerns the heap alone is an effect, and what an effect gives at its place is the same.
pub fn effects_law()
    ensures heap { (r : Renaming) (w u : PlainWorld) (o p : Outcome Val) → IsWorld r w u → IsOutcome r (value r) o p
        → IsEffect r (value r) (on_heap w o) (on_heap u p) }
    ensures given { (r : Renaming) (place : Place) (e d : Effect Val) → IsEffect r (value r) e d → IsGiven r (value r) (given place e) (given place d) }
{}

/// Names are loaded, stored and deleted alike, and looked up in objects.
pub fn names_law()
    ensures load_global { (r : Renaming) (w u : PlainWorld) (names : ℕ) (name : List ℕ) → IsWorld r w u
        → IsEffect r (value r) (load_global w names name) (load_global u (r.to names) name) }
    ensures store_global { (r : Renaming) (w u : PlainWorld) (names : ℕ) (name : List ℕ) (v : Val) → IsWorld r w u
        → IsEffect r (value r) (store_global w names name v) (store_global u (r.to names) name (value r v)) }
    ensures delete_global { (r : Renaming) (w u : PlainWorld) (names : ℕ) (name : List ℕ) → IsWorld r w u
        → IsEffect r (value r) (delete_global w names name) (delete_global u (r.to names) name) }
    ensures load_local { (r : Renaming) (w u : PlainWorld) (locals : Locals) (slot : ℕ) → IsWorld r w u
        → IsEffect r (value r) (load_local w locals slot) (load_local u (locals_as r locals) slot) }
    ensures load_method { (r : Renaming) (w u : PlainWorld) (object : Val) (name : List ℕ) → IsWorld r w u
        → IsEffect r (looked_as r) (load_method w object name) (load_method u (value r object) name) }
    ensures import_from { (r : Renaming) (w u : PlainWorld) (object : Val) (name : List ℕ) → IsWorld r w u
        → IsEffect r (value r) (import_from w object name) (import_from u (value r object) name) }
    ensures store_pair { (r : Renaming) (w u : PlainWorld) (d key v : Val) → IsWorld r w u
        → IsEffect r (value r) (store_pair w d key v) (store_pair u (value r d) (value r key) (value r v)) }
{}

/// The same exception is raised, and its report is the same.
pub fn raises_law()
    ensures fault { (r : Renaming) (place : Place) (w u : PlainWorld) (fault : Fault) → IsWorld r w u
        → IsFailure r (fault_at place w fault) (fault_at place u (fault_as r fault)) }
    ensures value { (r : Renaming) (place : Place) (w u : PlainWorld) (v : Val) → IsWorld r w u
        → IsFailure r (raise_value place w v) (raise_value place u (value r v)) }
    ensures again { (r : Renaming) (place : Place) (w u : PlainWorld) (handled : List ℕ) → IsWorld r w u
        → IsFailure r (raise_again place w handled) (raise_again place u (map r.to handled)) }
    ensures report { (r : Renaming) (w u : PlainWorld) (end : End) → IsWorld r w u → end_report u.heap (end_as r end) ≡ end_report w.heap end }
{}

/// A call does the same, and arguments are bound alike.
pub fn callees_law()
    ensures callee { (r : Renaming) (w u : PlainWorld) (v : Val) → IsWorld r w u → IsCallee r (callee_of w v) (callee_of u (value r v)) }
    ensures method { (r : Renaming) (w u : PlainWorld) (method : Builtin) (object : Val) (args : List Val) (keys : Keys) → IsWorld r w u
        → IsEffect r (value r) (call_method w method object args keys)
        (call_method u method (value r object) (map (value r) args) (map (pair r) keys)) }
    ensures bound { (r : Renaming) (w u : PlainWorld) (params : List (List ℕ)) (count : ℕ) (defaults : Val) (args : List Val) (keys : Keys)
        → IsWorld r w u → IsEffect r (locals_as r) (bind w params count defaults args keys)
        (bind u params count (value r defaults) (map (value r) args) (map (pair r) keys)) }
{}

/// Functions and modules are made alike; modules are registered, forgotten and stored alike.
pub fn modules_law()
    ensures function { (r : Renaming) (w u : PlainWorld) (name module_name : List ℕ) (code names : ℕ) (defaults : Val) → IsWorld r w u
        → IsEffect r (value r) (make_function w name module_name code names defaults)
        (make_function u name module_name code (r.to names) (value r defaults)) }
    ensures made { (r : Renaming) (w u : PlainWorld) (name : List ℕ) → IsWorld r w u → IsEffect r (made_as r) (make_module w name) (make_module u name) }
    ensures named { (r : Renaming) (w u : PlainWorld) (name : List ℕ) → IsWorld r w u → module_named u name ≡ value r (module_named w name) }
    ensures forgotten { (r : Renaming) (w u : PlainWorld) (name : List ℕ) → IsWorld r w u → IsWorld r (forget_module w name) (forget_module u name) }
    ensures stored { (r : Renaming) (w u : PlainWorld) (name : List ℕ) (m : ℕ) → IsWorld r w u
        → IsEffect r (value r) (store_module w name m) (store_module u name (r.to m)) }
{}
