//! What calls of built-ins do to a world.

ghost use Rattle.std.specs.Prelude.{◌≡◌, List};
ghost use Rattle.mpy_base.specs.declared.builtin.Builtin.{Builtin};
ghost use Rattle.mpy_base.specs.declared.builtin.Builtin.TheVariants as builtins;
ghost use Rattle.mpy_base.specs.Val.{Val, Built, PlainWorld};
ghost use Rattle.prim_types.specs.py_values.Names.{type_name};
ghost use Rattle.prim_types.specs.py_primitives.Faults.{NotCallable};
ghost use Rattle.prim_types.specs.py_primitives.Outcome.{raises};
ghost use Rattle.prim_types.specs.py_primitives.Calls.{call};
ghost use Rattle.prim_types.specs.py_primitives.Output.{printed, call_port};
ghost use Rattle.prim_outputs.specs.py_effects.Effect.{on_heap};
ghost use Rattle.prim_outputs.specs.py_effects.Calling.{prints, on_ports, call_builtin};
ghost use Rattle.prim_calls.specs.Families.{IsOnHeap, IsOfPorts};

/// The effect of a call of a built-in is that of its family: what `IsCall` tells of the arena, the output and the ports.
pub fn effects_law()
    ensures heap { (w : PlainWorld) (b : Builtin) (args : List Val) (keys : List (Val × Val)) → IsOnHeap b
        → call_builtin w b args keys ≡ on_heap w (call w.heap b args keys) }
    ensures print { (w : PlainWorld) (args : List Val) (keys : List (Val × Val))
        → call_builtin w builtins.Print args keys ≡ prints w (printed w.heap args keys) }
    ensures ports { (w : PlainWorld) (b : Builtin) (args : List Val) (keys : List (Val × Val)) → IsOfPorts b
        → call_builtin w b args keys ≡ on_ports w (call_port w.heap w.ports b args keys) }
    ensures port_module { (w : PlainWorld) (args : List Val) (keys : List (Val × Val))
        → call_builtin w builtins.Port args keys ≡ on_heap w (raises (NotCallable (type_name w.heap (Built builtins.Port))) w.heap) }
{}
