//! What a callee is.

ghost use Rattle.std.specs.Prelude.{◌≡◌};
ghost use Rattle.mpy_base.specs.World.{AFunction, IsA, object};
ghost use Rattle.mpy_base.specs.Val.{PlainWorld};
ghost use Rattle.prim_outputs.specs.py_effects.Calling.{callee_of as callee_in};
ghost use Rattle.prim_methods.specs.prim_faults.Sights.{under, sight, TellsAll, Knows, world_over};
ghost use Rattle.prim_calls.specs.Callees.{HasParts, plain_callee, IsKnownFunction, IsKnownCallee};

use arena_heap::{Arena, Constants, DictNo, FunNo, MethodNo, Value, fun_parts, method_parts};
use mpy_base::Builtin;
use prim_builtins::{ValueType, type_of};

/// A function of the program: the numbers of its module's name and of its code, its namespace and its defaults.
#[derive(Clone, Copy, Debug, PartialEq, Eq)]
pub struct Function {
    pub module_name: u32,
    pub code: u32,
    pub names: DictNo,
    pub defaults: Value,
}

/// What a call of a value does.
#[derive(Clone, Copy, Debug, PartialEq, Eq)]
pub enum Callee {
    /// It runs a function of the program.
    Runs(Function),
    /// It calls a method of an object of the method's type.
    Method { object: Value, method: Builtin },
    Built(Builtin),
    /// It raises that a value of this type isn't callable.
    NotCallable(ValueType),
}

/// The parts of a function.
#[inline(always)]
fn function_of<C: Constants>(arena: &Arena, _consts: &C, f: FunNo) -> Function
    requires function { IsA arena.now.objects AFunction f.cell }
    requires all_told { TellsAll C.Constants _consts.now arena.now }
    ensures parts { HasParts (object arena.now.objects f.cell) result }
    ensures known { under C.Constants _consts.now IsKnownFunction arena.now.objects result }
{
    let (_, module_name, code, names, defaults) = fun_parts(arena, f);
    Function {
        module_name,
        code,
        names,
        defaults,
    }
}

/// What a call of a value does.
#[inline(always)]
pub fn callee_of<C: Constants>(arena: &Arena, _consts: &C, v: Value) -> Callee
    requires known { Knows C.Constants _consts.now arena.now v }
    requires all_told { TellsAll C.Constants _consts.now arena.now }
    ensures callee { let see = sight C.Constants _consts.now in (w : PlainWorld)
        → plain_callee see.texts see.tuples (world_over see.texts see.tuples w arena.now) result
        ≡ callee_in (world_over see.texts see.tuples w arena.now) (see.value v) }
    ensures known { under C.Constants _consts.now IsKnownCallee arena.now.objects result }
{
    match v {
        Value::Fun(f) => Callee::Runs(function_of(arena, _consts, f)),
        Value::Method(m) => {
            let (object, method) = method_parts(arena, m);
            Callee::Method { object, method }
        }
        Value::Built(b) => Callee::Built(b),
        _ => Callee::NotCallable(type_of(arena, v)),
    }
}
