//! Functions and modules that are made.

ghost use Rattle.std.specs.Prelude.{◌≡◌, ◌<◌, [], length, codes, Some, None, IsSome, IfOk};
ghost use Rattle.prim_assignments.specs.arena_heap.declared.value.StrNo.TheVariants as strs;
ghost use Rattle.prim_assignments.specs.arena_heap.declared.value.Value.TheVariants as values;
ghost use Rattle.mpy_base.specs.World.{DictObject, ModuleObject, ADict, IsA, Later, with_names};
ghost use Rattle.mpy_base.specs.Val.{Str};
ghost use Rattle.prim_assignments.specs.arena_heap.Values.{IsDefaults};
ghost use Rattle.py_effects.specs.py_primitives.Outcome.{making};
ghost use Rattle.py_effects.specs.py_primitives.Uses.{put_pair};
ghost use Rattle.py_effects.specs.Modules.{make_function as make_function_in, make_module as make_module_in, making_module as making_module_in};
ghost use Rattle.prim_assignments.specs.prim_faults.Sights.{sight, TellsAll, Knows, KnowsAnswer, Does};
ghost use Rattle.prim_modules.specs.Effects.{IsEffect, IsMade, IsMaking, AreMade, as_value, registry_after};

use crate::registry::Modules;
use arena_heap::{Arena, Constants, DictNo, ModuleNo, StrNo, Value, module_names};
use prim_assignments::{Stop, set_attr};

/// What a function has: the numbers of its name, of its module's name and of its code, the namespace of its module, and
/// its defaults.
#[derive(Clone, Copy, Debug, PartialEq, Eq)]
pub struct NewFunction {
    pub name: u32,
    pub module_name: u32,
    pub code: u32,
    pub names: DictNo,
    pub defaults: Value,
}

/// A module that was made, and its namespace.
#[derive(Clone, Copy, Debug, PartialEq, Eq)]
pub struct Made {
    pub number: ModuleNo,
    pub names: DictNo,
}

/// A new function of a code.
pub fn make_function<C: Constants>(
    arena: &mut Arena,
    _consts: &C,
    function: NewFunction,
) -> Result<Value, Stop>
    requires names { IsA arena.old.objects ADict function.names.cell }
    requires defaults { IsDefaults function.defaults }
    requires known { Knows C.Constants _consts.now arena.old function.defaults }
    requires all_told { TellsAll C.Constants _consts.now arena.old }
    ensures effect { let see = sight C.Constants _consts.now
        in IsEffect see.texts see.tuples arena.old arena.new result
        (λ w. make_function_in w (see.name function.name) (see.name function.module_name) function.code function.names.cell
        (see.value function.defaults)) }
    ensures known { KnowsAnswer C.Constants _consts.now arena.new result }
    ensures later { Later arena.old.objects arena.new.objects }
    ensures all_told { TellsAll C.Constants _consts.now arena.new }
{
    let NewFunction {
        name,
        module_name,
        code,
        names,
        defaults,
    } = function;
    match arena.make_fun(name, module_name, code, names, defaults) {
        Ok(f) => Ok(Value::Fun(f)),
        Err(room) => Err(Stop::Full(room)),
    }
}

/// A new module, which has no namespace yet.
fn new_module<C: Constants>(arena: &mut Arena, _consts: &C, name: u32) -> Result<ModuleNo, Stop>
    requires { TellsAll C.Constants _consts.now arena.old }
    ensures { Does C.Constants _consts.now arena.old arena.new (as_value values.Module result) (λ heap see. making heap (ModuleObject (see.name name) None)) }
{
    match arena.make_module(name) {
        Ok(m) => Ok(m),
        Err(room) => Err(Stop::Full(room)),
    }
}

/// A new dict for the names of a module.
fn new_names<C: Constants>(arena: &mut Arena, _consts: &C) -> Result<DictNo, Stop>
    requires { TellsAll C.Constants _consts.now arena.old }
    ensures { Does C.Constants _consts.now arena.old arena.new (as_value values.Dict result) (λ heap see. making heap (DictObject [] 4)) }
{
    match arena.make_dict(4) {
        Ok(d) => Ok(d),
        Err(room) => Err(Stop::Full(room)),
    }
}

/// A module gets its namespace, and then its own name in it.
fn set_title<C: Constants>(
    arena: &mut Arena,
    consts: &C,
    made: Made,
    key: StrNo,
    name: u32,
) -> Result<Value, Stop>
    requires key { C.text_of consts.now key ≡ Some (codes "__name__") }
    requires name { IsSome (C.text_of consts.now (strs.Pool name)) }
    requires made { AreMade arena.old.objects made }
    requires all_told { TellsAll C.Constants consts.now arena.old }
    ensures { Does C.Constants consts.now arena.old arena.new result
        (λ heap see. put_pair (with_names heap made.number.cell made.names.cell) made.names.cell (Str (codes "__name__"))
        (Str (see.name name))) }
{
    module_names(arena, made.number, made.names);
    let title = Value::Str(StrNo::Pool(name));
    set_attr(arena, consts, Value::Module(made.number), key, title)
}

/// A module, then its namespace, and then its own name in it.
fn making_module<C: Constants>(
    arena: &mut Arena,
    consts: &C,
    key: StrNo,
    name: u32,
) -> Result<Made, Stop>
    requires key { C.text_of consts.now key ≡ Some (codes "__name__") }
    requires name { IsSome (C.text_of consts.now (strs.Pool name)) }
    requires all_told { TellsAll C.Constants consts.now arena.old }
    ensures effect { let see = sight C.Constants consts.now
        in IsMade see.texts see.tuples arena.old arena.new result (λ w. making_module_in w (see.name name)) }
    ensures made { IfOk result (AreMade arena.new.objects) }
    ensures later { Later arena.old.objects arena.new.objects }
    ensures all_told { TellsAll C.Constants consts.now arena.new }
{
    let number = match new_module(arena, consts, name) {
        Ok(m) => m,
        Err(stop) => return Err(stop),
    };
    let names = match new_names(arena, consts) {
        Ok(d) => d,
        Err(stop) => return Err(stop),
    };
    let made = Made { number, names };
    match set_title(arena, consts, made, key, name) {
        Ok(_) => Ok(made),
        Err(stop) => Err(stop),
    }
}

/// Makes a module with its namespace, in which its own name stands, and registers it. `key` is the text `__name__`.
pub fn make_module<C: Constants>(
    arena: &mut Arena,
    consts: &C,
    modules: &mut Modules,
    key: StrNo,
    name: u32,
) -> Result<Made, Stop>
    requires key { C.text_of consts.now key ≡ Some (codes "__name__") }
    requires name { IsSome (C.text_of consts.now (strs.Pool name)) }
    requires room { length modules.old.entries < modules.old.room }
    requires all_told { TellsAll C.Constants consts.now arena.old }
    ensures effect { let see = sight C.Constants consts.now
        in IsMaking see.texts see.tuples arena.old arena.new modules.old modules.new result (λ w. make_module_in w (see.name name)) }
    ensures registered { modules.new ≡ registry_after name modules.old result }
    ensures made { IfOk result (AreMade arena.new.objects) }
    ensures later { Later arena.old.objects arena.new.objects }
    ensures all_told { TellsAll C.Constants consts.now arena.new }
{
    match making_module(arena, consts, key, name) {
        Ok(made) => {
            modules.register(name, made.number);
            Ok(made)
        }
        Err(stop) => Err(stop),
    }
}
