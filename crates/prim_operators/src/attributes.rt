//! Attributes of values: those of objects, the methods of types, and the names of modules.

ghost use Rattle.std.specs.Prelude.{◌≡◌, IsSome};
ghost use Rattle.prim_faults.specs.mpy_base.World.{MethodObject, AModule, IsA};
ghost use Rattle.prim_faults.specs.mpy_base.Val.{At};
ghost use Rattle.prim_faults.specs.arena_heap.Values.{Leads, IsStr, IsList, IsDict, IsMethodOf};
ghost use Rattle.prim_faults.specs.py_primitives.Builtins.{list_methods, dict_methods, str_methods};
ghost use Rattle.prim_faults.specs.py_primitives.Outcome.{making};
ghost use Rattle.prim_faults.specs.py_primitives.Uses.{attribute as attribute_in, get_attr as get_attr_of};
ghost use Rattle.prim_faults.specs.Sights.{under, sight, Tells, TellsAll, Does};
ghost use Rattle.prim_operators.specs.Attributes.{plain_attribute, IsKnownAttribute, IsMethodsAttribute, IsArgsAttribute, IsBuiltAttribute};

use prim_faults::{
    Arena, Builtin, Constants, Fault, ModuleNo, Stop, StrNo, Value, dict_get, exc_parts,
    module_parts, name_bytes, type_of,
};

/// What an attribute of a value is: a value, a method of the value's type, or nothing.
#[derive(Clone, Copy)]
pub enum Attribute {
    Found(Value),
    Method(Builtin),
    Absent,
}

/// The attribute of a list: one of its methods, or nothing.
fn list_attribute(name: &[u8]) -> Attribute
    ensures { IsMethodsAttribute list_methods IsList name.now result }
{
    if b"append".as_slice() == name {
        Attribute::Method(Builtin::ListAppend)
    } else if b"pop".as_slice() == name {
        Attribute::Method(Builtin::ListPop)
    } else if b"insert".as_slice() == name {
        Attribute::Method(Builtin::ListInsert)
    } else if b"extend".as_slice() == name {
        Attribute::Method(Builtin::ListExtend)
    } else {
        Attribute::Absent
    }
}

/// The attribute of a dict: one of its methods, or nothing.
fn dict_attribute(name: &[u8]) -> Attribute
    ensures { IsMethodsAttribute dict_methods IsDict name.now result }
{
    if b"get".as_slice() == name {
        Attribute::Method(Builtin::DictGet)
    } else if b"keys".as_slice() == name {
        Attribute::Method(Builtin::DictKeys)
    } else if b"values".as_slice() == name {
        Attribute::Method(Builtin::DictValues)
    } else if b"items".as_slice() == name {
        Attribute::Method(Builtin::DictItems)
    } else if b"pop".as_slice() == name {
        Attribute::Method(Builtin::DictPop)
    } else {
        Attribute::Absent
    }
}

/// The attribute of a str: one of its methods, or nothing.
fn str_attribute(name: &[u8]) -> Attribute
    ensures { IsMethodsAttribute str_methods IsStr name.now result }
{
    if b"join".as_slice() == name {
        Attribute::Method(Builtin::StrJoin)
    } else if b"find".as_slice() == name {
        Attribute::Method(Builtin::StrFind)
    } else if b"startswith".as_slice() == name {
        Attribute::Method(Builtin::StrStartsWith)
    } else if b"split".as_slice() == name {
        Attribute::Method(Builtin::StrSplit)
    } else {
        Attribute::Absent
    }
}

/// The arguments of an exception are its one attribute.
fn exception_attribute(args: Value, name: &[u8]) -> Attribute
    ensures { IsArgsAttribute args name.now result }
{
    if name == b"args".as_slice() {
        Attribute::Found(args)
    } else {
        Attribute::Absent
    }
}

/// The attribute of the module of the ports: one of its functions, or nothing.
fn port_attribute(name: &[u8]) -> Attribute
    ensures { IsBuiltAttribute Builtin.Port name.now result }
{
    if b"put".as_slice() == name {
        Attribute::Found(Value::Built(Builtin::PortPut))
    } else if b"get".as_slice() == name {
        Attribute::Found(Value::Built(Builtin::PortGet))
    } else if b"count".as_slice() == name {
        Attribute::Found(Value::Built(Builtin::PortCount))
    } else {
        Attribute::Absent
    }
}

/// `port` alone of the built-ins has attributes.
fn built_attribute(b: Builtin, name: &[u8]) -> Attribute
    ensures { IsBuiltAttribute b name.now result }
{
    match b {
        Builtin::Port => port_attribute(name),
        _ => Attribute::Absent,
    }
}

/// A name of a module's namespace, where one is set.
fn module_attribute<C: Constants>(arena: &Arena, consts: &C, m: ModuleNo, name: StrNo) -> Attribute
    requires is_module { IsA arena.now.objects AModule m.cell }
    requires name { IsSome (C.text_of consts.now name) }
    requires all_told { TellsAll C.Constants consts.now arena.now }
    ensures plain { let see = sight C.Constants consts.now in plain_attribute see.texts see.tuples result
        ≡ attribute_in (see.heap arena.now) (At m.cell) (see.text name) }
    ensures known { under C.Constants consts.now IsKnownAttribute arena.now.objects (Value.Module m) result }
{
    arena.sound_law();
    let (_, namespace) = module_parts(arena, m);
    match namespace {
        Some(names) => match dict_get(arena, consts, names, Value::Str(name)) {
            Some(v) => Attribute::Found(v),
            None => Attribute::Absent,
        },
        None => Attribute::Absent,
    }
}

/// What an attribute of a value is. A module whose namespace isn't set has none.
pub fn attribute_of<C: Constants>(arena: &Arena, consts: &C, v: Value, name: StrNo) -> Attribute
    requires leads { Leads arena.now.objects v }
    requires name { IsSome (C.text_of consts.now name) }
    requires all_told { TellsAll C.Constants consts.now arena.now }
    ensures plain { let see = sight C.Constants consts.now in plain_attribute see.texts see.tuples result
        ≡ attribute_in (see.heap arena.now) (see.value v) (see.text name) }
    ensures known { under C.Constants consts.now IsKnownAttribute arena.now.objects v result }
{
    let text = name_bytes(consts, name);
    match v {
        Value::Str(_) => str_attribute(text),
        Value::Text(_) => str_attribute(text),
        Value::List(_) => list_attribute(text),
        Value::Dict(_) => dict_attribute(text),
        Value::Exc(e) => exception_attribute(exc_parts(arena, e).1, text),
        Value::Module(m) => module_attribute(arena, consts, m, name),
        Value::Built(b) => built_attribute(b, text),
        Value::Fixed(_) => Attribute::Absent,
        Value::Tuple(_) => Attribute::Absent,
        Value::Range(_) => Attribute::Absent,
        Value::Fun(_) => Attribute::Absent,
        Value::Method(_) => Attribute::Absent,
        _ => Attribute::Absent,
    }
}

/// A method that is bound to its object.
pub fn bind_method<C: Constants>(
    arena: &mut Arena,
    consts: &C,
    object: Value,
    method: Builtin,
) -> Result<Value, Stop>
    requires leads { Leads arena.old.objects object }
    requires told { Tells C.Constants consts.now object }
    requires method { IsMethodOf method object }
    requires all_told { TellsAll C.Constants consts.now arena.old }
    ensures { Does C.Constants consts.now arena.old arena.new result (λ heap see. making heap (MethodObject (see.value object) method)) }
{
    match arena.make_method(object, method) {
        Ok(m) => Ok(Value::Method(m)),
        Err(room) => Err(Stop::Full(room)),
    }
}

/// An attribute of a value. A method is bound to its object.
pub fn get_attr<C: Constants>(
    arena: &mut Arena,
    consts: &C,
    object: Value,
    name: StrNo,
) -> Result<Value, Stop>
    requires leads { Leads arena.old.objects object }
    requires told { Tells C.Constants consts.now object }
    requires name { IsSome (C.text_of consts.now name) }
    requires all_told { TellsAll C.Constants consts.now arena.old }
    ensures { Does C.Constants consts.now arena.old arena.new result (λ heap see. get_attr_of heap (see.value object) (see.text name)) }
{
    match attribute_of(arena, consts, object, name) {
        Attribute::Found(v) => Ok(v),
        Attribute::Method(method) => bind_method(arena, consts, object, method),
        Attribute::Absent => Err(Stop::Raises(Fault::NoAttribute {
            object: type_of(arena, object),
            name,
        })),
    }
}
