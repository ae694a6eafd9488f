//! The texts of values that have no others in them.

ghost use Rattle.std.specs.Prelude.{◌≡◌, ◌<◌, All};
ghost use Rattle.py_primitives.specs.mpy_base.Kind.{kind_name};
ghost use Rattle.py_primitives.specs.mpy_base.World.{AFunction, AModule, ARange, IsA, object};
ghost use Rattle.arena_objects.specs.arena_heap.Values.{Leads};
ghost use Rattle.arena_objects.specs.arena_heap.Constants.{IsTold};
ghost use Rattle.py_primitives.specs.Builtins.{is_type as is_one_type};
ghost use Rattle.py_primitives.specs.Texts.{builtin_text, range_text};
ghost use Rattle.prim_walks.specs.Leaves.{leaf_text, part_text, IsLeaf};
ghost use Rattle.prim_walks.specs.Pens.{Wrote};
ghost use Rattle.prim_walks.specs.Plain.{plain_name};

use crate::names::builtin_name;
use crate::pen::Pen;
use crate::pieces::{put, put_number, put_str, put_three};
use crate::ranges::is_one_number;
use arena_objects::{
    Arena, Constants, FunNo, ModuleNo, RangeNo, StrNo, Value, fun_parts, module_parts, range_parts,
    text_bytes,
};
use py_primitives::{Builtin, Kind};

fn is_type(b: Builtin) -> bool
    ensures { result ≡ is_one_type b }
{
    matches!(
        b,
        Builtin::Bool
            | Builtin::Int
            | Builtin::Str
            | Builtin::List
            | Builtin::Tuple
            | Builtin::Dict
            | Builtin::Kind(_)
    )
}

/// Writes the name of a kind.
#[tactic(auto, using(crate::proofs::AsciiNames::kind_ascii))]
pub(crate) fn put_kind<P: Pen>(pen: &mut P, kind: Kind)
    ensures { Wrote P.Takes pen.old (kind_name kind) pen.new }
{
    put(pen, kind.name().as_bytes())
}

/// Writes a type or a function.
#[tactic(auto, using(crate::proofs::AsciiNames::builtin_ascii))]
fn put_builtin<P: Pen>(pen: &mut P, b: Builtin)
    ensures { Wrote P.Takes pen.old (builtin_text b) pen.new }
{
    match b {
        Builtin::Port => put(pen, b"<module 'port'>"),
        _ => {
            if is_type(b) {
                put_three(pen, b"<class '", builtin_name(b).as_bytes(), b"'>")
            } else {
                put(pen, b"<function>")
            }
        }
    }
}

/// Writes a range.
fn put_range<P: Pen>(pen: &mut P, start: i32, stop: i32, step: i32)
    ensures { Wrote P.Takes pen.old (range_text start stop step) pen.new }
{
    put(pen, b"range(");
    put_number(pen, start);
    put(pen, b", ");
    put_number(pen, stop);
    let is_one = is_one_number(step, 1);
    if is_one {
        put(pen, b")")
    } else {
        put(pen, b", ");
        put_number(pen, step);
        put(pen, b")")
    }
}

/// The bytes of a name.
fn name_bytes<C: Constants>(consts: &C, name: u32) -> &[u8]
    ensures bytes { result.now ≡ plain_name (C.text_of consts.now) (C.items_of consts.now) name }
    ensures ascii { All (λ b. b < 128) result.now }
{
    match consts.text(StrNo::Pool(name)) {
        Some(bytes) => bytes,
        None => &[],
    }
}

/// Writes a function by its name.
fn put_function<P: Pen, C: Constants>(arena: &Arena, consts: &C, f: FunNo, pen: &mut P)
    requires { IsA arena.now.objects AFunction f.cell }
    ensures { Wrote P.Takes pen.old (part_text (C.text_of consts.now) (object arena.now.objects f.cell)) pen.new }
{
    let (name, _, _, _, _) = fun_parts(arena, f);
    put_three(pen, b"<function ", name_bytes(consts, name), b">")
}

/// Writes a module by its name.
fn put_module<P: Pen, C: Constants>(arena: &Arena, consts: &C, m: ModuleNo, pen: &mut P)
    requires { IsA arena.now.objects AModule m.cell }
    ensures { Wrote P.Takes pen.old (part_text (C.text_of consts.now) (object arena.now.objects m.cell)) pen.new }
{
    let (name, _) = module_parts(arena, m);
    put_three(pen, b"<module '", name_bytes(consts, name), b"'>")
}

/// Writes the range that an object is.
fn put_range_object<P: Pen, C: Constants>(arena: &Arena, consts: &C, r: RangeNo, pen: &mut P)
    requires { IsA arena.now.objects ARange r.cell }
    ensures { Wrote P.Takes pen.old (part_text (C.text_of consts.now) (object arena.now.objects r.cell)) pen.new }
{
    let (start, stop, step) = range_parts(arena, r);
    put_range(pen, start, stop, step)
}

/// Writes a value that has no others in it.
pub(crate) fn put_leaf<P: Pen, C: Constants>(
    arena: &Arena,
    consts: &C,
    v: Value,
    raw: bool,
    pen: &mut P,
)
    requires leads { Leads arena.now.objects v }
    requires told { IsTold (C.text_of consts.now) (C.items_of consts.now) v }
    requires leaf { IsLeaf v }
    ensures { Wrote P.Takes pen.old (leaf_text (C.text_of consts.now) arena.now raw v) pen.new }
{
    match v {
        Value::None => put(pen, b"None"),
        Value::Bool(true) => put(pen, b"True"),
        Value::Bool(false) => put(pen, b"False"),
        Value::Int(n) => put_number(pen, n),
        Value::Str(_) | Value::Text(_) => put_str(pen, text_bytes(arena, consts, v), raw),
        Value::Fun(f) => put_function(arena, consts, f, pen),
        Value::Method(_) => put(pen, b"<bound_method>"),
        Value::Range(r) => put_range_object(arena, consts, r, pen),
        Value::Module(m) => put_module(arena, consts, m, pen),
        Value::Built(b) => put_builtin(pen, b),
        _ => unreachable!(),
    }
}
