//! What an import comes to.

ghost use Rattle.std.specs.Prelude.{◌≡◌, ◌≤◌, length, IsSome, nat_lt};
ghost use Rattle.mpy_base.specs.declared.limits.TheConstants.{MAX_CALLS as LIMIT};
ghost use Rattle.mpy_base.specs.Val.{PlainWorld};
ghost use Rattle.frame_moves.specs.arena_heap.declared.value.StrNo.TheVariants as strs;
ghost use Rattle.frame_moves.specs.arena_heap.declared.value.Value.{Value as Item};
ghost use Rattle.frame_moves.specs.prim_walks.Plain.{plain};
ghost use Rattle.prim_modules.specs.Registry.{plain_modules};
ghost use Rattle.frame_moves.specs.py_effects.Modules.{module_named};
ghost use Rattle.frame_moves.specs.prim_faults.Sights.{under, sight};
ghost use Rattle.frame_exits.specs.declared.importing.Import.TheVariants as imports;
ghost use Rattle.frame_exits.specs.Importing.{AreOperands, IsImport, IsBeginning, IsModule, given_name};

use crate::operands::{is_zero, value_at};
use crate::prefixes::{first_absent, first_len};
use arena_heap::{Constants, StrNo, Value};
use bc_library::{Library, Member};
use frame_moves::Frames;
use mpy_base::Builtin;
use mpy_base::limits::MAX_CALLS;
use prim_modules::Modules;

/// Why an import fails before a module begins.
#[derive(Clone, Copy, Debug, PartialEq, Eq)]
pub enum Refusal {
    /// Its level isn't 0.
    Relative,
    /// The library has no module whose name is these first bytes of the imported one.
    Missing { len: u32 },
    /// The file of the module was refused.
    Incompatible,
    TooDeep,
}

/// What an import comes to.
#[derive(Clone, Copy, Debug, PartialEq, Eq)]
pub enum Import {
    /// It gives this value: a module, or `port`.
    Put(Value),
    /// The module of this number begins first.
    Begin(u32),
    Stops(Refusal),
}

/// The bytes of a text.
fn text_of<C: Constants>(consts: &C, name: u32) -> &[u8]
    requires { IsSome (C.text_of consts.now (strs.Pool name)) }
    ensures bytes { result.now ≡ (sight C.Constants consts.now).name name }
    ensures few { length result.now ≤ 2147483647 }
{
    match consts.text(StrNo::Pool(name)) {
        Some(text) => text,
        None => unreachable!(),
    }
}

/// The registered module of this name, and else `port`.
fn module_of<C: Constants>(consts: &C, modules: &Modules, name: &[u8]) -> Value
    ensures named { (w : PlainWorld)
        → under C.Constants consts.now plain result
        ≡ module_named (record w { modules = under C.Constants consts.now plain_modules modules.now }) name.now }
    ensures is { IsModule result }
{
    match modules.registered_as(consts, name) {
        Some(m) => Value::Module(m),
        None => Value::Built(Builtin::Port),
    }
}

/// The module that is wanted, all prefixes of whose name are there.
fn wanted<C: Constants>(consts: &C, modules: &Modules, from: Value, text: &[u8]) -> Value
    ensures named { let see = sight C.Constants consts.now in (w : PlainWorld)
        → see.value result ≡ module_named (record w { modules = plain_modules see.texts see.tuples modules.now })
        (given_name (see.value from) text.now) }
    ensures is { IsModule result }
{
    match from {
        Value::None => module_of(consts, modules, &text[..first_len(text)]),
        _ => module_of(consts, modules, text),
    }
}

/// What it comes to that a module of this name is to begin, which is these first bytes of the imported one.
fn beginning(frames: &Frames, library: &Library, prefix: &[u8]) -> Import
    requires { length prefix.now ≤ 2147483647 }
    ensures { IsBeginning library.now (nat_lt (length frames.now.calls) LIMIT) (length prefix.now) prefix.now result }
{
    let deep = (frames.depth() as usize) < MAX_CALLS;
    match library.find(prefix) {
        None => Import::Stops(Refusal::Missing {
            len: prefix.len() as u32,
        }),
        Some(Member::Refused) => Import::Stops(Refusal::Incompatible),
        Some(Member::Module(number)) => {
            if deep {
                Import::Begin(number)
            } else {
                Import::Stops(Refusal::TooDeep)
            }
        }
    }
}

/// IMPORT_NAME: what the import of the name comes to. It looks each prefix of the name up among the registered modules and in
/// the library.
pub fn import_name<C: Constants>(
    frames: &Frames,
    consts: &C,
    modules: &Modules,
    library: &Library,
    name: u32,
) -> Import
    requires operands { (from : Item) × (level : Item) × AreOperands from level frames.now.calls }
    requires name { IsSome (C.text_of consts.now (strs.Pool name)) }
    ensures comes { let see = sight C.Constants consts.now in (from level : Item) (w : PlainWorld)
        → AreOperands from level frames.now.calls
        → IsImport see.texts see.tuples library.now (record w { modules = plain_modules see.texts see.tuples modules.now })
        (nat_lt (length frames.now.calls) LIMIT) (see.name name) from level result }
    ensures given { (v : Item) → result ≡ imports.Put v → IsModule v }
{
    let from = value_at(frames, 0);
    let level = value_at(frames, 1);
    let text = text_of(consts, name);
    if !is_zero(level) {
        return Import::Stops(Refusal::Relative);
    }
    match first_absent(consts, modules, text) {
        None => Import::Put(wanted(consts, modules, from, text)),
        Some(len) => beginning(frames, library, &text[..len]),
    }
}
