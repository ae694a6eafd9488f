//! Functions that are made.

ghost use Rattle.std.specs.Prelude.{◌≡◌, ◌<◌, ℕ, length, IsTrue};
ghost use Rattle.mpy_base.specs.World.{ADict, IsA, Later};
ghost use Rattle.frame_moves.specs.bc_ops.declared.instr.Op.TheVariants as ops;
ghost use Rattle.frame_moves.specs.bc_ops.declared.instr.Instr.TheVariants as instrs;
ghost use Rattle.frame_moves.specs.arena_heap.Values.{IsTuple};
ghost use Rattle.frame_moves.specs.py_values.Shown.{shown};
ghost use Rattle.frame_moves.specs.py_effects.Modules.{has_items as has_so_many};
ghost use Rattle.frame_moves.specs.bc_machine.Library.{Library, Plain};
ghost use Rattle.frame_moves.specs.prim_faults.Sights.{under, sight, TellsAll, Knows, KnowsAnswer};
ghost use Rattle.prim_modules.specs.Effects.{IsEffect};
ghost use Rattle.frame_moves.specs.vm_frames.Calls.{OfRunning};
ghost use Rattle.frame_moves.specs.Shown.{IsNext};
ghost use Rattle.frame_calls.specs.Children.{IsChild, HasDefaults, judged};
ghost use Rattle.frame_calls.specs.Coming.{ComesTo};
ghost use Rattle.frame_calls.specs.Layouts.{Layout, tables_of};
ghost use Rattle.frame_calls.specs.Operands.{running_slots};
ghost use Rattle.frame_calls.specs.Putting.{Puts, Leaves};

use crate::operands::value_at;
use crate::putting::{push_given, put_given};
use arena_heap::{Arena, Constants, DictNo, Value};
use frame_moves::Frames;
use prim_modules::{Fault, NewFunction, Stop};
use prim_walks::{Look, look_at};

/// A code that a function is made of: the numbers of its name, of its module's name and of itself in its module, and for how
/// many of its last parameters a function of it has defaults.
#[derive(Clone, Copy, Debug, PartialEq, Eq)]
pub struct Child {
    pub name: u32,
    pub module_name: u32,
    pub code: u32,
    pub given: u32,
}

/// The dict of the names of the running call's module.
fn names_of(frames: &Frames) -> DictNo
    requires { 0 < length frames.now.calls }
    ensures { OfRunning (λ c. result ≡ c.names) frames.now.calls }
{
    let (_, _, names) = frames.running();
    names
}

/// Is the value a tuple of `count` items?
fn has_items<C: Constants>(arena: &Arena, consts: &C, v: Value, count: u32) -> bool
    requires known { Knows C.Constants consts.now arena.now v }
    ensures tuple { IsTrue result → IsTuple v }
    ensures judged { let see = sight C.Constants consts.now in result ≡ has_so_many count (shown (see.heap arena.now) (see.value v)) }
{
    match look_at(arena, consts, v) {
        Look::Tuple(items) => items == count,
        _ => false,
    }
}

/// MAKE_FUNCTION: a function of a child of the running code, without defaults. Which child it is, the instruction says by its
/// place among them.
pub fn make_function<C: Constants>(
    frames: &mut Frames,
    arena: &mut Arena,
    consts: &C,
    child: Child,
    end: u32,
) -> Result<(), Stop>
    requires names { OfRunning (λ c. IsA arena.old.objects ADict c.names.cell) frames.old.calls }
    requires room { OfRunning (λ c. length c.slots < frames.old.slot_room) frames.old.calls }
    requires all_told { TellsAll C.Constants consts.now arena.old }
    ensures steps { (layout : Layout) (library : Library) (at : ℕ)
        → IsNext (under C.Constants consts.now tables_of layout) end frames.old.calls
        → OfRunning (IsChild (under C.Constants consts.now tables_of layout) library at child) frames.old.calls
        → ComesTo (under C.Constants consts.now tables_of layout) library
        (Plain (instrs.Num ops.MakeFunction at)) 0 arena.old arena.new frames.old.calls frames.new.calls result }
    ensures moved { Puts (C.text_of consts.now) (C.items_of consts.now) arena.new.objects end 0 frames.old frames.new result }
    ensures leaves { under C.Constants consts.now Leaves arena.old arena.new result }
{
    let function = NewFunction {
        name: child.name,
        module_name: child.module_name,
        code: child.code,
        names: names_of(frames),
        defaults: Value::None,
    };
    let given = prim_modules::make_function(arena, consts, function);
    push_given(frames, given, end)
}

/// A function of a child with these defaults, which lie below the topmost slot, or the fault that they aren't as many as the
/// child takes.
fn make_judged<C: Constants>(
    arena: &mut Arena,
    consts: &C,
    child: Child,
    names: DictNo,
    defaults: Value,
) -> Result<Value, Stop>
    requires names { IsA arena.old.objects ADict names.cell }
    requires known { Knows C.Constants consts.now arena.old defaults }
    requires all_told { TellsAll C.Constants consts.now arena.old }
    ensures effect { let see = sight C.Constants consts.now
        in IsEffect see.texts see.tuples arena.old arena.new result
        (λ w. judged w child.given (see.name child.name) (see.name child.module_name) child.code names.cell (see.value defaults)) }
    ensures known { KnowsAnswer C.Constants consts.now arena.new result }
    ensures later { Later arena.old.objects arena.new.objects }
    ensures all_told { TellsAll C.Constants consts.now arena.new }
{
    let fits = has_items(arena, consts, defaults, child.given);
    if fits {
        let function = NewFunction {
            name: child.name,
            module_name: child.module_name,
            code: child.code,
            names,
            defaults,
        };
        prim_modules::make_function(arena, consts, function)
    } else {
        Err(Stop::Raises(Fault::BadDefaults))
    }
}

/// MAKE_FUNCTION_DEFARGS: a function of a child of the running code, with defaults that are a tuple of as many items as the
/// child takes.
pub fn make_function_with<C: Constants>(
    frames: &mut Frames,
    arena: &mut Arena,
    consts: &C,
    child: Child,
    end: u32,
) -> Result<(), Stop>
    requires names { OfRunning (λ c. IsA arena.old.objects ADict c.names.cell) frames.old.calls }
    requires defaults { under C.Constants consts.now HasDefaults arena.old.objects (running_slots frames.old.calls) }
    requires all_told { TellsAll C.Constants consts.now arena.old }
    ensures steps { (layout : Layout) (library : Library) (at : ℕ)
        → IsNext (under C.Constants consts.now tables_of layout) end frames.old.calls
        → OfRunning (IsChild (under C.Constants consts.now tables_of layout) library at child) frames.old.calls
        → ComesTo (under C.Constants consts.now tables_of layout) library
        (Plain (instrs.Num ops.MakeFunctionDefargs at)) 0 arena.old arena.new frames.old.calls frames.new.calls result }
    ensures moved { Puts (C.text_of consts.now) (C.items_of consts.now) arena.new.objects end 2 frames.old frames.new result }
    ensures leaves { under C.Constants consts.now Leaves arena.old arena.new result }
{
    let names = names_of(frames);
    let defaults = value_at(frames, 1);
    let given = make_judged(arena, consts, child, names, defaults);
    put_given(frames, 2, given, end)
}
