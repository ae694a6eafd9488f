//! Functions of the program that are entered.

ghost use Rattle.std.specs.Prelude.{◌≡◌, ◌<◌, ◌≤◌, ◌^◌, ◌++◌, ◌⊎◌, ℕ, List, length, drop, nat_lt, Option, Some, None, Ok, IsOk, slice_get};
ghost use Rattle.mpy_base.specs.declared.limits.TheConstants.{MAX_CALLS as LIMIT};
ghost use Rattle.mpy_base.specs.World.{Heap};
ghost use Rattle.frame_moves.specs.arena_heap.declared.value.Value.{Value as Item};
ghost use Rattle.frame_moves.specs.arena_heap.declared.value.Value.TheVariants as values;
ghost use Rattle.frame_moves.specs.arena_heap.declared.value.StrNo.{StrNo as TextName};
ghost use Rattle.frame_moves.specs.arena_heap.declared.value.ConstNo.{ConstNo as TupleName};
ghost use Rattle.frame_moves.specs.bc_machine.Library.{Library, Item as Instruction, code_at};
ghost use Rattle.frame_moves.specs.prim_walks.Plain.{plain_name};
ghost use Rattle.frame_moves.specs.prim_faults.Sights.{under, TellsAll};
ghost use Rattle.prim_calls.specs.declared.callees.Callee.TheVariants as callees;
ghost use Rattle.prim_calls.specs.declared.callees.Function.{Function as Callable};
ghost use Rattle.prim_calls.specs.Callees.{IsKnownFunction};
ghost use Rattle.frame_moves.specs.vm_frames.Calls.{OfRunning, on_running};
ghost use Rattle.frame_moves.specs.vm_frames.Placed.{IsPlaced};
ghost use Rattle.frame_moves.specs.Shown.{IsNext, view_of};
ghost use Rattle.frame_calls.specs.Coming.{ComesTo};
ghost use Rattle.frame_calls.specs.Entering.{IsCodeOf, IsEntered, Enters, begun};
ghost use Rattle.frame_calls.specs.Invoking.{Invokes};
ghost use Rattle.frame_calls.specs.Known.{AreKnown};
ghost use Rattle.frame_calls.specs.Layouts.{Layout, tables_of};
ghost use Rattle.frame_calls.specs.Operands.{running_slots};
ghost use Rattle.frame_calls.specs.Putting.{IsKnownStop, with_value};

use crate::binding::{Bindings, FunctionCode};
use crate::operands::Operands;
use crate::putting::{drop_slots, put_over};
use arena_heap::{Arena, Constants, Value};
use frame_moves::{Frames, Role, moves_law, placed_law};
use mpy_base::limits::MAX_CALLS;
use prim_calls::Function;
use prim_modules::{Fault, Stop};

/// Is there depth for one call more?
fn has_depth(frames: &Frames) -> bool
    ensures { result ≡ nat_lt (length frames.now.calls) LIMIT }
{
    (frames.depth() as usize) < MAX_CALLS
}

/// The value at a place.
fn bound_at(values: &[Option<Value>], at: usize) -> Option<Value>
    requires { at < length values.now }
    ensures { slice_get values.now at ≡ Some result }
{
    values[at]
}

/// Values go into the first locals of the running call.
fn fill_locals(frames: &mut Frames, values: &[Option<Value>])
    requires few { length values.now < 2 ^ 32 }
    requires there { OfRunning (λ c. length values.now ≤ length c.locals) frames.old.calls }
    ensures { frames.new ≡ on_running (λ c. record c { locals = values.now ++ drop (length values.now) c.locals }) frames.old }
{
    for i in 0..values.len() {
        frames.set_local(i as u32, bound_at(values, i));
    }
}

/// How many locals a call has: no fewer than its parameters.
fn locals_count(locals: usize, params: usize) -> usize
    ensures least { params ≤ result }
    ensures all { locals ≤ result }
    ensures one { (result ≡ locals) ⊎ (result ≡ params) }
{
    if locals < params { params } else { locals }
}

/// A call of the function begins with these values in its first locals, or the calls nest too deep.
fn enter(
    frames: &mut Frames,
    function: Function,
    values: &[Option<Value>],
    module_number: u32,
    locals: usize,
    size: u32,
) -> Result<(), Stop>
    requires some { 0 < size }
    requires there { size ≤ length (running_slots frames.old.calls) }
    requires locals { locals ≤ frames.old.slot_room }
    requires params { length values.now ≤ frames.old.slot_room }
    requires few { frames.old.slot_room < 2 ^ 32 }
    ensures { IsEntered (nat_lt (length frames.old.calls) LIMIT) size (begun function module_number locals values.now) frames.old frames.new result }
{
    let deep = has_depth(frames);
    if deep {
        let room = locals_count(locals, values.len()) as u32;
        drop_slots(frames, size);
        frames.push_call(
            module_number,
            function.code,
            function.names,
            Role::Call,
            room,
        );
        fill_locals(frames, values);
        Ok(())
    } else {
        Err(Stop::Raises(Fault::TooDeep))
    }
}

/// A function of the program is called, whose code is given, and whose module has the number: the operands are bound to
/// its parameters, then the depth is judged, and then a new call begins. The one that called it waits at its instruction.
pub fn run_function<C: Constants>(
    frames: &mut Frames,
    arena: &Arena,
    consts: &C,
    bindings: &mut Bindings,
    operands: &Operands,
    function: Function,
    code: &FunctionCode<'_>,
    module_number: u32,
    size: u32,
) -> Result<(), Stop>
    requires some { 0 < size }
    requires there { size ≤ length (running_slots frames.old.calls) }
    requires locals { code.now.locals ≤ frames.old.slot_room }
    requires params { length code.now.params.now ≤ frames.old.slot_room }
    requires few { frames.old.slot_room < 2 ^ 32 }
    requires fits { length code.now.params.now ≤ bindings.old.room }
    requires few_args { length operands.now.args < 2 ^ 32 }
    requires function { under C.Constants consts.now IsKnownFunction arena.now.objects function }
    requires known { under C.Constants consts.now AreKnown arena.now.objects operands.now }
    requires all_told { TellsAll C.Constants consts.now arena.now }
    ensures steps { (layout : Layout) (library : Library) (item : Instruction)
        → Invokes (under C.Constants consts.now tables_of layout) item size arena.now frames.old.calls operands.now.args operands.now.keys
        (callees.Runs function) → IsCodeOf (under C.Constants consts.now tables_of layout) library function module_number code.now
        → ComesTo (under C.Constants consts.now tables_of layout) library item 0 arena.now arena.now frames.old.calls frames.new.calls
        result }
    ensures entered { under C.Constants consts.now Enters arena.now.objects function module_number code.now.locals size frames.old frames.new result }
    ensures placed { (layout : Layout) (library : Library)
        → IsCodeOf (under C.Constants consts.now tables_of layout) library function module_number code.now → IsOk result
        → OfRunning (IsPlaced (view_of (under C.Constants consts.now tables_of layout))) frames.new.calls }
    ensures stop { under C.Constants consts.now IsKnownStop arena.now.objects result }
    ensures room { bindings.new.room ≡ bindings.old.room }
{
    moves_law();
    placed_law();
    match bindings.bind(arena, consts, code, function.defaults, operands) {
        Err(fault) => Err(Stop::Raises(fault)),
        Ok(()) => {
            let values = bindings.bound();
            enter(frames, function, values, module_number, code.locals, size)
        }
    }
}

/// A function is called whose code isn't in the library: the call gives None, whatever the heap and the operands are.
pub fn skip_function(frames: &mut Frames, size: u32, end: u32)
    requires some { 0 < size }
    requires there { size ≤ length (running_slots frames.old.calls) }
    ensures steps { (texts : TextName → Option (List ℕ)) (tuples : TupleName
        → Option (List Item)) (layout : Layout) (library : Library) (item : Instruction) (heap : Heap Item ℕ) (args : List Item)
        (keys : List (Item × Item)) (f : Callable)
        → Invokes (tables_of texts tuples layout) item size heap frames.old.calls args keys (callees.Runs f)
        → code_at library (plain_name texts tuples f.module_name) f.code ≡ None
        → IsNext (tables_of texts tuples layout) end frames.old.calls
        → ComesTo (tables_of texts tuples layout) library item 0 heap heap frames.old.calls frames.new.calls (Ok tt) }
    ensures moved { frames.new ≡ on_running (with_value end size values.None) frames.old }
{
    put_over(frames, size, Value::None, end);
}
