//! Calls that act at once.

ghost use Rattle.std.specs.Prelude.{◌<◌, ◌≤◌, ◌^◌, ◌≡◌, ℕ, List, Option, length, map, Err};
ghost use Rattle.mpy_base.specs.World.{Heap, Objects, Later};
ghost use Rattle.mpy_base.specs.Val.{PlainWorld};
ghost use Rattle.port_set.specs.Calls.{Tell};
ghost use Rattle.frame_moves.specs.arena_heap.declared.value.Value.{Value as Item};
ghost use Rattle.frame_moves.specs.arena_heap.declared.value.StrNo.{StrNo as TextName};
ghost use Rattle.frame_moves.specs.arena_heap.declared.value.ConstNo.{ConstNo as TupleName};
ghost use Rattle.frame_moves.specs.arena_heap.Values.{IsMethodOf};
ghost use Rattle.frame_moves.specs.py_primitives.Methods.{call_method as call_method_in};
ghost use Rattle.frame_moves.specs.bc_machine.Library.{Library, Item as Instruction};
ghost use Rattle.frame_moves.specs.prim_faults.Sights.{under, sight, TellsAll, Knows};
ghost use Rattle.prim_calls.specs.declared.callees.Callee.TheVariants as callees;
ghost use Rattle.prim_calls.specs.Families.{IsOfPorts};
ghost use Rattle.frame_moves.specs.vm_frames.Calls.{Call, OfRunning};
ghost use Rattle.frame_moves.specs.Shown.{IsNext};
ghost use Rattle.frame_moves.specs.Outcomes.{Does};
ghost use Rattle.frame_calls.specs.Built.{ActsBuilt, IsCalled, IsKnownCallStop};
ghost use Rattle.frame_calls.specs.Invoking.{Invokes};
ghost use Rattle.frame_calls.specs.Known.{AreKnown};
ghost use Rattle.frame_calls.specs.Layouts.{Layout, tables_of};
ghost use Rattle.frame_calls.specs.Operands.{running_slots};
ghost use Rattle.frame_calls.specs.Putting.{IsKnownStop, Puts, Leaves, put_in, done_of};

use crate::operands::Operands;
use crate::putting::{put_given, put_over};
use arena_heap::{Arena, Constants, Value};
use frame_moves::Frames;
use mpy_base::Builtin;
use mpy_io::{Port, Sink};
use port_set::PortSet;
use prim_calls::{CallStop, call_builtin, call_method};
use prim_modules::{Fault, Stop, ValueType};

/// A method of an object is called. Its value goes in the place of the slots that the call takes.
pub fn act_method<C: Constants>(
    frames: &mut Frames,
    arena: &mut Arena,
    consts: &C,
    operands: &Operands,
    object: Value,
    method: Builtin,
    size: u32,
    end: u32,
) -> Result<(), Stop>
    requires some { 0 < size }
    requires there { size ≤ length (running_slots frames.old.calls) }
    requires method { IsMethodOf method object }
    requires object { Knows C.Constants consts.now arena.old object }
    requires few { length operands.now.args < 2 ^ 32 }
    requires known { under C.Constants consts.now AreKnown arena.old.objects operands.now }
    requires all_told { TellsAll C.Constants consts.now arena.old }
    ensures steps { let see = sight C.Constants consts.now in (layout : Layout) (item : Instruction)
        → Invokes (tables_of see.texts see.tuples layout) item size arena.old frames.old.calls operands.now.args operands.now.keys
        (callees.Method object method) → IsNext (tables_of see.texts see.tuples layout) end frames.old.calls
        → Does (tables_of see.texts see.tuples layout) item
        (call_method_in (see.heap arena.old) method (see.value object) (map see.value operands.now.args)
        (map see.pair operands.now.keys)).visits arena.old arena.new frames.old.calls frames.new.calls result }
    ensures moved { Puts (C.text_of consts.now) (C.items_of consts.now) arena.new.objects end size frames.old frames.new result }
    ensures leaves { under C.Constants consts.now Leaves arena.old arena.new result }
{
    let args = operands.positional();
    let keys = operands.keywords();
    let given = call_method(arena, consts, method, object, args, keys);
    put_given(frames, size, given, end)
}

/// A value of a type that isn't callable is called: whatever the calls, the heap and the operands are.
pub fn refuse_call(value_type: ValueType) -> Stop
    ensures steps { (texts : TextName → Option (List ℕ)) (tuples : TupleName
        → Option (List Item)) (layout : Layout) (item : Instruction) (size : ℕ) (heap : Heap Item ℕ) (calls : List Call) (args : List Item)
        (keys : List (Item × Item))
        → 0 < length calls → Invokes (tables_of texts tuples layout) item size heap calls args keys (callees.NotCallable value_type)
        → Does (tables_of texts tuples layout) item 0 heap heap calls calls (Err result) }
    ensures known { (texts : TextName → Option (List ℕ)) (tuples : TupleName → Option (List Item)) (objects : Objects Item ℕ)
        → IsKnownStop texts tuples objects (Err result) }
{
    Stop::Raises(Fault::NotCallable(value_type))
}

/// A value that a built-in gave goes in the place of the slots that the call takes. A stop leaves the calls.
fn put_called(
    frames: &mut Frames,
    taken: u32,
    given: Result<Value, CallStop>,
    end: u32,
) -> Result<(), CallStop>
    requires some { 0 < taken }
    requires there { OfRunning (λ c. taken ≤ length c.slots) frames.old.calls }
    ensures calls { frames.new ≡ put_in end taken given frames.old }
    ensures done { result ≡ done_of given }
{
    match given {
        Ok(v) => {
            put_over(frames, taken, v, end);
            Ok(())
        }
        Err(stop) => Err(stop),
    }
}

/// A built-in is called, with the output and the ports. Its value goes in the place of the slots that the call takes.
pub fn act_builtin<C: Constants, S: Sink, P: Port>(
    frames: &mut Frames,
    arena: &mut Arena,
    consts: &C,
    out: &mut S,
    ports: &mut PortSet<P>,
    operands: &Operands,
    b: Builtin,
    size: u32,
    end: u32,
) -> Result<(), CallStop>
    requires some { 0 < size }
    requires there { size ≤ length (running_slots frames.old.calls) }
    requires few { length operands.now.args < 2 ^ 32 }
    requires known { under C.Constants consts.now AreKnown arena.old.objects operands.now }
    requires all_told { TellsAll C.Constants consts.now arena.old }
    ensures acts { (layout : Layout) (library : Library) (item : Instruction) (w : PlainWorld)
        → Invokes (under C.Constants consts.now tables_of layout) item size arena.old frames.old.calls operands.now.args operands.now.keys
        (callees.Built b) → IsNext (under C.Constants consts.now tables_of layout) end frames.old.calls
        → (IsOfPorts b → Tell (map P.seen ports.old) w.ports)
        → ActsBuilt S.told S.count
        (under C.Constants consts.now tables_of layout) library item size end b operands.now.args operands.now.keys (record {
          heap = arena.old;
          out = out.old;
          ports = map P.seen ports.old;
        }) (record {
          heap = arena.new;
          out = out.new;
          ports = map P.seen ports.new;
        }) frames.old.calls frames.new.calls w result }
    ensures called { IsCalled S.told S.count (C.text_of consts.now) (C.items_of consts.now) (record {
      heap = arena.old;
      out = out.old;
      ports = map P.seen ports.old;
    }) (record {
      heap = arena.new;
      out = out.new;
      ports = map P.seen ports.new;
    }) operands.now.args operands.now.keys b result }
    ensures moved { Puts (C.text_of consts.now) (C.items_of consts.now) arena.new.objects end size frames.old frames.new result }
    ensures known { under C.Constants consts.now IsKnownCallStop arena.new.objects result }
    ensures later { Later arena.old.objects arena.new.objects }
    ensures all_told { TellsAll C.Constants consts.now arena.new }
{
    let args = operands.positional();
    let keys = operands.keywords();
    let given = call_builtin(arena, consts, out, ports, b, args, keys);
    put_called(frames, size, given, end)
}
