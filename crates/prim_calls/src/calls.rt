//! Calls of built-ins, with the output and the ports.

ghost use Rattle.std.specs.Prelude.{◌≡◌, ◌<◌, ◌^◌, length, map, Err};
ghost use Rattle.mpy_base.specs.World.{Later};
ghost use Rattle.prim_methods.specs.prim_faults.declared.fault.Fault.TheVariants as faults;
ghost use Rattle.prim_methods.specs.prim_faults.declared.stop.Stop.TheVariants as stops;
ghost use Rattle.prim_methods.specs.prim_faults.Sights.{under, TellsAll, KnowsAll, KnowsPairs};
ghost use Rattle.prim_calls.specs.Calls.{IsCall, IsKnownCall, as_call, as_print};

use crate::builtins::call_on_heap;
use arena_heap::{Arena, Constants, Value};
use mpy_base::Builtin;
use mpy_io::{Failed, Port, Sink};
use port_set::PortSet;
use prim_builtins::{Fault, Stop, ValueType};
use prim_outputs::{PrintStop, call_port_count, call_port_get, call_port_put, call_print};

/// Why a call of a built-in gives no value.
#[derive(Clone, Copy, Debug, PartialEq, Eq)]
pub enum CallStop {
    /// A fault, or a making that doesn't fit.
    Stops(Stop),
    /// A put to the output failed.
    Out(Failed),
}

/// What a call that makes no output ends with.
fn stopped(answer: Result<Value, Stop>) -> Result<Value, CallStop>
    ensures { result ≡ as_call answer }
{
    match answer {
        Ok(v) => Ok(v),
        Err(stop) => Err(CallStop::Stops(stop)),
    }
}

/// What a call of `print` ends with.
fn print_stopped(answer: Result<Value, PrintStop>) -> Result<Value, CallStop>
    ensures { result ≡ as_print answer }
{
    match answer {
        Ok(v) => Ok(v),
        Err(PrintStop::Raises(fault)) => Err(CallStop::Stops(Stop::Raises(fault))),
        Err(PrintStop::Out(failed)) => Err(CallStop::Out(failed)),
    }
}

/// The module of the ports isn't callable.
fn port_module() -> Result<Value, Stop>
    ensures { result ≡ Err (stops.Raises (faults.NotCallable ValueType.Module)) }
{
    Err(Stop::Raises(Fault::NotCallable(ValueType::Module)))
}

/// A built-in, with these arguments.
pub fn call_builtin<C: Constants, S: Sink, P: Port>(
    arena: &mut Arena,
    consts: &C,
    out: &mut S,
    ports: &mut PortSet<P>,
    b: Builtin,
    args: &[Value],
    keys: &[(Value, Value)],
) -> Result<Value, CallStop>
    requires few { length args.now < 2 ^ 32 }
    requires known { KnowsAll C.Constants consts.now arena.old args.now }
    requires known_keys { KnowsPairs C.Constants consts.now arena.old keys.now }
    requires all_told { TellsAll C.Constants consts.now arena.old }
    ensures call { IsCall S.told S.count (C.text_of consts.now) (C.items_of consts.now) (record {
      heap = arena.old;
      out = out.old;
      ports = map P.seen ports.old;
    }) (record {
      heap = arena.new;
      out = out.new;
      ports = map P.seen ports.new;
    }) args.now keys.now result b }
    ensures known { under C.Constants consts.now IsKnownCall arena.new.objects result }
    ensures later { Later arena.old.objects arena.new.objects }
    ensures all_told { TellsAll C.Constants consts.now arena.new }
{
    match b {
        Builtin::Print => print_stopped(call_print(arena, consts, out, args, keys)),
        Builtin::PortPut => stopped(call_port_put(arena, consts, ports, args, keys)),
        Builtin::PortGet => stopped(call_port_get(arena, consts, ports, args, keys)),
        Builtin::PortCount => stopped(call_port_count(arena, consts, ports, args, keys)),
        Builtin::Port => stopped(port_module()),
        _ => stopped(call_on_heap(arena, consts, b, args, keys)),
    }
}
