//! Calls of ports.

ghost use Rattle.std.specs.Prelude.{◌≡◌, ◌<◌, ◌<ℤ◌, ◌^◌, pos, List, Some, MatchOption, length, map, slice_get};
ghost use Rattle.mpy_base.specs.declared.builtin.Builtin.TheVariants as builtins;
ghost use Rattle.std.specs.Option.{option_to_list};
ghost use Rattle.mpy_base.specs.World.{PortState};
ghost use Rattle.port_set.specs.Calls.{Tell};
ghost use Rattle.port_set.specs.Counts.{CountsKeep};
ghost use Rattle.prim_builtins.specs.arena_heap.Values.{Leads};
ghost use Rattle.prim_builtins.specs.py_primitives.Output.{put_to, get_from, call_port, call_port_put as put_of, call_port_get as get_of};
ghost use Rattle.prim_builtins.specs.prim_faults.Sights.{sight, KnowsAll, KnowsAnswer};
ghost use Rattle.prim_builtins.specs.prim_operators.Operands.{number_in};
ghost use Rattle.prim_outputs.specs.PortCalls.{DoesPorts, DoesTold, Failed, FailsListed, FailsPorts, IsFailure, calling_port};
ghost use Rattle.prim_outputs.specs.PortCalls.{IsNoCall, IsNumberAnswer, IsPortAnswer, IsPortOutcome, IsTaken, called_number};
ghost use Rattle.prim_outputs.specs.PortCalls.{get_at, put_at};

use arena_heap::{Arena, Constants, Value};
use mpy_io::Port;
use port_set::{PortFault, PortSet};
use prim_builtins::{Fault, Stop, number_of, one_argument, only_so_many};
use py_values::NumFault;

/// The place that a number names, if it is one.
fn place_of(z: i32) -> Option<usize>
    ensures { MatchOption result (z <ℤ pos 0) (λ at. z ≡ pos at) }
{
    if z < 0 { None } else { Some(z as usize) }
}

/// Writes a number to the port at a place.
fn put_number<P: Port>(ports: &mut PortSet<P>, at: usize, n: i32) -> Result<Value, Stop>
    ensures told { DoesTold (map P.seen ports.old) (map P.seen ports.new) result (λ contents. put_to contents at n (slice_get contents at)) }
    ensures failed { IsFailure result → Failed (Some (pos at)) (map P.seen ports.old) (map P.seen ports.new) }
    ensures refused { IsNoCall result → ports.new ≡ ports.old }
    ensures listed { FailsListed (Some (pos at)) result (λ contents. put_to contents at n (slice_get contents at)) }
    ensures faults { CountsKeep (map P.seen ports.old) (map P.seen ports.new) }
    ensures number { IsPortAnswer result }
{
    match ports.put(at, n) {
        Ok(()) => Ok(Value::None),
        Err(PortFault::NoPort) => Err(Stop::Raises(Fault::NoSuchPort)),
        Err(PortFault::Failed) => Err(Stop::Raises(Fault::PortFailed)),
    }
}

/// Writes a number to the port that has a number.
fn put_numbered<P: Port>(ports: &mut PortSet<P>, i: i32, n: i32) -> Result<Value, Stop>
    ensures told { DoesTold (map P.seen ports.old) (map P.seen ports.new) result (λ contents. put_at contents i n) }
    ensures failed { IsFailure result → Failed (Some i) (map P.seen ports.old) (map P.seen ports.new) }
    ensures refused { IsNoCall result → ports.new ≡ ports.old }
    ensures listed { FailsListed (Some i) result (λ contents. put_at contents i n) }
    ensures faults { CountsKeep (map P.seen ports.old) (map P.seen ports.new) }
    ensures number { IsPortAnswer result }
{
    match place_of(i) {
        Some(at) => put_number(ports, at, n),
        None => Err(Stop::Raises(Fault::NoSuchPort)),
    }
}

/// Writes the number that an argument is to the port that another names.
fn put_value<C: Constants, P: Port>(
    arena: &Arena,
    _consts: &C,
    ports: &mut PortSet<P>,
    i: Value,
    n: Value,
) -> Result<Value, Stop>
    requires leads { Leads arena.now.objects i }
    requires n_leads { Leads arena.now.objects n }
    ensures told { DoesPorts C.Constants _consts.now arena.now (map P.seen ports.old) (map P.seen ports.new) result
        (λ heap see contents. put_of heap contents (see.value i) (see.value n)) }
    ensures known { KnowsAnswer C.Constants _consts.now arena.now result }
    ensures failed { IsFailure result → Failed (number_in i) (map P.seen ports.old) (map P.seen ports.new) }
    ensures refused { IsNoCall result → ports.new ≡ ports.old }
    ensures listed { FailsPorts C.Constants _consts.now arena.now (number_in i) result (λ heap see contents. put_of heap contents (see.value i) (see.value n)) }
    ensures faults { CountsKeep (map P.seen ports.old) (map P.seen ports.new) }
{
    let number = match number_of(arena, i) {
        Ok(z) => z,
        Err(fault) => return Err(Stop::Raises(fault)),
    };
    match number_of(arena, n) {
        Ok(z) => put_numbered(ports, number, z),
        Err(fault) => Err(Stop::Raises(fault)),
    }
}

/// `port.put` of these arguments.
pub fn call_port_put<C: Constants, P: Port>(
    arena: &Arena,
    consts: &C,
    ports: &mut PortSet<P>,
    args: &[Value],
    keys: &[(Value, Value)],
) -> Result<Value, Stop>
    requires few { length args.now < 2 ^ 32 }
    requires known { KnowsAll C.Constants consts.now arena.now args.now }
    ensures told { DoesPorts C.Constants consts.now arena.now (map P.seen ports.old) (map P.seen ports.new) result
        (calling_port builtins.PortPut args.now keys.now) }
    ensures known { KnowsAnswer C.Constants consts.now arena.now result }
    ensures failed { IsFailure result → Failed (called_number args.now) (map P.seen ports.old) (map P.seen ports.new) }
    ensures refused { IsNoCall result → ports.new ≡ ports.old }
    ensures listed { FailsPorts C.Constants consts.now arena.now (called_number args.now) result (calling_port builtins.PortPut args.now keys.now) }
    ensures faults { CountsKeep (map P.seen ports.old) (map P.seen ports.new) }
{
    match only_so_many(2, args, keys) {
        Ok(()) => put_value(arena, consts, ports, args[0], args[1]),
        Err(fault) => Err(Stop::Raises(fault)),
    }
}

/// An answer of a port: None where none is pending, and a fault where it is no small integer.
fn answer_value(answer: Option<i32>) -> Result<Value, Stop>
    ensures taken { IsTaken (option_to_list answer) result }
    ensures number { IsPortAnswer result }
    ensures answered { IsFailure result → ⊥ }
    ensures called { IsNoCall result → ⊥ }
{
    match answer {
        Some(z) if -1_073_741_824 <= z && z <= 1_073_741_823 => Ok(Value::Int(z)),
        Some(_) => Err(Stop::Raises(Fault::Arithmetic(NumFault::Overflow))),
        None => Ok(Value::None),
    }
}

/// Takes an answer of the port at a place.
fn get_answer<P: Port>(ports: &mut PortSet<P>, at: usize) -> Result<Value, Stop>
    ensures told { DoesTold (map P.seen ports.old) (map P.seen ports.new) result (λ contents. get_from contents at (slice_get contents at)) }
    ensures failed { IsFailure result → Failed (Some (pos at)) (map P.seen ports.old) (map P.seen ports.new) }
    ensures refused { IsNoCall result → ports.new ≡ ports.old }
    ensures listed { FailsListed (Some (pos at)) result (λ contents. get_from contents at (slice_get contents at)) }
    ensures faults { CountsKeep (map P.seen ports.old) (map P.seen ports.new) }
    ensures number { IsPortAnswer result }
{
    match ports.get(at) {
        Ok(answer) => answer_value(answer),
        Err(PortFault::NoPort) => Err(Stop::Raises(Fault::NoSuchPort)),
        Err(PortFault::Failed) => Err(Stop::Raises(Fault::PortFailed)),
    }
}

/// Takes an answer of the port that has a number.
fn get_numbered<P: Port>(ports: &mut PortSet<P>, i: i32) -> Result<Value, Stop>
    ensures told { DoesTold (map P.seen ports.old) (map P.seen ports.new) result (λ contents. get_at contents i) }
    ensures failed { IsFailure result → Failed (Some i) (map P.seen ports.old) (map P.seen ports.new) }
    ensures refused { IsNoCall result → ports.new ≡ ports.old }
    ensures listed { FailsListed (Some i) result (λ contents. get_at contents i) }
    ensures faults { CountsKeep (map P.seen ports.old) (map P.seen ports.new) }
    ensures number { IsPortAnswer result }
{
    match place_of(i) {
        Some(at) => get_answer(ports, at),
        None => Err(Stop::Raises(Fault::NoSuchPort)),
    }
}

/// Takes an answer of the port that an argument names.
fn get_value<C: Constants, P: Port>(
    arena: &Arena,
    _consts: &C,
    ports: &mut PortSet<P>,
    i: Value,
) -> Result<Value, Stop>
    requires leads { Leads arena.now.objects i }
    ensures told { DoesPorts C.Constants _consts.now arena.now (map P.seen ports.old) (map P.seen ports.new) result
        (λ heap see contents. get_of heap contents (see.value i)) }
    ensures known { KnowsAnswer C.Constants _consts.now arena.now result }
    ensures failed { IsFailure result → Failed (number_in i) (map P.seen ports.old) (map P.seen ports.new) }
    ensures refused { IsNoCall result → ports.new ≡ ports.old }
    ensures listed { FailsPorts C.Constants _consts.now arena.now (number_in i) result (λ heap see contents. get_of heap contents (see.value i)) }
    ensures faults { CountsKeep (map P.seen ports.old) (map P.seen ports.new) }
{
    match number_of(arena, i) {
        Ok(z) => get_numbered(ports, z),
        Err(fault) => Err(Stop::Raises(fault)),
    }
}

/// `port.get` of these arguments.
pub fn call_port_get<C: Constants, P: Port>(
    arena: &Arena,
    consts: &C,
    ports: &mut PortSet<P>,
    args: &[Value],
    keys: &[(Value, Value)],
) -> Result<Value, Stop>
    requires few { length args.now < 2 ^ 32 }
    requires known { KnowsAll C.Constants consts.now arena.now args.now }
    ensures told { DoesPorts C.Constants consts.now arena.now (map P.seen ports.old) (map P.seen ports.new) result
        (calling_port builtins.PortGet args.now keys.now) }
    ensures known { KnowsAnswer C.Constants consts.now arena.now result }
    ensures failed { IsFailure result → Failed (called_number args.now) (map P.seen ports.old) (map P.seen ports.new) }
    ensures refused { IsNoCall result → ports.new ≡ ports.old }
    ensures listed { FailsPorts C.Constants consts.now arena.now (called_number args.now) result (calling_port builtins.PortGet args.now keys.now) }
    ensures faults { CountsKeep (map P.seen ports.old) (map P.seen ports.new) }
{
    match one_argument(args, keys) {
        Ok(i) => get_value(arena, consts, ports, i),
        Err(fault) => Err(Stop::Raises(fault)),
    }
}

/// A count as a number: a fault where it is no small integer.
fn count_value(count: usize) -> Result<Value, Stop>
    ensures counted { IsNumberAnswer (pos count) result }
    ensures number { IsPortAnswer result }
{
    if count <= 1_073_741_823 {
        Ok(Value::Int(count as i32))
    } else {
        Err(Stop::Raises(Fault::Arithmetic(NumFault::Overflow)))
    }
}

/// `port.count` of these arguments: how many ports there are.
pub fn call_port_count<C: Constants, P: Port>(
    arena: &Arena,
    consts: &C,
    ports: &PortSet<P>,
    args: &[Value],
    keys: &[(Value, Value)],
) -> Result<Value, Stop>
    requires few { length args.now < 2 ^ 32 }
    ensures told { let see = sight C.Constants consts.now in (contents : List PortState) → Tell (map P.seen ports.now) contents
        → IsPortOutcome see.texts see.tuples arena.now (map P.seen ports.now) result
        (call_port (see.heap arena.now) contents builtins.PortCount (map see.value args.now) (map see.pair keys.now)) }
    ensures known { KnowsAnswer C.Constants consts.now arena.now result }
{
    match only_so_many(0, args, keys) {
        Ok(()) => count_value(ports.len()),
        Err(fault) => Err(Stop::Raises(fault)),
    }
}
