//! Arguments that are bound to the parameters of a code.

ghost use Rattle.std.specs.Prelude.{◌≡◌, ◌<◌, ◌≤◌, ◌^◌, [], length, map, replicate, None, IfOk};
ghost use Rattle.std.specs.Vec.{vec_capacity};
ghost use Rattle.frame_moves.specs.arena_heap.declared.value.StrNo.TheVariants as strs;
ghost use Rattle.frame_moves.specs.py_effects.Calling.{bind as bind_in};
ghost use Rattle.frame_moves.specs.prim_faults.Sights.{under, sight, TellsAll, Knows};
ghost use Rattle.prim_calls.specs.Binding.{name_text, IsBound, IsKnownBound};
ghost use Rattle.frame_calls.specs.Known.{AreKnown};

use crate::operands::{Operands, add};
use arena_heap::{Arena, Constants, StrNo, Value};
use mpy_base::NoMemory;
use prim_calls::{Parameters, bind};
use prim_modules::Fault;
use std::alloc::Global;
use std::marker::Model;

/// What a call asks of a function's code: the numbers of its parameters' names in the library's pool, for how many of the last
/// parameters a function of it has defaults, and how many locals it has.
#[derive(Clone, Copy)]
pub struct FunctionCode<'a> {
    pub params: &'a [u32],
    pub given: u32,
    pub locals: usize,
}

/// The values that parameters are bound to. Its memory is taken once, and serves one call after another.
#[derive(Drop)]
pub struct Bindings {
    names: Vec<StrNo>,
    values: Vec<Option<Value>>,
    room: u32,
}

impl Model for Bindings {
    ghost use Rattle.frame_calls.specs.Binding.{Bound, bound_of, HasRoom};

    ghost Value = { Bound };

    ghost view = { bound_of };

    ghost invariant = { HasRoom };
}

/// The names with these numbers of the library's pool.
fn fill_names(numbers: &[u32], names: &mut Vec<StrNo>)
    requires { length numbers.now ≤ vec_capacity names.old }
    ensures names { names.new.items ≡ map (λ n. strs.Pool n) numbers.now }
    ensures room { vec_capacity names.old ≤ vec_capacity names.new }
{
    names.clear();
    for number in numbers {
        add(names, StrNo::Pool(*number));
    }
}

/// Makes the list one of `count` values that are empty.
fn fill_empty(count: usize, values: &mut Vec<Option<Value>>)
    requires { count ≤ vec_capacity values.old }
    ensures values { values.new.items ≡ replicate count None }
    ensures room { vec_capacity values.old ≤ vec_capacity values.new }
{
    values.clear();
    let _ = values.resize(count, None);
}

impl Bindings {
    /// Nothing is bound yet. `room` parameters fit. It takes all its memory here.
    pub fn new(alloc: Global, room: u32) -> Result<Bindings, NoMemory>
        ensures { IfOk result (λ b. b ≡ record { values = []; room = room }) }
    {
        let names = Vec::with_capacity(alloc, room as usize)?;
        let values = Vec::with_capacity(alloc, room as usize)?;
        Ok(Bindings {
            names,
            values,
            room,
        })
    }

    /// The values that were bound last, one for each parameter.
    pub(crate) fn bound(&self) -> &[Option<Value>]
        ensures { result.now ≡ self.now.values }
    {
        self.values.as_slice()
    }

    /// Binds operands to the parameters of a code, where the function has these defaults.
    pub(crate) fn bind<C: Constants>(
        &mut self,
        arena: &Arena,
        consts: &C,
        code: &FunctionCode<'_>,
        defaults: Value,
        operands: &Operands,
    ) -> Result<(), Fault>
        requires fits { length code.now.params.now ≤ self.old.room }
        requires few { length code.now.params.now < 2 ^ 32 }
        requires few_args { length operands.now.args < 2 ^ 32 }
        requires defaults { Knows C.Constants consts.now arena.now defaults }
        requires known { under C.Constants consts.now AreKnown arena.now.objects operands.now }
        requires all_told { TellsAll C.Constants consts.now arena.now }
        ensures bound { let see = sight C.Constants consts.now
            in IsBound see.texts see.tuples arena.now self.new.values result
            (λ w. bind_in w (map (name_text see.texts) (map (λ n. strs.Pool n) code.now.params.now)) code.now.given (see.value defaults)
            (map see.value operands.now.args) (map see.pair operands.now.keys)) }
        ensures known { under C.Constants consts.now IsKnownBound arena.now.objects self.new.values result }
        ensures count { length self.new.values ≡ length code.now.params.now }
        ensures room { self.new.room ≡ self.old.room }
    {
        let numbers = code.params;
        fill_names(numbers, &mut self.names);
        fill_empty(numbers.len(), &mut self.values);
        let params = Parameters {
            names: self.names.as_slice(),
            given: code.given,
            defaults,
        };
        bind(
            arena,
            consts,
            params,
            operands.positional(),
            operands.keywords(),
            self.values.as_mut_slice(),
        )
    }
}
