//! The source, piece by piece.

ghost use Rattle.std.specs.Prelude.{◌≡◌, ◌≤◌, ◌*◌, ◌++◌, decimal, IfOk, OnOk};
ghost use Rattle.run_commands.specs.Draws.{after, next};
ghost use Rattle.run_commands.specs.Source.{assignment, assignments, functions, calls, stress_text};

use crate::draws::Draws;
use itoa::Buffer;
use mpy_base::NoMemory;
use std::alloc::Global;

/// How many assignments a function has at most.
const MOST: u32 = 500;

/// Puts a number between two pieces of text.
fn put_number(text: &mut Vec<u8>, front: &[u8], number: u32, back: &[u8]) -> Result<(), NoMemory>
    ensures { OnOk result (text.new.items ≡ text.old.items ++ (front.now ++ (decimal number ++ back.now))) }
{
    let mut buffer = Buffer::new();
    text.extend_from_slice(front)?;
    text.extend_from_slice(buffer.format(number).as_bytes())?;
    text.extend_from_slice(back)?;
    Ok(())
}

/// Puts an assignment, whose key and value are drawn.
fn put_assignment(text: &mut Vec<u8>, draws: &mut Draws) -> Result<(), NoMemory>
    ensures text { OnOk result (text.new.items ≡ text.old.items ++ assignment draws.old.state) }
    ensures state { OnOk result (draws.new.state ≡ next (next draws.old.state)) }
{
    let key = draws.draw();
    put_number(text, b"    d[", key, b"] = ")?;
    let value = draws.draw();
    put_number(text, b"", value, b"\n")
}

fn put_assignments(text: &mut Vec<u8>, draws: &mut Draws, count: u32) -> Result<(), NoMemory>
    ensures text { OnOk result (text.new.items ≡ text.old.items ++ assignments draws.old.state count) }
    ensures state { OnOk result (draws.new.state ≡ after draws.old.state (2 * count)) }
{
    for _ in 0..count {
        put_assignment(text, draws)?;
    }
    Ok(())
}

/// Puts functions, which share this many assignments.
fn put_functions(
    text: &mut Vec<u8>,
    draws: &mut Draws,
    many: u32,
    count: u32,
) -> Result<(), NoMemory>
    ensures { OnOk result (text.new.items ≡ text.old.items ++ functions many draws.old.state 0 count) }
{
    let mut left = count;
    for number in 0..many {
        let here = left.min(MOST);
        put_number(text, b"def f", number, b"(d):\n")?;
        put_assignments(text, draws, here)?;
        left -= here;
    }
    Ok(())
}

fn put_calls(text: &mut Vec<u8>, many: u32) -> Result<(), NoMemory>
    ensures { OnOk result (text.new.items ≡ text.old.items ++ calls many 0) }
{
    for number in 0..many {
        put_number(text, b"f", number, b"(d)\n")?;
    }
    Ok(())
}

/// A program of `count` assignments to a dict, in functions of up to 500, whose keys and values are drawn from the seed.
/// It prints how many keys the dict has then, and the sum of each key times its value. Its length is linear in the count.
pub fn stress_source(alloc: Global, seed: u32, count: u32) -> Result<Vec<u8>, NoMemory>
    requires { count ≤ 20000 }
    ensures { IfOk result (λ source. source.items ≡ stress_text seed count) }
{
    let mut text = Vec::from_slice(alloc, b"d = {}\n")?;
    let mut draws = Draws { state: seed };
    let many = (count + 499) / 500;
    put_functions(&mut text, &mut draws, many, count)?;
    put_calls(&mut text, many)?;
    text.extend_from_slice(b"s = 0\nfor k in d.keys():\n    s = s + k * d[k]\nprint(len(d), s)\n")?;
    Ok(text)
}
