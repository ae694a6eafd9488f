//! How the lines of instructions of one byte and of two end, which is the same wherever they stand.

ghost use Rattle.std.specs.Prelude.{◌≡◌, ◌<◌, ◌++◌, ℕ, List, MatchOption};
ghost use Rattle.mpy_dump.specs.Instructions.{instr_tail};
ghost use Rattle.mpy_dump.specs.Short.{short_text, two_bytes, IsTail, AreSingles, ArePairs, AreTails};

use crate::instructions::put_tail;
use crate::pen::Pen;
use crate::short::{SHORT_BYTES, Short};
use bc_ops::{Instr, decode_at};
use mpy_tree::RawModule;

/// How many bytes there are.
const BYTES: usize = 256;

/// The lowest first byte of an instruction whose operand is a number. There are `FIRSTS` of them, one after another.
const FIRST: usize = 16;

/// How many first bytes there are of instructions whose operand is a number.
const FIRSTS: usize = 40;

/// How many numbers have one byte.
const NUMBERS: usize = 128;

/// How many pairs there are of a first byte and a number.
const PAIRS: usize = FIRSTS * NUMBERS;

/// How many numbers are tried at least: locals and counts are mostly smaller.
const FEW: usize = 16;

/// An end for each byte.
type Singles = [Short; BYTES];

/// An end for each pair of a first byte and a number.
type Pairs = [Short; PAIRS];

/// The ends; an empty one where there is none.
#[derive(Drop)]
pub(crate) struct Tails {
    /// By the byte.
    pub singles: Singles,
    /// By both bytes.
    pub pairs: Pairs,
}

/// The end of the instruction's lines, where it is short and no jump.
fn short_tail(pen: &mut Pen, module: &RawModule, instr: Instr) -> Short
    ensures { 0 < result.len → (end : ℕ) → short_text result ≡ instr_tail module.now end instr }
{
    if matches!(instr, Instr::Jump { .. } | Instr::Unwind { .. }) {
        return Short::new();
    }
    let mut tail = Short::new();
    pen.cut(0);
    if put_tail(pen, module, 0, instr).is_ok() && pen.len() <= SHORT_BYTES {
        tail.add(pen.text());
    }
    tail
}

/// The end of the line of the instruction that these bytes are; an empty one where they are none, or it is a jump or long.
fn tail_of(pen: &mut Pen, module: &RawModule, bytes: &[u8]) -> Short
    ensures { IsTail module.now bytes.now result }
{
    match decode_at(bytes, 0) {
        Ok((instr, end)) if end == bytes.len() => short_tail(pen, module, instr),
        _ => Short::new(),
    }
}

/// The ends of the instructions of one byte, by the byte.
fn singles_of(pen: &mut Pen, module: &RawModule) -> Singles
    ensures { AreSingles module.now result }
{
    let mut singles = [Short::new(); BYTES];
    for byte in 0..BYTES {
        singles[byte] = tail_of(pen, module, &[byte as u8]);
    }
    singles
}

/// The end of the pair at the place, where its number is below `tried`; else an empty one.
fn pair_tail(pen: &mut Pen, module: &RawModule, place: usize, tried: usize) -> Short
    requires { place < 5120 }
    ensures { IsTail module.now (two_bytes place) result }
{
    let (first, number) = (FIRST + place / NUMBERS, place % NUMBERS);
    if number < tried {
        tail_of(pen, module, &[first as u8, number as u8])
    } else {
        Short::new()
    }
}

/// The ends of the instructions of two bytes whose number is one of a name, or small, by both bytes.
fn pairs_of(pen: &mut Pen, module: &RawModule) -> Pairs
    ensures { ArePairs module.now result }
{
    let tried = module.qstrs().len().max(FEW);
    let mut pairs = [Short::new(); PAIRS];
    for place in 0..PAIRS {
        pairs[place] = pair_tail(pen, module, place, tried);
    }
    pairs
}

/// The ends of the instructions of one byte, and of those of two whose number is one of a name, or small.
pub(crate) fn tails_of(pen: &mut Pen, module: &RawModule) -> Tails
    ensures { AreTails module.now result }
{
    let singles = singles_of(pen, module);
    let pairs = pairs_of(pen, module);
    Tails { singles, pairs }
}

/// Where the pair in front stands among all.
#[inline(always)]
pub(crate) fn pair_at(bytes: &[u8]) -> Option<usize>
    ensures { MatchOption result (Unit {0}) (λ place. (place < 5120) × (behind : List ℕ) × (bytes.now ≡ two_bytes place ++ behind)) }
{
    let [first, number, ..] = bytes else {
        return None;
    };
    let (first, number) = (usize::from(*first), usize::from(*number));
    if first < FIRST || first >= FIRST + FIRSTS || number >= NUMBERS {
        return None;
    }
    Some(NUMBERS * (first - FIRST) + number)
}
