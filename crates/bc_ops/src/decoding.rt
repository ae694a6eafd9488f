//! Instructions read from bytes.

ghost use Rattle.std.specs.Prelude.{◌≡◌, ℕ, ◌+◌, ◌≤◌, ◌↔◌, List, ◌++◌, length, drop, IfOk, IsErrOf, Ok};
ghost use Rattle.bc_ops.specs.declared.instr.Instr.{Instr};
ghost use Rattle.bc_ops.specs.Code.{Spells, spelling, IsEncodable, BeginsOutside, BeginsUnknown, EndsInside, PassesForm};
ghost use Rattle.bc_ops.specs.Reading.{ReadsNumber, ReadsUnwind, ReadsOperand, Reads};

use crate::form::{Form, form_at};
use crate::instr::Instr;
use crate::offset::read_offset;
use crate::signed::read_signed;
use mpy_base::{VuintFault, read_vuint};
use thiserror::Error;

/// Why no instruction could be read.
#[derive(Clone, Copy, Debug, PartialEq, Eq, Error)]
pub enum CodeFault {
    /// No instruction begins with this byte.
    #[error("unknown instruction {0}")]
    UnknownOpcode(u8),
    /// An instruction that isn't supported begins with this byte.
    #[error("unsupported instruction {0}")]
    OutsideProfile(u8),
    /// The bytes end inside the instruction.
    #[error("the bytes end inside an instruction")]
    Truncated,
    /// Its operand is past its bounds.
    #[error("a bad operand")]
    BadNumber,
}

/// The counts of a call have sixteen bits together.
const MAX_COUNTS: u32 = 0xffff;

/// The number in front of the bytes, and how many of them it takes.
fn number(bytes: &[u8]) -> Result<(u32, usize), CodeFault>
    ensures { ReadsNumber bytes.now result }
{
    match read_vuint(bytes, 0) {
        Ok(found) => Ok(found),
        Err(VuintFault::Truncated) => Err(CodeFault::Truncated),
        Err(VuintFault::TooBig) => Err(CodeFault::BadNumber),
    }
}

/// An unwinding jump's offset and byte in front of the bytes, and how many of them they take.
fn unwind(bytes: &[u8]) -> Result<(Instr, usize), CodeFault>
    ensures { ReadsUnwind bytes.now result }
{
    let (offset, wide, len) = read_offset(bytes, true)?;
    if len == bytes.len() {
        return Err(CodeFault::Truncated);
    }
    let byte = bytes[len];
    Ok((Instr::Unwind { offset, wide, byte }, len + 1))
}

/// The instruction whose first byte, of this form, stands before the bytes, and how many of these it takes.
#[inline(always)]
fn operand(form: Form, first: u8, bytes: &[u8]) -> Result<(Instr, usize), CodeFault>
    ensures { ReadsOperand form first bytes.now result }
{
    match form {
        Form::Whole(instr) => Ok((instr, 0)),
        Form::Name(op) => {
            let (n, len) = number(bytes)?;
            Ok((Instr::Name(op, n), len))
        }
        Form::Number(op) => {
            let (n, len) = number(bytes)?;
            Ok((Instr::Num(op, n), len))
        }
        Form::Call(op) => {
            let (n, len) = number(bytes)?;
            if n > MAX_COUNTS {
                return Err(CodeFault::OutsideProfile(first));
            }
            Ok((Instr::Num(op, n), len))
        }
        Form::Signed => {
            let (n, len) = read_signed(bytes)?;
            Ok((Instr::Int(n), len))
        }
        Form::Offset { op, signed } => {
            let (offset, wide, len) = read_offset(bytes, signed)?;
            Ok((Instr::Jump { op, offset, wide }, len))
        }
        Form::Unwind => unwind(bytes),
        Form::Outside => Err(CodeFault::OutsideProfile(first)),
        Form::Unknown => Err(CodeFault::UnknownOpcode(first)),
    }
}

/// The instruction in front of the bytes, and how many of them it takes.
#[inline(always)]
fn decode_front(bytes: &[u8]) -> Result<(Instr, usize), CodeFault>
    ensures { Reads bytes.now result }
{
    match bytes {
        [] => Err(CodeFault::Truncated),
        [first, behind @ ..] => {
            let (instr, len) = operand(form_at(*first), *first, behind)?;
            Ok((instr, 1 + len))
        }
    }
}

/// Reads the instruction at `at`, and gives the place behind it.
#[inline(always)]
pub fn decode_at(code: &[u8], at: usize) -> Result<(Instr, usize), CodeFault>
    requires { at ≤ length code.now }

    // What is read is spelled there, and what is spelled there is read, whatever follows it.
    ensures found { IfOk result (λ found. (text rest : List ℕ) × Spells text found.0
        × (drop at code.now ≡ text ++ rest) × (found.1 ≡ at + length text)) }
    ensures only { (text rest : List ℕ) (instr : Instr) → Spells text instr
        → drop at code.now ≡ text ++ rest → result ≡ Ok (instr, at + length text) }

    // Each fault comes exactly there.
    ensures outside { (byte : ℕ) → IsErrOf result (CodeFault.OutsideProfile byte)
        ↔ BeginsOutside byte (drop at code.now) }
    ensures truncated { IsErrOf result CodeFault.Truncated ↔ EndsInside (drop at code.now) }
    ensures bad_number { IsErrOf result CodeFault.BadNumber ↔ PassesForm (drop at code.now) }
    ensures unknown { (byte : ℕ) → IsErrOf result (CodeFault.UnknownOpcode byte)
        ↔ BeginsUnknown byte (drop at code.now) }
{
    let (_, behind) = code.split_at(at);
    match decode_front(behind) {
        Ok((instr, len)) => Ok((instr, at + len)),
        Err(fault) => Err(fault),
    }
}

/// What is written for an instruction is read as that instruction, and nothing shorter is; what is read may be written;
/// and bytes begin with one instruction at most.
pub fn instruction_law()
    ensures spells { (instr : Instr) → IsEncodable instr → Spells (spelling instr) instr }
    ensures shortest { (text : List ℕ) (instr : Instr) → Spells text instr → length (spelling instr) ≤ length text }
    ensures encodable { (text : List ℕ) (instr : Instr) → Spells text instr → IsEncodable instr }
    ensures one_instruction { (a b x y : List ℕ) (m n : Instr) → Spells a m → Spells b n
        → a ++ x ≡ b ++ y → (a ≡ b) × (m ≡ n) }
{}
