//! Instructions written to bytes.

ghost use Rattle.std.specs.Prelude.{◌≡◌, List, [], ◌∷◌, ℕ, ◌++◌, OnOk, OnErr};
ghost use Rattle.bc_ops.specs.Code.{spelling, IsEncodable};

use crate::form::{Form, form_at};
use crate::instr::Instr;
use crate::offset::write_offset;
use crate::signed::write_signed;
use mpy_base::{NoMemory, write_vuint};

/// Adds the byte. An `Err` leaves `out` as it was.
fn push(out: &mut Vec<u8>, byte: u8) -> Result<(), NoMemory>
    ensures ok { OnOk result (out.new.items ≡ out.old.items ++ byte ∷ []) }
    ensures err { OnErr result (out.new.items ≡ out.old.items) }
{
    out.push(byte)?;
    Ok(())
}

/// Adds the bytes of the instruction, which may leave a front of them where memory isn't found.
fn spell(out: &mut Vec<u8>, instr: &Instr) -> Result<(), NoMemory>
    requires { IsEncodable instr.now }
    ensures ok { OnOk result (out.new.items ≡ out.old.items ++ spelling instr.now) }
    ensures err { OnErr result ((front : List ℕ) × (out.new.items ≡ out.old.items ++ front)) }
{
    match *instr {
        Instr::Plain(op) => push(out, op.code()),
        Instr::Name(op, n) => {
            push(out, op.code())?;
            write_vuint(out, n)
        }
        Instr::Num(op, n) => match form_at(op.code()) {
            Form::Whole(_) => push(out, op.code() + n as u8),
            _ => {
                push(out, op.code())?;
                write_vuint(out, n)
            }
        },
        Instr::Int(n) if -16 <= n && n < 48 => push(out, (n + 0x80) as u8),
        Instr::Int(n) => {
            push(out, 0x22)?;
            write_signed(out, n)
        }
        Instr::Jump { op, offset, wide } => {
            push(out, op.code())?;
            write_offset(out, op.has_signed_offset(), wide, offset)
        }
        Instr::Unwind { offset, wide, byte } => {
            push(out, 0x40)?;
            write_offset(out, true, wide, offset)?;
            push(out, byte)
        }
        Instr::Unary(op) => push(out, 0xd0 + op),
        Instr::Binary(op) => push(out, 0xd7 + op),
    }
}

/// Adds the bytes of the instruction. An `Err` leaves `out` as it was.
pub fn encode(out: &mut Vec<u8>, instr: &Instr) -> Result<(), NoMemory>
    requires { IsEncodable instr.now }
    ensures ok { OnOk result (out.new.items ≡ out.old.items ++ spelling instr.now) }
    ensures err { OnErr result (out.new.items ≡ out.old.items) }
{
    let start = out.len();
    let spelled = spell(out, instr);
    if spelled.is_err() {
        out.truncate(start);
    }
    spelled
}
