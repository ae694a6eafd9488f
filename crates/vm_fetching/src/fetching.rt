//! The instruction at an offset.

ghost use Rattle.std.specs.Prelude.{◌≡◌, ℕ, suc, ◌<◌, ◌^◌, Some, IsSome, length};
ghost use Rattle.frame_moves.specs.bc_ops.Code.{TakesNumber};
ghost use Rattle.frame_moves.specs.bc_ops.Table.{code_of, form_of};
ghost use Rattle.bc_rows.specs.mpy_tree.Raw.{Module};
ghost use Rattle.bc_rows.specs.bc_library.Constants.{object_value};
ghost use Rattle.bc_rows.specs.bc_library.Shelf.{module_at};
ghost use Rattle.frame_moves.specs.bc_machine.Library.{Code};
ghost use Rattle.frame_moves.specs.bc_labels.Positions.{CodeList, Listed, Starts, Reads, position_in};
ghost use Rattle.bc_rows.specs.Runs.{RunsAs};
ghost use Rattle.frame_moves.specs.Shown.{Tables};
ghost use Rattle.vm_fetching.specs.Fetches.{AreOf, IsVerifiedRow, Fetches};
ghost use Rattle.vm_fetching.specs.Numbered.{IsNumbered};
ghost use Rattle.vm_fetching.specs.Shows.{Shows};

use crate::instruction::{Action, Fetched, Instruction, Step};
use crate::looking::{object_of, text_of};
use crate::operations::{BuildOp, CallOp, LocalOp, MakeOp, jumping, named, plain};
use bc_labels::jump_target;
use bc_ops::{Instr, Op, decode_at};
use bc_rows::{Library, Row};

/// The instruction that starts at the offset, and the offset that it ends at.
#[inline(always)]
fn read_at(bytes: &[u8], at: u32) -> (Instr, u32)
    requires short { length bytes.now < 2 ^ 32 }
    requires starts { (l : CodeList) × Listed bytes.now l × Starts l.offsets at }
    ensures reads { (l : CodeList) → Listed bytes.now l → Starts l.offsets at → Reads l at result.0 result.1 }
    ensures next { (l : CodeList) → Listed bytes.now l → Starts l.offsets at → position_in l.offsets result.1 ≡ suc (position_in l.offsets at) }
    ensures behind { at < result.1 }
{
    let Ok((instr, end)) = decode_at(bytes, at as usize) else {
        unreachable!();
    };
    (instr, end as u32)
}

/// An operation with a number, by what carries it out, or the object that has the number.
#[inline(always)]
fn numbered(library: &Library, module_number: u32, op: Op, n: u32) -> Instruction
    requires form { TakesNumber (form_of (code_of op)) op n }
    requires there { op ≡ Op.LoadConstObj → IsSome (object_value library.now module_number n) }
    ensures { IsNumbered library.now module_number n op result }
{
    match op {
        Op::LoadFast => Instruction::Acts(Action::Stays(Step::Local(LocalOp::LoadFast, n))),
        Op::LoadFastN => Instruction::Acts(Action::Stays(Step::Local(LocalOp::LoadFastN, n))),
        Op::StoreFast => Instruction::Acts(Action::Stays(Step::Local(LocalOp::StoreFast, n))),
        Op::StoreFastN => Instruction::Acts(Action::Stays(Step::Local(LocalOp::StoreFastN, n))),
        Op::DeleteFast => Instruction::Acts(Action::Stays(Step::Local(LocalOp::DeleteFast, n))),
        Op::BuildTuple => Instruction::Acts(Action::Stays(Step::Build(BuildOp::BuildTuple, n))),
        Op::BuildList => Instruction::Acts(Action::Stays(Step::Build(BuildOp::BuildList, n))),
        Op::BuildMap => Instruction::Acts(Action::Stays(Step::Build(BuildOp::BuildMap, n))),
        Op::UnpackSequence => Instruction::Acts(Action::Stays(Step::Build(
            BuildOp::UnpackSequence,
            n,
        ))),
        Op::MakeFunction => Instruction::Acts(Action::Makes(MakeOp::MakeFunction, n)),
        Op::MakeFunctionDefargs => Instruction::Acts(Action::Makes(MakeOp::MakeFunctionDefargs, n)),
        Op::CallFunction => Instruction::Calls(CallOp::CallFunction, n),
        Op::CallMethod => Instruction::Calls(CallOp::CallMethod, n),
        _ => {
            let v = object_of(library, module_number, n);
            Instruction::Acts(Action::Stays(Step::Object(v)))
        }
    }
}

/// The instruction with the numbers of its library.
#[inline(always)]
fn shown(
    library: &Library,
    module_number: u32,
    row: &Row<'_>,
    at: u32,
    instr: Instr,
    end: u32,
) -> Instruction
    requires row { IsVerifiedRow library.now module_number row.now }
    requires reads { (l : CodeList) × Listed row.now.instructions.now l × Starts l.offsets at × Reads l at instr end }
    requires behind { at < end }
    ensures { (tables : Tables) (m : Module) (l : CodeList) → AreOf library.now tables → module_at library.now module_number ≡ Some m
        → Listed row.now.instructions.now l → Starts l.offsets at → Reads l at instr end
        → Shows library.now m tables row.now l end instr result }
{
    match instr {
        Instr::Plain(op) => Instruction::Acts(plain(op)),
        Instr::Name(op, n) => {
            let text = text_of(library, module_number, n);
            Instruction::Acts(named(op, text))
        }
        Instr::Num(op, n) => numbered(library, module_number, op, n),
        Instr::Int(n) => Instruction::Acts(Action::Stays(Step::Int(n))),
        Instr::Jump {
            op,
            offset,
            wide: _,
        } => {
            let target = jump_target(end, offset);
            Instruction::Acts(Action::Stays(jumping(op, target)))
        }
        Instr::Unwind {
            offset,
            wide: _,
            byte,
        } => {
            let target = jump_target(end - 1, offset);
            Instruction::Acts(Action::Stays(Step::Unwind { target, byte }))
        }
        Instr::Unary(n) => Instruction::Acts(Action::Stays(Step::Unary(n))),
        Instr::Binary(n) => Instruction::Binary(n),
    }
}

/// The instruction that starts at the offset of the row. In the machine's code that the row runs as, it stands at the position
/// of the offset. It takes no memory.
#[inline(always)]
pub fn fetch(library: &Library, module_number: u32, row: &Row<'_>, offset: u32) -> Fetched
    requires row { IsVerifiedRow library.now module_number row.now }
    requires starts { (l : CodeList) × Listed row.now.instructions.now l × Starts l.offsets offset }
    ensures { (tables : Tables) (m : Module) (code : Code) (l : CodeList) → AreOf library.now tables → module_at library.now module_number ≡ Some m
        → RunsAs library.now m row.now code → Listed row.now.instructions.now l → Starts l.offsets offset
        → Fetches library.now tables row.now l code offset result }
{
    let (instr, end) = read_at(row.instructions, offset);
    Fetched {
        instruction: shown(library, module_number, row, offset, instr, end),
        end,
    }
}
