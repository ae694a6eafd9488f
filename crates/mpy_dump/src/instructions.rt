//! The lines of a code's instructions.

ghost use Rattle.std.specs.Prelude.{◌≡◌, ◌++◌, ◌≤◌, ◌+◌, ℕ, List, OnOk, All, length, codes, decimal};
ghost use Rattle.std.specs.Fmt.{signed_decimal};
ghost use Rattle.mpy_tree.specs.bc_ops.Listing.{Piece, IsPiece, joined};
ghost use Rattle.mpy_tree.specs.bc_ops.declared.instr.Instr.{Instr};
ghost use Rattle.mpy_dump.specs.Instructions as specs;
ghost use Rattle.mpy_dump.specs.Pen.{Gathers};
ghost use Rattle.mpy_dump.specs.Reads.{Stands, IsRead, GathersEnd};
ghost use Rattle.mpy_dump.specs.Short.{IsHead, AreTails};
ghost use Rattle.mpy_dump.specs.Puts.{Puts};

use crate::head::{Head, count_up, head_of, set_line};
use crate::jumps::jump_end;
use crate::names::put_name_at;
use crate::operations::{binary_name, binary_sign, operation_name, unary_sign};
use crate::pen::{Pen, hand_over, make_room};
use crate::put::{digits, put, put_all, put_number};
use crate::tails::{Tails, pair_at};
use bc_ops::{Instr, decode_at};
use bc_prelude::Place;
use itoa::Buffer;
use mpy_base::limits::MAX_CODE_BYTES;
use mpy_io::{Failed, Sink};
use mpy_tree::RawModule;

/// The name of an instruction, as it is listed.
fn instr_name(instr: Instr) -> &'static [u8]
    ensures { result.now ≡ specs.instr_name instr }
{
    match instr {
        Instr::Plain(op) | Instr::Name(op, _) | Instr::Num(op, _) => operation_name(op),
        Instr::Int(_) => b"LOAD_CONST_SMALL_INT",
        Instr::Jump { op, .. } => operation_name(op),
        Instr::Unwind { .. } => b"UNWIND_JUMP",
        Instr::Unary(_) => b"UNARY_OP",
        Instr::Binary(op) => binary_name(op),
    }
}

/// Puts a blank and the name of number `n`, or the number where it leads to no text.
fn put_spaced_name<S: Sink>(out: &mut S, module: &RawModule, n: u32) -> Result<(), Failed>
    ensures { Puts S.told S.count out.old out.new (codes " " ++ specs.name_text_at module.now n) result }
{
    put(out, b" ")?;
    put_name_at(out, module, n)
}

/// Puts a target and a byte, a blank before each.
fn put_two<S: Sink>(out: &mut S, target: i64, byte: u8) -> Result<(), Failed>
    ensures { Puts S.told S.count out.old out.new
        (codes " " ++ (signed_decimal target ++ (codes " " ++ decimal byte))) result }
{
    let (mut first, mut second) = (Buffer::new(), Buffer::new());
    put_all(
        out,
        &[
            b" ",
            digits(&mut first, target),
            b" ",
            digits(&mut second, byte),
        ],
    )
}

/// Puts the operand of an instruction that ends at the offset.
fn put_operand<S: Sink>(
    out: &mut S,
    module: &RawModule,
    end: usize,
    instr: Instr,
) -> Result<(), Failed>
    requires { end ≤ MAX_CODE_BYTES }
    ensures { Puts S.told S.count out.old out.new (specs.operand_text module.now end instr) result }
{
    match instr {
        Instr::Plain(_) => put(out, b""),
        Instr::Name(_, n) => put_spaced_name(out, module, n),
        Instr::Num(_, n) => put_number(out, n),
        Instr::Int(n) => put_number(out, n),
        Instr::Jump { offset, .. } => put_number(out, end as i64 + i64::from(offset)),
        Instr::Unwind { offset, byte, .. } => {
            let behind = end.saturating_sub(1) as i64;
            put_two(out, behind + i64::from(offset), byte)
        }
        Instr::Unary(op) => put_all(out, &[b" ", unary_sign(op)]),
        Instr::Binary(op) => put_all(out, &[b" ", binary_sign(op)]),
    }
}

/// Puts the name and the operand of an instruction that ends at the offset, and ends its line.
pub(crate) fn put_tail<S: Sink>(
    out: &mut S,
    module: &RawModule,
    end: usize,
    instr: Instr,
) -> Result<(), Failed>
    requires { end ≤ MAX_CODE_BYTES }
    ensures { Puts S.told S.count out.old out.new (specs.instr_tail module.now end instr) result }
{
    put(out, instr_name(instr))?;
    put_operand(out, module, end, instr)?;
    put(out, b"\n")
}

/// Gathers the same, or puts it behind what is gathered.
fn gather_tail<S: Sink>(
    out: &mut S,
    pen: &mut Pen,
    module: &RawModule,
    end: usize,
    instr: Instr,
) -> Result<(), Failed>
    requires { end ≤ MAX_CODE_BYTES }
    ensures { Gathers S.told S.count out.old out.new pen.old.text (specs.instr_tail module.now end instr)
        pen.new.text result }
{
    let mark = pen.len();
    if put_tail(pen, module, end, instr).is_ok() {
        return Ok(());
    }
    pen.cut(mark);
    hand_over(out, pen)?;
    put_tail(out, module, end, instr)
}

/// Gathers the same; the end of a jump's line mostly in two parts.
#[inline(always)]
fn gather_instr<S: Sink>(
    out: &mut S,
    pen: &mut Pen,
    module: &RawModule,
    end: usize,
    instr: Instr,
) -> Result<(), Failed>
    requires room { length pen.old.text + 64 ≤ 4096 }
    requires short { end ≤ MAX_CODE_BYTES }
    ensures { Gathers S.told S.count out.old out.new pen.old.text (specs.instr_tail module.now end instr)
        pen.new.text result }
{
    let Some(((name, len), target)) = jump_end(end, instr) else {
        return gather_tail(out, pen, module, end, instr);
    };
    pen.add_front(name, len);
    pen.add_number(target);
    Ok(())
}

/// Gathers the end of the line of the instruction at `at`, which is moved behind it.
#[inline(never)]
fn gather_read<S: Sink>(
    out: &mut S,
    pen: &mut Pen,
    module: &RawModule,
    code: &[u8],
    at: &mut usize,
) -> Result<(), Failed>
    requires decodes { Stands code.now at.old }
    requires room { length pen.old.text + 64 ≤ 4096 }
    requires short { length code.now ≤ MAX_CODE_BYTES }
    ensures { GathersEnd S.told S.count out.old out.new module.now code.now at.old at.new pen.old.text pen.new.text result }
{
    let Ok((instr, end)) = decode_at(code, *at) else {
        unreachable!();
    };
    *at = end;
    gather_instr(out, pen, module, end, instr)
}

/// Gathers the end of the line of the instruction at `at`, which is moved behind it: that which is kept for its two bytes, where one is.
#[inline(always)]
fn gather_pair<S: Sink>(
    out: &mut S,
    pen: &mut Pen,
    module: &RawModule,
    tails: &Tails,
    code: &[u8],
    at: &mut usize,
) -> Result<(), Failed>
    requires tails { AreTails module.now tails.now }
    requires decodes { Stands code.now at.old }
    requires room { length pen.old.text + 64 ≤ 4096 }
    requires short { length code.now ≤ MAX_CODE_BYTES }
    ensures { GathersEnd S.told S.count out.old out.new module.now code.now at.old at.new pen.old.text pen.new.text result }
{
    let (_, bytes) = code.split_at(*at);
    let Some(place) = pair_at(bytes) else {
        return gather_read(out, pen, module, code, at);
    };
    let tail = &tails.pairs[place];
    if tail.len == 0 {
        return gather_read(out, pen, module, code, at);
    }
    pen.add(tail);
    *at += 2;
    Ok(())
}

/// Gathers the end of the line of the instruction at `at`, which is moved behind it: that which is kept for its bytes, where one is.
#[inline(always)]
fn gather_end<S: Sink>(
    out: &mut S,
    pen: &mut Pen,
    module: &RawModule,
    tails: &Tails,
    code: &[u8],
    at: &mut usize,
) -> Result<(), Failed>
    requires tails { AreTails module.now tails.now }
    requires decodes { Stands code.now at.old }
    requires room { length pen.old.text + 64 ≤ 4096 }
    requires short { length code.now ≤ MAX_CODE_BYTES }
    ensures { GathersEnd S.told S.count out.old out.new module.now code.now at.old at.new pen.old.text pen.new.text result }
{
    let tail = &tails.singles[usize::from(code[*at])];
    if tail.len == 0 {
        return gather_pair(out, pen, module, tails, code, at);
    }
    pen.add(tail);
    *at += 1;
    Ok(())
}

/// Gathers the line of the instruction at `at`, which is moved behind it.
#[tactic(none)]
#[inline(always)]
fn gather_line<S: Sink>(
    out: &mut S,
    pen: &mut Pen,
    module: &RawModule,
    tails: &Tails,
    head: &Head,
    code: &[u8],
    at: &mut usize,
) -> Result<(), Failed>
    requires tails { AreTails module.now tails.now }
    requires head { IsHead at.old head.now }
    requires decodes { Stands code.now at.old }
    requires short { length code.now ≤ MAX_CODE_BYTES }
    ensures { (end : ℕ) × (instr : Instr) × IsRead code.now at.old end instr × OnOk result (at.new ≡ end)
        × Gathers S.told S.count out.old out.new pen.old.text
        (specs.instr_line module.now at.old head.now.line end instr) pen.new.text result }
{
    make_room(out, pen)?;
    pen.add_head(head);
    gather_end(out, pen, module, tails, code, at)
}

/// Puts a line for each instruction of a code. The pen is used for that, and left empty.
#[tactic(none)]
pub(crate) fn put_instrs<S: Sink>(
    out: &mut S,
    pen: &mut Pen,
    module: &RawModule,
    tails: &Tails,
    table: &[u8],
    code: &[u8],
) -> Result<(), Failed>
    requires tails { AreTails module.now tails.now }
    requires decodes { (pieces : List Piece) × All IsPiece pieces × (code.now ≡ joined pieces) }
    requires short { length table.now + length code.now ≤ MAX_CODE_BYTES }
    ensures { (pieces : List Piece) × All IsPiece pieces × (code.now ≡ joined pieces)
        × Puts S.told S.count out.old out.new (specs.instr_lines module.now table.now 0 pieces) result }
{
    pen.cut(0);
    let mut place = Place::start();
    let mut head = head_of(0, place.line);
    let mut at = 0;
    while at < code.len() {
        place = place.advance(table, at as u32);
        set_line(&mut head, at as u32, place.line);
        let from = at;
        gather_line(out, pen, module, tails, &head, code, &mut at)?;
        count_up(&mut head, from as u32, (at - from) as u32);
    }
    hand_over(out, pen)
}
