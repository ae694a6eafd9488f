//! One code: what its bytes say, and its first fault.

ghost use Rattle.std.specs.Prelude.{◌≡◌, ◌≤◌, ℕ, List, length, IfOk, IfSome, IfNone, slice_index};
ghost use Rattle.mpy_tree.specs.declared.raw.RawCode.{out-RawCode};
ghost use Rattle.mpy_tree.specs.File.{IsOwnCode};
ghost use Rattle.bc_verify.specs.Body.{Body, Says, body_of};
ghost use Rattle.bc_verify.specs.Verified.{IsVerifiedCode, IsFirstIn, IsCodeFault, TellsLeast};
ghost use Rattle.bc_verify.specs.Rules.{KeepsAll};
ghost use Rattle.mpy_tree.specs.Raw.{Module};
ghost use Rattle.bc_refusals.specs.bc_flow.Verified.{FirstFault, Verified};
ghost use Rattle.bc_refusals.specs.bc_flow.Code.{code_of};

use crate::fault::Rule;
use crate::instruction::{Broken, first_broken, of_flow_rule};
use bc_flow::{Code, Fault, State, flow, items_of};
use bc_refusals::{Judgement, judge};
use mpy_base::NoMemory;
use mpy_base::limits::MAX_CODE_BYTES;
use mpy_tree::{RawCode, RawModule, parts_of};
use std::alloc::Global;

/// A code, and the offset that each of its instructions starts at.
#[derive(Drop)]
pub(crate) struct Decoded {
    pub code: Code,
    pub offsets: Vec<usize>,
}

/// What a code's own bytes say.
pub(crate) fn read_code(alloc: Global, bytes: &[u8]) -> Result<Decoded, NoMemory>
    requires says { (body : Body) × (offsets : List ℕ) × Says bytes.now body offsets }
    requires short { length bytes.now ≤ MAX_CODE_BYTES }
    ensures { IfOk result (λ d. Says bytes.now (body_of d.code) d.offsets.items) }
{
    let parts = parts_of(bytes);
    let listed = items_of(alloc, parts.instructions)?;
    Ok(Decoded {
        code: Code {
            items: listed.items,
            n_state: parts.prelude.n_state as usize,
            n_exc: parts.prelude.n_exc as usize,
            arguments: parts.prelude.args as usize,
        },
        offsets: listed.offsets,
    })
}

/// The first fault of a code's flow. Most codes have rows that show what it is, or that there is none, and that are found sooner than the
/// flow ends.
fn flow_fault(alloc: Global, code: &Code) -> Result<Option<Fault>, NoMemory>
    ensures some { IfOk result (λ o. IfSome o (λ f. FirstFault (code_of code.now) f.rule f.position)) }
    ensures none { IfOk result (λ o. IfNone o (Verified (code_of code.now))) }
{
    match judge(alloc, code)? {
        Judgement::Verified => Ok(None),
        Judgement::Refused(fault) => Ok(Some(fault)),
        Judgement::Unknown => match flow(alloc, code)? {
            Ok(_) => Ok(None),
            Err(fault) => Ok(Some(fault)),
        },
    }
}

/// The first fault of a code with `children` children, by its instructions and then by its flow.
fn first_in(
    alloc: Global,
    module: &RawModule,
    children: usize,
    code: &Code,
) -> Result<Option<Broken>, NoMemory>
    ensures some { IfOk result (λ o. IfSome o (λ b. IsFirstIn module.now children (body_of code.now) b.rule b.position)) }
    ensures keeps { IfOk result (λ o. IfNone o (KeepsAll module.now children (body_of code.now))) }
    ensures verified { IfOk result (λ o. IfNone o (Verified (code_of code.now))) }
{
    if let Some(broken) = first_broken(module, children, code) {
        return Ok(Some(broken));
    }
    match flow_fault(alloc, code)? {
        None => Ok(None),
        Some(fault) => Ok(Some(Broken {
            rule: of_flow_rule(fault.rule),
            position: fault.position,
        })),
    }
}

/// The offset of a position, 0 where the code has no instruction.
fn offset_of(offsets: &[usize], position: usize) -> usize
    ensures { result ≡ slice_index offsets.now position }
{
    if position < offsets.len() {
        offsets[position]
    } else {
        0
    }
}

/// A rule that a code breaks, and the offset where.
#[derive(Clone, Copy)]
pub(crate) struct CodeFault {
    pub rule: Rule,
    pub offset: usize,
}

/// The first fault of a code of the module.
pub(crate) fn code_fault(
    alloc: Global,
    module: &RawModule,
    code: &RawCode,
) -> Result<Option<CodeFault>, NoMemory>
    requires own { (texts : ℕ) × IsOwnCode texts (out-RawCode code.now).bytes }
    requires short { length (out-RawCode code.now).bytes ≤ MAX_CODE_BYTES }
    ensures some { IfOk result (λ o. IfSome o (λ f. IsCodeFault module.now code.now f.rule f.offset)) }
    ensures none { IfOk result (λ o. IfNone o (IsVerifiedCode module.now code.now)) }
{
    let decoded = read_code(alloc, code.bytes.bytes())?;
    let children = code.children.len();
    match first_in(alloc, module, children, &decoded.code)? {
        None => Ok(None),
        Some(broken) => Ok(Some(CodeFault {
            rule: broken.rule,
            offset: offset_of(&decoded.offsets, broken.position),
        })),
    }
}

/// The slots and handler entries at each position of a verified code: wherever some have a slot that may be a value or a
/// cause, these do.
pub fn shapes(alloc: Global, code: &RawCode) -> Result<Vec<State>, NoMemory>
    requires verified { (m : Module) × IsVerifiedCode m code.now }
    requires short { length (out-RawCode code.now).bytes ≤ MAX_CODE_BYTES }
    ensures { IfOk result (λ v. TellsLeast code.now v.items) }
{
    let decoded = read_code(alloc, code.bytes.bytes())?;
    match flow(alloc, &decoded.code)? {
        Ok(states) => Ok(states),
        Err(_) => unreachable!(),
    }
}
