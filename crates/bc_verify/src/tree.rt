//! The codes of a module in preorder.

ghost use Rattle.std.specs.Prelude.{◌≡◌, ℕ, List, [], ◌∷◌, length, IfOk, IfSome, IfNone, min, ◌-◌, ◌^◌};
ghost use Rattle.mpy_tree.specs.Codes.{codes_to};
ghost use Rattle.mpy_tree.specs.File.{IsCode};
ghost use Rattle.bc_verify.specs.Verified.{AreVerified, IsTreeFault};

use crate::code::code_fault;
use crate::fault::Rule;
use mpy_base::NoMemory;
use mpy_tree::{RawCode, RawModule};
use std::alloc::Global;

/// A rule that is broken, and where from a code on.
#[derive(Drop)]
pub(crate) struct TreeFault {
    pub rule: Rule,
    pub path: Vec<usize>,
    pub offset: usize,
}

/// The fault as it is told one level above, where the code is the child with that place.
pub(crate) fn above(fault: TreeFault, place: usize) -> Result<TreeFault, NoMemory>
    ensures { IfOk result (λ f. (f.rule ≡ fault.rule) × (f.path.items ≡ place ∷ fault.path.items) × (f.offset ≡ fault.offset)) }
{
    let TreeFault {
        rule,
        mut path,
        offset,
    } = fault;
    path.insert(0, place)?;
    Ok(TreeFault { rule, path, offset })
}

/// The first fault of a code and of those in it, in `levels` levels of codes at most.
pub(crate) fn tree_fault(
    alloc: Global,
    module: &RawModule,
    code: &RawCode,
    levels: usize,
) -> Result<Option<TreeFault>, NoMemory>
    requires { (texts : ℕ) × (text : List ℕ) × IsCode levels texts text code.now }
    ensures some { IfOk result (λ o. IfSome o (λ f. IsTreeFault module.now code.now f.rule f.path.items f.offset)) }
    ensures none { IfOk result (λ o. IfNone o (AreVerified module.now code.now)) }
{
    if let Some(fault) = code_fault(alloc, module, code)? {
        return Ok(Some(TreeFault {
            rule: fault.rule,
            path: Vec::new(alloc),
            offset: fault.offset,
        }));
    }
    for (place, child) in code.children.as_slice().iter().enumerate() {
        if let Some(fault) = tree_fault(alloc, module, child, levels - 1)? {
            return Ok(Some(above(fault, place)?));
        }
    }
    Ok(None)
}

/// How many codes there are in the first `levels` levels, or 2^64 - 1 where there are more.
pub fn count(code: &RawCode, levels: usize) -> u64
    ensures { result ≡ min (length (codes_to levels [] 0 code.now)) (2 ^ 64 - 1) }
{
    if levels == 0 {
        return 0;
    }
    let mut codes = 1u64;
    for child in code.children.as_slice() {
        codes = codes.saturating_add(count(child, levels - 1));
    }
    codes
}
