//! Verified modules, and the verifier itself.

ghost use Rattle.std.specs.Prelude.{◌≡◌, IfOk, IfErr, OnOk, IfSome, IfNone, ℕ, List, Some, ◌≤◌, length, min, ◌-◌, ◌^◌};
ghost use Rattle.mpy_base.specs.declared.refused.Refused.TheVariants as refused;
ghost use Rattle.mpy_tree.specs.declared.raw.RawCode.{RawCode, out-RawCode};
ghost use Rattle.mpy_tree.specs.File.{IsModule};
ghost use Rattle.mpy_tree.specs.Raw.{Module};
ghost use Rattle.bc_refusals.specs.bc_flow.Verified.{Decides};
ghost use Rattle.bc_verify.specs.Body.{Body, flow_of};
ghost use Rattle.mpy_tree.specs.Codes.{code_at, codes_of};
ghost use Rattle.bc_verify.specs.declared.fault.VerifyFault.{VerifyFault};
ghost use Rattle.bc_verify.specs.Verified.{IsVerified, IsFirstFault};

use crate::fault::VerifyFault;
use crate::tree::{above, count, tree_fault};
use mpy_base::limits::{MAX_CODE_BYTES, MAX_DEPTH};
use mpy_base::{Items, NoMemory, Refused};
use mpy_tree::{RawModule, module_law};
use std::alloc::Global;
use std::marker::Model;

/// A module that is verified. `verify` makes one after its check, and `known_verified` where it is known before.
#[derive(Drop)]
pub struct Verified {
    module: RawModule,
}

impl Model for Verified {
    ghost use Rattle.std.specs.Coded.{codes};
    ghost use Rattle.mpy_tree.specs.contracts.module.Constant as constants;
    ghost use Rattle.mpy_tree.specs.contracts.raw.RawCode as raw_codes;
    ghost use Rattle.mpy_tree.specs.Raw.{Module};
    ghost use Rattle.bc_verify.specs.Verified.{IsVerified};

    ghost Value = { Module };

    ghost coded = { Prim.hlevel (codes, constants.the_row.coded, raw_codes.the_row.coded) };

    ghost view = { λ v. v.module };

    ghost invariant = { λ v. IsVerified v.module };
}

impl Verified {
    /// The module, lent for reading.
    pub fn module(&self) -> &RawModule
        ensures { result.now ≡ self.now }
    {
        &self.module
    }

    /// How many codes it has, or 2^64 - 1 where there are more.
    pub fn codes(&self) -> u64
        ensures { result ≡ min (length (codes_of self.now)) (2 ^ 64 - 1) }
    {
        count(self.module.code(), MAX_DEPTH)
    }
}

/// The first fault of a module.
fn first_fault(alloc: Global, module: &RawModule) -> Result<Option<VerifyFault>, NoMemory>
    ensures some { IfOk result (λ o. IfSome o (IsFirstFault module.now)) }
    ensures none { IfOk result (λ o. IfNone o (IsVerified module.now)) }
{
    module_law(module);
    match tree_fault(alloc, module, module.code(), MAX_DEPTH)? {
        None => Ok(None),
        Some(fault) => {
            let fault = above(fault, 0)?;
            Ok(Some(VerifyFault {
                rule: fault.rule,
                path: Items::from_vec(fault.path),
                offset: fault.offset,
            }))
        }
    }
}

/// Takes a module whose codes keep the rules, and hands back every other one with its first fault.
pub fn verify(alloc: Global, raw: RawModule) -> Result<Verified, (Refused<VerifyFault>, RawModule)>
    ensures same { IfOk result (λ v. v ≡ raw) }
    ensures verified { OnOk result (IsVerified raw) }

    // A fault is the first, and then the module isn't verified.
    ensures fault { IfErr result (λ e. (f : VerifyFault) → e.0 ≡ refused.Fault f → IsFirstFault raw f) }
    ensures only { IfErr result (λ e. (f : VerifyFault) → e.0 ≡ refused.Fault f → ¬ IsVerified raw) }
    ensures back { IfErr result (λ e. e.1 ≡ raw) }
{
    match first_fault(alloc, &raw) {
        Ok(None) => Ok(Verified { module: raw }),
        Ok(Some(fault)) => Err((Refused::Fault(fault), raw)),
        Err(NoMemory) => Err((Refused::NoMemory, raw)),
    }
}

/// Holds a module that is known to be verified, as one that was just written, at no cost: nothing is checked or copied.
pub fn known_verified(raw: RawModule) -> Verified
    requires { IsVerified raw }
    ensures { result ≡ raw }
{
    Verified { module: raw }
}

/// What holds of every module that is held as verified.
pub fn verified_law(verified: &Verified)
    ensures { IsVerified verified.now }
{
    let _ = &verified.module;
}

/// A module has one first fault at most, and none where it is verified.
pub fn one_fault()
    ensures one { (m : Module) (f g : VerifyFault) → IsFirstFault m f → IsFirstFault m g → f ≡ g }
    ensures none { (m : Module) (f : VerifyFault) → IsFirstFault m f → IsVerified m → ⊥ }
{}

/// The codes of a module are no longer than a code may be.
pub fn codes_law()
    ensures { (m : Module) (path : List ℕ) (code : RawCode) → IsModule m → code_at path m.code ≡ Some code
        → length (out-RawCode code).bytes ≤ MAX_CODE_BYTES }
{}

/// Whichever pending position is taken each time, the flow of a code is verified or not, and ends with the same.
pub fn order()
    ensures { (body : Body) → Decides (flow_of body) }
{}
