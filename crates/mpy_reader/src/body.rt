//! What a module has behind its table of texts.

ghost use Rattle.std.specs.Prelude.{◌≡◌, ◌++◌, ℕ, List, Result, Ok, Err};
ghost use Rattle.mpy_tree.specs.declared.module.Constant.{Constant};
ghost use Rattle.mpy_tree.specs.declared.raw.RawCode.{RawCode};
ghost use Rattle.mpy_reader.specs.declared.fault.FileFault.{FileFault};
ghost use Rattle.mpy_reader.specs.Body as bodies;
ghost use Rattle.mpy_reader.specs.Body.{IsBody};
ghost use Rattle.mpy_reader.specs.Reading.{Gives};

use crate::code::code;
use crate::fault::FileFault;
use crate::field::count;
use crate::object::objects;
use mpy_base::limits::MAX_DEPTH;
use mpy_base::{Items, Refused};
use mpy_tree::{Constant, RawCode};
use std::alloc::Global;

/// The objects of a module, and its outermost code.
#[derive(Drop)]
pub struct ModuleBody {
    pub objects: Items<Constant>,
    pub code: RawCode,
}

/// Reads what a module with a table of `texts` texts has behind it, at the front of the bytes, or its first fault. The
/// bytes behind are given with it. An image holds modules so, without the rest of a file.
#[tactic(auto, unfolding(crate::specs::Body::body))]
pub fn read_body(
    alloc: Global,
    bytes: &[u8],
    texts: u32,
) -> Result<(ModuleBody, &[u8]), Refused<FileFault>>
    ensures { Gives (λ found. ((found.0.objects, found.0.code), found.1.now)) result (bodies.body texts bytes.now) }
{
    let (object_count, rest) = count(bytes)?;
    let (objects, rest) = objects(alloc, object_count, rest)?;
    let (code, rest) = code(alloc, rest, texts, MAX_DEPTH)?;
    Ok((ModuleBody { objects, code }, rest))
}

/// Bytes begin with one body at most, or have one first fault in its place, and never both. What is spelled is read,
/// and what is read is spelled so.
pub fn body_law()
    ensures found { (texts : ℕ) (bytes rest : List ℕ) (body : List Constant × RawCode) → bodies.body texts bytes (Ok (body, rest))
        → (text : List ℕ) × IsBody texts text body × (bytes ≡ text ++ rest) }
    ensures taken { (texts : ℕ) (text rest : List ℕ) (body : List Constant × RawCode) → IsBody texts text body
        → bodies.body texts (text ++ rest) (Ok (body, rest)) }
    ensures one { (texts : ℕ) (bytes : List ℕ) (a b : Result ((List Constant × RawCode) × List ℕ) FileFault)
        → bodies.body texts bytes a → bodies.body texts bytes b → a ≡ b }
{}
