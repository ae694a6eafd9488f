//! Modules as a file holds them.

ghost use Rattle.std.specs.Prelude.{◌≡◌, ℕ, ◌<◌, List, [], ◌∷◌, ◌++◌, Some, slice_get};
ghost use Rattle.mpy_tree.specs.declared.raw.RawCode.{RawCode};
ghost use Rattle.mpy_tree.specs.Codes.{code_at, IsBefore, Placed, codes_of, IsPlaced};
ghost use Rattle.mpy_tree.specs.File.{IsModule};
ghost use Rattle.mpy_tree.specs.Raw.{Module};
ghost use Rattle.mpy_tree.specs.Resolved.{ResolvedModule, Resolves};

use crate::module::Constant;
use qstr_pool::{Items, Text};
use std::marker::Model;

/// An entry of a file's table of texts.
#[derive(Drop)]
pub enum Qstr {
    /// The number of a text that every file may name.
    Static(u16),
    /// A text of the file's own.
    Own(Text),
}

/// A code as a file holds it.
#[derive(Drop)]
pub struct RawCode {
    /// The prelude and the instructions, as they were read.
    pub bytes: Text,
    pub children: Items<RawCode>,
}

/// A module as a file holds it.
#[derive(Drop)]
pub struct RawModule {
    bits: u8,
    qstrs: Items<Qstr>,
    objects: Items<Constant>,
    code: RawCode,
}

impl Model for RawModule {
    ghost use Rattle.std.specs.Coded.{codes};
    ghost use Rattle.mpy_tree.specs.contracts.module.Constant as constants;
    ghost use Rattle.mpy_tree.specs.contracts.raw.RawCode as raw_codes;
    ghost use Rattle.mpy_tree.specs.Raw.{Module};
    ghost use Rattle.mpy_tree.specs.File.{IsModule};

    ghost Value = { Module };

    ghost coded = { Prim.hlevel (codes, constants.the_row.coded, raw_codes.the_row.coded) };

    ghost view = { λ m. record { bits = m.bits; qstrs = m.qstrs; objects = m.objects; code = m.code } };

    ghost invariant = { λ m. IsModule (record { bits = m.bits; qstrs = m.qstrs; objects = m.objects; code = m.code }) };
}

impl RawModule {
    /// A module of these parts, which it takes as they are. `bits` says how many bits small integers take.
    pub fn new(bits: u8, qstrs: Items<Qstr>, objects: Items<Constant>, code: RawCode) -> RawModule
        requires { IsModule (record { bits = bits; qstrs = qstrs; objects = objects; code = code }) }
        ensures { result ≡ record { bits = bits; qstrs = qstrs; objects = objects; code = code } }
    {
        RawModule {
            bits,
            qstrs,
            objects,
            code,
        }
    }

    /// The bits that small integers take.
    pub fn bits(&self) -> u8
        ensures { result ≡ self.now.bits }
    {
        self.bits
    }

    /// The table of texts, of which the first is the name of the source.
    pub fn qstrs(&self) -> &[Qstr]
        ensures { result.now ≡ self.now.qstrs }
    {
        self.qstrs.as_slice()
    }

    /// The table of objects, in the order of the file.
    pub fn objects(&self) -> &[Constant]
        ensures { result.now ≡ self.now.objects }
    {
        self.objects.as_slice()
    }

    /// The outermost code.
    pub fn code(&self) -> &RawCode
        ensures { result.now ≡ self.now.code }
    {
        &self.code
    }
}

/// What holds of every module: some text is its spelling, so that its preludes and codes decode, its texts are ASCII,
/// and its counts, lengths and depths keep their limits.
pub fn module_law(raw: &RawModule)
    ensures { IsModule raw.now }
{
    let _ = &raw.bits;
}

/// A module resolves to one tree at most.
pub fn resolving_law()
    ensures { (m : Module) (a b : ResolvedModule) → Resolves m a → Resolves m b → a ≡ b }
{}

/// The list of a module's codes has the code of each path at one place, and their places keep preorder. The numbers of a code's
/// children are their places.
pub fn preorder_law()
    ensures placed { (m : Module) (k : ℕ) (place : Placed) → slice_get (codes_of m) k ≡ Some place → IsPlaced m place }
    ensures all { (m : Module) (path : List ℕ) (code : RawCode) → IsModule m → code_at path m.code ≡ Some code
        → (k : ℕ) × (place : Placed) × (slice_get (codes_of m) k ≡ Some place) × (place.path ≡ path) }
    ensures order { (m : Module) (j k : ℕ) (a b : Placed) → slice_get (codes_of m) j ≡ Some a
        → slice_get (codes_of m) k ≡ Some b → j < k → IsBefore a.path b.path }
    ensures children { (m : Module) (k n j : ℕ) (place : Placed) → IsModule m → slice_get (codes_of m) k ≡ Some place
        → slice_get place.children n ≡ Some j
        → (child : Placed) × (slice_get (codes_of m) j ≡ Some child) × (child.path ≡ place.path ++ n ∷ []) }
{}
