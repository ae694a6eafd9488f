//! The file of a source.

ghost use Rattle.std.specs.Prelude.{◌≡◌, ◌≤◌, ℕ, List, [], ◌∷◌, length, Some, slice_get, IfOk, IfSome, IfNone};
ghost use Rattle.mpy_base.specs.declared.limits.TheConstants.{MAX_DEPTH};
ghost use Rattle.mpy_base.specs.declared.source.SourceCode.TheVariants.{TooLong};
ghost use Rattle.mpy_base.specs.declared.source.SourceFault.{SourceFault as Fault};
ghost use Rattle.mpy_writer.specs.mpy_tree.declared.module.ModuleCode.{ModuleCode as Whole};
ghost use Rattle.mpy_writer.specs.mpy_tree.File.{IsAscii};
ghost use Rattle.mpy_writer.specs.declared.tables.Tables.{Tables};
ghost use Rattle.mpy_writer.specs.Codes.{codes};
ghost use Rattle.mpy_writer.specs.File.{SomeFar};
ghost use Rattle.mpy_writer.specs.Tables.{TablesFit};
ghost use Rattle.mpy_writer.specs.Wide.{PassesAt, FitsWide};
ghost use Rattle.mpy_writer.specs.Writable.{IsShallow, IsWritable};
ghost use Rattle.mpy_compile.specs.Texts.{TextsFit};
ghost use Rattle.mpy_compile.specs.Compiled.{IsFileOf, IsCompiled, CompilesTo, IsFault, Compiles, CompilesModule};
ghost use Rattle.mpy_compile.specs.Made.{Files, Makes};

use crate::fits::texts_fit;
use crate::within::{module_law, within_law};
use crate::written::{near_law, written_law};
use emit_module::{Emitted, emit, faults_law};
use mpy_base::{NoMemory, Refused, SourceFault};
use mpy_tree::ModuleCode;
use mpy_writer::{first_long, wide_law, write, write_law};
use py_source::{accepted_law, asked_law, read_source};
use std::alloc::Global;

/// A module and its file.
#[derive(Drop)]
struct Made {
    whole: ModuleCode,
    file: Vec<u8>,
}

/// The first code of a module that is too long, by its place in preorder.
fn long_place(alloc: Global, whole: &ModuleCode) -> Result<Option<usize>, NoMemory>
    requires shallow { IsShallow MAX_DEPTH whole.now.code }
    requires writable { TextsFit whole.now → IsWritable whole.now }
    ensures found { IfOk result (λ found. IfSome found (PassesAt whole.now)) }
    ensures texts { IfOk result (λ found. IfNone found (TextsFit whole.now)) }
    ensures wide { IfOk result (λ found. IfNone found (FitsWide whole.now)) }
{
    if texts_fit(whole) {
        first_long(alloc, whole)
    } else {
        Ok(Some(0))
    }
}

/// What is too long in the code of this place, where these are the lines of the codes behind the first.
fn long_fault(alloc: Global, lines: &[u32], at: usize) -> SourceFault
    requires { at ≤ length lines.now }
    ensures stands { slice_get (1 ∷ lines.now) at ≡ Some result.line }
    ensures code { result.code ≡ TooLong }
    ensures word { result.word ≡ [] }
{
    let mut fault = SourceFault::too_long(alloc);
    if at > 0 {
        fault.line = lines[at - 1];
    }
    fault
}

/// A module with its file, where nothing of it is too long.
fn with_file(alloc: Global, whole: ModuleCode) -> Result<Made, NoMemory>
    requires writable { IsWritable whole }
    requires texts { TextsFit whole }
    requires wide { FitsWide whole }
    requires near { (tables : Tables) → TablesFit tables → SomeFar tables (codes whole) → ⊥ }
    ensures whole { IfOk result (λ made. made.whole ≡ whole) }
    ensures file { IfOk result (λ made. IsFileOf whole made.file.items) }
{
    wide_law();
    match write(alloc, &whole) {
        Ok(file) => Ok(Made { whole, file }),
        Err(Refused::NoMemory) => Err(NoMemory),
        Err(Refused::Fault(_)) => unreachable!(),
    }
}

/// A module with its file, or the fault of its first code that is too long.
fn filed(alloc: Global, emitted: Emitted) -> Result<Made, Refused<SourceFault>>
    requires shallow { IsShallow MAX_DEPTH emitted.whole.code }
    requires writable { TextsFit emitted.whole → IsWritable emitted.whole }
    requires near { (tables : Tables) → TablesFit tables → SomeFar tables (codes emitted.whole) → ⊥ }
    requires lines { length (codes emitted.whole) ≡ length (1 ∷ emitted.lines) }
    ensures { Files emitted.whole (1 ∷ emitted.lines) result }
{
    let Emitted { whole, lines } = emitted;
    match long_place(alloc, &whole) {
        Ok(None) => match with_file(alloc, whole) {
            Ok(made) => Ok(made),
            Err(NoMemory) => Err(Refused::NoMemory),
        },
        Ok(Some(at)) => Err(Refused::Fault(long_fault(alloc, lines.as_slice(), at))),
        Err(NoMemory) => Err(Refused::NoMemory),
    }
}

/// The module of a source at a level under a stored name, with its file, or the first fault of the source, of its code or of the
/// file as a whole.
fn compiled(
    alloc: Global,
    source: &[u8],
    level: u8,
    stored: &[u8],
) -> Result<Made, Refused<SourceFault>>
    requires level_is { level ≤ 3 }
    requires name_is { IsAscii stored.now }
    ensures { Makes level source.now stored.now result }
{
    asked_law();
    written_law();
    near_law();
    let accepted = match read_source(alloc, level, source) {
        Ok(accepted) => accepted,
        Err(refusal) => return Err(refusal),
    };
    match emit(alloc, level, stored, &accepted) {
        Ok(emitted) => filed(alloc, emitted),
        Err(refusal) => Err(refusal),
    }
}

/// The file of a source at a level, which stores the source's name, or the first fault of the source, of its code or of the file
/// as a whole.
pub fn compile(
    alloc: Global,
    source: &[u8],
    level: u8,
    stored: &[u8],
) -> Result<Vec<u8>, Refused<SourceFault>>
    requires level_is { level ≤ 3 }
    requires name_is { IsAscii stored.now }
    ensures { Compiles level source.now stored.now result }
{
    match compiled(alloc, source, level, stored) {
        Ok(made) => {
            let Made { whole: _, file } = made;
            Ok(file)
        }
        Err(refusal) => Err(refusal),
    }
}

/// The module of a source at a level under a stored name, or the fault for which `compile` gives no file.
pub fn compiled_module(
    alloc: Global,
    source: &[u8],
    level: u8,
    stored: &[u8],
) -> Result<ModuleCode, Refused<SourceFault>>
    requires level_is { level ≤ 3 }
    requires name_is { IsAscii stored.now }
    ensures { CompilesModule level source.now stored.now result }
{
    match compiled(alloc, source, level, stored) {
        Ok(made) => {
            let Made { whole, file: _ } = made;
            Ok(whole)
        }
        Err(refusal) => Err(refusal),
    }
}

/// A source compiles to one module and one file at most, or has one first fault, and never both.
pub fn compile_law()
    ensures one { (level : ℕ) (source stored : List ℕ) (m n : Whole) → IsCompiled level source stored m → IsCompiled level source stored n → m ≡ n }
    ensures one_file { (level : ℕ) (source stored a b : List ℕ) → CompilesTo level source stored a → CompilesTo level source stored b → a ≡ b }
    ensures one_fault { (level : ℕ) (source stored : List ℕ) (f g : Fault) → IsFault level source stored f → IsFault level source stored g → f ≡ g }
    ensures not_both { (level : ℕ) (source stored bytes : List ℕ) (fault : Fault) → CompilesTo level source stored bytes
        → IsFault level source stored fault → ⊥ }
{
    asked_law();
    accepted_law();
    within_law();
    module_law();
    faults_law();
    write_law();
    wide_law();
}
