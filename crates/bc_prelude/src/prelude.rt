//! The prelude of a code.

ghost use Rattle.std.specs.Prelude.{◌≡◌, ℕ, ◌+◌, ◌-◌, ◌<◌, ◌≤◌, ◌^◌, ◌↔◌, List, ◌++◌, length, IfOk, OnOk, OnErr, IsErrOf, Ok};
ghost use Rattle.bc_prelude.specs.declared.prelude.Prelude.{Prelude};
ghost use Rattle.bc_prelude.specs.Names.{AreNames};
ghost use Rattle.bc_prelude.specs.Signature as signatures;
ghost use Rattle.bc_prelude.specs.Prelude.{Begins, PreludeEnds, PreludePasses, PreludeOutside, IsWritable, front_of, signature_in};

use crate::fault::PreludeFault;
use crate::names::read_names;
use crate::signature::{Signature, read_signature, write_signature};
use crate::size::{read_size, write_size};
use mpy_base::NoMemory;

/// What stands in front of the instructions of a code.
#[derive(Clone, Copy, Debug, PartialEq, Eq)]
pub struct Prelude {
    /// The slots for locals and the stack.
    pub n_state: u32,
    /// The handler entries.
    pub n_exc: u32,
    pub flags: u32,
    /// The positional arguments.
    pub args: u32,
    /// The keyword-only arguments.
    pub kwonly: u32,
    /// The positional arguments with a default.
    pub defaults: u32,
    pub cells: u32,
    /// Where the information begins, with the index of the code's name.
    pub info_at: usize,
    /// Where the line table begins, which ends where the instructions begin.
    pub lines_at: usize,
    /// Where the instructions begin.
    pub code_at: usize,
}

/// Reads the prelude of a code.
pub fn read_prelude(code: &[u8]) -> Result<Prelude, PreludeFault>
    // What is read is the prelude, and what is one is read, whatever follows it.
    ensures found { IfOk result (Begins code.now) }
    ensures only { (prelude : Prelude) → Begins code.now prelude → result ≡ Ok prelude }

    ensures truncated { IsErrOf result PreludeFault.Truncated ↔ PreludeEnds code.now }
    ensures too_big { IsErrOf result PreludeFault.TooBig ↔ PreludePasses code.now }
    ensures outside { IsErrOf result PreludeFault.Outside ↔ PreludeOutside code.now }
{
    let (signature, size_at) = read_signature(code)?;
    let (size, info_at) = read_size(code, size_at)?;
    let code_at = info_at + size;
    let lines_at = read_names(code, info_at, code_at, 1 + signature.args)?;
    Ok(Prelude {
        n_state: signature.n_state,
        n_exc: signature.n_exc,
        flags: signature.flags,
        args: signature.args,
        kwonly: signature.kwonly,
        defaults: signature.defaults,
        cells: 0,
        info_at,
        lines_at,
        code_at,
    })
}

impl Prelude {
    /// The numbers of a prelude that its signature has.
    fn signature(&self) -> Signature
        ensures { result ≡ signature_in self.now }
    {
        Signature {
            n_state: self.n_state,
            n_exc: self.n_exc,
            flags: self.flags,
            args: self.args,
            kwonly: self.kwonly,
            defaults: self.defaults,
        }
    }
}

/// Adds the signature and the size field, of which it may leave a front where memory isn't found.
fn spell(out: &mut Vec<u8>, prelude: &Prelude) -> Result<(), NoMemory>
    requires { IsWritable prelude.now }
    ensures ok { OnOk result (out.new.items ≡ out.old.items ++ front_of prelude.now) }
    ensures err { OnErr result ((front : List ℕ) × (out.new.items ≡ out.old.items ++ front)) }
{
    write_signature(out, &prelude.signature())?;
    write_size(out, prelude.code_at - prelude.info_at)
}

/// Adds the signature and the size field in their shortest spelling. The information follows them. An `Err` leaves `out`
/// as it was.
pub fn write_prelude(out: &mut Vec<u8>, prelude: &Prelude) -> Result<(), NoMemory>
    requires { IsWritable prelude.now }
    ensures ok { OnOk result (out.new.items ≡ out.old.items ++ front_of prelude.now) }
    ensures err { OnErr result (out.new.items ≡ out.old.items) }
{
    let start = out.len();
    let spelled = spell(out, prelude);
    if spelled.is_err() {
        out.truncate(start);
    }
    spelled
}

/// What is written, with the information behind it, is the prelude; the numbers that are read may be written; and a code
/// begins with one prelude at most.
pub fn prelude_law()
    ensures begins { (prelude : Prelude) (indexes names lines instructions : List ℕ) → IsWritable prelude
        → AreNames indexes names → length indexes ≡ 1 + prelude.args
        → prelude.lines_at ≡ prelude.info_at + length names → prelude.code_at ≡ prelude.lines_at + length lines
        → Begins (front_of prelude ++ (names ++ (lines ++ instructions))) prelude }
    ensures numbers { (code : List ℕ) (prelude : Prelude) → Begins code prelude
        → signatures.IsWritable (signature_in prelude) }
    ensures one_prelude { (code : List ℕ) (p q : Prelude) → Begins code p → Begins code q → p ≡ q }
{}
