//! The signature of a code.

ghost use Rattle.std.specs.Prelude.{◌≡◌, ℕ, ◌+◌, ◌-◌, ◌<◌, ◌≤◌, ◌^◌, ◌↔◌, List, ◌++◌, length, min, IfOk, OnOk, OnErr, IsErrOf, Ok};
ghost use Rattle.bc_prelude.specs.declared.signature.Signature.{Signature};
ghost use Rattle.bc_prelude.specs.Chain.{IsChain, HasNoEnd};
ghost use Rattle.bc_prelude.specs.Signature.{slots_of, handlers_of, arguments_of, flags_of, kwonly_of, defaults_of, IsSignature};
ghost use Rattle.bc_prelude.specs.Signature.{SignaturePasses, SignatureOutside, IsWritable, spelling};

use crate::chain::{chain_end, joined, number};
use crate::fault::PreludeFault;
use mpy_base::NoMemory;
use mpy_base::limits::{MAX_ARGUMENTS, MAX_HANDLERS, MAX_STATE};

/// What a code needs to be called.
#[derive(Clone, Copy, Debug, PartialEq, Eq)]
pub struct Signature {
    /// The slots for locals and the stack.
    pub n_state: u32,
    /// The handler entries.
    pub n_exc: u32,
    pub flags: u32,
    /// The positional arguments.
    pub args: u32,
    /// The keyword-only arguments.
    pub kwonly: u32,
    /// The positional arguments with a default.
    pub defaults: u32,
}

/// The numbers of a signature, each the greatest number where it passes that.
#[derive(Clone, Copy)]
struct Parts {
    slots: u64,
    handlers: u64,
    arguments: u64,
    flags: u64,
    kwonly: u64,
    defaults: u64,
}

/// The numbers of a signature.
fn parts_of(text: &[u8]) -> Parts
    requires { 0 < length text.now }
    ensures slots { result.slots ≡ min (slots_of text.now) (2 ^ 64 - 1) }
    ensures handlers { result.handlers ≡ min (handlers_of text.now) (2 ^ 64 - 1) }
    ensures arguments { result.arguments ≡ min (arguments_of text.now) (2 ^ 64 - 1) }
    ensures flags { result.flags ≡ min (flags_of text.now) (2 ^ 64 - 1) }
    ensures kwonly { result.kwonly ≡ min (kwonly_of text.now) (2 ^ 64 - 1) }
    ensures defaults { result.defaults ≡ min (defaults_of text.now) (2 ^ 64 - 1) }
{
    let first = text[0];
    let (_, others) = text.split_at(1);
    Parts {
        slots: joined(first / 8 % 16, 16, number(others, 16, 4)),
        handlers: joined(first / 4 % 2, 2, number(others, 2, 2)),
        arguments: joined(first % 4, 4, number(others, 4, 2)),
        flags: number(others, 64, 2),
        kwonly: number(others, 8, 2),
        defaults: number(others, 1, 2),
    }
}

/// Reads the signature in front of the code, and gives the place behind it.
pub fn read_signature(code: &[u8]) -> Result<(Signature, usize), PreludeFault>
    // What is read is a signature, and what is one is read, whatever follows it.
    ensures found { IfOk result (λ found. (text rest : List ℕ) × IsSignature text found.0
        × (code.now ≡ text ++ rest) × (found.1 ≡ length text)) }
    ensures only { (text rest : List ℕ) (signature : Signature) → IsSignature text signature
        → code.now ≡ text ++ rest → result ≡ Ok (signature, length text) }

    ensures truncated { IsErrOf result PreludeFault.Truncated ↔ HasNoEnd code.now }
    ensures too_big { IsErrOf result PreludeFault.TooBig ↔ SignaturePasses code.now }
    ensures outside { IsErrOf result PreludeFault.Outside ↔ SignatureOutside code.now }
{
    let Some(end) = chain_end(code) else {
        return Err(PreludeFault::Truncated);
    };
    let (text, _) = code.split_at(end);
    let parts = parts_of(text);
    if parts.slots >= MAX_STATE as u64
        || parts.handlers > MAX_HANDLERS as u64
        || parts.arguments > MAX_ARGUMENTS as u64
    {
        return Err(PreludeFault::TooBig);
    }
    if parts.flags > 0 || parts.kwonly > 0 {
        return Err(PreludeFault::Outside);
    }
    let signature = Signature {
        n_state: parts.slots as u32 + 1,
        n_exc: parts.handlers as u32,
        flags: 0,
        args: parts.arguments as u32,
        kwonly: 0,
        defaults: parts.defaults.min(u32::MAX as u64) as u32,
    };
    Ok((signature, end))
}

/// Adds the bytes of the signature, of which it may leave a front where memory isn't found.
fn spell(out: &mut Vec<u8>, signature: &Signature) -> Result<(), NoMemory>
    requires { IsWritable signature.now }
    ensures ok { OnOk result (out.new.items ≡ out.old.items ++ spelling signature.now) }
    ensures err { OnErr result ((front : List ℕ) × (out.new.items ≡ out.old.items ++ front)) }
{
    let last_slot = signature.n_state - 1;
    let mut byte = (8 * (last_slot % 16) + 4 * (signature.n_exc % 2) + signature.args % 4) as u8;
    let mut slots = last_slot / 16;
    let mut handlers = signature.n_exc / 2;
    let mut arguments = signature.args / 4;
    let mut defaults = signature.defaults;
    while slots > 0 || handlers > 0 || arguments > 0 || defaults > 0 {
        out.push(128 + byte)?;
        byte = (16 * (slots % 4) + 4 * (arguments % 2) + 2 * (handlers % 2) + defaults % 2) as u8;
        slots /= 4;
        handlers /= 2;
        arguments /= 2;
        defaults /= 2;
    }
    out.push(byte)?;
    Ok(())
}

/// Adds the shortest spelling of the signature. An `Err` leaves `out` as it was.
pub fn write_signature(out: &mut Vec<u8>, signature: &Signature) -> Result<(), NoMemory>
    requires { IsWritable signature.now }
    ensures ok { OnOk result (out.new.items ≡ out.old.items ++ spelling signature.now) }
    ensures err { OnErr result (out.new.items ≡ out.old.items) }
{
    let start = out.len();
    let spelled = spell(out, signature);
    if spelled.is_err() {
        out.truncate(start);
    }
    spelled
}

/// What is written is a signature, and the shortest of its numbers; what is read may be written; and a code begins with
/// one signature at most.
pub fn signature_law()
    ensures spells { (signature : Signature) → IsWritable signature → IsSignature (spelling signature) signature }
    ensures shortest { (text : List ℕ) (signature : Signature) → IsSignature text signature
        → length (spelling signature) ≤ length text }
    ensures writable { (text : List ℕ) (signature : Signature) → IsSignature text signature → IsWritable signature }
    ensures one_signature { (a b x y : List ℕ) (m n : Signature) → IsSignature a m → IsSignature b n
        → a ++ x ≡ b ++ y → (a ≡ b) × (m ≡ n) }
{}
