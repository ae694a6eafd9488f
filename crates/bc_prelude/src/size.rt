//! The length of the information.

ghost use Rattle.std.specs.Prelude.{◌≡◌, ◌≢◌, ℕ, ◌+◌, ◌<◌, ◌≤◌, ◌^◌, ◌↔◌, List, ◌++◌, length, drop, IfOk, OnOk, OnErr, IsErrOf, Ok, Err};
ghost use Rattle.bc_prelude.specs.Size.{IsSize, SizeEnds, HasCells, spelling};

use crate::chain::{chain_end, number};
use crate::fault::PreludeFault;
use mpy_base::NoMemory;

/// Reads the size field at `at`, and gives the length of the information and the place behind the field.
pub fn read_size(code: &[u8], at: usize) -> Result<(usize, usize), PreludeFault>
    requires { at ≤ length code.now }

    // What is read is a size field with the information behind it, and such a one is read.
    ensures found { IfOk result (λ found. (text rest : List ℕ) × IsSize text found.0
        × (drop at code.now ≡ text ++ rest) × (found.0 ≤ length rest) × (found.1 ≡ at + length text)) }
    ensures only { (text rest : List ℕ) (size : ℕ) → IsSize text size → drop at code.now ≡ text ++ rest
        → size ≤ length rest → result ≡ Ok (size, at + length text) }

    ensures truncated { IsErrOf result PreludeFault.Truncated ↔ SizeEnds (drop at code.now) }
    ensures outside { IsErrOf result PreludeFault.Outside ↔ HasCells (drop at code.now) }
    ensures any_size { result ≢ Err PreludeFault.TooBig }
{
    let (_, bytes) = code.split_at(at);
    let Some(end) = chain_end(bytes) else {
        return Err(PreludeFault::Truncated);
    };
    let (text, rest) = bytes.split_at(end);
    if number(text, 1, 2) > 0 {
        return Err(PreludeFault::Outside);
    }
    let size = number(text, 2, 64);
    if size > rest.len() as u64 {
        return Err(PreludeFault::Truncated);
    }
    Ok((size as usize, at + end))
}

/// Adds the bytes of the size field, of which it may leave a front where memory isn't found.
fn spell(out: &mut Vec<u8>, size: usize) -> Result<(), NoMemory>
    ensures ok { OnOk result (out.new.items ≡ out.old.items ++ spelling size) }
    ensures err { OnErr result ((front : List ℕ) × (out.new.items ≡ out.old.items ++ front)) }
{
    let mut left = size;
    while left >= 64 {
        out.push((128 + 2 * (left % 64)) as u8)?;
        left /= 64;
    }
    out.push((2 * (left % 64)) as u8)?;
    Ok(())
}

/// Adds the shortest spelling of the size field of `size` bytes of information. An `Err` leaves `out` as it was.
pub fn write_size(out: &mut Vec<u8>, size: usize) -> Result<(), NoMemory>
    ensures ok { OnOk result (out.new.items ≡ out.old.items ++ spelling size) }
    ensures err { OnErr result (out.new.items ≡ out.old.items) }
{
    let start = out.len();
    let spelled = spell(out, size);
    if spelled.is_err() {
        out.truncate(start);
    }
    spelled
}

/// What is written is a size field, and the shortest of its length; and bytes begin with one field at most.
pub fn size_law()
    ensures spells { (size : ℕ) → IsSize (spelling size) size }
    ensures shortest { (text : List ℕ) (size : ℕ) → IsSize text size → length (spelling size) ≤ length text }
    ensures one_size { (a b x y : List ℕ) (m n : ℕ) → IsSize a m → IsSize b n → a ++ x ≡ b ++ y → (a ≡ b) × (m ≡ n) }
{}
