//! Signed numbers: seven bits a byte, the most significant group first, in two's complement.

ghost use Rattle.std.specs.Prelude.{◌≡◌, ℕ, ◌+◌, ◌^◌, ◌<◌, ◌≤◌, List, ◌++◌, ℤ, OnOk, OnErr};
ghost use Rattle.bc_ops.specs.Signed as specs;
ghost use Rattle.bc_ops.specs.Signed.{IsSmall, Spells, magnitude, high_size, unsigned_in, spelled_in, signed};
ghost use Rattle.bc_ops.specs.Reading.{ReadsGroups, ReadsSigned};

use crate::decoding::CodeFault;
use mpy_base::NoMemory;

/// The bytes of a number at most.
const MAX_BYTES: usize = 5;

/// The least number that an operand can be.
const MIN: i64 = -(1 << 30);

/// The greatest number that an operand can be.
const MAX: i64 = (1 << 30) - 1;

/// What the place above `groups` groups counts.
fn place(groups: usize) -> u64
    requires { groups ≤ 5 }
    ensures value { result ≡ 128 ^ groups }
    ensures small { result ≤ 2 ^ 35 }
{
    match groups {
        0 => 1,
        1 => 1 << 7,
        2 => 1 << 14,
        3 => 1 << 21,
        4 => 1 << 28,
        _ => 1 << 35,
    }
}

/// The groups in front of the bytes as a number with no sign, and how many bytes they take.
fn read_groups(bytes: &[u8]) -> Result<(u64, usize), CodeFault>
    ensures { ReadsGroups bytes.now result }
{
    let mut value = 0u64;
    for (i, byte) in bytes.iter().enumerate() {
        if i == MAX_BYTES {
            return Err(CodeFault::BadNumber);
        }
        value = 128 * value + u64::from(*byte % 128);
        if *byte < 128 {
            return Ok((value, i + 1));
        }
    }
    if bytes.len() < MAX_BYTES {
        Err(CodeFault::Truncated)
    } else {
        Err(CodeFault::BadNumber)
    }
}

/// The number of `len` groups that are `value` without a sign. Bit 6 of the first byte is the sign.
fn with_sign(first: u8, len: usize, value: u64) -> i64
    requires few { len ≤ 5 }
    requires small { value < 2 ^ 35 }
    ensures { result ≡ specs.with_sign first len value }
{
    if first / 64 % 2 == 1 {
        value as i64 - place(len) as i64
    } else {
        value as i64
    }
}

/// The number in front of the bytes, and how many of them it takes.
pub fn read_signed(bytes: &[u8]) -> Result<(i32, usize), CodeFault>
    ensures { ReadsSigned bytes.now result }
{
    let (value, len) = read_groups(bytes)?;
    let number = with_sign(bytes[0], len, value);
    if number < MIN || number > MAX {
        return Err(CodeFault::BadNumber);
    }
    Ok((number as i32, len))
}

/// How many groups stand above the last.
fn high_groups(n: u32) -> usize
    ensures { result ≡ high_size n }
{
    if n < 1 << 6 {
        0
    } else if n < 1 << 13 {
        1
    } else if n < 1 << 20 {
        2
    } else if n < 1 << 27 {
        3
    } else {
        4
    }
}

/// Adds the last groups of the number, `high` of them above the last. An `Err` leaves `out` as it was.
fn write_groups(out: &mut Vec<u8>, n: u64, high: usize) -> Result<(), NoMemory>
    requires { high ≤ 4 }
    ensures ok { OnOk result (out.new.items ≡ out.old.items ++ spelled_in high n) }
    ensures err { OnErr result (out.new.items ≡ out.old.items) }
{
    let mut groups = [0u8; MAX_BYTES];
    let mut first = MAX_BYTES - 1;
    groups[first] = (n % 128) as u8;
    let mut above = n / 128;
    let mut left = high;
    while left > 0 {
        left -= 1;
        first -= 1;
        groups[first] = 128 + (above % 128) as u8;
        above /= 128;
    }
    out.extend_from_slice(&groups[first..])?;
    Ok(())
}

/// Adds the groups of the number, its shortest spelling where it is small. An `Err` leaves `out` as it was.
pub fn write_signed(out: &mut Vec<u8>, n: i32) -> Result<(), NoMemory>
    ensures ok { OnOk result (out.new.items ≡ out.old.items ++ signed n) }
    ensures err { OnErr result (out.new.items ≡ out.old.items) }
{
    if n < 0 {
        let below = (-1 - n) as u32;
        let high = high_groups(below);
        write_groups(out, place(high + 1) - 1 - u64::from(below), high)
    } else {
        let above = n as u32;
        let high = high_groups(above);
        write_groups(out, u64::from(above), high)
    }
}

/// What is written is a spelling, and bytes begin with one number at most.
pub fn signed_law()
    ensures spells { (z : ℤ) → IsSmall z → Spells (signed z) z }
    ensures one_number { (a b x y : List ℕ) (m n : ℤ) → Spells a m → Spells b n → a ++ x ≡ b ++ y → (a ≡ b) × (m ≡ n) }
{}
