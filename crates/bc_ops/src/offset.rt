//! The offsets of jumps, in one byte or in two.

ghost use Rattle.std.specs.Prelude.{◌≡◌, ◌↔◌, ◌++◌, pos, IsTrue, OnOk, OnErr};
ghost use Rattle.bc_ops.specs.Offset as specs;
ghost use Rattle.bc_ops.specs.Offset.{Fits, offset_bytes};
ghost use Rattle.bc_ops.specs.Reading.{ReadsOffset};

use crate::decoding::CodeFault;
use mpy_base::NoMemory;

/// What the bytes of a signed offset have more than it.
fn bias(signed: bool, wide: bool) -> i32
    ensures { result ≡ pos (specs.bias signed wide) }
{
    match (signed, wide) {
        (false, _) => 0,
        (true, false) => 0x40,
        (true, true) => 0x4000,
    }
}

/// The first number past the bytes.
fn limit(wide: bool) -> i64
    ensures { result ≡ pos (specs.limit wide) }
{
    if wide { 0x8000 } else { 0x80 }
}

/// Does the offset fit one byte, or two where it is wide?
pub fn offset_fits(signed: bool, wide: bool, offset: i64) -> bool
    ensures { IsTrue result ↔ Fits signed wide offset }
{
    let bias = i64::from(bias(signed, wide));
    -bias <= offset && offset < limit(wide) - bias
}

/// The offset in front of the bytes, whether it is wide, and how many bytes it takes.
pub(crate) fn read_offset(bytes: &[u8], signed: bool) -> Result<(i32, bool, usize), CodeFault>
    ensures { ReadsOffset signed bytes.now result }
{
    match bytes {
        [] => Err(CodeFault::Truncated),
        [first, ..] if *first < 0x80 => Ok((i32::from(*first) - bias(signed, false), false, 1)),
        [_] => Err(CodeFault::Truncated),
        [low, high, ..] => {
            let raised = i32::from(*low % 0x80) + 0x80 * i32::from(*high);
            Ok((raised - bias(signed, true), true, 2))
        }
    }
}

/// Adds the bytes of the offset. An `Err` leaves `out` as it was.
pub(crate) fn write_offset(
    out: &mut Vec<u8>,
    signed: bool,
    wide: bool,
    offset: i32,
) -> Result<(), NoMemory>
    requires { Fits signed wide offset }
    ensures ok { OnOk result (out.new.items ≡ out.old.items ++ offset_bytes signed wide offset) }
    ensures err { OnErr result (out.new.items ≡ out.old.items) }
{
    let raised = (offset + bias(signed, wide)) as u32;
    if wide {
        let bytes = [0x80 + (raised % 0x80) as u8, (raised / 0x80) as u8];
        out.extend_from_slice(&bytes)?;
    } else {
        out.push(raised as u8)?;
    }
    Ok(())
}
