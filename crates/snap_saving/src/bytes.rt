//! Numbers and texts of a snapshot, and how many bytes it may have.

ghost use Rattle.std.specs.Prelude.{◌≡◌, ◌+◌, ◌<◌, ◌≤◌, ◌^◌, ◌∷◌, ◌++◌, [], length, OnOk};
ghost use Rattle.std.specs.Bool.{OnTrue, OnFalse};
ghost use Rattle.snap_saving.specs.Put.{integer, left, number, overlong, text, zeros};
ghost use Rattle.snap_saving.specs.Saved.{IsLong};

use bc_ops::write_signed;
use mpy_base::{NoMemory, write_vuint};

/// As many bytes as a snapshot may have.
const MOST_BYTES: usize = 4_194_304;

/// The least signed number that has a spelling.
const LEAST: i32 = -1_073_741_824;

/// The greatest signed number that has one.
const GREATEST: i32 = 1_073_741_823;

/// One byte.
pub(crate) fn put_byte(out: &mut Vec<u8>, byte: u8) -> Result<(), NoMemory>
    ensures { OnOk result (out.new.items ≡ out.old.items ++ byte ∷ []) }
{
    out.push(byte)?;
    Ok(())
}

/// So many zero bytes.
#[tactic(auto, unfolding(crate::specs::Put::zeros))]
fn put_zeros(out: &mut Vec<u8>, count: usize) -> Result<(), NoMemory>
    requires { count ≤ 2 ^ 32 }
    ensures { OnOk result (out.new.items ≡ out.old.items ++ zeros count) }
{
    let len = out.len();
    out.resize(len + count, 0)?;
    Ok(())
}

/// What has no spelling is put as more bytes than a snapshot may have: so the state has none, and no call needs a fault for it.
#[tactic(auto, unfolding(crate::specs::Put::overlong))]
fn put_overlong(out: &mut Vec<u8>) -> Result<(), NoMemory>
    ensures { OnOk result (out.new.items ≡ out.old.items ++ overlong) }
{
    put_zeros(out, MOST_BYTES + 1)
}

/// A number, in as few groups as it takes: from 2^31 on it has no spelling.
#[tactic(auto, using(crate::proofs::Leaves::small_number, crate::proofs::Leaves::no_number))]
pub(crate) fn put_number(out: &mut Vec<u8>, n: u32) -> Result<(), NoMemory>
    ensures { OnOk result (out.new.items ≡ out.old.items ++ number n) }
{
    if n < 1 << 31 {
        write_vuint(out, n)
    } else {
        put_overlong(out)
    }
}

/// A signed number: only one from -2^30 to 2^30 - 1 has a spelling.
pub(crate) fn put_integer(out: &mut Vec<u8>, z: i32) -> Result<(), NoMemory>
    ensures { OnOk result (out.new.items ≡ out.old.items ++ integer z) }
{
    if z < LEAST || z > GREATEST {
        return put_overlong(out);
    }
    write_signed(out, z)
}

/// A tag, and a signed number.
pub(crate) fn put_tagged(out: &mut Vec<u8>, tag: u8, z: i32) -> Result<(), NoMemory>
    ensures { OnOk result (out.new.items ≡ out.old.items ++ (tag ∷ integer z)) }
{
    out.push(tag)?;
    put_integer(out, z)
}

/// How many slots of an iterator are left, whose topmost is this one, counted from 0: more than three have no spelling.
#[tactic(auto, using(crate::proofs::Leaves::few_left, crate::proofs::Leaves::many_left))]
pub(crate) fn put_left(out: &mut Vec<u8>, part: u8) -> Result<(), NoMemory>
    ensures { OnOk result (out.new.items ≡ out.old.items ++ left (part + 1)) }
{
    if part < 3 {
        write_vuint(out, part as u32 + 1)
    } else {
        put_overlong(out)
    }
}

/// A length, and as many bytes.
pub(crate) fn put_text(out: &mut Vec<u8>, bytes: &[u8]) -> Result<(), NoMemory>
    requires { length bytes.now < 2 ^ 32 }
    ensures { OnOk result (out.new.items ≡ out.old.items ++ text bytes.now) }
{
    put_number(out, bytes.len() as u32)?;
    out.extend_from_slice(bytes)?;
    Ok(())
}

/// Whether there are more bytes than there may be.
pub(crate) fn is_long(out: &Vec<u8>) -> bool
    ensures yes { OnTrue result (IsLong out.now.items) }
    ensures no { OnFalse result (length out.now.items ≤ 4194304) }
{
    out.len() > MOST_BYTES
}
