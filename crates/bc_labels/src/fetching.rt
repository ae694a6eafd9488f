//! The instruction at an offset, and the offset that a jump goes to.

ghost use Rattle.std.specs.Prelude.{◌≡◌, ◌<◌, ◌≤◌, ◌^◌, ◌+ℤ◌, ℕ, List, pos, length};
ghost use Rattle.bc_ops.specs.declared.listing.Target.TheVariants.{Position};
ghost use Rattle.bc_ops.specs.Listing.{target};
ghost use Rattle.bc_labels.specs.Positions.{CodeList, Listed, position_in, Starts, Reads};

use bc_ops::{Instr, decode_at};

/// The instruction that starts at the offset, and the offset that it ends at.
#[inline(always)]
pub fn fetch(bytes: &[u8], at: u32) -> (Instr, u32)
    requires short { length bytes.now < 2 ^ 32 }
    requires starts { (l : CodeList) × Listed bytes.now l × Starts l.offsets at }
    ensures reads { (l : CodeList) → Listed bytes.now l → Starts l.offsets at → Reads l at result.0 result.1 }
    ensures inside { result.1 ≤ length bytes.now }
{
    let Ok((instr, end)) = decode_at(bytes, at as usize) else {
        unreachable!();
    };
    (instr, end as u32)
}

/// The sum of the two, which is an offset of a code.
#[inline(always)]
fn moved(end: u32, offset: i32) -> u32
    requires { (o : ℕ) × (o < 2 ^ 32) × ((pos end +ℤ offset) ≡ pos o) }
    ensures { (o : ℕ) → (pos end +ℤ offset) ≡ pos o → result ≡ o }
{
    (i64::from(end) + i64::from(offset)) as u32
}

/// The offset that a jump goes to whose own offset ends at `end`, where its list names the target by position.
#[inline(always)]
pub fn jump_target(end: u32, offset: i32) -> u32
    requires { (bytes : List ℕ) × (l : CodeList) × (q : ℕ) × (length bytes < 2 ^ 32) × Listed bytes l
        × (target l.offsets 0 (pos end +ℤ offset) ≡ Position q) }
    ensures { (bytes : List ℕ) (l : CodeList) (q : ℕ) → Listed bytes l
        → target l.offsets 0 (pos end +ℤ offset) ≡ Position q
        → Starts l.offsets result × (position_in l.offsets result ≡ q) }
{
    moved(end, offset)
}
