//! What is read of codes with moved numbers.

ghost use Rattle.std.specs.Prelude.{ℕ, ◌+◌, ◌≤◌, List, length};
ghost use Rattle.mpy_writer.specs.mpy_tree.declared.raw.RawCode.{RawCode};
ghost use Rattle.mpy_writer.specs.mpy_tree.File.{IsModule, IsCode};
ghost use Rattle.mpy_writer.specs.mpy_tree.Raw.{Module};
ghost use Rattle.mpy_writer.specs.mpy_tree.Resolved.{Tree, ResolvesCode};
ghost use Rattle.bc_verify.specs.Verified.{AreVerified};
ghost use Rattle.mpy_writer.specs.declared.tables.Tables.{Tables};
ghost use Rattle.mpy_writer.specs.Tables.{TablesFit};
ghost use Rattle.mpy_merge.specs.Joined.{IsJoined};
ghost use Rattle.mpy_merge.specs.Moved.{IsMovedTree};

use bc_prelude::lines_law;
use mpy_base::limits::MAX_TABLE;

/// What is written for a code of a module, and for those in it, is read as the same tree.
pub fn moved_law()
    ensures { (tables : Tables) (base : ℕ) (m merged : Module) → TablesFit tables → IsModule m → base + length m.objects ≤ MAX_TABLE
        → IsJoined tables base m merged → (levels : ℕ) (tree : Tree) (raw moved : RawCode) (text : List ℕ)
        → IsCode levels (length m.qstrs) text raw → AreVerified m raw → IsMovedTree levels tables base m raw moved
        → ResolvesCode m tree raw → ResolvesCode merged tree moved }
{
    lines_law();
}
