//! What is said of snapshots.

ghost use Rattle.std.specs.Prelude.{◌≡◌, ◌++◌, codes};
ghost use Rattle.mpy_endings.specs.Line as spec;
ghost use Rattle.mpy_endings.specs.Line.{Puts, snapshot_line};

use crate::put::{put_head, put_two};
use mpy_io::{Failed, Sink};
use snap_grammar::SnapFault;

/// What is said of the fault of a snapshot.
fn snapshot_text(fault: SnapFault) -> &'static [u8]
    ensures { result.now ≡ spec.snapshot_text fault }
{
    match fault {
        SnapFault::BadHeader => b"1 BadHeader",
        SnapFault::BadForm => b"2 BadForm",
        SnapFault::BadState => b"3 BadState",
    }
}

/// Says why a run doesn't go on from the file of this name.
pub(crate) fn say_snapshot<E: Sink>(say: &mut E, name: &str, fault: SnapFault) -> Result<(), Failed>
    ensures { Puts (E.told say.old) (E.told say.new) (E.count say.old) (E.count say.new) (snapshot_line name.now fault) result }
{
    put_head(say, name, b": snapshot ")?;
    put_two(say, snapshot_text(fault), b"\n")
}
