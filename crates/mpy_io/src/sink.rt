//! A sink of bytes.

ghost use Rattle.std.specs.Prelude.{◌≡◌, ℕ, List, [], Option, OnOk, OnErr, is_err};
ghost use Rattle.std.specs.Io.KnownBytes.{Appends, Keeps};
ghost use Rattle.mpy_io.specs.Count.{Counts};
ghost use Rattle.mpy_io.specs.Told.{AppendsFront};

use crate::Failed;

/// What takes bytes in order.
pub trait Sink {
    /// The bytes that were put so far, where the sink tells them.
    ghost told: { Self → Option (List ℕ) };

    /// Those of them, at the end, that the sink still holds back.
    ghost held: { Self → List ℕ };

    /// How often a put or a flush has failed. It never falls, and stands still at 2^64 - 1.
    ghost count: { Self → ℕ };

    /// Puts a piece. After an `Err` a front of it was put.
    fn put(&mut self, bytes: &[u8]) -> Result<(), Failed>
        ensures ok { OnOk result (Appends (told self.old) (told self.new) bytes.now) }
        ensures err { OnErr result (AppendsFront (told self.old) (told self.new) bytes.now) }
        ensures cause { Counts (count self.old) (count self.new) (is_err result) };

    /// Hands on what is held back. After an `Err` a front of it went out, and a later call may try the rest again.
    fn flush(&mut self) -> Result<(), Failed>
        ensures same { Keeps (told self.old) (told self.new) }
        ensures ok { OnOk result (held self.new ≡ []) }
        ensures cause { Counts (count self.old) (count self.new) (is_err result) };

    /// How many puts and flushes have failed so far.
    fn faults(&self) -> u64
        ensures { result ≡ count self.now };
}
