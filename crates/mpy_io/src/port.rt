//! A port of numbers.

ghost use Rattle.std.specs.Prelude.{◌≡◌, ℕ, IfSome, is_err, slice_get};
ghost use Rattle.mpy_io.specs.Ports.{PortView, Puts, Gets};

use crate::Failed;

/// What takes numbers, and gives numbers as answers.
pub trait Port: Drop {
    /// The port's contents, where it tells them, and how often a call has failed. That count never falls, and stands
    /// still at 2^64 - 1.
    ghost seen: { Self → PortView };

    /// Writes a number.
    fn put(&mut self, n: i32) -> Result<(), Failed>
        ensures { Puts (seen self.old) (seen self.new) n (is_err result) };

    /// Takes the first pending answer. None says that no answer is pending.
    fn get(&mut self) -> Result<Option<i32>, Failed>
        ensures { Gets (seen self.old) (seen self.new) result };

    /// The i-th number that was written, counted from 0. A port that tells nothing may keep none.
    fn written_at(&self, i: usize) -> Option<i32>
        ensures { IfSome (seen self.now).told (λ port. result ≡ slice_get port.written i) };

    /// How many calls have failed so far.
    fn faults(&self) -> u64
        ensures { result ≡ (seen self.now).count };
}

/// A boxed port is the port in its box.
impl Port for Box<dyn Port> {
    ghost seen = { λ b. (Port-box b).seen b.value };

    fn put(&mut self, n: i32) -> Result<(), Failed> {
        (**self).put(n)
    }

    fn get(&mut self) -> Result<Option<i32>, Failed> {
        (**self).get()
    }

    fn written_at(&self, i: usize) -> Option<i32> {
        (**self).written_at(i)
    }

    fn faults(&self) -> u64 {
        (**self).faults()
    }
}
