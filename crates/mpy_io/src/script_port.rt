//! A port in memory, some of whose calls fail.

ghost use Rattle.std.specs.Prelude.{◌≡◌, ◌⊎◌, ◌↔◌, IsOk, IsErr, is_err, slice_get, if◌then◌else◌};
ghost use Rattle.mpy_io.specs.Memory.{next};
ghost use Rattle.mpy_io.specs.Ports.{Puts, Gets, IsFailing, called};
ghost use Rattle.mpy_io.specs.Script.{script_view};

use crate::{Failed, Port};
use std::marker::Model;
use std::vec::IntoIter;

/// Gives answers from a list, and keeps what is written. The calls of the given numbers, counted from 0 over puts and
/// gets, fail and change neither.
#[derive(Drop)]
pub struct ScriptPort {
    answers: IntoIter<i32>,
    written: Vec<i32>,
    fail: Vec<u64>,
    calls: u64,
    faults: u64,
    starved: u64,
}

impl Model for ScriptPort {
    ghost use Rattle.std.specs.Vec.Iter.{into_iter_items};
    ghost use Rattle.mpy_io.specs.Script.{ScriptState};

    ghost Value = { ScriptState };

    ghost view = { λ s. record {
      port = record { pending = into_iter_items s.answers; written = s.written.items; calls = s.calls; failing = s.fail.items };
      faults = s.faults;
      starved = s.starved;
    } };
}

impl ScriptPort {
    /// What is written is added to `written`, in the memory that it came from.
    pub fn new(answers: Vec<i32>, written: Vec<i32>, fail: Vec<u64>) -> ScriptPort
        ensures { result ≡ record {
          port = record { pending = answers.items; written = written.items; calls = 0; failing = fail.items };
          faults = 0;
          starved = 0;
        } }
    {
        ScriptPort {
            answers: answers.into_iter(),
            written,
            fail,
            calls: 0,
            faults: 0,
            starved: 0,
        }
    }

    /// How many puts failed for want of memory.
    pub fn starved(&self) -> u64
        ensures { result ≡ self.now.starved }
    {
        self.starved
    }

    /// Counts a call, which fails where it is listed.
    fn begin(&mut self) -> Result<(), Failed>
        ensures listed { IsErr result ↔ IsFailing self.old.port }
        ensures counted { self.new ≡ record self.old {
          port = called self.old.port;
          faults = if is_err result then next self.old.faults else self.old.faults;
        } }
    {
        let listed = self.fail.contains(&self.calls);
        self.calls = self.calls.saturating_add(1);
        if listed {
            self.faults = self.faults.saturating_add(1);
            return Err(Failed);
        }
        Ok(())
    }
}

impl Port for ScriptPort {
    ghost seen = { script_view };

    fn put(&mut self, n: i32) -> Result<(), Failed>
        ensures put { Puts (script_view self.old) (script_view self.new) n (is_err result) }

        // A call fails where it is listed, and else only where memory isn't found, which alone is counted as starved.
        ensures starved { IsErr result → IsFailing self.old.port ⊎ (self.new.starved ≡ next self.old.starved) }
        ensures fed { IsOk result ⊎ IsFailing self.old.port → self.new.starved ≡ self.old.starved }
        ensures counted { self.new.faults ≡ (if is_err result then next self.old.faults else self.old.faults) }
    {
        self.begin()?;
        if self.written.push(n).is_err() {
            self.starved = self.starved.saturating_add(1);
            self.faults = self.faults.saturating_add(1);
            return Err(Failed);
        }
        Ok(())
    }

    fn get(&mut self) -> Result<Option<i32>, Failed>
        ensures get { Gets (script_view self.old) (script_view self.new) result }
        ensures listed { IsErr result ↔ IsFailing self.old.port }
        ensures fed { self.new.starved ≡ self.old.starved }
        ensures counted { self.new.faults ≡ (if is_err result then next self.old.faults else self.old.faults) }
    {
        self.begin()?;
        Ok(self.answers.next())
    }

    fn written_at(&self, i: usize) -> Option<i32>
        ensures { result ≡ slice_get self.now.port.written i }
    {
        self.written.get(i).copied()
    }

    fn faults(&self) -> u64 {
        self.faults
    }
}
