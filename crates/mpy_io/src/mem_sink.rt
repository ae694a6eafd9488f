//! A sink in memory, some of whose calls fail.

ghost use Rattle.std.specs.Prelude.{◌≡◌, ◌≢◌, ◌⊎◌, Some, ◌++◌, Contains, OnOk, OnErr, IsOk, IsErr, is_err, if◌then◌else◌};
ghost use Rattle.mpy_io.specs.Count.{Counts, Rose};
ghost use Rattle.mpy_io.specs.Told.{AppendsFront};
ghost use Rattle.mpy_io.specs.Memory.{next, half};

use crate::cut::cut;
use crate::{Failed, Sink};
use std::alloc::Global;
use std::marker::Model;

/// Keeps what is put. The calls of the given numbers, counted from 0, fail and leave the first half of their piece.
#[derive(Debug, Drop)]
pub struct MemSink {
    bytes: Vec<u8>,
    fail: Vec<u64>,
    calls: u64,
    faults: u64,
    starved: u64,
}

impl Model for MemSink {
    ghost use Rattle.mpy_io.specs.Memory.{SinkState};

    ghost Value = { SinkState };

    ghost view = { λ s. record { bytes = s.bytes.items; fail = s.fail.items; calls = s.calls; faults = s.faults; starved = s.starved } };
}

impl MemSink {
    ghost use Rattle.std.specs.Prelude.{[]};

    /// A sink of whose calls those fail that have these numbers, counted from 0.
    pub fn new(alloc: Global, fail: Vec<u64>) -> MemSink
        ensures { result ≡ record { bytes = []; fail = fail.items; calls = 0; faults = 0; starved = 0 } }
    {
        MemSink {
            bytes: Vec::new(alloc),
            fail,
            calls: 0,
            faults: 0,
            starved: 0,
        }
    }

    /// All bytes that were put, in order.
    pub fn bytes(&self) -> &[u8]
        ensures { result.now ≡ self.now.bytes }
    {
        &self.bytes
    }

    /// How many calls failed for want of memory.
    pub fn starved(&self) -> u64
        ensures { result ≡ self.now.starved }
    {
        self.starved
    }
}

impl Sink for MemSink {
    ghost use Rattle.std.specs.Prelude.{[]};

    ghost told = { λ s. Some s.bytes };

    ghost held = { λ _. [] };

    ghost count = { λ s. s.faults };

    fn put(&mut self, bytes: &[u8]) -> Result<(), Failed>
        ensures ok { OnOk result (self.new.bytes ≡ self.old.bytes ++ bytes.now) }
        ensures err { OnErr result (AppendsFront (Some self.old.bytes) (Some self.new.bytes) bytes.now) }
        ensures cause { Counts self.old.faults self.new.faults (is_err result) }

        // A call fails where its number is listed, and else only where memory isn't found.
        ensures listed { Contains self.old.fail self.old.calls → IsErr result }
        ensures starved { IsErr result → Contains self.old.fail self.old.calls ⊎ Rose self.old.starved self.new.starved }

        // A listed call leaves the half of its piece, and one that finds no memory leaves nothing.
        ensures half { Contains self.old.fail self.old.calls
            → (self.new.bytes ≡ self.old.bytes ++ half bytes.now) ⊎ Rose self.old.starved self.new.starved }
        ensures unfed { self.new.starved ≢ self.old.starved → self.new.bytes ≡ self.old.bytes }
        ensures fed { IsOk result → self.new.starved ≡ self.old.starved }
        ensures by_one { (self.new.starved ≡ self.old.starved) ⊎ (self.new.starved ≡ next self.old.starved) }

        ensures counted { self.new.faults ≡ (if is_err result then next self.old.faults else self.old.faults) }
        ensures next { (self.new.calls ≡ next self.old.calls) × (self.new.fail ≡ self.old.fail) }
    {
        let listed = self.fail.contains(&self.calls);
        self.calls = self.calls.saturating_add(1);
        if self.bytes.extend_from_slice(cut(bytes, listed)).is_err() {
            self.starved = self.starved.saturating_add(1);
            self.faults = self.faults.saturating_add(1);
            return Err(Failed);
        }
        if listed {
            self.faults = self.faults.saturating_add(1);
            return Err(Failed);
        }
        Ok(())
    }

    /// Nothing is held back, so it never fails.
    fn flush(&mut self) -> Result<(), Failed>
        ensures { IsOk result × (self.new ≡ self.old) }
    {
        Ok(())
    }

    fn faults(&self) -> u64 {
        self.faults
    }
}
