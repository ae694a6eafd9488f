//! Bytes that are gathered, so that one put takes many lines.

ghost use Rattle.std.specs.Prelude.{◌≡◌, ◌≤◌, ◌+◌, ◌++◌, [], length, take, Some, ◌<◌, OnOk, OnErr, IsOk, is_err, codes, decimal};
ghost use Rattle.mpy_io.specs.Count.{Counts};
ghost use Rattle.mpy_io.specs.Told.{AppendsFront};
ghost use Rattle.mpy_dump.specs.Pen.{Gathers};
ghost use Rattle.mpy_dump.specs.Puts.{Puts};
ghost use Rattle.mpy_dump.specs.Short.{short_text, begins};

use crate::head::Head;
use crate::put::put;
use crate::short::{SHORT_BYTES, Short};
use itoa::write_digits;
use mpy_io::{Failed, Sink};
use std::marker::Model;
use std::simd::u8x32;

/// How many bytes a pen holds at most.
pub(crate) const PEN_BYTES: usize = 4096;

/// How many digits a number has, which are five at most.
#[inline(always)]
fn digits_of(n: u32) -> usize
    requires { n < 100000 }
    ensures is { result ≡ length (decimal n) }
    ensures few { result ≤ 5 }
{
    if n >= 10_000 {
        5
    } else if n >= 1_000 {
        4
    } else if n >= 100 {
        3
    } else if n >= 10 {
        2
    } else {
        1
    }
}

/// Gathers bytes. As a sink it fails where a piece finds no room, and then stays as it was.
#[derive(Drop)]
pub(crate) struct Pen {
    bytes: [u8; PEN_BYTES],
    len: usize,
    faults: u64,
}

impl Model for Pen {
    ghost use Rattle.std.specs.Prelude.{◌≤◌, take};
    ghost use Rattle.mpy_dump.specs.Pen.{PenState};

    ghost Value = { PenState };

    ghost view = { λ p. record { text = take p.len p.bytes; faults = p.faults } };

    ghost invariant = { λ p. p.len ≤ 4096 };
}

impl Pen {
    /// A pen that has gathered nothing, and has room for 4,096 bytes.
    pub(crate) fn new() -> Pen
        ensures { result.text ≡ [] }
    {
        Pen {
            bytes: [0; PEN_BYTES],
            len: 0,
            faults: 0,
        }
    }

    /// What is gathered.
    pub(crate) fn text(&self) -> &[u8]
        ensures { result.now ≡ self.now.text }
    {
        &self.bytes[..self.len]
    }

    /// How many bytes are gathered.
    pub(crate) fn len(&self) -> usize
        ensures is { result ≡ length self.now.text }
        ensures room { result ≤ 4096 }
    {
        self.len
    }

    /// Keeps the first `len` bytes.
    pub(crate) fn cut(&mut self, len: usize)
        requires { len ≤ length self.old.text }
        ensures { self.new.text ≡ take len self.old.text }
    {
        self.len = len;
    }

    /// Adds a short text, for which there is room.
    #[inline(always)]
    pub(crate) fn add(&mut self, piece: &Short)
        requires { length self.old.text + 32 ≤ 4096 }
        ensures { self.new.text ≡ self.old.text ++ short_text piece.now }
    {
        let start = self.len;
        u8x32::from_slice(&piece.bytes).copy_to_slice(&mut self.bytes[start..start + SHORT_BYTES]);
        self.len = start + piece.len;
    }

    /// Adds the first `len` bytes of an array, for which there is room.
    #[inline(always)]
    pub(crate) fn add_front(&mut self, bytes: &[u8; SHORT_BYTES], len: usize)
        requires few { len ≤ 32 }
        requires room { length self.old.text + 32 ≤ 4096 }
        ensures { self.new.text ≡ self.old.text ++ take len bytes.now }
    {
        let start = self.len;
        u8x32::from_slice(bytes).copy_to_slice(&mut self.bytes[start..start + SHORT_BYTES]);
        self.len = start + len;
    }

    /// Adds what a line begins with, for which there is room.
    #[inline(always)]
    pub(crate) fn add_head(&mut self, head: &Head)
        requires room { length self.old.text + 32 ≤ 4096 }
        requires last { head.now.last < length (short_text head.now.text) }
        ensures { self.new.text ≡ self.old.text ++ begins head.now }
    {
        let start = self.len;
        self.add(&head.text);
        self.bytes[start + head.last] = head.digit;
    }

    /// Adds a number of at most five digits and the end of a line, for which there is room.
    #[inline(always)]
    pub(crate) fn add_number(&mut self, n: u32)
        requires few { n < 100000 }
        requires room { length self.old.text + 32 ≤ 4096 }
        ensures { self.new.text ≡ self.old.text ++ (decimal n ++ codes "\n") }
    {
        let end = self.len + digits_of(n);
        write_digits(u64::from(n), &mut self.bytes, end);
        self.bytes[end] = b'\n';
        self.len = end + 1;
    }
}

impl Sink for Pen {
    ghost told = { λ p. Some p.text };

    ghost held = { λ _. [] };

    ghost count = { λ p. p.faults };

    fn put(&mut self, bytes: &[u8]) -> Result<(), Failed>
        ensures ok { OnOk result (self.new.text ≡ self.old.text ++ bytes.now) }
        ensures err { OnErr result (self.new.text ≡ self.old.text) }
        ensures cause { Counts self.old.faults self.new.faults (is_err result) }
    {
        let start = self.len;
        if bytes.len() > PEN_BYTES - start {
            self.faults = self.faults.saturating_add(1);
            return Err(Failed);
        }
        let end = start + bytes.len();
        self.bytes[start..end].copy_from_slice(bytes);
        self.len = end;
        Ok(())
    }

    fn flush(&mut self) -> Result<(), Failed>
        ensures { IsOk result × (self.new ≡ self.old) }
    {
        Ok(())
    }

    fn faults(&self) -> u64 {
        self.faults
    }
}

/// Puts what the pen holds, and leaves it empty.
pub(crate) fn hand_over<S: Sink>(out: &mut S, pen: &mut Pen) -> Result<(), Failed>
    ensures puts { Puts S.told S.count out.old out.new pen.old.text result }
    ensures left { pen.new.text ≡ [] }
{
    let result = put(out, pen.text());
    pen.cut(0);
    result
}

/// Makes room for three short texts.
#[inline(always)]
pub(crate) fn make_room<S: Sink>(out: &mut S, pen: &mut Pen) -> Result<(), Failed>
    ensures gathers { Gathers S.told S.count out.old out.new pen.old.text [] pen.new.text result }
    ensures room { OnOk result (length pen.new.text + 96 ≤ 4096) }
{
    if pen.len() + 3 * SHORT_BYTES > PEN_BYTES {
        return hand_over(out, pen);
    }
    Ok(())
}
