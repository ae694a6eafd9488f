//! A port over a reader and a writer.

ghost use Rattle.std.specs.Prelude.{◌≡◌, ℤ, None, IfOk, OnOk, option_to_list, is_err, if◌then◌else◌};
ghost use Rattle.std.specs.Io.KnownBytes.{Appends, Consumes, IsAtEnd};
ghost use Rattle.mpy_io.specs.Count.{Counts};
ghost use Rattle.mpy_io.specs.Decimal.{IsDecimal, TakesLine, port_line};
ghost use Rattle.mpy_io.specs.Memory.{next};
ghost use Rattle.mpy_io.specs.Ports.{Puts, Gets};

use crate::{Failed, Port};
use std::io::{ErrorKind, Read, Write};
use std::str;

/// The most bytes of a line that is read, with its LF.
const MAX_LINE_BYTES: usize = 12;

/// Reads its answers from lines and writes its numbers as lines, as over standard input and standard error. As a port
/// it tells nothing.
///
/// An answer is a decimal number on a line of at most 12 bytes with its LF, which the last line may lack. The end of the
/// lines gives None; another line, and 12 bytes without LF, are faults. A number N is written as `port N` and LF. Bytes
/// are read one at a time, so that a fault leaves what is behind it to the next get.
#[derive(Drop)]
pub struct InputPort<R: Read + Drop, W: Write + Drop> {
    reader: R,
    writer: W,
    faults: u64,
}

impl<R: Read + Drop, W: Write + Drop> InputPort<R, W> {
    /// A port that reads its answers from the one and writes its numbers to the other.
    pub fn new(reader: R, writer: W) -> InputPort<R, W>
        ensures { result ≡ record { reader = reader; writer = writer; faults = 0 } }
    {
        InputPort {
            reader,
            writer,
            faults: 0,
        }
    }

    /// What the numbers are written to.
    pub fn writer(&self) -> &W
        ensures { result.now ≡ self.now.writer }
    {
        &self.writer
    }
}

impl<R: Read + Drop, W: Write + Drop> Port for InputPort<R, W> {
    ghost seen = { λ p. record { told = None; count = p.faults } };

    fn put(&mut self, n: i32) -> Result<(), Failed>
        ensures line { OnOk result (Appends (W.contents self.old.writer) (W.contents self.new.writer) (port_line n)) }
        ensures cause { Counts self.old.faults self.new.faults (is_err result) }
        ensures counted { self.new.faults ≡ (if is_err result then next self.old.faults else self.old.faults) }
    {
        if writeln!(self.writer, "port {n}").is_err() {
            self.faults = self.faults.saturating_add(1);
            return Err(Failed);
        }
        Ok(())
    }

    fn get(&mut self) -> Result<Option<i32>, Failed>
        ensures line { IfOk result (TakesLine (R.remaining self.old.reader) (R.remaining self.new.reader)) }
        ensures cause { Counts self.old.faults self.new.faults (is_err result) }
        ensures counted { self.new.faults ≡ (if is_err result then next self.old.faults else self.old.faults) }
    {
        let result = next_answer(&mut self.reader);
        if result.is_err() {
            self.faults = self.faults.saturating_add(1);
        }
        result
    }

    fn written_at(&self, _i: usize) -> Option<i32>
        ensures { result ≡ None }
    {
        None
    }

    fn faults(&self) -> u64 {
        self.faults
    }
}

/// The number on the next line, None at the end.
fn next_answer<R: Read>(reader: &mut R) -> Result<Option<i32>, Failed>
    ensures { IfOk result (TakesLine (R.remaining reader.old) (R.remaining reader.new)) }
{
    let mut line = [0; MAX_LINE_BYTES];
    for len in 0..MAX_LINE_BYTES {
        match next_byte(reader)? {
            None if len == 0 => return Ok(None),
            None => return Ok(Some(number_of(&line[..len])?)),
            Some(b'\n') => return Ok(Some(number_of(&line[..len])?)),
            Some(byte) => line[len] = byte,
        }
    }
    Err(Failed)
}

/// The next byte, None at the end. A read that is interrupted is tried again.
fn next_byte<R: Read>(reader: &mut R) -> Result<Option<u8>, Failed>
    ensures taken { IfOk result (λ byte. Consumes (R.remaining reader.old) (R.remaining reader.new) (option_to_list byte)) }
    ensures end { result ≡ Ok None → IsAtEnd (R.remaining reader.new) }
{
    let mut byte = [0];
    for _ in 0..u64::MAX {
        match reader.read(&mut byte) {
            Ok(0) => return Ok(None),
            Ok(_) => return Ok(Some(byte[0])),
            Err(error) if error.kind() == ErrorKind::Interrupted => {}
            Err(_) => return Err(Failed),
        }
    }
    Err(Failed)
}

/// The number that a line is: decimal digits, with a minus sign or without one.
fn number_of(text: &[u8]) -> Result<i32, Failed>
    ensures found { IfOk result (λ n. IsDecimal text.now n) }
    ensures only { (n : ℤ) → IsDecimal text.now n → result ≡ Ok n }
{
    if text.starts_with(b"+") {
        return Err(Failed);
    }
    let text = str::from_utf8(text).map_err(|_| Failed)?;
    text.parse().map_err(|_| Failed)
}
