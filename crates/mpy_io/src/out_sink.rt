//! A sink that writes on.

ghost use Rattle.std.specs.Prelude.{◌≡◌, [], IfOk, OnOk, OnErr, is_err, if◌then◌else◌};
ghost use Rattle.std.specs.Io.KnownBytes.{Appends, Keeps};
ghost use Rattle.mpy_io.specs.Count.{Counts};
ghost use Rattle.mpy_io.specs.Told.{AppendsFront};
ghost use Rattle.mpy_io.specs.Memory.{next};
ghost use Rattle.mpy_io.specs.Out.{out_told};

use crate::{Failed, Sink};
use mpy_base::NoMemory;
use std::alloc::Global;
use std::io::{BufWriter, ErrorKind, Write};
use std::marker::Model;

/// How many bytes a sink that gathers may hold back.
const GATHERED_BYTES: usize = 65_536;

/// Hands what is put to a writer: each piece at once, or gathered, so that few calls of the writer take many pieces.
/// A write that is interrupted is tried again, and one that takes nothing is a fault.
///
/// What is gathered is certain to be written only after a flush that answers Ok. A sink that is dropped tries to write
/// what it still holds, and tells nothing of how that went.
#[derive(Drop)]
pub struct OutSink<W: Write + Drop> {
    writer: BufWriter<W>,
    faults: u64,
}

impl<W: Write + Drop> Model for OutSink<W> {
    ghost use Rattle.std.specs.Io.Buffered.{writer_inner, writer_buffer};
    ghost use Rattle.mpy_io.specs.Out.{OutState};

    ghost Value = { OutState W };

    ghost view = { λ s. record { writer = writer_inner s.writer; held = writer_buffer s.writer; faults = s.faults } };
}

impl<W: Write + Drop> OutSink<W> {
    /// A sink that gathers nothing.
    pub fn new(alloc: Global, writer: W) -> OutSink<W>
        ensures { result ≡ record { writer = writer; held = []; faults = 0 } }
    {
        let Ok(writer) = BufWriter::with_capacity(alloc, 0, writer) else {
            unreachable!();
        };
        OutSink { writer, faults: 0 }
    }

    /// A sink that gathers, unless memory isn't found.
    pub fn gathering(alloc: Global, writer: W) -> Result<OutSink<W>, NoMemory>
        ensures { IfOk result (λ sink. sink ≡ record { writer = writer; held = []; faults = 0 }) }
    {
        match BufWriter::with_capacity(alloc, GATHERED_BYTES, writer) {
            Ok(writer) => Ok(OutSink { writer, faults: 0 }),
            Err(_) => Err(NoMemory),
        }
    }

    /// What the bytes are written to. Those that are still gathered aren't there yet.
    pub fn writer(&self) -> &W
        ensures { result.now ≡ self.now.writer }
    {
        self.writer.get_ref()
    }
}

impl<W: Write + Drop> Sink for OutSink<W> {
    ghost told = { out_told W.contents };

    ghost held = { λ s. s.held };

    ghost count = { λ s. s.faults };

    fn put(&mut self, bytes: &[u8]) -> Result<(), Failed>
        ensures ok { OnOk result (Appends (out_told W.contents self.old) (out_told W.contents self.new) bytes.now) }
        ensures err { OnErr result (AppendsFront (out_told W.contents self.old) (out_told W.contents self.new) bytes.now) }
        ensures cause { Counts self.old.faults self.new.faults (is_err result) }
        ensures counted { self.new.faults ≡ (if is_err result then next self.old.faults else self.old.faults) }
    {
        let result = write_through(&mut self.writer, bytes);
        if result.is_err() {
            self.faults = self.faults.saturating_add(1);
        }
        result
    }

    fn flush(&mut self) -> Result<(), Failed>
        ensures same { Keeps (out_told W.contents self.old) (out_told W.contents self.new) }
        ensures ok { OnOk result (self.new.held ≡ []) }
        ensures cause { Counts self.old.faults self.new.faults (is_err result) }
        ensures counted { self.new.faults ≡ (if is_err result then next self.old.faults else self.old.faults) }
    {
        if self.writer.flush().is_err() {
            self.faults = self.faults.saturating_add(1);
            return Err(Failed);
        }
        Ok(())
    }

    fn faults(&self) -> u64 {
        self.faults
    }
}

/// Writes all bytes, and nothing where there are none.
fn write_through<W: Write>(writer: &mut W, bytes: &[u8]) -> Result<(), Failed>
    ensures ok { OnOk result (Appends (W.contents writer.old) (W.contents writer.new) bytes.now) }
    ensures err { OnErr result (AppendsFront (W.contents writer.old) (W.contents writer.new) bytes.now) }
{
    if bytes.is_empty() {
        return Ok(());
    }
    match writer.write(bytes) {
        Ok(count) if count == bytes.len() => Ok(()),
        Ok(0) => Err(Failed),
        Ok(count) => write_rest(writer, &bytes[count..]),
        Err(error) if error.kind() == ErrorKind::Interrupted => write_rest(writer, bytes),
        Err(_) => Err(Failed),
    }
}

/// What a first write left. It stands apart, so that a piece that is taken at once costs little.
#[cold]
#[inline(never)]
fn write_rest<W: Write>(writer: &mut W, bytes: &[u8]) -> Result<(), Failed>
    ensures ok { OnOk result (Appends (W.contents writer.old) (W.contents writer.new) bytes.now) }
    ensures err { OnErr result (AppendsFront (W.contents writer.old) (W.contents writer.new) bytes.now) }
{
    let mut rest = bytes;
    for _ in 0..u64::MAX {
        if rest.is_empty() {
            return Ok(());
        }
        match writer.write(rest) {
            Ok(0) => return Err(Failed),
            Ok(count) => rest = &rest[count..],
            Err(error) if error.kind() == ErrorKind::Interrupted => {}
            Err(_) => return Err(Failed),
        }
    }
    Err(Failed)
}
