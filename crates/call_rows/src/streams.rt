//! A folder on disk, an output that gathers, and a port over lines.

use mpy_base::NoMemory;
use mpy_io::{DiskFolder, Failed, Folder, InputPort, OutSink, Port, ReadFault, Sink};
use std::alloc::{AllocError, Global};
use std::io::{ErrorKind, Write};
use std::{fs, io, process};

/// A writer that takes nothing.
#[derive(Drop)]
struct Full;

impl Write for Full {
    fn write(&mut self, _buf: &[u8]) -> io::Result<usize> {
        Ok(0)
    }

    fn flush(&mut self) -> io::Result<()> {
        Ok(())
    }
}

/// How a put went, in a word.
fn put(outcome: Result<(), Failed>) -> &'static str {
    match outcome {
        Ok(()) => "ok",
        Err(Failed) => "failed",
    }
}

/// What a read gave, or why it gave nothing.
fn read(alloc: Global, outcome: Result<Vec<u8>, ReadFault>) -> Result<String, AllocError> {
    match outcome {
        Ok(bytes) => crate::spelling::to_text(alloc, &bytes),
        Err(fault) => format!(in alloc; "{fault:?}"),
    }
}

/// What a get gave.
fn got(alloc: Global, outcome: Result<Option<i32>, Failed>) -> Result<String, AllocError> {
    match outcome {
        Ok(Some(n)) => format!(in alloc; "{n}"),
        Ok(None) => String::from_str(alloc, "none"),
        Err(Failed) => String::from_str(alloc, "failed"),
    }
}

/// Tries the files of a folder, and prints what came.
fn print_folder(rt: &HostRuntime) -> io::Result<()> {
    let alloc = rt.alloc();
    let name = format!(in alloc; "call_rows_{}", process::id(rt.process()))?;
    let mut folder = DiskFolder::new(rt, String::from_str(alloc, "/tmp")?);
    println!(rt; "read {}", read(alloc, folder.read(alloc, &name))?)?;
    println!(rt; "write {}", put(folder.write(&name, b"one")))?;
    println!(rt; "append {}", put(folder.append(&name, b"two")))?;
    println!(rt; "read {}", read(alloc, folder.read(alloc, &name))?)?;
    println!(rt; "write {}", put(folder.write(&name, b"three")))?;
    println!(rt; "read {}", read(alloc, folder.read(alloc, &name))?)?;
    println!(rt;
        "write below a file {}",
        put(folder.write("no_such/a", b"b"))
    )?;
    println!(rt;
        "read a zero byte {}",
        read(alloc, folder.read(alloc, "\0"))?
    )?;
    println!(rt; "faults {}", folder.faults())?;
    fs::remove_file(rt, format!(in alloc; "/tmp/{name}")?)
}

/// A sink that gathers what is put for a writer.
fn gathering<W: Write + Drop>(alloc: Global, writer: W) -> io::Result<OutSink<W>> {
    match OutSink::gathering(alloc, writer) {
        Ok(sink) => Ok(sink),
        Err(NoMemory) => Err(io::Error::from(ErrorKind::OutOfMemory)),
    }
}

/// Tries sinks, and prints what came.
fn print_sinks(rt: &HostRuntime) -> io::Result<()> {
    let alloc = rt.alloc();
    let mut sink = gathering(alloc, Vec::new(alloc))?;
    println!(rt; "put {} {}", put(sink.put(b"ab")), sink.writer().len())?;
    println!(rt; "flush {} {}", put(sink.flush()), sink.writer().len())?;
    let mut full = gathering(alloc, Full)?;
    println!(rt; "put {}", put(full.put(b"abc")))?;
    println!(rt; "flush {}, faults {}", put(full.flush()), full.faults())
}

/// Tries a port, and prints what came.
fn print_port(rt: &HostRuntime) -> io::Result<()> {
    let alloc = rt.alloc();
    let lines = b"12\n-2147483648\n+5\n\n 1\n2147483648\n123456789012345\n-07".as_slice();
    let mut port = InputPort::new(lines, Vec::new(alloc));
    for _line in 0..10 {
        println!(rt; "get {}", got(alloc, port.get())?)?;
    }
    println!(rt; "put {}", put(port.put(-3)))?;
    println!(rt;
        "written {}",
        crate::spelling::to_text(alloc, port.writer())?
    )?;
    println!(rt; "faults {}", port.faults())
}

/// Prints how a folder, sinks and a port answer in turn, calls that fail among them.
pub(crate) fn print_streams(rt: &HostRuntime) -> io::Result<()> {
    print_folder(rt)?;
    print_sinks(rt)?;
    print_port(rt)
}
