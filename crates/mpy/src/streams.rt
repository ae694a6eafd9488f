//! Standard output and standard input, so that what is printed is seen by whoever is to answer.

use std::alloc::Global;
use std::cell::RefCell;
use std::io::{self, BufWriter, ErrorKind, IsTerminal, Read, Write};
use std::rt::Stdout;

/// How many bytes standard output may gather where it isn't a terminal.
const GATHERED_BYTES: usize = 65_536;

/// Standard output, behind what it gathers.
pub type Gathered = RefCell<BufWriter<Stdout>>;

/// Standard output, which gathers nothing on a terminal, unless memory isn't found.
pub fn gathered(alloc: Global, stdout: Stdout) -> io::Result<Gathered> {
    let most = if stdout.is_terminal() {
        0
    } else {
        GATHERED_BYTES
    };
    let writer = BufWriter::with_capacity(alloc, most, stdout)?;
    Ok(RefCell::new(writer))
}

/// Writes on to what is gathered.
#[derive(Drop)]
pub struct Gathering<'a> {
    to: &'a Gathered,
}

impl<'a> Gathering<'a> {
    /// A writer to what is gathered here.
    pub fn new(to: &'a Gathered) -> Gathering<'a> {
        Gathering { to }
    }
}

/// What a writer answers that is in use. No call of it begins within another one.
fn in_use() -> io::Error {
    io::Error::from(ErrorKind::Other)
}

impl Write for Gathering<'_> {
    fn write(&mut self, bytes: &[u8]) -> io::Result<usize> {
        match self.to.try_borrow_mut() {
            Ok(mut writer) => writer.write(bytes),
            Err(_) => Err(in_use()),
        }
    }

    fn flush(&mut self) -> io::Result<()> {
        match self.to.try_borrow_mut() {
            Ok(mut writer) => writer.flush(),
            Err(_) => Err(in_use()),
        }
    }
}

/// Reads answers, and hands on what is gathered before it may wait for one. Where that fails, the output holds it back and
/// fails by itself.
#[derive(Drop)]
pub struct Asking<'a, R: Read + Drop> {
    reader: R,
    output: Gathering<'a>,
}

impl<'a, R: Read + Drop> Asking<'a, R> {
    /// A reader that hands on what is gathered here.
    pub fn new(reader: R, to: &'a Gathered) -> Asking<'a, R> {
        Asking {
            reader,
            output: Gathering::new(to),
        }
    }
}

impl<R: Read + Drop> Read for Asking<'_, R> {
    fn read(&mut self, bytes: &mut [u8]) -> io::Result<usize> {
        let _ = self.output.flush();
        self.reader.read(bytes)
    }
}
