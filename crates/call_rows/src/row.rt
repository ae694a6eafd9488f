//! One row: a source, how it is compiled, and what it comes to.

use crate::source::{Source, counted, put_often};
use mpy_base::Refused;
use mpy_compile::compile;
use std::alloc::{AllocError, Global};

/// What a source comes to.
#[derive(Clone, Copy, PartialEq)]
pub enum Outcome {
    /// A file of this length with this checksum.
    File { length: usize, checksum: u32 },
    /// The fault with this number, in this line.
    Fault { code: u8, line: u32 },
    NoMemory,
}

/// The Adler-32 of the bytes.
fn checksum(bytes: &[u8]) -> u32 {
    let mut low: u32 = 1;
    let mut high: u32 = 0;
    for byte in bytes {
        low = low.wrapping_add(u32::from(*byte)) % 65_521;
        high = high.wrapping_add(low) % 65_521;
    }
    high.wrapping_mul(65_536).wrapping_add(low)
}

/// Two numbers with a blank between.
fn numbers(text: &str) -> (usize, u32) {
    let (first, rest) = counted(text);
    (first, rest.parse::<u32>().unwrap_or(0))
}

/// A source with the level at which it is compiled and the name that its file stores.
#[derive(Drop)]
pub struct Row {
    about: String,
    level: u8,
    stored: Vec<u8>,
    source: Source,
}

impl Row {
    /// A row about a limit, as yet with an empty source, level 0 and no stored name.
    pub fn new(alloc: Global, about: &str) -> Result<Row, AllocError> {
        Ok(Row {
            about: String::from_str(alloc, about)?,
            level: 0,
            stored: Vec::new(alloc),
            source: Source::new(alloc),
        })
    }

    /// What the row is about, as its table says.
    pub fn about(&self) -> &str {
        &self.about
    }

    /// What the row's source comes to: its file, or its fault.
    fn outcome(&self, alloc: Global) -> Outcome {
        let stored = self.stored.as_slice();
        let is_ascii = stored.iter().all(|byte| *byte < 128);
        if self.level > 3 || !is_ascii {
            return Outcome::NoMemory;
        }
        match compile(alloc, self.source.bytes(), self.level, stored) {
            Ok(file) => Outcome::File {
                length: file.len(),
                checksum: checksum(&file),
            },
            Err(Refused::Fault(fault)) => Outcome::Fault {
                code: fault.code.number(),
                line: fault.line,
            },
            Err(Refused::NoMemory) => Outcome::NoMemory,
        }
    }

    /// Takes one more line. Does the row come to what it says, if the line says it?
    pub fn goes_on(&mut self, alloc: Global, line: &str) -> Result<bool, AllocError> {
        let (tag, rest) = line.split_once(" ").unwrap_or((line, ""));
        match tag {
            "$" => {
                let (level, name) = counted(rest);
                let (count, name) = counted(name);
                self.level = u8::try_from(level).unwrap_or(255);
                put_often(&mut self.stored, count, name, "")?;
            }
            "=" => {
                let (length, checksum) = numbers(rest);
                return Ok(self.outcome(alloc) == Outcome::File { length, checksum });
            }
            "!" => {
                let (code, line) = numbers(rest);
                let code = u8::try_from(code).unwrap_or(0);
                return Ok(self.outcome(alloc) == Outcome::Fault { code, line });
            }
            _ => self.source.add(alloc, tag, rest)?,
        }
        Ok(true)
    }
}
