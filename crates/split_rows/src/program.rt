//! A program, and what its run comes to.

use mpy_base::{NoMemory, Room};
use mpy_io::ScriptPort;
use port_set::PortSet;
use std::alloc::{AllocError, Global};

/// A program's files, its port and its room, and what its run comes to.
#[derive(Drop)]
pub struct Program {
    /// The first is the main one.
    pub files: Vec<(String, Vec<u8>)>,
    /// The answers of the port, if there is one.
    answers: Option<Vec<i32>>,
    /// The calls of the port that fail.
    fails: Vec<u64>,
    pub room: Room,
    pub text: Vec<u8>,
    /// What the port is to have written.
    pub numbers: Vec<i32>,
    /// How it ends, in a word.
    pub end: String,
    pub steps: u32,
    pub used: Room,
}

/// The value of a hexadecimal digit.
fn digit_of(byte: u8) -> u8 {
    if byte < b'a' {
        byte.wrapping_sub(b'0')
    } else {
        byte.wrapping_sub(b'a').wrapping_add(10)
    }
}

/// Adds bytes that are written in hexadecimal.
fn put_bytes(to: &mut Vec<u8>, digits: &str) -> Result<(), AllocError> {
    for pair in digits.as_bytes().chunks_exact(2) {
        if let [high, low] = pair {
            to.push(
                digit_of(*high)
                    .wrapping_mul(16)
                    .wrapping_add(digit_of(*low)),
            )?;
        }
    }
    Ok(())
}

/// Adds a line.
fn put_line(to: &mut Vec<u8>, line: &str) -> Result<(), AllocError> {
    to.extend_from_slice(line.as_bytes())?;
    to.push(b'\n')?;
    Ok(())
}

/// The numbers with spaces between.
fn numbers(alloc: Global, text: &str) -> Result<Vec<i32>, AllocError> {
    let mut numbers = Vec::new(alloc);
    for word in text.split(" ") {
        if let Ok(number) = word.parse::<i32>() {
            numbers.push(number)?;
        }
    }
    Ok(numbers)
}

/// Cells, and behind a space bytes.
fn room(text: &str) -> Room {
    let (cells, bytes) = text.split_once(" ").unwrap_or(("0", "0"));
    Room {
        cells: cells.parse::<u32>().unwrap_or(0),
        bytes: bytes.parse::<u32>().unwrap_or(0),
    }
}

impl Program {
    /// A program without files, that is run in an arena of the size that `mpy run` takes where nothing is said.
    pub fn new(alloc: Global) -> Program {
        let room = Room {
            cells: 65_536,
            bytes: 262_144,
        };
        Program {
            files: Vec::new(alloc),
            answers: None,
            fails: Vec::new(alloc),
            room,
            text: Vec::new(alloc),
            numbers: Vec::new(alloc),
            end: String::new(alloc),
            steps: 0,
            used: room,
        }
    }

    /// More of the last file.
    fn add_to_file(&mut self, digits: &str) -> Result<(), AllocError> {
        match self.files.last_mut() {
            Some((_, file)) => put_bytes(file, digits),
            None => Ok(()),
        }
    }

    /// One more line.
    pub fn add(&mut self, alloc: Global, line: &str) -> Result<(), AllocError> {
        let (tag, rest) = line.split_once(" ").unwrap_or((line, ""));
        match tag {
            "@" => self
                .files
                .push((String::from_str(alloc, rest)?, Vec::new(alloc)))?,
            "x" => self.add_to_file(rest)?,
            "?" => self.answers = Some(numbers(alloc, rest)?),
            "!" => self.fails.push(rest.parse::<u64>().unwrap_or(0))?,
            "r" => self.room = room(rest),
            ">" => put_line(&mut self.text, rest)?,
            "+" => self.text.extend_from_slice(rest.as_bytes())?,
            "w" => self.numbers = numbers(alloc, rest)?,
            "=" => self.end = String::from_str(alloc, rest)?,
            "s" => self.steps = rest.parse::<u32>().unwrap_or(0),
            "u" => self.used = room(rest),
            _ => {}
        }
        Ok(())
    }

    /// No port, or one with the answers, some of whose calls fail.
    pub fn ports(&self, alloc: Global) -> Result<PortSet<ScriptPort>, NoMemory> {
        let mut ports = Vec::new(alloc);
        if let Some(list) = &self.answers {
            let mut answers = Vec::new(alloc);
            answers.extend_from_slice(list)?;
            let mut fails = Vec::new(alloc);
            fails.extend_from_slice(&self.fails)?;
            ports.push(ScriptPort::new(answers, Vec::new(alloc), fails))?;
        }
        Ok(PortSet::new(ports))
    }
}
