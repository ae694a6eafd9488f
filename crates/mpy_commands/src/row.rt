//! A row: a folder, a command that is called in it, and what is to come of that.

use crate::parts::{numbers, put, words};
use mpy_io::{MemFolder, MemSink, Port, ScriptPort};
use mpy_tool::{Outside, mpy};
use port_set::PortSet;
use std::alloc::{AllocError, Global};

/// A name, and the bytes of its file.
type File = (String, Vec<u8>);

/// What the forms in memory are made of for a command, and which of their calls fail.
#[derive(Drop)]
struct Given {
    words: Vec<String>,
    files: Vec<File>,
    folder_fails: Vec<u64>,
    out_fails: Vec<u64>,
    say_fails: Vec<u64>,
    has_port: bool,
    answers: Vec<i32>,
    port_fails: Vec<u64>,
}

/// What is to come of it.
#[derive(Drop)]
struct Wanted {
    status: u8,
    out: Vec<u8>,
    /// Whether only a front of that is printed.
    is_front: bool,
    say: Vec<u8>,
    /// What the port is to have written.
    numbers: Vec<i32>,
    /// The files that are to be there; one with no byte isn't to be there.
    files: Vec<File>,
}

/// A command, and what is to come of it.
#[derive(Drop)]
pub struct Row {
    given: Given,
    wanted: Wanted,
}

/// Adds a file of this name, with no bytes yet.
fn add_file(alloc: Global, files: &mut Vec<File>, name: &str) -> Result<(), AllocError> {
    let name = String::from_str(alloc, name)?;
    files.push((name, Vec::new(alloc)))?;
    Ok(())
}

/// Adds to the last file.
fn add_bytes(files: &mut Vec<File>, tag: &str, rest: &str) -> Result<(), AllocError> {
    match files.last_mut() {
        Some((_, bytes)) => put(bytes, tag, rest),
        None => Ok(()),
    }
}

/// Adds the number of a call that fails.
fn add_call(fails: &mut Vec<u64>, number: &str) -> Result<(), AllocError> {
    fails.push(number.parse::<u64>().unwrap_or(0))?;
    Ok(())
}

impl Given {
    /// No words, no file and no port, and no call that fails.
    fn new(alloc: Global) -> Given {
        Given {
            words: Vec::new(alloc),
            files: Vec::new(alloc),
            folder_fails: Vec::new(alloc),
            out_fails: Vec::new(alloc),
            say_fails: Vec::new(alloc),
            has_port: false,
            answers: Vec::new(alloc),
            port_fails: Vec::new(alloc),
        }
    }

    /// One more line, if it is of these.
    fn add(&mut self, alloc: Global, tag: &str, rest: &str) -> Result<(), AllocError> {
        match tag {
            "$" => self.words = words(alloc, rest)?,
            "@" => add_file(alloc, &mut self.files, rest)?,
            "|" | "x" => add_bytes(&mut self.files, tag, rest)?,
            "!f" => add_call(&mut self.folder_fails, rest)?,
            "!o" => add_call(&mut self.out_fails, rest)?,
            "!s" => add_call(&mut self.say_fails, rest)?,
            "!p" => add_call(&mut self.port_fails, rest)?,
            "?" => {
                self.has_port = true;
                self.answers = numbers(alloc, rest)?;
            }
            _ => {}
        }
        Ok(())
    }
}

impl Wanted {
    /// Status 0, and nothing else.
    fn new(alloc: Global) -> Wanted {
        Wanted {
            status: 0,
            out: Vec::new(alloc),
            is_front: false,
            say: Vec::new(alloc),
            numbers: Vec::new(alloc),
            files: Vec::new(alloc),
        }
    }

    /// One more line, if it is of these.
    fn add(&mut self, alloc: Global, tag: &str, rest: &str) -> Result<(), AllocError> {
        match tag {
            "=" => self.status = rest.parse::<u8>().unwrap_or(255),
            ">" | "+" => put(&mut self.out, tag, rest)?,
            "<" => self.is_front = true,
            "-" => put(&mut self.say, tag, rest)?,
            "-+" => put(&mut self.say, "+", rest)?,
            "w" => self.numbers = numbers(alloc, rest)?,
            "^" => add_file(alloc, &mut self.files, rest)?,
            "o" => add_bytes(&mut self.files, tag, rest)?,
            _ => {}
        }
        Ok(())
    }

    /// Is this printed?
    fn is_printed(&self, out: &[u8]) -> bool {
        if self.is_front {
            self.out.starts_with(out)
        } else {
            self.out.as_slice() == out
        }
    }

    /// Has the port written these numbers and no others, or is there none and are there none?
    fn is_put(&self, ports: PortSet<ScriptPort>) -> bool {
        match ports.into_ports().first() {
            Some(port) => {
                let mut numbers = self.numbers.iter().enumerate();
                numbers.all(|(at, number)| port.written_at(at) == Some(*number))
                    && port.written_at(self.numbers.len()).is_none()
            }
            None => self.numbers.is_empty(),
        }
    }

    /// Has the folder these files, and none of those with no byte?
    fn is_held(&self, folder: &MemFolder) -> bool {
        for (name, bytes) in &self.files {
            let is_so = match folder.get(name) {
                Some(file) => file == bytes.as_slice(),
                None => bytes.is_empty(),
            };
            if !is_so {
                return false;
            }
        }
        true
    }
}

impl Row {
    /// The row of these lines.
    pub fn read(alloc: Global, lines: &str) -> Result<Row, AllocError> {
        let mut given = Given::new(alloc);
        let mut wanted = Wanted::new(alloc);
        for line in lines.split("\n") {
            let (tag, rest) = line.split_once(" ").unwrap_or((line, ""));
            given.add(alloc, tag, rest)?;
            wanted.add(alloc, tag, rest)?;
        }
        Ok(Row { given, wanted })
    }

    /// Does the command come to what is to come of it?
    pub fn is_so(self, alloc: Global) -> Result<bool, AllocError> {
        let Row { given, wanted } = self;
        let Given {
            words,
            files,
            folder_fails,
            out_fails,
            say_fails,
            has_port,
            answers,
            port_fails,
        } = given;
        let mut ports = Vec::new(alloc);
        if has_port {
            ports.push(ScriptPort::new(answers, Vec::new(alloc), port_fails))?;
        }
        let mut outside = Outside {
            folder: MemFolder::new(alloc, files, folder_fails),
            out: MemSink::new(alloc, out_fails),
            say: MemSink::new(alloc, say_fails),
            ports: PortSet::new(ports),
        };
        let status = mpy(alloc, &words, &mut outside);
        let is_told = wanted.status == status && wanted.say.as_slice() == outside.say.bytes();
        let is_done = wanted.is_printed(outside.out.bytes()) && wanted.is_held(&outside.folder);
        Ok(is_told && is_done && wanted.is_put(outside.ports))
    }
}
