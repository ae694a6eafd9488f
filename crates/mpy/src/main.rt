//! The program: the tool's top call over the working folder and the standard streams.
#![tactic(auto)]

mod help;
mod streams;

use crate::help::{put_all, text_of};
use crate::streams::{Asking, Gathered, Gathering, gathered};
use mpy_io::{Disk, Failed, InputPort, OutSink, Sink};
use mpy_tool::{Outside, mpy};
use port_set::PortSet;
use std::alloc::Global;
use std::io::ErrorKind;
use std::process::ExitCode;
use std::{env, io};

/// What `mpy --version` prints: the version, and the kit that proves and builds it.
const VERSION: &[u8] = b"mpy 0.1.0 (rattle-kit-13f)\n";

/// The words after the program's own name.
fn words(rt: &HostRuntime) -> io::Result<Vec<String>> {
    let mut words = Vec::new(rt.alloc());
    for word in env::args(rt)?.skip(1) {
        words.push(word)?;
    }
    Ok(words)
}

/// What the program tells of itself.
enum Notice {
    Version,
    /// All commands.
    Help,
    /// One command, by this text.
    Command(&'static str),
}

/// Whether a word behind a command asks for help.
fn asks_help(word: &str) -> bool {
    word == "--help" || word == "-h"
}

/// What these words ask the program to tell of itself, if they do. All other words are the tool's.
fn asked_notice(words: &[String]) -> Option<Notice> {
    match words {
        [word] if word.as_str() == "--version" => Some(Notice::Version),
        [word] if asks_help(word) || word.as_str() == "help" => Some(Notice::Help),
        [name, word] if asks_help(word) => text_of(name).map(Notice::Command),
        _ => None,
    }
}

/// Says why the words can't be read: one of them is no text, or memory is not found for them.
fn refuse<E: Sink>(say: &mut E, fault: ErrorKind) -> u8 {
    if fault == ErrorKind::OutOfMemory {
        let _ = say.put(b"mpy: memory\n");
        return 9;
    }
    let _ = say.put(b"mpy: words 2 Unknown\n");
    2
}

/// Prints what the program tells of itself.
fn put_notice<S: Sink>(notice: Notice, out: &mut S) -> Result<(), Failed> {
    match notice {
        Notice::Version => out.put(VERSION)?,
        Notice::Help => put_all(out)?,
        Notice::Command(text) => out.put(text.as_bytes())?,
    }
    out.flush()
}

/// Prints what the program tells of itself, and gives the exit status.
fn tell<S: Sink, E: Sink>(notice: Notice, out: &mut S, say: &mut E) -> u8 {
    if put_notice(notice, out).is_ok() {
        return 0;
    }
    let _ = say.put(b"mpy: write fault out\n");
    8
}

/// Carries out the words over the disk and these streams, and gives the exit status.
fn carry_out<S: Sink + Drop, E: Sink + Drop>(
    rt: &HostRuntime,
    words: &[String],
    gathered: &Gathered,
    out: S,
    mut say: E,
) -> u8 {
    let alloc: Global = rt.alloc();
    let Ok(folder) = Disk::new(alloc, rt, rt) else {
        return refuse(&mut say, ErrorKind::OutOfMemory);
    };
    let port = InputPort::new(Asking::new(rt.stdin(), gathered), rt.stderr());
    let mut ports = Vec::new(alloc);
    if ports.push(port).is_err() {
        return refuse(&mut say, ErrorKind::OutOfMemory);
    }
    let mut outside = Outside {
        folder,
        out,
        say,
        ports: PortSet::new(ports),
    };
    mpy(alloc, words, &mut outside)
}

/// Carries out the words of the command over the system's streams and files.
fn main(rt: HostRuntime) -> ExitCode {
    let alloc: Global = rt.alloc();
    let mut say = OutSink::new(alloc, rt.stderr());
    let Ok(gathered) = gathered(alloc, rt.stdout()) else {
        return ExitCode::from(refuse(&mut say, ErrorKind::OutOfMemory));
    };
    let mut out = OutSink::new(alloc, Gathering::new(&gathered));
    let words = match words(&rt) {
        Ok(words) => words,
        Err(error) => return ExitCode::from(refuse(&mut say, error.kind())),
    };
    ExitCode::from(match asked_notice(&words) {
        Some(notice) => tell(notice, &mut out, &mut say),
        None => carry_out(&rt, &words, &gathered, out, say),
    })
}
