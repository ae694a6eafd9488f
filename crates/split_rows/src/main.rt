//! Runs in parts: each program of the file `programs` is run in parts of 1, 2, 3 and 7 steps and as a whole, with what its runs come to.
//!
//! A program begins with `#` and its title. `@` has a file's name, of which the first is the main one, and `x` bytes of it in
//! hexadecimal; `?` the answers of a port, and `!` a call of the port that fails; `r` the room, in cells and in bytes. `>` is a line that
//! is printed, and `+` a text; `w` has the numbers that the port has written; `=` says how the run ends (`ended`, `raised` or `memory`),
//! `s` in how many steps, and `u` what room is used then.
#![tactic(auto)]

mod program;
mod running;

use crate::program::Program;
use crate::running::is_so;
use mpy_base::NoMemory;
use std::alloc::Global;
use std::process::ExitCode;
use std::{fs, io};

/// How many programs were run, and the numbers of those whose runs come to something else.
#[derive(Drop)]
struct Count {
    programs: usize,
    wrong: Vec<usize>,
}

impl Count {
    /// Runs a program. One without files isn't one.
    fn add(&mut self, alloc: Global, program: Program) -> Result<(), NoMemory> {
        if program.files.is_empty() {
            return Ok(());
        }
        self.programs = self.programs.saturating_add(1);
        if !is_so(alloc, program)? {
            self.wrong.push(self.programs)?;
        }
        Ok(())
    }
}

/// Runs the programs of a text.
fn tried(alloc: Global, text: &str) -> Result<Count, NoMemory> {
    let mut count = Count {
        programs: 0,
        wrong: Vec::new(alloc),
    };
    let mut program = Program::new(alloc);
    for line in text.split("\n") {
        if line.starts_with("#") {
            count.add(alloc, program)?;
            program = Program::new(alloc);
        } else {
            program.add(alloc, line)?;
        }
    }
    count.add(alloc, program)?;
    Ok(count)
}

/// Runs the programs of the file `programs` in parts, and tells which come to something else.
fn main(rt: HostRuntime) -> io::Result<ExitCode> {
    let text = fs::read_to_string(&rt, "programs")?;
    let count = match tried(rt.alloc(), &text) {
        Ok(count) => count,
        Err(NoMemory) => {
            println!(rt; "no memory")?;
            return Ok(ExitCode::from(1));
        }
    };
    let programs = count.programs;
    println!(rt; "{programs} programs")?;
    let mut status = 0;
    for program in count.wrong.iter() {
        println!(rt; "program {program}: a run comes to something else")?;
        status = 1;
    }
    Ok(ExitCode::from(status))
}
