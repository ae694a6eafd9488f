//! What the program tells of itself. This is the one table of commands: the page of the manual and the completions that
//! `bin/install` writes are made of what it prints.

use mpy_io::{Failed, Sink};

/// What a command is told by.
struct Help {
    name: &'static str,
    /// An example and what it does, as lines of the list of commands.
    lines: &'static str,
    /// All of it: the words that it takes first.
    text: &'static str,
}

/// What stands in front of the commands.
const HEAD: &str = "mpy: a verified tool chain for MicroPython bytecode files (format version 6)
";

/// The commands that run something.
const RUN: [Help; 5] = [
    Help {
        name: "go",
        lines: "  mpy go main.py                compile and run a source; no file is written
",
        text: "usage: mpy go SRC [-O N] [--cells N] [--bytes N] [--steps N]

Compiles the source SRC and those of the modules that it imports, from the
folder of SRC, and runs SRC. No file is written. Port 0 reads its answers from
standard input, a number a line, and writes its numbers to standard error.

  -O N       level of optimization, 0 to 3 (0): __debug__ is false from 1 on,
             and at 3 each instruction has line 1
  --cells N  room of the arena in cells, at most 4,194,304 (65,536)
  --bytes N  room of its texts in bytes, at most 16,777,216 (262,144)
  --steps N  how many steps it may take, at most 1,000,000,000,000 (10,000,000)

example: mpy go examples/loop.py -O 1 --steps 1000
",
    },
    Help {
        name: "run",
        lines: "  mpy run main.mpy              run a file and the files of its imports
  mpy run board.img -m main     run a module of an image
",
        text: "usage: mpy run FILE [-m NAME] [--base IMAGE] [--cells N] [--bytes N] [--steps N]
               [--save SNAP]

Verifies and runs the file FILE with the files of the modules that it imports,
from the folder of FILE; or a module of the image FILE, which has all its
modules. Port 0 is as that of `mpy go`. No file is written but SNAP, where the
run takes all its steps.

  -m NAME       the module of an image that is run (main)
  --base IMAGE  the image over which the image FILE was frozen
  --cells N     room of the arena in cells, at most 4,194,304 (65,536)
  --bytes N     room of its texts in bytes, at most 16,777,216 (262,144)
  --steps N     how many steps it may take, at most 1,000,000,000,000
                (10,000,000)
  --save SNAP   the file that gets its state as bytes where it takes them all

example: mpy run examples/sensor.mpy --cells 4000
",
    },
    Help {
        name: "resume",
        lines: "  mpy resume main.mpy main.snap go on with a run whose state was saved
",
        text: "usage: mpy resume FILE SNAP [--base IMAGE] [--steps N] [--save SNAP]

Goes on with a run of the file or the image FILE from the state that SNAP has,
as `mpy run FILE --save SNAP` wrote it, in the room of that run. FILE and the
files of the modules that it imports have to be those of that run. Port 0 is as
that of `mpy go`. No file is written but the SNAP behind --save, where the run
takes all its steps.

  --base IMAGE  the image over which the image FILE was frozen
  --steps N     how many steps more it may take, at most 1,000,000,000,000
                (10,000,000)
  --save SNAP   the file that gets its state as bytes where it takes them all;
                it may be the one from which it goes on

example: mpy resume loop.mpy loop.snap --steps 10 --save loop.snap
",
    },
    Help {
        name: "board",
        lines: "  mpy board board.img plan.txt  run tasks of an image by turns; 0.out, 1.out ..
                                are overwritten
",
        text: "usage: mpy board IMAGE PLAN [--base IMAGE]

Runs the tasks of the plan PLAN by turns on the image IMAGE, each in an arena
of its own, and tells how each ended and which room it uses. The output of task
N is written to the file N.out of the working folder, which is overwritten
without asking.

  --base IMAGE  the image over which the image was frozen

example: mpy board board.img examples/board/plan.txt
",
    },
    Help {
        name: "stress",
        lines: "  mpy stress 7 20000            make a large source and run it
",
        text: "usage: mpy stress SEED COUNT

Makes a source that assigns COUNT (0 to 20,000) values to keys of a dict, both
drawn from SEED (0 to 4,294,967,295), prints how long it is and how many codes
it has, and runs it as `mpy go` does. No file is read or written.

example: mpy stress 7 20000
",
    },
];

/// Those that build.
const BUILD: [Help; 4] = [
    Help {
        name: "cross",
        lines: "  mpy cross main.py main.mpy    compile a source; main.mpy is overwritten
",
        text: "usage: mpy cross SRC FILE [-O N] [-s NAME]

Compiles the source SRC and writes its file as FILE, which is overwritten
without asking.

  -O N     level of optimization, 0 to 3 (0): __debug__ is false from 1 on, and
           at 3 each instruction has line 1
  -s NAME  the name of the source that FILE stores (SRC)

example: mpy cross examples/hello.py hello.mpy
",
    },
    Help {
        name: "merge",
        lines: "  mpy merge all.mpy a.mpy b.mpy one file that runs a.mpy and b.mpy in order;
                                all.mpy, the first name, is overwritten
",
        text: "usage: mpy merge OUT FILE..

Verifies the files FILE.. and writes one file as OUT, the first name, which runs
them in order in one namespace. OUT is overwritten without asking.

example: mpy merge both.mpy one.mpy two.mpy
",
    },
    Help {
        name: "freeze",
        lines: "  mpy freeze manifest.py board.img
                                one image of a manifest's modules; board.img is
                                overwritten
",
        text: "usage: mpy freeze MANIFEST OUT [--base IMAGE]

Compiles the sources that the manifest MANIFEST names and writes one image of
their modules as OUT, which is overwritten without asking: it must not be the
image IMAGE. docs/FILES.md has what a manifest may hold.

  --base IMAGE  an image over which OUT lies: it leaves out the texts that IMAGE
                has, and runs with it alone

example: mpy freeze examples/board/manifest.py board.img
",
    },
    Help {
        name: "migrate",
        lines: "  mpy migrate board.img new.img the image once more, in version 2; new.img is
                                overwritten
",
        text: "usage: mpy migrate IN OUT

Writes the image IN once more as OUT, in version 2. OUT is overwritten without
asking.

example: mpy migrate board.img second.img
",
    },
];

/// Those that look.
const LOOK: [Help; 2] = [
    Help {
        name: "check",
        lines: "  mpy check main.mpy            is it verified? prints `verified N`
  mpy check main.py main.mpy    is it a translation of main.py?
",
        text: "usage: mpy check FILE
       mpy check SRC FILE [-O N]

Reads the file FILE, verifies its module, and prints `verified N`, where N is
how many codes it has. With SRC: tells whether FILE, whoever made it, is a
translation of the source SRC, and prints `translation N`; else the first part
that differs is said, and the status is 12. No file is written.

  -O N  level of optimization at which SRC is translated, 0 to 3 (0)

example: mpy check examples/sensor.py examples/sensor.mpy
",
    },
    Help {
        name: "dump",
        lines: "  mpy dump main.mpy             list its tables and instructions
",
        text: "usage: mpy dump FILE

Lists what the file FILE holds: its tables, and each code with its instructions.
No file is written.

example: mpy dump examples/sensor.mpy
",
    },
];

/// What stands behind the commands.
const TAIL: &str = "
`mpy COMMAND --help` tells all of a command. Its options stand behind its files,
each with its value: mpy go main.py -O 2 --steps 50000
What a command writes is overwritten without asking.

status  0 done                     7 a read failed
        1 an uncaught exception    8 a write failed
        2 wrong words              9 out of memory
        3 a source is refused     10 a file or main module is absent
        4 a file is refused       11 merge, manifest, image, plan or library
        5 all steps were taken    12 a file is no translation of the source
        6 the room was too small  13 the state of a run is too big
docs/MESSAGES.md has each line that is said, docs/LANGUAGE.md the language.
";

/// Puts the lines of some of the commands under a heading.
fn put_lines<S: Sink>(out: &mut S, heading: &str, commands: &[Help]) -> Result<(), Failed> {
    out.put(heading.as_bytes())?;
    for help in commands {
        out.put(help.lines.as_bytes())?;
    }
    Ok(())
}

/// Puts what is told of all commands.
pub fn put_all<S: Sink>(out: &mut S) -> Result<(), Failed> {
    out.put(HEAD.as_bytes())?;
    put_lines(out, "\nrun\n", &RUN)?;
    put_lines(out, "build\n", &BUILD)?;
    put_lines(out, "look\n", &LOOK)?;
    out.put(TAIL.as_bytes())
}

/// All that is told of the command of this name, where it is one of these.
fn text_among(commands: &[Help], name: &str) -> Option<&'static str> {
    for help in commands {
        if help.name == name {
            return Some(help.text);
        }
    }
    None
}

/// All that is told of the command of this name, if there is one.
pub fn text_of(name: &str) -> Option<&'static str> {
    if let Some(text) = text_among(&RUN, name) {
        return Some(text);
    }
    if let Some(text) = text_among(&BUILD, name) {
        return Some(text);
    }
    text_among(&LOOK, name)
}
