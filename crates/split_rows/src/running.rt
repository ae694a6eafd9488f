//! Runs of a program, in parts and as a whole.

ghost use Rattle.std.specs.Prelude.{◌≡◌, ◌<◌, length, IfOk, IfSome};
ghost use Rattle.mpy_reader.specs.mpy_tree.Raw.{Module};
ghost use Rattle.library_files.specs.Ends.{BeginsWith, HoldsModules};
ghost use Rattle.vm_starting.specs.Kept.{AreFetched};
ghost use Rattle.vm_machine.specs.Machine.{IsVm};

use crate::program::Program;
use bc_library::Library;
use bc_rows::Rows;
use bc_verify::{Verified, verify};
use frame_exits::End;
use library_files::load;
use mpy_base::{NoMemory, Refused, Room};
use mpy_io::{Failed, Folder, MemFolder, MemSink, Port, ReadFault, ScriptPort, Sink};
use mpy_reader::read;
use port_set::PortSet;
use std::alloc::Global;
use std::mem;
use vm_machine::{open, run, used};
use vm_starting::{Cache, Vm};

/// The greatest count of steps that are paid on an instruction, for which a run goes on.
const MOST_PAID: u64 = 1 << 62;

/// What a run has come to.
#[derive(Drop)]
struct Outcome {
    parts: u32,
    end: Option<End>,
    paid: u64,
    used: Room,
    out: MemSink,
    ports: PortSet<ScriptPort>,
}

/// The verified module of a file, if it is one's.
fn verified(alloc: Global, bytes: &[u8]) -> Result<Option<Verified>, NoMemory> {
    match read(alloc, bytes) {
        Ok(raw) => match verify(alloc, raw) {
            Ok(verified) => Ok(Some(verified)),
            Err((Refused::Fault(_), _)) => Ok(None),
            Err((Refused::NoMemory, _)) => Err(NoMemory),
        },
        Err(Refused::Fault(_)) => Ok(None),
        Err(Refused::NoMemory) => Err(NoMemory),
    }
}

/// The library of the main file of this name, if it is loaded.
fn library_of(
    alloc: Global,
    folder: &mut MemFolder,
    name: &str,
) -> Result<Option<Library>, NoMemory>
    ensures holds { IfOk result (λ found. IfSome found HoldsModules) }
    ensures begins { IfOk result (λ found. IfSome found (λ library. (m : Module) × BeginsWith m library)) }
{
    let bytes = match folder.read(alloc, name) {
        Ok(bytes) => bytes,
        Err(ReadFault::NoMemory) => return Err(NoMemory),
        Err(ReadFault::Absent | ReadFault::TooLong | ReadFault::Failed) => return Ok(None),
    };
    let Some(main) = verified(alloc, &bytes)? else {
        return Ok(None);
    };
    match load(alloc, folder, "".as_bytes(), main, bytes.len()) {
        Ok(library) => Ok(Some(library)),
        Err(Refused::Fault(_)) => Ok(None),
        Err(Refused::NoMemory) => Err(NoMemory),
    }
}

/// Goes on in parts of these steps, up to the end of the run, for these parts at most. How many it took.
fn go_on<S: Sink, P: Port>(
    vm: &mut Vm,
    library: &Library,
    rows: &Rows<'_>,
    cache: &mut Cache,
    out: &mut S,
    ports: &mut PortSet<P>,
    part: u32,
    most: u32,
) -> Result<u32, Failed>
    requires vm { IsVm library.now vm.old }
    requires rows { rows.now ≡ library.now }
    requires kept { AreFetched library.now cache.old }
    ensures vm { IsVm library.now vm.new }
{
    let mut parts = 0;
    'turns: while parts < most {
        if vm.end.is_some() || vm.paid > MOST_PAID {
            return Ok(parts);
        }
        run(vm, library, rows, cache, out, ports, part as u64)?;
        parts += 1;
    }
    Ok(parts)
}

/// What a run of the program comes to that takes these steps first, and then goes on in parts of these steps, for these parts at most.
fn outcome_of(
    alloc: Global,
    program: &Program,
    library: &Library,
    rows: &Rows<'_>,
    first: u32,
    part: u32,
    most: u32,
) -> Result<Option<Outcome>, NoMemory>
    requires rows { rows.now ≡ library.now }
    requires there { 0 < length library.now.modules }
{
    let mut ports = program.ports(alloc)?;
    let mut out = MemSink::new(alloc, Vec::new(alloc));
    let mut vm = open(alloc, library, rows, 0, program.room)?;
    let mut cache = Cache::new(alloc, library, rows)?;
    let begun = run(
        &mut vm,
        library,
        rows,
        &mut cache,
        &mut out,
        &mut ports,
        first as u64,
    );
    let went = go_on(
        &mut vm, library, rows, &mut cache, &mut out, &mut ports, part, most,
    );
    let (Ok(()), Ok(parts)) = (begun, went) else {
        return Ok(None);
    };
    Ok(Some(Outcome {
        parts,
        end: vm.end,
        paid: vm.paid,
        used: used(&vm),
        out,
        ports,
    }))
}

/// Whether the port has written these numbers and no others, or there is none and there are none.
fn have_written(ports: PortSet<ScriptPort>, numbers: &[i32]) -> bool {
    match ports.into_ports().first() {
        Some(port) => {
            let same = numbers
                .iter()
                .enumerate()
                .all(|(at, number)| port.written_at(at) == Some(*number));
            same && port.written_at(numbers.len()).is_none()
        }
        None => numbers.is_empty(),
    }
}

/// How a run ended, in a word.
fn word_of(end: Option<End>) -> &'static str {
    match end {
        None => "open",
        Some(End::Ended) => "ended",
        Some(End::Raised(_)) => "raised",
        Some(End::Memory(_)) => "memory",
    }
}

impl Outcome {
    /// Is it what the program's run comes to?
    fn is_end_of(self, program: &Program) -> bool {
        let ended = program.end.as_str() == word_of(self.end) && self.paid == 0;
        let printed = program.text.as_slice() == self.out.bytes();
        let fits = self.used == program.used;
        ended && printed && fits && have_written(self.ports, &program.numbers)
    }

    /// Is it the same as another, but for the number of parts?
    fn is_same(&self, other: &Outcome) -> bool {
        self.end == other.end
            && self.paid == other.paid
            && self.used == other.used
            && self.out.bytes() == other.out.bytes()
    }
}

/// Whether the run in parts of these steps takes the program's steps and comes to its end; half of the parts come to what one run of
/// as many steps does; and that run goes on to the same end in one part.
fn parts_are_so(
    alloc: Global,
    program: &Program,
    library: &Library,
    rows: &Rows<'_>,
    part: u32,
) -> Result<bool, NoMemory>
    requires rows { rows.now ≡ library.now }
    requires there { 0 < length library.now.modules }
{
    let parts = program.steps.div_ceil(part.max(1));
    let half = parts / 2;
    let steps = half.saturating_mul(part);
    let rest = program.steps.saturating_sub(steps);
    let all = outcome_of(alloc, program, library, rows, 0, part, u32::MAX)?;
    let front = outcome_of(alloc, program, library, rows, 0, part, half)?;
    let whole = outcome_of(alloc, program, library, rows, steps, part, 0)?;
    let then = outcome_of(alloc, program, library, rows, steps, rest, 1)?;
    let (Some(all), Some(front), Some(whole), Some(then)) = (all, front, whole, then) else {
        return Ok(false);
    };
    Ok(
        all.parts == parts
            && front.is_same(&whole)
            && all.is_end_of(program)
            && then.is_end_of(program),
    )
}

/// Do the library's runs in parts of 1, 2, 3 and 7 steps come to what the program's are to come to?
fn runs_are_so(alloc: Global, program: &Program, library: &Library) -> Result<bool, NoMemory>
    requires there { 0 < length library.now.modules }
{
    let rows = Rows::new(alloc, library)?;
    for part in [1, 2, 3, 7] {
        if !parts_are_so(alloc, program, library, &rows, part)? {
            return Ok(false);
        }
    }
    Ok(true)
}

/// Do the program's runs in parts come to what they are to come to?
pub fn is_so(alloc: Global, mut program: Program) -> Result<bool, NoMemory> {
    let files = mem::replace(&mut program.files, Vec::new(alloc));
    let Some((name, _)) = files.first() else {
        return Ok(false);
    };
    let main = name.clone()?;
    let mut folder = MemFolder::new(alloc, files, Vec::new(alloc));
    match library_of(alloc, &mut folder, &main) {
        Ok(Some(library)) => runs_are_so(alloc, &program, &library),
        Ok(None) => Ok(false),
        Err(NoMemory) => Err(NoMemory),
    }
}
