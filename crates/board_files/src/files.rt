//! The files of the tasks' output.

ghost use Rattle.std.specs.Prelude.{◌≡◌, ◌<◌, [], Err, IfErr, IfOk, OnOk, string_bytes};
ghost use Rattle.mpy_io.specs.Count.{Counts};
ghost use Rattle.mpy_io.specs.Files.{AppendsFileFront, Becomes, BecomesFront};
ghost use Rattle.board_files.specs.Files as spec;
ghost use Rattle.board_files.specs.Files.{Adds, AreEmpty, KeepsOthers, StopsWithin, cut_of, is_unwritten};
ghost use Rattle.board_files.specs.Stopped.{HasBegunIn, IsAt};

use crate::stop::OutputStop;
use itoa::Buffer;
use mpy_io::{Failed, Folder};
use std::alloc::{AllocError, Global};

/// The name of the file that takes the output of the task of this number.
#[tactic(auto, unfolding(crate::specs::Files::out_name))]
fn out_name(alloc: Global, task: u32) -> Result<String, AllocError>
    ensures { IfOk result (λ name. string_bytes name ≡ spec.out_name task) }
{
    let mut digits = Buffer::new();
    let mut name = String::from_str(alloc, digits.format(task))?;
    name.push_str(".out")?;
    Ok(name)
}

/// Writes the file of a task empty.
fn begin_file<F: Folder>(
    alloc: Global,
    task: u32,
    count: u32,
    folder: &mut F,
) -> Result<(), OutputStop>
    requires { task < count }
    ensures begun { OnOk result (Becomes (F.files folder.old) (F.files folder.new) (spec.out_name task) []) }
    ensures cut { IfErr result (λ stop. IsAt (cut_of stop) task × BecomesFront (F.files folder.old) (F.files folder.new) (spec.out_name task) []) }
    ensures others { KeepsOthers count (F.files folder.old) (F.files folder.new) }
    ensures within { StopsWithin count result }
    ensures counts { Counts (F.count folder.old) (F.count folder.new) (is_unwritten result) }
{
    let name = out_name(alloc, task)?;
    match folder.write(name.as_str(), b"") {
        Ok(()) => Ok(()),
        Err(Failed) => Err(OutputStop::Unwritten(task)),
    }
}

/// Writes the files of the first `count` tasks empty.
pub(crate) fn begin_files<F: Folder>(
    alloc: Global,
    count: u32,
    folder: &mut F,
) -> Result<(), OutputStop>
    ensures begun { OnOk result (AreEmpty count (F.files folder.old) (F.files folder.new)) }
    ensures stopped { IfErr result (λ stop. HasBegunIn count (cut_of stop) (F.files folder.old) (F.files folder.new)) }
    ensures others { KeepsOthers count (F.files folder.old) (F.files folder.new) }
    ensures within { StopsWithin count result }
    ensures counts { Counts (F.count folder.old) (F.count folder.new) (is_unwritten result) }
{
    for task in 0..count {
        begin_file(alloc, task, count, folder)?;
    }
    Ok(())
}

/// Appends bytes to the file of a task, where there are any.
pub(crate) fn append_output<F: Folder>(
    alloc: Global,
    task: u32,
    count: u32,
    bytes: &[u8],
    folder: &mut F,
) -> Result<(), OutputStop>
    requires { task < count }
    ensures appended { OnOk result (Adds (F.files folder.old) (F.files folder.new) (spec.out_name task) bytes.now) }
    ensures cut { IfErr result (λ stop. IsAt (cut_of stop) task × AppendsFileFront (F.files folder.old) (F.files folder.new) (spec.out_name task) bytes.now) }
    ensures starved { result ≡ Err OutputStop.NoMemory → F.files folder.new ≡ F.files folder.old }
    ensures others { KeepsOthers count (F.files folder.old) (F.files folder.new) }
    ensures within { StopsWithin count result }
    ensures counts { Counts (F.count folder.old) (F.count folder.new) (is_unwritten result) }
{
    if bytes.is_empty() {
        return Ok(());
    }
    let name = out_name(alloc, task)?;
    match folder.append(name.as_str(), bytes) {
        Ok(()) => Ok(()),
        Err(Failed) => Err(OutputStop::Unwritten(task)),
    }
}
