//! The command `merge`: files are read and verified one after another, and their merged file is written.

ghost use Rattle.std.specs.Prelude.{◌≡◌, map, string_bytes, false, Err, IfOk, IfErr};
ghost use Rattle.mpy_io.specs.Count.{Counts};
ghost use Rattle.mpy_merge.specs.AsMerge.{ReadsAsMerge};
ghost use Rattle.mpy_merge.specs.Faults.{FirstFault};
ghost use Rattle.mpy_merge.specs.Merged.{IsMerged};
ghost use Rattle.command_files.specs.mpy_endings.Ending.{is_folder_fault, is_out_fault};
ghost use Rattle.file_commands.specs.Merge.{HoldModules, IsFirstRefused, Merges};

use bc_verify::Verified;
use command_files::{Ended, Ending, opened};
use mpy_base::Refused;
use mpy_io::{Failed, Folder};
use mpy_merge::{MergeFault, merge};
use std::alloc::Global;

/// The verified modules of the files of these names, or the first that isn't one of such.
fn all_opened<F: Folder>(
    alloc: Global,
    names: &[String],
    folder: &mut F,
) -> Result<Vec<Verified>, Ended>
    ensures opened { IfOk result (λ modules. HoldModules (F.files folder.old) (map string_bytes names.now) modules.items) }
    ensures refused { IfErr result (λ ended. IsFirstRefused (F.files folder.old) (map string_bytes names.now) ended.place ended.ending) }
    ensures ok_counts { IfOk result (λ modules. F.count folder.new ≡ F.count folder.old) }
    ensures err_counts { IfErr result (λ ended. Counts (F.count folder.old) (F.count folder.new) (is_folder_fault ended.ending)) }
    ensures files { F.files folder.new ≡ F.files folder.old }
{
    let mut modules = Vec::new(alloc);
    for (at, name) in names.iter().enumerate() {
        let module = match opened(alloc, name.as_str(), folder) {
            Ok(module) => module,
            Err(ending) => {
                return Err(Ended {
                    ending,
                    place: at + 2,
                });
            }
        };
        if modules.push(module).is_err() {
            return Err(Ended {
                ending: Ending::NoMemory,
                place: at + 2,
            });
        }
    }
    Ok(modules)
}

/// The merged file of verified modules, which have no fault then, or the fault that comes first.
fn merge_all(alloc: Global, modules: &[Verified]) -> Result<Vec<u8>, Refused<MergeFault>>
    ensures merged { IfOk result (λ bytes. IsMerged modules.now bytes.items) }
    ensures reads { IfOk result (λ bytes. ReadsAsMerge modules.now bytes.items) }
    ensures unmerged { IfOk result (λ bytes. (fault : MergeFault) → FirstFault modules.now fault → ⊥) }
    ensures first { (fault : MergeFault) → result ≡ Err (Refused.Fault fault) → FirstFault modules.now fault }
{
    merge(alloc, modules)
}

/// Writes the merged file of the files of these names.
pub fn merge_files<F: Folder>(
    alloc: Global,
    names: &[String],
    written: &str,
    folder: &mut F,
) -> Ended
    ensures went { Merges (map string_bytes names.now) written.now (F.files folder.old) (F.files folder.new) result.place result.ending }
    ensures folder_counts { Counts (F.count folder.old) (F.count folder.new) (is_folder_fault result.ending) }
    ensures prints_nothing { is_out_fault result.ending ≡ false }
{
    let modules = match all_opened(alloc, names, folder) {
        Ok(modules) => modules,
        Err(ended) => return ended,
    };
    match merge_all(alloc, &modules) {
        Ok(bytes) => match folder.write(written, &bytes) {
            Ok(()) => Ended {
                ending: Ending::Done,
                place: 1,
            },
            Err(Failed) => Ended {
                ending: Ending::Unwritten,
                place: 1,
            },
        },
        Err(Refused::Fault(fault)) => Ended {
            ending: Ending::Unmerged(fault),
            place: 1,
        },
        Err(Refused::NoMemory) => Ended {
            ending: Ending::NoMemory,
            place: 1,
        },
    }
}
