//! The modules of a manifest's sources.

ghost use Rattle.std.specs.Prelude.{◌≡◌, All, IfOk, IfErr};
ghost use Rattle.std.specs.List.{AllZip};
ghost use Rattle.mpy_io.specs.Count.{Counts};
ghost use Rattle.image_freeze.specs.image_open.mpy_tree.File.{IsAscii};
ghost use Rattle.manifest_files.specs.Plain.{IsPlain};
ghost use Rattle.manifest_files.specs.FrozenFaults.{FaultIs, failed_by, is_read_fault};
ghost use Rattle.frozen_files.specs.Sources.{MayList, RefusesManifest, HoldsSource, HoldsSources, IsFirstRefused, RefusesSources};

use crate::source::source_module;
use image_freeze::Named;
use manifest_files::{SourcesFault, collect, of_manifest};
use manifest_lines::Entry;
use mpy_base::Refused;
use mpy_io::Folder;
use std::alloc::Global;

/// The entries of the manifest of this name.
fn entries<F: Folder>(
    alloc: Global,
    manifest: &str,
    folder: &mut F,
) -> Result<Vec<Entry>, Refused<SourcesFault>>
    ensures entries { IfOk result (λ entries. MayList (F.files folder.old) manifest.now entries.items) }
    ensures plain { IfOk result (λ entries. All IsPlain entries.items) }
    ensures refused { IfErr result (FaultIs (RefusesManifest (F.files folder.old) manifest.now)) }
    ensures counts { Counts (F.count folder.old) (F.count folder.new) (failed_by is_read_fault result) }
    ensures files { F.files folder.new ≡ F.files folder.old }
{
    match collect(alloc, folder, manifest) {
        Ok(entries) => Ok(entries),
        Err(Refused::Fault(fault)) => Err(Refused::Fault(of_manifest(manifest, fault))),
        Err(Refused::NoMemory) => Err(Refused::NoMemory),
    }
}

/// The modules of the entries' sources in their order, or the first of which there is none.
fn modules<F: Folder>(
    alloc: Global,
    entries: &[Entry],
    folder: &mut F,
) -> Result<Vec<Named>, Refused<SourcesFault>>
    requires { All IsPlain entries.now }
    ensures sources { IfOk result (λ modules. AllZip (HoldsSource (F.files folder.old)) entries.now modules.items) }
    ensures refused { IfErr result (FaultIs (IsFirstRefused (F.files folder.old) entries.now)) }
    ensures counts { Counts (F.count folder.old) (F.count folder.new) (failed_by is_read_fault result) }
    ensures files { F.files folder.new ≡ F.files folder.old }
{
    let mut modules = Vec::new(alloc);
    for entry in entries {
        let module = match source_module(alloc, entry, folder) {
            Ok(module) => module,
            Err(refusal) => return Err(refusal),
        };
        if modules.push(module).is_err() {
            return Err(Refused::NoMemory);
        }
    }
    Ok(modules)
}

/// The modules of the sources of the manifest of this name, in the order of its entries: each is read and compiled at its level and
/// under its stored name. Or the first fault of the manifest, or the first entry of whose source there is no module.
pub fn read_sources<F: Folder>(
    alloc: Global,
    manifest: &str,
    folder: &mut F,
) -> Result<Vec<Named>, Refused<SourcesFault>>
    ensures sources { IfOk result (λ modules. HoldsSources (F.files folder.old) manifest.now modules.items) }
    ensures ascii { IfOk result (λ modules. All (λ m. IsAscii m.name) modules.items) }
    ensures refused { IfErr result (FaultIs (RefusesSources (F.files folder.old) manifest.now)) }
    ensures counts { Counts (F.count folder.old) (F.count folder.new) (failed_by is_read_fault result) }
    ensures files { F.files folder.new ≡ F.files folder.old }
{
    let entries = match entries(alloc, manifest, folder) {
        Ok(entries) => entries,
        Err(refusal) => return Err(refusal),
    };
    match modules(alloc, &entries, folder) {
        Ok(modules) => Ok(modules),
        Err(refusal) => Err(refusal),
    }
}
