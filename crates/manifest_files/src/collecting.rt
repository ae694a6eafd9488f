//! The entries of a manifest.

ghost use Rattle.std.specs.Prelude.{◌≡◌, ℕ, All, ◌<◌, ◌≤◌, List, Ok, Err, OnOk, IfErr, IfOk, IfSome, IsUtf8, true, false};
ghost use Rattle.mpy_base.specs.declared.refused.Refused.TheVariants as refused;
ghost use Rattle.mpy_io.specs.Count.{Counts};
ghost use Rattle.mpy_io.specs.Files.{FileOf};
ghost use Rattle.manifest_files.specs.declared.fault.ManifestFault.{ManifestFault as Fault};
ghost use Rattle.manifest_files.specs.Answers.{OfRead, Tells, is_failed, is_read_fault};
ghost use Rattle.manifest_files.specs.FrozenFaults.{FaultIs};
ghost use Rattle.manifest_files.specs.Plain.{IsPlain};
ghost use Rattle.manifest_files.specs.Quiet.{AllInclude, AreQuiet, IsOfTree, IsReadIn, LeadsOn};
ghost use Rattle.manifest_files.specs.Entries.{Answer, Says, LineSays, AreSaid, AreEntries, IsAnswer, IsFault};

use crate::fault::ManifestFault;
use crate::following::follow;
use crate::kept::{Quiet, is_known, keep};
use crate::reading::read_lines;
use indexmap::IndexMap;
use manifest_lines::{Entry, Line};
use mpy_base::{Refused, Text};
use mpy_io::Folder;
use std::alloc::Global;
use std::str::from_utf8;

/// How many manifests may be open, one within another.
pub const MAX_OPEN: usize = 16;

/// The text, as a name.
fn text_of(name: &Text) -> &str
    requires { IsUtf8 name.now }
    ensures { result.now ≡ name.now }
{
    let Ok(text) = from_utf8(name.bytes()) else {
        unreachable!();
    };
    text
}

/// Does what a line orders, within the opened manifests, of which the last has that name; `left` more may be opened.
#[cycle(manifest)]
fn one_line<F: Folder>(
    alloc: Global,
    folder: &mut F,
    left: usize,
    opened: &mut Vec<Text>,
    name: &str,
    line: &Line,
    quiet: &mut Quiet,
    entries: &mut Vec<Entry>,
) -> Result<(), Refused<ManifestFault>>
    requires room { left < MAX_OPEN }
    requires known { IfSome (F.files folder.old) (λ files. AreQuiet files quiet.old.entries) }
    requires over { IfSome (F.files folder.old) (λ files. LeadsOn files opened.old.items name.now line.now) }
    ensures told { IfSome (F.files folder.old)
        (λ files. Tells (LineSays files left opened.old.items name.now line.now) entries.old.items result entries.new.items) }
    ensures opened { OnOk result (opened.new.items ≡ opened.old.items) }
    ensures kept { OnOk result (IfSome (F.files folder.old) (λ files. AreQuiet files quiet.new.entries)) }
    ensures same { F.files folder.new ≡ F.files folder.old }
    ensures cause { Counts (F.count folder.old) (F.count folder.new) (is_failed result) }
    ensures reads { IfErr result (FaultIs (OfRead (λ other. IfSome (F.files folder.old) (λ files. AllInclude files opened.old.items other)))) }
    ensures plain { All IsPlain entries.old.items → OnOk result (All IsPlain entries.new.items) }
{
    match follow(alloc, opened, name, line, entries) {
        Ok(None) => Ok(()),
        Ok(Some(inner)) => once(alloc, folder, left, opened, text_of(&inner), quiet, entries),
        Err(refused) => Err(refused),
    }
}

/// Does what lines order, one behind another.
#[cycle(manifest)]
fn all_lines<F: Folder>(
    alloc: Global,
    folder: &mut F,
    left: usize,
    opened: &mut Vec<Text>,
    name: &str,
    lines: &[Line],
    quiet: &mut Quiet,
    entries: &mut Vec<Entry>,
) -> Result<(), Refused<ManifestFault>>
    requires room { left < MAX_OPEN }
    requires known { IfSome (F.files folder.old) (λ files. AreQuiet files quiet.old.entries) }
    requires over { IfSome (F.files folder.old) (λ files. All (LeadsOn files opened.old.items name.now) lines.now) }
    ensures told { IfSome (F.files folder.old)
        (λ files. Tells (AreSaid (LineSays files left opened.old.items name.now) lines.now) entries.old.items result entries.new.items) }
    ensures opened { OnOk result (opened.new.items ≡ opened.old.items) }
    ensures kept { OnOk result (IfSome (F.files folder.old) (λ files. AreQuiet files quiet.new.entries)) }
    ensures same { F.files folder.new ≡ F.files folder.old }
    ensures cause { Counts (F.count folder.old) (F.count folder.new) (is_failed result) }
    ensures reads { IfErr result (FaultIs (OfRead (λ other. IfSome (F.files folder.old) (λ files. AllInclude files opened.old.items other)))) }
    ensures plain { All IsPlain entries.old.items → OnOk result (All IsPlain entries.new.items) }
{
    for line in lines {
        match one_line(alloc, folder, left, opened, name, line, quiet, entries) {
            Ok(()) => {}
            Err(refused) => return Err(refused),
        }
    }
    Ok(())
}

/// Adds the entries of the manifest of this name, unless it is known that it gives nothing.
#[cycle(manifest)]
fn once<F: Folder>(
    alloc: Global,
    folder: &mut F,
    left: usize,
    opened: &mut Vec<Text>,
    name: &str,
    quiet: &mut Quiet,
    entries: &mut Vec<Entry>,
) -> Result<(), Refused<ManifestFault>>
    requires room { left < MAX_OPEN }
    requires known { IfSome (F.files folder.old) (λ files. AreQuiet files quiet.old.entries) }
    requires over { IfSome (F.files folder.old) (λ files. AllInclude files opened.old.items name.now) }
    ensures told { IfSome (F.files folder.old) (λ files. Tells (Says files left opened.old.items name.now) entries.old.items result entries.new.items) }
    ensures opened { OnOk result (opened.new.items ≡ opened.old.items) }
    ensures kept { OnOk result (IfSome (F.files folder.old) (λ files. AreQuiet files quiet.new.entries)) }
    ensures same { F.files folder.new ≡ F.files folder.old }
    ensures cause { Counts (F.count folder.old) (F.count folder.new) (is_failed result) }
    ensures reads { IfErr result (FaultIs (OfRead (λ other. IfSome (F.files folder.old) (λ files. IsReadIn files opened.old.items name.now other)))) }
    ensures plain { All IsPlain entries.old.items → OnOk result (All IsPlain entries.new.items) }
{
    if is_known(quiet, left, name.as_bytes()) {
        return Ok(());
    }
    let before = entries.len();
    match manifest(alloc, folder, left, opened, name, quiet, entries) {
        Ok(()) => {}
        Err(refused) => return Err(refused),
    }
    if entries.len() != before {
        return Ok(());
    }
    keep(alloc, quiet, left, name.as_bytes())?;
    Ok(())
}

/// Adds the entries of the manifest of this name, within the opened ones, where `left` more may be opened.
#[cycle(manifest)]
fn manifest<F: Folder>(
    alloc: Global,
    folder: &mut F,
    left: usize,
    opened: &mut Vec<Text>,
    name: &str,
    quiet: &mut Quiet,
    entries: &mut Vec<Entry>,
) -> Result<(), Refused<ManifestFault>>
    requires room { left ≤ MAX_OPEN }
    requires known { IfSome (F.files folder.old) (λ files. AreQuiet files quiet.old.entries) }
    requires over { IfSome (F.files folder.old) (λ files. AllInclude files opened.old.items name.now) }
    ensures told { IfSome (F.files folder.old) (λ files. Tells (Says files left opened.old.items name.now) entries.old.items result entries.new.items) }
    ensures opened { OnOk result (opened.new.items ≡ opened.old.items) }
    ensures kept { OnOk result (IfSome (F.files folder.old) (λ files. AreQuiet files quiet.new.entries)) }
    ensures same { F.files folder.new ≡ F.files folder.old }
    ensures cause { Counts (F.count folder.old) (F.count folder.new) (is_failed result) }
    ensures reads { IfErr result (FaultIs (OfRead (λ other. IfSome (F.files folder.old) (λ files. IsReadIn files opened.old.items name.now other)))) }
    ensures plain { All IsPlain entries.old.items → OnOk result (All IsPlain entries.new.items) }
{
    let this = Text::new(alloc, name.as_bytes())?;
    if left == 0 {
        return Err(Refused::Fault(ManifestFault::Deep(this)));
    }
    let lines = match read_lines(alloc, folder, name) {
        Ok(lines) => lines,
        Err(refused) => return Err(refused),
    };
    opened.push(this)?;
    match all_lines(
        alloc,
        folder,
        left - 1,
        opened,
        name,
        &lines,
        quiet,
        entries,
    ) {
        Ok(()) => {}
        Err(refused) => return Err(refused),
    }
    opened.pop();
    Ok(())
}

/// The entries of the manifest of this name, or its first fault in the order of reading: a manifest's tokens are read
/// whole before its first line, and a line is judged whole before it adds an entry. A manifest that gave nothing is passed
/// over where it is included again with as many to open, so that each is read at most `MAX_OPEN` times.
pub fn collect<F: Folder>(
    alloc: Global,
    folder: &mut F,
    name: &str,
) -> Result<Vec<Entry>, Refused<ManifestFault>>
    ensures found { IfSome (F.files folder.old) (λ files. IfOk result (λ entries. AreEntries files name.now entries.items)) }
    ensures fault { IfSome (F.files folder.old) (λ files. (fault : Fault) → result ≡ Err (refused.Fault fault)
        → is_read_fault fault ≡ false → IsFault files name.now fault) }
    ensures same { F.files folder.new ≡ F.files folder.old }
    ensures cause { Counts (F.count folder.old) (F.count folder.new) (is_failed result) }

    // A read that failed was of this manifest, or of one that it includes, straight or over others.
    ensures reads { IfErr result (FaultIs (OfRead (λ other. IfSome (F.files folder.old) (λ files. IsOfTree files name.now other)))) }

    // The names of an entry are ASCII, its path is a text, and its level is one of the four.
    ensures plain { IfOk result (λ entries. All IsPlain entries.items) }
{
    let mut opened = Vec::new(alloc);
    let mut quiet = IndexMap::new(alloc);
    let mut entries = Vec::new(alloc);
    match manifest(
        alloc,
        folder,
        MAX_OPEN,
        &mut opened,
        name,
        &mut quiet,
        &mut entries,
    ) {
        Ok(()) => Ok(entries),
        Err(refused) => Err(refused),
    }
}

/// A manifest has one answer: its entries, or its first fault.
pub fn entries_law()
    ensures one { (files : FileOf) (name : List ℕ) (first second : Answer) → IsAnswer files name first → IsAnswer files name second → first ≡ second }
    ensures always { (files : FileOf) (name : List ℕ) → (answer : Answer) × IsAnswer files name answer }
{}
