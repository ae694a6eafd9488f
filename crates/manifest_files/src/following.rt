//! What a line says.

ghost use Rattle.std.specs.Prelude.{◌≡◌, All, false, IsUtf8, IfOk, IfSome, OnOk};
ghost use Rattle.manifest_files.specs.Answers.{Follows, IsBadCall, is_failed, is_outside};
ghost use Rattle.manifest_files.specs.Entries as spec;
ghost use Rattle.manifest_files.specs.Plain.{IsPlain};

use crate::adding::{add_all, behind};
use crate::fault::ManifestFault;
use crate::inner::{are_plain, folder_of, is_ascii, is_open};
use manifest_lines::{Entry, Line, Order};
use mpy_base::{Refused, Text};
use std::alloc::Global;

/// The fault of a call in this line of this manifest that is no call of a manifest.
fn bad_call(alloc: Global, name: &[u8], line: u32) -> Refused<ManifestFault>
    ensures is { IsBadCall name.now line result }
    ensures inside { is_outside result ≡ false }
{
    match Text::new(alloc, name) {
        Ok(name) => Refused::Fault(ManifestFault::BadCall(name, line)),
        Err(_) => Refused::NoMemory,
    }
}

/// The name of a manifest that is included by a path, unless it is open.
fn included(
    alloc: Global,
    opened: &[Text],
    name: &str,
    line: u32,
    path: &[u8],
    entries: &mut Vec<Entry>,
) -> Result<Option<Text>, Refused<ManifestFault>>
    ensures said { Follows entries.old.items (spec.include_saying opened.now name.now line path.now) result entries.new.items }
    ensures utf8 { IfOk result (λ inner. IfSome inner IsUtf8) }
    ensures inside { is_failed result ≡ false }
    ensures same { entries.new ≡ entries.old }
{
    if !is_ascii(path) {
        return Err(bad_call(alloc, name.as_bytes(), line));
    }
    let inner = behind(alloc, folder_of(name.as_bytes()), path)?;
    if is_open(opened, inner.bytes()) {
        return Err(Refused::Fault(ManifestFault::Loop(inner)));
    }
    Ok(Some(inner))
}

/// Adds the entries that a line names.
fn frozen(
    alloc: Global,
    name: &str,
    line: u32,
    others: &[Entry],
    entries: &mut Vec<Entry>,
) -> Result<Option<Text>, Refused<ManifestFault>>
    ensures said { Follows entries.old.items (spec.freeze_saying name.now line others.now) result entries.new.items }
    ensures utf8 { IfOk result (λ inner. IfSome inner IsUtf8) }
    ensures inside { is_failed result ≡ false }
    ensures plain { All IsPlain entries.old.items → OnOk result (All IsPlain entries.new.items) }
{
    if !are_plain(others) {
        return Err(bad_call(alloc, name.as_bytes(), line));
    }
    add_all(alloc, folder_of(name.as_bytes()), entries, others)?;
    Ok(None)
}

/// Does what a line of a manifest orders, and names the manifest that it includes. The manifest is the last of the open
/// ones.
pub(crate) fn follow(
    alloc: Global,
    opened: &[Text],
    name: &str,
    line: &Line,
    entries: &mut Vec<Entry>,
) -> Result<Option<Text>, Refused<ManifestFault>>
    ensures said { Follows entries.old.items (spec.line_saying opened.now name.now line.now) result entries.new.items }
    ensures utf8 { IfOk result (λ inner. IfSome inner IsUtf8) }
    ensures inside { is_failed result ≡ false }
    ensures plain { All IsPlain entries.old.items → OnOk result (All IsPlain entries.new.items) }
{
    match &line.order {
        None => Err(bad_call(alloc, name.as_bytes(), line.number)),
        Some(Order::Include(path)) => {
            included(alloc, opened, name, line.number, path.bytes(), entries)
        }
        Some(Order::Freeze(others)) => {
            frozen(alloc, name, line.number, others.as_slice(), entries)
        }
        Some(Order::Nothing) => Ok(None),
        Some(Order::Require(package)) => {
            let package = Text::new(alloc, package.bytes())?;
            Err(Refused::Fault(ManifestFault::Required(package)))
        }
    }
}
