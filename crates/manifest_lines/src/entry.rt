//! The sources that a manifest names.

ghost use Rattle.std.specs.Prelude.{◌≡◌, ◌++◌, IfOk, map};
ghost use Rattle.std.specs.List.{list_all};
ghost use Rattle.manifest_lines.specs.Ahead.{Gives};
ghost use Rattle.manifest_lines.specs.Entries as spec;

use crate::ahead::NoCall;
use mpy_base::{Items, NoMemory, Refused, Text};
use std::alloc::{AllocError, Global};

/// A source to freeze.
#[derive(Debug, Drop)]
pub struct Entry {
    /// The name by which it is imported.
    pub module: Text,
    /// Where it lies; among the lines of a manifest, from the manifest's folder on.
    pub path: Text,
    /// The name that is stored of it.
    pub source: Text,
    /// The level of optimization, 0 to 3.
    pub opt: u8,
}

/// What a call names: files of a package in a folder.
#[derive(Debug, Drop)]
pub(crate) struct Sources {
    pub(crate) base: Text,
    pub(crate) package: Text,
    pub(crate) scripts: Items<Text>,
    pub(crate) opt: u8,
}

/// The ending of a source's name.
const ENDING: &[u8] = b".py";

/// What stands behind a package's name in that of its first source, in front of the ending.
const INIT: &[u8] = b"/__init__";

/// The folder itself.
const HERE: &[u8] = b".";

/// Is it a letter, a digit or `_`?
fn is_name_byte(byte: u8) -> bool
    ensures { result ≡ spec.is_name_byte byte }
{
    byte.is_ascii_alphanumeric() || byte == b'_'
}

/// May a name begin so? It begins with no digit.
fn begins_name(text: &[u8]) -> bool
    ensures { result ≡ spec.begins_name text.now }
{
    match text {
        [first, ..] => !first.is_ascii_digit(),
        [] => false,
    }
}

/// Is each a letter, a digit or `_`?
fn are_name_bytes(text: &[u8]) -> bool
    ensures { result ≡ list_all spec.is_name_byte text.now }
{
    text.iter().all(|byte| is_name_byte(*byte))
}

/// Is it a name: letters, digits and `_`, the first of which is no digit?
fn is_name(text: &[u8]) -> bool
    ensures { result ≡ spec.is_name text.now }
{
    if begins_name(text) {
        are_name_bytes(text)
    } else {
        false
    }
}

/// A script without its ending.
fn front_of(script: &[u8]) -> &[u8]
    ensures { result.now ≡ spec.front_of script.now }
{
    &script[..script.len().saturating_sub(ENDING.len())]
}

/// Whether a text is a name with the ending.
fn is_script(text: &[u8]) -> bool
    ensures { result ≡ spec.is_script text.now }
{
    let (front, ending) = text.split_at(text.len().saturating_sub(ENDING.len()));
    if ending == ENDING {
        is_name(front)
    } else {
        false
    }
}

/// A package without the name of its own file.
fn without_init(path: &[u8]) -> &[u8]
    ensures { result.now ≡ spec.without_init path.now }
{
    let (front, ending) = path.split_at(path.len().saturating_sub(INIT.len()));
    if ending == INIT { front } else { path }
}

/// A dot for `/`, and each other byte as it is.
fn dotted(byte: u8) -> u8
    ensures { result ≡ spec.dotted byte }
{
    if byte == b'/' { b'.' } else { byte }
}

/// A path with a dot for each `/`.
fn dots(alloc: Global, path: &[u8]) -> Result<Vec<u8>, AllocError>
    ensures { IfOk result (λ name. name.items ≡ map spec.dotted path.now) }
{
    path.iter().map(|byte| dotted(*byte)).collect(alloc)
}

/// The module that a source is.
fn module_of(alloc: Global, source: &[u8]) -> Result<Text, NoMemory>
    ensures { IfOk result (λ name. name ≡ spec.module_of source.now) }
{
    let name = dots(alloc, without_init(front_of(source)))?;
    Text::new(alloc, &name)
}

/// What is behind a folder: a path with its `/`, unless it is the folder itself.
pub(crate) fn under(alloc: Global, path: &[u8]) -> Result<Vec<u8>, NoMemory>
    ensures { IfOk result (λ whole. whole.items ≡ spec.under path.now) }
{
    let mut whole = Vec::new(alloc);
    if path != HERE {
        whole.extend_from_slice(path)?;
        whole.push(b'/')?;
    }
    Ok(whole)
}

/// The entry of a script.
fn entry_of(alloc: Global, sources: &Sources, script: &[u8]) -> Result<Entry, Refused<NoCall>>
    ensures { Gives (spec.entry_of sources.now script.now) result }
{
    if !is_script(script) {
        return Err(Refused::Fault(NoCall));
    }
    let mut source = under(alloc, sources.package.bytes())?;
    source.extend_from_slice(script)?;
    let mut path = under(alloc, sources.base.bytes())?;
    path.extend_from_slice(&source)?;
    Ok(Entry {
        module: module_of(alloc, &source)?,
        path: Text::new(alloc, &path)?,
        source: Text::new(alloc, &source)?,
        opt: sources.opt,
    })
}

/// The entries of what a call names, none where one of the scripts is no name with the ending.
pub(crate) fn entries_of(alloc: Global, sources: &Sources) -> Result<Items<Entry>, Refused<NoCall>>
    ensures { Gives (spec.entries_of sources.now) result }
{
    let mut found = Items::new(alloc);
    for script in sources.scripts.as_slice() {
        let entry = entry_of(alloc, sources, script.bytes())?;
        found.push(entry)?;
    }
    Ok(found)
}
