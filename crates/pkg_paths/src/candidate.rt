//! The files that a dotted name may have.

ghost use Rattle.std.specs.Prelude.{◌≡◌, ◌++◌, IfOk, if◌then◌else◌, nat_eq, map};
ghost use Rattle.pkg_paths.specs.Plain.{IsPlain};
ghost use Rattle.pkg_paths.specs.Paths.{path_of, package_file, plain_file};

use mpy_base::{NoMemory, Text};
use std::alloc::{AllocError, Global};

/// The two files that a name may have, the package's first.
#[derive(Debug, Drop)]
pub struct Paths {
    pub package: Text,
    pub plain: Text,
}

/// A byte, and `/` in place of a dot.
fn slashed(byte: u8) -> u8
    ensures { result ≡ (if nat_eq 46 byte then 47 else byte) }
{
    if byte == b'.' { b'/' } else { byte }
}

/// A name with `/` in place of each dot.
fn slashes(alloc: Global, name: &[u8]) -> Result<Vec<u8>, AllocError>
    ensures { IfOk result (λ path. path.items ≡ map (λ byte. if nat_eq 46 byte then 47 else byte) name.now) }
{
    name.iter().map(|byte| slashed(*byte)).collect(alloc)
}

/// The path of a name, without an ending.
#[tactic(auto, using(crate::proofs::Slashes::joined_parts))]
fn path_of(alloc: Global, base: &[u8], name: &[u8]) -> Result<Vec<u8>, NoMemory>
    ensures { IfOk result (λ path. path.items ≡ path_of base.now name.now) }
{
    let parts = slashes(alloc, name)?;
    let mut path = Vec::from_slice(alloc, base)?;
    path.extend_from_slice(&parts)?;
    Ok(path)
}

/// The path with more behind it.
fn ended(alloc: Global, path: &[u8], last: &[u8], ending: &[u8]) -> Result<Text, NoMemory>
    ensures { IfOk result (λ text. text ≡ path.now ++ (last.now ++ ending.now)) }
{
    let mut whole = Vec::from_slice(alloc, path)?;
    whole.extend_from_slice(last)?;
    whole.extend_from_slice(ending)?;
    Text::new(alloc, &whole)
}

/// The files that a name may have in a base folder, which stands in front as it is: with its `/`, or empty. The ending
/// has its dot.
pub fn candidates(alloc: Global, base: &[u8], name: &[u8], ending: &[u8]) -> Result<Paths, NoMemory>
    requires { IsPlain name.now }
    ensures package { IfOk result (λ paths. paths.package ≡ package_file base.now name.now ending.now) }
    ensures plain { IfOk result (λ paths. paths.plain ≡ plain_file base.now name.now ending.now) }
{
    let path = path_of(alloc, base, name)?;
    Ok(Paths {
        package: ended(alloc, &path, b"/__init__", ending)?,
        plain: ended(alloc, &path, b"", ending)?,
    })
}
