//! The names that are asked for where a name is imported.

ghost use Rattle.std.specs.Prelude.{◌≡◌, ◌≤◌, ◌++◌, length, IfOk, OnOk};
ghost use Rattle.std.specs.List.{list_all};
ghost use Rattle.pkg_paths.specs.Plain as plain;
ghost use Rattle.library_files.specs.Asked as specs;
ghost use Rattle.library_files.specs.Asked.{asked_for, front_before, is_of_port};

use mpy_base::{NoMemory, Text};
use std::alloc::Global;

/// A letter, a digit or `_`.
fn is_word_byte(byte: u8) -> bool
    ensures { result ≡ plain.is_word_byte byte }
{
    byte.is_ascii_alphanumeric() || byte == b'_'
}

/// Is each byte a letter, a digit or `_`?
fn are_word_bytes(bytes: &[u8]) -> bool
    ensures { result ≡ list_all plain.is_word_byte bytes.now }
{
    bytes.iter().all(|byte| is_word_byte(*byte))
}

/// One or more of these.
#[tactic(auto, using(crate::proofs::Fronts::empty_part, crate::proofs::Fronts::full_part))]
fn is_part(part: &[u8]) -> bool
    ensures { result ≡ plain.is_part part.now }
{
    if part.len() == 0 {
        return false;
    }
    are_word_bytes(part)
}

/// Whether a name is plain.
fn is_plain(name: &[u8]) -> bool
    ensures { result ≡ plain.is_plain name.now }
{
    name.split(|byte| b'.' == *byte).all(|part| is_part(part))
}

/// Puts the front before a place of a name behind those that are there, if a dot stands at the place.
#[tactic(auto, using(crate::proofs::Fronts::no_front, crate::proofs::Fronts::one_front))]
fn push_front(
    alloc: Global,
    name: &[u8],
    place: usize,
    byte: u8,
    fronts: &mut Vec<Text>,
) -> Result<(), NoMemory>
    requires { place ≤ length name.now }
    ensures { OnOk result (fronts.new.items ≡ fronts.old.items ++ front_before name.now place byte) }
{
    if byte != b'.' {
        return Ok(());
    }
    let (front, _) = name.split_at(place);
    fronts.push(Text::new(alloc, front)?)?;
    Ok(())
}

/// The fronts of a name that end before a dot, and the name.
fn prefixes(alloc: Global, name: &[u8]) -> Result<Vec<Text>, NoMemory>
    ensures { IfOk result (λ fronts. fronts.items ≡ specs.prefixes name.now) }
{
    let mut fronts = Vec::new(alloc);
    for (place, byte) in name.iter().enumerate() {
        push_front(alloc, name, place, *byte, &mut fronts)?;
    }
    fronts.push(Text::new(alloc, name)?)?;
    Ok(fronts)
}

/// Whether the first of these is the name of the built-in module.
fn begin_with_port(names: &[Text]) -> bool
    ensures { result ≡ is_of_port names.now }
{
    match names {
        [] => false,
        [first, ..] => b"port".as_slice() == first.bytes(),
    }
}

/// The names that are asked for where a name is imported: of a plain name each prefix, the shortest first, but none where
/// the first is that of the built-in module.
pub fn asked_names(alloc: Global, name: &[u8]) -> Result<Vec<Text>, NoMemory>
    ensures { IfOk result (λ names. names.items ≡ asked_for name.now) }
{
    if !is_plain(name) {
        return Ok(Vec::new(alloc));
    }
    let fronts = prefixes(alloc, name)?;
    if begin_with_port(&fronts) {
        return Ok(Vec::new(alloc));
    }
    Ok(fronts)
}
