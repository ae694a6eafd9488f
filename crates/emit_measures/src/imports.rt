//! The lengths of imports.

ghost use Rattle.std.specs.Prelude.{◌≡◌, ◌<◌, length, nat_eq, position, IfSome};
ghost use Rattle.bc_scheme.specs.py_effects.Modules.{parts_of, first_of};
ghost use Rattle.bc_scheme.specs.py_meaning.Statements.{from_name};
ghost use Rattle.emit_measures.specs.Limits.{saturated};
ghost use Rattle.emit_measures.specs.Lengths.{imports_length as imports_wide, taken_length as taken_wide};
ghost use Rattle.emit_measures.specs.Rows.{alias_wide, dot_wide, reads_wide};

use crate::expr_lengths::name_length;
use crate::number_lengths::plus;
use mpy_base::Text;
use py_tree::Alias;

/// The read of an attribute, which each part of a name behind a dot has.
fn dot_length(byte: u8) -> usize
    ensures { result ≡ dot_wide byte }
{
    if byte == b'.' { 4 } else { 0 }
}

/// The reads of a name's parts but the first.
fn reads_length(name: &[u8]) -> usize
    ensures { result ≡ saturated (reads_wide name.now) }
{
    let mut length: usize = 0;
    for byte in name {
        length = length.saturating_add(dot_length(*byte));
    }
    length
}

/// Where the first dot of a name stands.
fn first_dot(name: &[u8]) -> Option<usize>
    ensures place { result ≡ position (λ byte. nat_eq byte 46) name.now }
    ensures within { IfSome result (λ end. end < length name.now) }
{
    name.iter().position(|byte| *byte == b'.')
}

/// The name in front of the first dot.
fn first_part(name: &[u8]) -> &[u8]
    ensures { result.now ≡ first_of (parts_of name.now) }
{
    match first_dot(name) {
        Some(end) => &name[..end],
        None => name,
    }
}

/// The import of one name. Its first part is bound, or its last part, which is read, to the other name.
fn alias_length(locals: &[Text], alias: &Alias) -> usize
    ensures { result ≡ saturated (alias_wide locals.now alias.now) }
{
    match &alias.bound {
        None => plus(name_length(locals, first_part(alias.name.bytes())), 6),
        Some(bound) => {
            let stored = name_length(locals, bound.bytes());
            plus(plus(reads_length(alias.name.bytes()), stored), 6)
        }
    }
}

/// How many bytes the code of an import of these modules has at most, or 2^64 - 1 where there are more.
pub(crate) fn imports_length(locals: &[Text], names: &[Alias]) -> usize
    ensures { result ≡ saturated (imports_wide locals.now names.now) }
{
    let mut length: usize = 0;
    for alias in names {
        length = length.saturating_add(alias_length(locals, alias));
    }
    length
}

/// The name that a name of a `from` is bound to.
fn bound_name(alias: &Alias) -> &[u8]
    ensures { result.now ≡ from_name alias.now.name alias.now.bound }
{
    match &alias.bound {
        Some(bound) => bound.bytes(),
        None => alias.name.bytes(),
    }
}

/// The names that are taken from a module.
pub(crate) fn taken_length(locals: &[Text], names: &[Alias]) -> usize
    ensures { result ≡ saturated (taken_wide locals.now names.now) }
{
    let mut length: usize = 0;
    for alias in names {
        let own = plus(name_length(locals, bound_name(alias)), 8);
        length = length.saturating_add(own);
    }
    length
}
