//! The names of included manifests.

ghost use Rattle.std.specs.Prelude.{◌≡◌, ◌⊎◌, ◌<◌, ◌≤◌, ◌-◌, get_or, length, IsUtf8};
ghost use Rattle.std.specs.List.{list_all};
ghost use Rattle.manifest_files.specs.Entries as spec;

use manifest_lines::Entry;
use mpy_base::Text;

/// How many bytes stand up to and with the last `/`.
fn folder_length(name: &[u8]) -> usize
    ensures length { result ≡ spec.folder_length name.now }
    ensures within { result ≤ length name.now }
    ensures slash { (result ≡ 0) ⊎ ((0 < result) × (get_or name.now (result - 1) 0 ≡ 47)) }
{
    let mut found = 0;
    for (at, byte) in name.iter().enumerate() {
        if *byte == b'/' {
            found = at + 1;
        }
    }
    found
}

/// The folder in which a file of this name lies, with its `/`.
pub(crate) fn folder_of(name: &[u8]) -> &[u8]
    ensures folder { result.now ≡ spec.folder_of name.now }
    ensures utf8 { IsUtf8 name.now → IsUtf8 result.now }
{
    &name[..folder_length(name)]
}

/// Is each byte below 128?
pub(crate) fn is_ascii(text: &[u8]) -> bool
    ensures { result ≡ spec.is_ascii text.now }
{
    text.iter().all(|byte| *byte < 128)
}

/// Are the names and the path of an entry ASCII, and is its level 0 to 3?
fn is_plain(entry: &Entry) -> bool
    ensures { result ≡ spec.is_plain entry.now }
{
    is_ascii(entry.module.bytes())
        && is_ascii(entry.path.bytes())
        && is_ascii(entry.source.bytes())
        && entry.opt <= 3
}

/// Are the names and paths of all entries ASCII, and their levels 0 to 3?
pub(crate) fn are_plain(entries: &[Entry]) -> bool
    ensures { result ≡ list_all spec.is_plain entries.now }
{
    entries.iter().all(|entry| is_plain(entry))
}

/// Is the manifest of that name one of those that are open?
pub(crate) fn is_open(names: &[Text], name: &[u8]) -> bool
    ensures { result ≡ spec.is_open names.now name.now }
{
    names.iter().any(|other| other.bytes() == name)
}
