//! Texts by their numbers.

ghost use Rattle.std.specs.Prelude.{◌≡◌, ◌↔◌, ◌≤◌, length, map, IsTrue, IfSome, MatchOption};
ghost use Rattle.std.specs.Option.{option_copied};
ghost use Rattle.mpy_tree.specs.File.{IsAscii};
ghost use Rattle.mpy_tree.specs.Raw as raw;
ghost use Rattle.mpy_tree.specs.Resolved as resolved;
ghost use Rattle.trans_parts.specs.Comparing.{DifferAt};

use mpy_base::Text;
use mpy_tree::{Qstr, RawModule, module_law};
use qstr_pool::static_text;

/// The text of an entry.
fn text_of(qstr: &Qstr) -> Option<&[u8]>
    ensures { option_copied result ≡ raw.text_of qstr.now }
{
    match qstr {
        Qstr::Static(number) => static_text(*number),
        Qstr::Own(text) => Some(text.bytes()),
    }
}

/// The text that a number of the module leads to.
pub(crate) fn name_at(module: &RawModule, n: u32) -> Option<&[u8]>
    ensures { option_copied result ≡ resolved.name_at module.now n }
{
    text_of(module.qstrs().get(n as usize)?)
}

/// The name that the module stores of its source.
pub fn stored_source(module: &RawModule) -> &[u8]
    ensures named { resolved.name_at module.now 0 ≡ Some result.now }
    ensures ascii { IsAscii result.now }
{
    module_law(module);
    match name_at(module, 0) {
        Some(name) => name,
        None => unreachable!(),
    }
}

/// Does the number lead to the text?
pub(crate) fn is_name(module: &RawModule, n: u32, text: &[u8]) -> bool
    ensures { IsTrue result ↔ (Some text.now ≡ resolved.name_at module.now n) }
{
    match name_at(module, n) {
        Some(name) => text == name,
        None => false,
    }
}

/// The first position where the texts and those that the numbers lead to differ, if they do.
pub(crate) fn first_name(module: &RawModule, want: &[Text], have: &[u32]) -> Option<usize>
    ensures told { MatchOption result (map Some want.now ≡ map (resolved.name_at module.now) have.now)
        (DifferAt (map Some want.now) (map (resolved.name_at module.now) have.now)) }
    ensures within { IfSome result (λ at. at ≤ length have.now) }
{
    for (at, text) in want.iter().enumerate() {
        let Some(number) = have.get(at) else {
            return Some(at);
        };
        if !is_name(module, *number, text.bytes()) {
            return Some(at);
        }
    }
    if want.len() < have.len() {
        return Some(want.len());
    }
    None
}
