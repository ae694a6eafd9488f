//! Names by their numbers.

ghost use Rattle.std.specs.Prelude.{◌≡◌};
ghost use Rattle.std.specs.Option.{option_copied};
ghost use Rattle.mpy_tree.specs.Raw as raw;
ghost use Rattle.mpy_tree.specs.Resolved as resolved;
ghost use Rattle.mpy_dump.specs.Puts.{Puts};
ghost use Rattle.mpy_dump.specs.Instructions.{name_text_at};

use crate::put::{digits, put_all};
use crate::texts::put_name;
use itoa::Buffer;
use mpy_io::{Failed, Sink};
use mpy_tree::{Qstr, RawModule};
use qstr_pool::static_text;

/// The text of an entry.
pub(crate) fn text_of(qstr: &Qstr) -> Option<&[u8]>
    ensures { option_copied result ≡ raw.text_of qstr.now }
{
    match qstr {
        Qstr::Static(number) => static_text(*number),
        Qstr::Own(text) => Some(text.bytes()),
    }
}

/// The text that a number of the module leads to.
fn name_at(module: &RawModule, n: u32) -> Option<&[u8]>
    ensures { option_copied result ≡ resolved.name_at module.now n }
{
    text_of(module.qstrs().get(n as usize)?)
}

/// Puts a name by its number.
pub(crate) fn put_name_at<S: Sink>(out: &mut S, module: &RawModule, n: u32) -> Result<(), Failed>
    ensures { Puts S.told S.count out.old out.new (name_text_at module.now n) result }
{
    match name_at(module, n) {
        Some(name) => put_name(out, name),
        None => {
            let mut buffer = Buffer::new();
            put_all(out, &[b"?", digits(&mut buffer, n)])
        }
    }
}
