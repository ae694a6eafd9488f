//! Texts by their numbers, and modules and built-ins by their names.

ghost use Rattle.std.specs.Prelude.{◌≡◌, ◌<◌, ◌^◌, [], ◌++◌, length, unwrap_or, OnOk};
ghost use Rattle.prim_walks.specs.py_values.Names.{builtin_name as name_of_builtin};
ghost use Rattle.bc_library.specs.Constants.{text_at};
ghost use Rattle.snap_saving.specs.Put.{text};
ghost use Rattle.snap_saving.specs.Shown.{module_part};
ghost use Rattle.snap_saving.specs.Steps.{number_in};

use crate::bytes::put_text;
use arena_heap::{Constants, StrNo};
use bc_library::{Library, Member};
use mpy_base::{Builtin, NoMemory};
use prim_walks::builtin_name;

/// The bytes of a text, or none where there is no such text.
pub(crate) fn text_of(library: &Library, s: StrNo) -> &[u8]
    ensures is { result.now ≡ unwrap_or (text_at library.now s) [] }
    ensures few { length result.now < 2 ^ 32 }
{
    match library.text(s) {
        Some(text) => text,
        None => &[],
    }
}

/// The number of the module that a name leads to, 0 where it leads to none.
fn number_in(member: Option<Member>) -> u32
    ensures { result ≡ number_in member }
{
    match member {
        Some(Member::Module(number)) => number,
        _ => 0,
    }
}

/// The number of the first module that has the name of a number.
#[tactic(auto, using(crate::proofs::Naming::module_found, crate::proofs::Naming::no_module))]
pub(crate) fn module_of(library: &Library, name: u32) -> u32
    ensures { result ≡ module_part library.now name }
{
    match library.text(StrNo::Pool(name)) {
        Some(text) => number_in(library.find(text)),
        None => 0,
    }
}

/// The name of a built-in.
#[tactic(auto, using(crate::proofs::Naming::short_builtin))]
pub(crate) fn put_builtin(out: &mut Vec<u8>, b: Builtin) -> Result<(), NoMemory>
    ensures { OnOk result (out.new.items ≡ out.old.items ++ text (name_of_builtin b)) }
{
    put_text(out, builtin_name(b).as_bytes())
}
