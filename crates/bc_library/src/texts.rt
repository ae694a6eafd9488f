//! The texts of a library, and their numbers.

ghost use Rattle.std.specs.Prelude.{◌≡◌, ℕ, ◌<◌, ◌≤◌, List, [], ◌∷◌, length, map, None, Some, option_copied, IfOk, IfErr, OnOk, OnErr, IsSome, IfSome, IfNone};
ghost use Rattle.std.specs.List.{filter_map};
ghost use Rattle.std.specs.Option.{option_to_list};
ghost use Rattle.mpy_base.specs.declared.refused.Refused.TheVariants as refused;
ghost use Rattle.bc_verify.specs.qstr_pool.Full.{pool_full};
ghost use Rattle.bc_verify.specs.qstr_pool.Pool.{text_of};
ghost use Rattle.mpy_tree.specs.Raw as raw;
ghost use Rattle.bc_library.specs.Fine.{Each, FineQstr};
ghost use Rattle.bc_library.specs.Texts.{AreNumbers, Extends, IsTitle, last_part, text_numbered, with_text, with_texts};

use bc_verify::Qstr;
use mpy_base::Refused;
use mpy_base::limits::MAX_TABLE;
use qstr_pool::{FIRST_OWN, Full, Pool, pool_law, static_law, static_number, static_text};
use std::alloc::Global;

/// The numbers of the texts of a module's name and of its last part, which is the whole name where it has no dot.
#[derive(Clone, Copy, Debug, PartialEq, Eq)]
pub struct Title {
    pub name: u32,
    pub last: u32,
}

/// The text behind the last dot of a name.
pub(crate) fn last_part(name: &[u8]) -> Option<&[u8]>
    ensures { option_copied result ≡ last_part name.now }
{
    let mut part = None;
    for (at, byte) in name.iter().enumerate() {
        if *byte == b'.' {
            part = Some(&name[at + 1..]);
        }
    }
    part
}

/// The text of an entry of a module's table.
fn qstr_text(qstr: &Qstr) -> Option<&[u8]>
    ensures { option_copied result ≡ raw.text_of qstr.now }
{
    match qstr {
        Qstr::Static(number) => static_text(*number),
        Qstr::Own(text) => Some(text.bytes()),
    }
}

/// The number of the text, if it has one.
pub(crate) fn known_number(pool: &Pool, text: &[u8]) -> Option<u32>
    requires { pool.now.first ≡ FIRST_OWN }
    ensures number { IfSome result (λ n. text_numbered pool.now n ≡ Some text.now) }
    ensures none { IfNone result ((n : ℕ) → text_numbered pool.now n ≡ Some text.now → ⊥) }
{
    static_law();
    pool_law(pool);
    match static_number(text) {
        Some(number) => Some(u32::from(number)),
        None => pool.find(text),
    }
}

/// The number of the text, which goes last in the pool unless every file may name it or it is there.
pub(crate) fn take_text(alloc: Global, pool: &mut Pool, text: &[u8]) -> Result<u32, Refused<Full>>
    requires { pool.old.first ≡ FIRST_OWN }
    ensures number { IfOk result (λ n. text_numbered pool.new n ≡ Some text.now) }
    ensures pool { OnOk result (pool.new ≡ with_text pool.old text.now) }
    ensures fits { OnOk result (length pool.new.texts ≤ MAX_TABLE) }
    ensures full { result ≡ Err (refused.Fault pool_full) → MAX_TABLE < length (with_text pool.old text.now).texts }
    ensures err { OnErr result (pool.new ≡ pool.old) }
{
    static_law();
    let number = match static_number(text) {
        Some(number) => u32::from(number),
        None => pool.intern(alloc, text)?,
    };
    pool_law(pool);
    Ok(number)
}

/// A name, and behind it its last part where it has a dot, go into the pool.
pub(crate) fn take_name(alloc: Global, pool: &mut Pool, name: &[u8]) -> Result<Title, Refused<Full>>
    requires { pool.old.first ≡ FIRST_OWN }
    ensures title { IfOk result (IsTitle pool.new name.now) }
    ensures pool { OnOk result (pool.new ≡ with_texts pool.old (name.now ∷ option_to_list (last_part name.now))) }
    ensures full { result ≡ Err (refused.Fault pool_full)
        → MAX_TABLE < length (with_texts pool.old (name.now ∷ option_to_list (last_part name.now))).texts }
    ensures err { OnErr result (Extends pool.old pool.new) }
{
    let number = take_text(alloc, pool, name)?;
    match last_part(name) {
        Some(part) => {
            let last = take_text(alloc, pool, part)?;
            Ok(Title { name: number, last })
        }
        None => Ok(Title {
            name: number,
            last: number,
        }),
    }
}

/// The numbers of the texts of a module's table, which go into the pool in their order.
pub(crate) fn take_table(
    alloc: Global,
    pool: &mut Pool,
    qstrs: &[Qstr],
) -> Result<Vec<u32>, Refused<Full>>
    requires own { pool.old.first ≡ FIRST_OWN }
    requires fine { Each FineQstr qstrs.now }
    ensures numbers { IfOk result (λ ns. AreNumbers pool.new ns.items qstrs.now) }
    ensures pool { OnOk result (pool.new ≡ with_texts pool.old (filter_map raw.text_of qstrs.now)) }
    ensures full { result ≡ Err (refused.Fault pool_full)
        → MAX_TABLE < length (with_texts pool.old (filter_map raw.text_of qstrs.now)).texts }
    ensures err { OnErr result (Extends pool.old pool.new) }
{
    let mut numbers = Vec::new(alloc);
    for qstr in qstrs {
        let Some(text) = qstr_text(qstr) else {
            unreachable!();
        };
        numbers.push(take_text(alloc, pool, text)?)?;
    }
    Ok(numbers)
}
