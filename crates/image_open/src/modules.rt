//! Copies of whole modules.

ghost use Rattle.std.specs.Prelude.{◌≡◌, IfOk};

use crate::codes::copy_code;
use crate::objects::copy_objects;
use mpy_base::limits::MAX_DEPTH;
use mpy_base::{Items, NoMemory, Text};
use mpy_tree::{Qstr, RawModule, module_law};
use std::alloc::Global;

/// The copy of an entry of a table of texts.
fn copy_qstr(alloc: Global, qstr: &Qstr) -> Result<Qstr, NoMemory>
    ensures { IfOk result (λ copy. copy ≡ qstr.now) }
{
    match qstr {
        Qstr::Static(number) => Ok(Qstr::Static(*number)),
        Qstr::Own(text) => Ok(Qstr::Own(Text::new(alloc, text.bytes())?)),
    }
}

/// A copy of a table of texts.
fn copy_qstrs(alloc: Global, qstrs: &[Qstr]) -> Result<Items<Qstr>, NoMemory>
    ensures { IfOk result (λ copies. copies ≡ qstrs.now) }
{
    let mut copies = Items::new(alloc);
    for qstr in qstrs {
        copies.push(copy_qstr(alloc, qstr)?)?;
    }
    Ok(copies)
}

/// A copy of a module.
pub fn copy_module(alloc: Global, raw: &RawModule) -> Result<RawModule, NoMemory>
    ensures { IfOk result (λ copy. copy ≡ raw.now) }
{
    module_law(raw);
    let qstrs = copy_qstrs(alloc, raw.qstrs())?;
    let objects = copy_objects(alloc, raw.objects(), MAX_DEPTH)?;
    let code = copy_code(alloc, raw.code(), MAX_DEPTH)?;
    Ok(RawModule::new(raw.bits(), qstrs, objects, code))
}
