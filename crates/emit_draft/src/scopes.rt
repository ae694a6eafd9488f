//! The names of the codes of a source.

ghost use Rattle.std.specs.Prelude.{◌≡◌, ◌<◌, [], length, true, false, slice_get, IfOk, IfSome, IfNone};
ghost use Rattle.emit_measures.specs.bc_scheme.py_meaning.Program.{or_none};
ghost use Rattle.emit_draft.specs.Finished.{Names};

use crate::scope::Scope;
use mpy_base::limits::MAX_ITEMS;
use mpy_base::{Items, NoMemory, Text};
use py_scopes::NameSlots;
use std::alloc::Global;

/// The names of a module's own code, which takes no memory.
pub fn module_scope(alloc: Global) -> Scope
    ensures { Names result true [] }
{
    Scope {
        is_module: true,
        locals: Items::new(alloc),
    }
}

/// A copy of each text.
fn copies(alloc: Global, texts: &[Text]) -> Result<Items<Text>, NoMemory>
    ensures { IfOk result (λ copies. copies ≡ texts.now) }
{
    let mut copies = Items::new(alloc);
    for text in texts {
        copies.push(Text::new(alloc, text.bytes())?)?;
    }
    Ok(copies)
}

/// The names of a function's code, by the place of its `def` among those of its source. None where it has more than
/// 4,096 locals.
pub fn function_scope(alloc: Global, slots: &NameSlots, def: u32) -> Result<Option<Scope>, NoMemory>
    ensures found { IfOk result (λ found. IfSome found (λ scope. Names scope false (or_none (slice_get slots.now def)))) }
    ensures many { IfOk result (λ found. IfNone found (4096 < length (or_none (slice_get slots.now def)))) }
{
    let Some(locals) = slots.locals(def) else {
        return Ok(Some(Scope {
            is_module: false,
            locals: Items::new(alloc),
        }));
    };
    if locals.len() > MAX_ITEMS {
        return Ok(None);
    }
    Ok(Some(Scope {
        is_module: false,
        locals: copies(alloc, locals)?,
    }))
}
