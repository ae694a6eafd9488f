//! The module of a source.

ghost use Rattle.std.specs.Prelude.{◌≡◌, [], ◌∷◌, ◌<◌, ◌^◌, ℕ, List, map, Err, IfOk, IfErr, ◌⊎◌};
ghost use Rattle.mpy_base.specs.declared.refused.Refused.TheVariants as refused;
ghost use Rattle.mpy_base.specs.declared.limits.TheConstants.{MAX_DEPTH};
ghost use Rattle.mpy_base.specs.declared.source.SourceFault.{SourceFault as Fault};
ghost use Rattle.mpy_writer.specs.Writable.{IsShallow};
ghost use Rattle.tr_source.specs.py_source.Source.{IsAccepted};
ghost use Rattle.emit_stmt.specs.Parts.{plain_block};
ghost use Rattle.emit_module.specs.First.{AreWithin, IsFirstFault, source_sites};
ghost use Rattle.emit_module.specs.Module.{source_of, IsTranslated};
ghost use Rattle.emit_module.specs.Walk.{WalksTop, IsModuleOf};

use crate::joined::joined_law;
use crate::laws::{functions_law, stands_law};
use crate::lengths::draft_length_law;
use crate::own::{OwnCode, Place};
use crate::text::text_code;
use crate::walk::{Children, emit_defs};
use emit_draft::{CodeHead, code_of, module_scope, numbers_law, tree_law};
use emit_measures::own_locals_law;
use mpy_base::{Items, NoMemory, Refused, SourceFault, Text};
use mpy_tree::ModuleCode;
use py_scopes::NameSlots;
use py_tree::Stmt;
use std::alloc::Global;
use tr_source::{Accepted, asked_law, texts_law, undotted_law};

/// The codes of the functions of a source.
fn functions(
    alloc: Global,
    level: u8,
    slots: &NameSlots,
    body: &[Stmt],
) -> Result<Children, Refused<SourceFault>>
    requires numbers { (plain_block body.now).defs < 2 ^ 32 }
    ensures { WalksTop level slots.now (plain_block body.now) result }
{
    let mut children = Children {
        level,
        depth: 0,
        next: 0,
        codes: Items::new(alloc),
        lines: Items::new(alloc),
    };
    match emit_defs(alloc, slots, &mut children, body) {
        Ok(()) => Ok(children),
        Err(refusal) => Err(refusal),
    }
}

/// A module, with the line of the `def` of each code but its own, in preorder.
#[derive(Drop)]
pub struct Emitted {
    pub whole: ModuleCode,
    pub lines: Items<u32>,
}

/// The module of its parts.
fn module_of(
    alloc: Global,
    file: &[u8],
    own: OwnCode,
    children: Children,
) -> Result<Emitted, NoMemory>
    ensures whole { IfOk result (λ emitted. IsModuleOf file.now own children emitted.whole) }
    ensures lines { IfOk result (λ emitted. emitted.lines ≡ children.lines) }
{
    let source = Text::new(alloc, file)?;
    let head = CodeHead {
        name: Text::new(alloc, b"<module>")?,
        args: Items::new(alloc),
        defaults: 0,
        n_state: own.n_state,
        n_exc: own.n_exc,
    };
    let Children { codes, lines, .. } = children;
    let code = code_of(head, own.lines, codes);
    Ok(Emitted {
        whole: ModuleCode { source, code },
        lines,
    })
}

/// The module of an accepted source at a level, under its stored name, with its lines, or the first fault of its code. The tree of the
/// source and the drafts of its code are walked a few times, and the recursion is as deep as the tree nests.
pub fn emit(
    alloc: Global,
    level: u8,
    file: &[u8],
    accepted: &Accepted,
) -> Result<Emitted, Refused<SourceFault>>
    requires { (source : List ℕ) × IsAccepted level source accepted.now }

    // The module translates the source, of which no text passes a limit, and its codes nest no deeper than a file's do.
    ensures translates { IfOk result (λ emitted. IsTranslated (source_of file.now level accepted.now.tree) emitted.whole) }
    ensures within { IfOk result (λ emitted. AreWithin (source_of file.now level accepted.now.tree)) }
    ensures shallow { IfOk result (λ emitted. IsShallow MAX_DEPTH emitted.whole.code) }

    // The module's own code stands in line 1, and the others in the lines of their `def`s.
    ensures lines { IfOk result (λ emitted. 1 ∷ emitted.lines ≡ map (λ site. site.line) (source_sites (source_of file.now level accepted.now.tree))) }
    ensures only { AreWithin (source_of file.now level accepted.now.tree) → IfErr result (λ refusal. refusal ≡ refused.NoMemory) }

    // The fault is that of the first text that passes one, and where one does there is no module.
    ensures fault { (fault : Fault) → result ≡ Err (refused.Fault fault) → IsFirstFault (source_of file.now level accepted.now.tree) fault }
    ensures fault_only { (fault : Fault) → IsFirstFault (source_of file.now level accepted.now.tree) fault
        → (result ≡ Err (refused.Fault fault)) ⊎ (result ≡ Err refused.NoMemory) }
{
    asked_law();
    own_locals_law();
    undotted_law();
    texts_law();
    joined_law();
    draft_length_law();
    numbers_law();
    tree_law();
    stands_law();
    functions_law();
    let body = accepted.tree.body.as_slice();
    let place = Place {
        level,
        line: 1,
        depth: 0,
        params: 0,
    };
    let own = match text_code(alloc, &place, module_scope(alloc), body) {
        Ok(own) => own,
        Err(refusal) => return Err(refusal),
    };
    match functions(alloc, level, &accepted.slots, body) {
        Ok(children) => match module_of(alloc, file, own, children) {
            Ok(built) => Ok(built),
            Err(NoMemory) => Err(Refused::NoMemory),
        },
        Err(refusal) => Err(refusal),
    }
}
