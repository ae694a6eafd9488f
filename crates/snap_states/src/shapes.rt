//! The shapes of a code, by its offsets.

ghost use Rattle.std.specs.Prelude.{◌≡◌, ℕ, List, None, IfOk, IfSome, IfNone};
ghost use Rattle.bc_library.specs.bc_shapes.declared.kinds.Kind.{Kind as KindOf};
ghost use Rattle.bc_library.specs.bc_verify.Body.{flow_of};
ghost use Rattle.snap_states.specs.Shapes.{IsOrderly, StandsAt};
ghost use Rattle.snap_states.specs.Fronts.{StartOnce};
ghost use Rattle.bc_rows.specs.Codes.{code_numbered};
ghost use Rattle.bc_rows.specs.Rows.{IsRow};
ghost use Rattle.snap_states.specs.Frames.{AreShapes, HasKinds};

use crate::jumps::shape_at;
use crate::slots::position_of;
use bc_flow::{Code, State, flow, items_of};
use bc_library::{Library, modules_law};
use bc_rows::{Row, Rows};
use bc_shapes::{Kind, NoMemory};
use snap_laws::frames_law;
use std::alloc::Global;

/// A code, the offsets at which its instructions start, and what holds of each of them: the least that the flow allows.
#[derive(Drop)]
pub(crate) struct Shapes {
    pub code: Code,
    pub offsets: Vec<usize>,
    pub states: Vec<State>,
}

/// The shapes of the code of a row.
fn shapes_in(alloc: Global, library: &Library, row: &Row<'_>) -> Result<Shapes, NoMemory>
    requires { (m : ℕ) × (k : ℕ) × IsRow library.now m k row.now }
    ensures { IfOk result (λ x. (m k : ℕ) → IsRow library.now m k row.now → AreShapes library.now m k x) }
{
    modules_law(library);
    let listed = items_of(alloc, row.instructions)?;
    let code = Code {
        items: listed.items,
        n_state: row.n_state as usize,
        n_exc: row.n_exc as usize,
        arguments: row.params.len(),
    };
    match flow(alloc, &code)? {
        Ok(states) => Ok(Shapes {
            code,
            offsets: listed.offsets,
            states,
        }),
        Err(_) => unreachable!(),
    }
}

/// The shapes of a code of the library, if there is such a code.
pub(crate) fn shapes_of(
    alloc: Global,
    library: &Library,
    rows: &Rows<'_>,
    module_number: u32,
    code: u32,
) -> Result<Option<Shapes>, NoMemory>
    requires { rows.now ≡ library.now }
    ensures some { IfOk result (λ o. IfSome o (AreShapes library.now module_number code)) }
    ensures none { IfOk result (λ o. IfNone o (code_numbered library.now module_number code ≡ None)) }
{
    match rows.row(module_number, code) {
        None => Ok(None),
        Some(row) => Ok(Some(shapes_in(alloc, library, row)?)),
    }
}

/// The kinds of the slots at the instruction that starts at the offset, the topmost first, if it is reachable.
fn kinds_in(alloc: Global, shapes: &Shapes, at: u32) -> Result<Option<Vec<Kind>>, NoMemory>
    requires { StartOnce shapes.now.offsets.items }
    ensures some { IfOk result (λ o. IfSome o (λ kinds. HasKinds shapes.now at kinds.items)) }
    ensures none { IfOk result (λ o. IfNone o ((kinds : List KindOf) → HasKinds shapes.now at kinds → ⊥)) }
{
    match position_of(&shapes.offsets, at) {
        None => Ok(None),
        Some(position) => match shape_at(&shapes.states, position) {
            None => Ok(None),
            Some(shape) => {
                let kinds = Vec::from_slice(alloc, &shape.slots)?;
                Ok(Some(kinds))
            }
        },
    }
}

/// The kinds of the slots, the topmost first, at the instruction of a code that starts at the offset, if it is reachable. In a time
/// that grows with the code, which is walked anew.
pub fn kinds_at(
    alloc: Global,
    library: &Library,
    rows: &Rows<'_>,
    module_number: u32,
    code: u32,
    at: u32,
) -> Result<Option<Vec<Kind>>, NoMemory>
    requires { rows.now ≡ library.now }
    ensures some { IfOk result (λ o. IfSome o (λ kinds. (s : StandsAt library.now module_number code at) × (s.shape.slots ≡ kinds.items))) }
    ensures orderly { IfOk result (λ o. IfSome o (λ _. (s : StandsAt library.now module_number code at)
        → IsOrderly (flow_of s.body) s.shape)) }
    ensures none { IfOk result (λ o. IfNone o (StandsAt library.now module_number code at → ⊥)) }
{
    frames_law();
    match shapes_of(alloc, library, rows, module_number, code)? {
        None => Ok(None),
        Some(shapes) => {
            match kinds_in(alloc, &shapes, at)? {
                None => Ok(None),
                Some(kinds) => Ok(Some(kinds)),
            }
        }
    }
}
