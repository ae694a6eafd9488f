//! What a comparison raises over operands that it doesn't take.

ghost use Rattle.prim_faults.specs.arena_heap.Values.{Leads};
ghost use Rattle.prim_faults.specs.Faults.{method_text};
ghost use Rattle.prim_comparisons.specs.Operands.{IsUnsupported};

use arena_heap::{Arena, Value};
use prim_faults::{Fault, SpecialMethod, type_of};

/// The fault that the operator of this method takes no such operands.
pub(crate) fn unsupported(arena: &Arena, method: SpecialMethod, left: Value, right: Value) -> Fault
    requires left { Leads arena.now.objects left }
    requires right { Leads arena.now.objects right }
    ensures { IsUnsupported arena.now (method_text method) left right result }
{
    Fault::Unsupported {
        method,
        left: type_of(arena, left),
        right: type_of(arena, right),
    }
}
