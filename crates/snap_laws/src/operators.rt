//! Operators over heaps whose objects have other numbers.

ghost use Rattle.std.specs.Prelude.{◌≡◌};
ghost use Rattle.bc_machine.specs.mpy_base.Val.{Val};
ghost use Rattle.bc_machine.specs.py_values.Shown.{PlainHeap};
ghost use Rattle.bc_machine.specs.py_primitives.Walks.{walk_map};
ghost use Rattle.bc_machine.specs.py_primitives.Order.{Sign, order};
ghost use Rattle.bc_machine.specs.py_primitives.Operators.{Operator, binary, in_place, UnaryOperator, unary, unary_not, op_eq};
ghost use Rattle.bc_machine.specs.py_primitives.Operators.{op_ne, op_order, op_is, op_contains, op_match};
ghost use Rattle.snap_laws.specs.Renamed.{Renaming, IsRenamed, value};
ghost use Rattle.snap_laws.specs.Outcomes.{IsOutcome, order_as};

/// An operator of two operands does the same.
pub fn operator_law()
    ensures { (r : Renaming) (h k : PlainHeap) (op : Operator) (a b : Val) → IsRenamed r h k
        → IsOutcome r (value r) (binary h op a b) (binary k op (value r a) (value r b)) }
{}

/// So does an operator in place, and one of one operand.
pub fn operators_law()
    ensures in_place { (r : Renaming) (h k : PlainHeap) (op : Operator) (a b : Val) → IsRenamed r h k
        → IsOutcome r (value r) (in_place h op a b) (in_place k op (value r a) (value r b)) }
    ensures unary { (r : Renaming) (h k : PlainHeap) (op : UnaryOperator) (v : Val) → IsRenamed r h k
        → IsOutcome r (value r) (unary h op v) (unary k op (value r v)) }
    ensures negated { (r : Renaming) (h k : PlainHeap) (v : Val) → IsRenamed r h k → IsOutcome r (value r) (unary_not h v) (unary_not k (value r v)) }
{}

/// So does each comparison, visit by visit; values that have no order are the renamed ones.
pub fn comparisons_law()
    ensures order { (r : Renaming) (h k : PlainHeap) (a b : Val) → IsRenamed r h k → order k (value r a) (value r b) ≡ walk_map (order_as r) (order h a b) }
    ensures equal { (r : Renaming) (h k : PlainHeap) (a b : Val) → IsRenamed r h k → IsOutcome r (value r) (op_eq h a b) (op_eq k (value r a) (value r b)) }
    ensures unequal { (r : Renaming) (h k : PlainHeap) (a b : Val) → IsRenamed r h k → IsOutcome r (value r) (op_ne h a b) (op_ne k (value r a) (value r b)) }
    ensures ordered { (r : Renaming) (h k : PlainHeap) (sign : Sign) (a b : Val) → IsRenamed r h k
        → IsOutcome r (value r) (op_order h sign a b) (op_order k sign (value r a) (value r b)) }
    ensures identical { (r : Renaming) (h k : PlainHeap) (a b : Val) → IsRenamed r h k → IsOutcome r (value r) (op_is h a b) (op_is k (value r a) (value r b)) }
    ensures contained { (r : Renaming) (h k : PlainHeap) (v container : Val) → IsRenamed r h k
        → IsOutcome r (value r) (op_contains h v container) (op_contains k (value r v) (value r container)) }
    ensures handled { (r : Renaming) (h k : PlainHeap) (e kinds : Val) → IsRenamed r h k
        → IsOutcome r (value r) (op_match h e kinds) (op_match k (value r e) (value r kinds)) }
{}
