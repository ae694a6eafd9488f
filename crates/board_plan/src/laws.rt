//! What is said of plans.

ghost use Rattle.std.specs.Prelude.{◌≡◌, ℕ, ◌*◌, ◌≤◌, List, length};
ghost use Rattle.mpy_words.specs.Given.{most_steps};
ghost use Rattle.board_plan.specs.declared.plan.Plan.{Plan};
ghost use Rattle.board_plan.specs.declared.plan.PlanFault.{PlanFault};
ghost use Rattle.board_plan.specs.Lines.{lines_of};
ghost use Rattle.board_plan.specs.Plans.{HasFault, IsPlan, all_steps};

/// Lines are one plan, or have one fault, and not both. A text's plan has no more than `most_steps` steps for each of the text's bytes.
pub fn plan_law()
    ensures one { (text : List (List ℕ)) (plan other : Plan) → IsPlan text plan → IsPlan text other → plan ≡ other }
    ensures one_fault { (text : List (List ℕ)) (fault other : PlanFault) → HasFault text fault → HasFault text other → fault ≡ other }
    ensures not_both { (text : List (List ℕ)) (plan : Plan) (fault : PlanFault) → IsPlan text plan → HasFault text fault → ⊥ }
    ensures steps { (text : List ℕ) (plan : Plan) → IsPlan (lines_of text) plan → all_steps plan.turns ≤ length text * most_steps }
{}
