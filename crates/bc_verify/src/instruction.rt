//! The rules on each instruction of a code.

ghost use Rattle.std.specs.Prelude.{◌≡◌, ◌↔◌, ◌≤◌, ℕ, IsTrue, IfSome, IfNone};
ghost use Rattle.bc_verify.specs.declared.fault.Rule.{Rule};
ghost use Rattle.bc_verify.specs.Body.{body_of};
ghost use Rattle.bc_verify.specs.Rule.{of_flow};
ghost use Rattle.bc_verify.specs.Rules.{IsMissing, Breaks, KeepsAll, IsFirstBroken};

use crate::fault::Rule;
use bc_flow::{Code, Instr, Item, Op, Rule as FlowRule, fault_of};
use mpy_tree::RawModule;

/// A rule that a code breaks, and the position where.
#[derive(Clone, Copy)]
pub(crate) struct Broken {
    pub rule: Rule,
    pub position: usize,
}

/// A rule of the flow, among the rules of modules.
pub(crate) fn of_flow_rule(rule: FlowRule) -> Rule
    ensures { result ≡ of_flow rule }
{
    match rule {
        FlowRule::Jump => Rule::Jump,
        FlowRule::Height => Rule::Height,
        FlowRule::Handlers => Rule::Handlers,
        FlowRule::Falls => Rule::Falls,
        FlowRule::Local => Rule::Local,
        FlowRule::State => Rule::State,
    }
}

/// Does it name a text, an object or a child that isn't there, where the code has `children` children?
fn is_missing(module: &RawModule, children: usize, item: &Item) -> bool
    ensures { IsTrue result ↔ IsMissing module.now children item.now }
{
    match *item {
        Item::Plain(Instr::Name(_, n)) => module.qstrs().len() <= n as usize,
        Item::Plain(Instr::Num(op, n)) => match op {
            Op::LoadConstObj => module.objects().len() <= n as usize,
            Op::MakeFunction | Op::MakeFunctionDefargs => children <= n as usize,
            _ => false,
        },
        _ => false,
    }
}

/// The rule that the item breaks by itself.
fn broken_by(module: &RawModule, children: usize, code: &Code, item: &Item) -> Option<Rule>
    ensures some { IfSome result (λ rule. Breaks module.now children (body_of code.now) rule item.now) }
    ensures none { IfNone result ((rule : Rule) → Breaks module.now children (body_of code.now) rule item.now → ⊥) }
{
    if let Some(rule) = fault_of(code, item) {
        return Some(of_flow_rule(rule));
    }
    if is_missing(module, children, item) {
        return Some(Rule::Names);
    }
    None
}

/// The first instruction of a code with `children` children that breaks a rule by itself.
pub(crate) fn first_broken(module: &RawModule, children: usize, code: &Code) -> Option<Broken>
    ensures some { IfSome result (λ b. IsFirstBroken module.now children (body_of code.now) b.rule b.position) }
    ensures none { IfNone result (KeepsAll module.now children (body_of code.now)) }
{
    for (position, item) in code.items.iter().enumerate() {
        if let Some(rule) = broken_by(module, children, code, item) {
            return Some(Broken { rule, position });
        }
    }
    None
}
