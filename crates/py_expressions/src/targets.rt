//! Targets: an expression is read, and then taken as a target, or refused.

ghost use Rattle.std.specs.Prelude.{◌≡◌, ◌≤◌, suc, ℕ, List, ◌∷◌, length, Some, IfOk};
ghost use Rattle.std.specs.Option.{option_copied};
ghost use Rattle.py_tokens.specs.declared.token.Token.{Token};
ghost use Rattle.py_tokens.specs.declared.token.Tok.TheVariants as tok;
ghost use Rattle.py_tokens.specs.declared.word.Word.TheVariants as word;
ghost use Rattle.py_tree.specs.declared.expr.Expr.{Expr as Tree};
ghost use Rattle.py_tree.specs.declared.stmt.Target.{Target};
ghost use Rattle.py_expressions.specs.Follow.{rank, behind_primary};
ghost use Rattle.py_expressions.specs.Grammar.{Members, members_text, members_tree};
ghost use Rattle.py_expressions.specs.Input.{Reads, input_of, seen, Place, at};
ghost use Rattle.py_expressions.specs.Laws.{IsFound, IsRead, NamesFront};
ghost use Rattle.py_expressions.specs.Reading as reading;
ghost use Rattle.py_expressions.specs.Nests.{Nests};
ghost use Rattle.py_expressions.specs.Targets as spec;
ghost use Rattle.py_expressions.specs.Targets.{One, Gone, Aims, one_text, one_tree, gone_text, gone_tree, aims_text, aims_tree, AimedMembers, IsTarget};

use crate::calls::begins_trailer;
use crate::cursor::{Cursor, Syntax, release};
use crate::grammar::{Grammar, Rule, expr};
use crate::members::tuple_of;
use mpy_base::{Items, NoMemory, Refused};
use py_tokens::Tok;
use py_tree::{Expr, Target};
use std::alloc::Global;

/// The target that an expression is, with brackets no deeper than `depth`.
#[cycle(target)]
pub fn target_of(alloc: Global, depth: usize, value: Expr) -> Result<Option<Target>, NoMemory>
    ensures { IfOk result (λ target. target ≡ spec.target_of depth value) }
{
    if depth == 0 {
        release(value);
        return Ok(None);
    }
    match value {
        Expr::Name(name) => Ok(Some(Target::Name(name))),
        Expr::Attr { object, name } => Ok(Some(Target::Attr {
            object: object.into_inner(),
            name,
        })),
        Expr::Index { object, index } => Ok(Some(Target::Index {
            object: object.into_inner(),
            index: index.into_inner(),
        })),
        Expr::Tuple(members) => unpack(alloc, depth - 1, members),
        Expr::List(members) => unpack(alloc, depth - 1, members),
        _ => {
            release(value);
            Ok(None)
        }
    }
}

/// The target of a tuple or list, which has one member or more.
#[cycle(target)]
fn unpack(alloc: Global, depth: usize, members: Items<Expr>) -> Result<Option<Target>, NoMemory>
    ensures { IfOk result (λ target. target ≡ spec.unpack (spec.target_of depth) members) }
{
    if members.is_empty() {
        return Ok(None);
    }
    match each(alloc, depth, members)? {
        None => Ok(None),
        Some(found) => Ok(Some(Target::Unpack(found))),
    }
}

/// The target that each member is.
#[cycle(target)]
fn each(
    alloc: Global,
    depth: usize,
    members: Items<Expr>,
) -> Result<Option<Items<Target>>, NoMemory>
    ensures { IfOk result (λ targets. targets ≡ spec.each (spec.target_of depth) members) }
{
    let mut found = Items::new(alloc);
    'more: for member in members.into_vec() {
        match target_of(alloc, depth, member)? {
            None => return Ok(None),
            Some(target) => found.push(target)?,
        }
    }
    Ok(Some(found))
}

/// What a primary with trailers is as the target of an augmented assignment.
fn part_of(value: Expr) -> Option<Target>
    ensures { result ≡ spec.part_of value }
{
    match value {
        Expr::Attr { object, name } => Some(Target::Attr {
            object: object.into_inner(),
            name,
        }),
        Expr::Index { object, index } => Some(Target::Index {
            object: object.into_inner(),
            index: index.into_inner(),
        }),
        _ => {
            release(value);
            None
        }
    }
}

/// And as a target of a `del`.
fn item_of(value: Expr) -> Option<Target>
    ensures { result ≡ spec.item_of value }
{
    match value {
        Expr::Index { object, index } => Some(Target::Index {
            object: object.into_inner(),
            index: index.into_inner(),
        }),
        _ => {
            release(value);
            None
        }
    }
}

/// The item that a primary is as a target of `del`, or the attribute or item as one of an augmented assignment.
fn whole_of(deletes: bool, value: Expr) -> Option<Target>
    ensures { result ≡ spec.whole_of deletes value }
{
    if deletes {
        item_of(value)
    } else {
        part_of(value)
    }
}

/// What an atom without trailers is as either target: a name that no bracket encloses.
fn alone(is_name: bool, value: Expr) -> Option<Target>
    ensures { result ≡ spec.alone_of is_name value }
{
    match value {
        Expr::Name(name) => is_name.then_some(Target::Name(name)),
        _ => {
            release(value);
            None
        }
    }
}

/// Is it a name?
fn is_name(kind: Option<&Tok>) -> bool
    ensures { result ≡ reading.is_name (seen (option_copied kind.entry)) }
{
    matches!(kind, Some(Tok::Name(_)))
}

/// A target that was found, or a refusal.
fn given(tokens: &Cursor<'_>, found: Option<Target>) -> Result<Target, Refused<Syntax>>
    ensures { Reads (spec.given found (input_of tokens.now)) result tokens.now }
{
    found.ok_or(tokens.refuse())
}

impl<F: Fn(Global, &mut Cursor<'_>, usize, Rule) -> Result<Expr, Refused<Syntax>>> Grammar<F> {
    /// A name, or a primary that ends as the target of an augmented assignment, or as that of a `del`.
    fn single(&self, tokens: &mut Cursor<'_>, deletes: bool) -> Result<Target, Refused<Syntax>>
        requires { Nests self.now.depth (F.pre self.now.expr) (F.post self.now.expr) }
        ensures { Reads (spec.single (spec.whole_of deletes) (reading.expr self.now.depth) (input_of tokens.old)) result tokens.new }
    {
        let named = is_name(tokens.peek());
        let first = self.atom(tokens)?;
        if !begins_trailer(tokens.peek()) {
            return given(tokens, alone(named, first));
        }
        let whole = self.trailers(tokens, first)?;
        given(tokens, whole_of(deletes, whole))
    }
}

/// Reads the target of an augmented assignment.
fn one_target(alloc: Global, tokens: &mut Cursor<'_>) -> Result<Target, Refused<Syntax>>
    ensures { Reads (spec.one_target (input_of tokens.old)) result tokens.new }
{
    let depth = tokens.left();
    Grammar { alloc, depth, expr }.single(tokens, false)
}

/// Reads a target of `del`.
fn one_gone(alloc: Global, tokens: &mut Cursor<'_>) -> Result<Target, Refused<Syntax>>
    ensures { Reads (spec.one_gone (input_of tokens.old)) result tokens.new }
{
    let depth = tokens.left();
    Grammar { alloc, depth, expr }.single(tokens, true)
}

/// Reads the targets of a `for`, in front of its `in`.
fn all_targets(alloc: Global, tokens: &mut Cursor<'_>) -> Result<Target, Refused<Syntax>>
    ensures { Reads (spec.all_targets (input_of tokens.old)) result tokens.new }
{
    let depth = tokens.left() + 1;
    let (found, comma) = Grammar { alloc, depth, expr }.members(tokens, Rule::Primary)?;
    let target = target_of(alloc, depth, tuple_of(found, comma))?;
    given(tokens, target)
}

/// Reads the target of an augmented assignment.
pub fn read_one(alloc: Global, tokens: &mut Cursor<'_>) -> Result<Target, Refused<Syntax>>
    ensures reads { Reads (spec.one_target (input_of tokens.old)) result tokens.new }
    ensures found { IsFound one_text one_tree tokens.old result tokens.new }
    ensures only { (o : One) (rest : List Token) → behind_primary ≤ rank rest
        → tokens.old.ahead.now ≡ one_text o rest → IsRead (one_tree o) rest result tokens.new }
    ensures fault { NamesFront tokens.old result }
{
    one_target(alloc, tokens)
}

/// Reads one target of a `del`.
pub fn read_gone(alloc: Global, tokens: &mut Cursor<'_>) -> Result<Target, Refused<Syntax>>
    ensures reads { Reads (spec.one_gone (input_of tokens.old)) result tokens.new }
    ensures found { IsFound gone_text gone_tree tokens.old result tokens.new }
    ensures only { (g : Gone) (rest : List Token) → behind_primary ≤ rank rest
        → tokens.old.ahead.now ≡ gone_text g rest → IsRead (gone_tree g) rest result tokens.new }
    ensures fault { NamesFront tokens.old result }
{
    one_gone(alloc, tokens)
}

/// Reads the targets of a `for`, which `in` follows.
pub fn read_targets(alloc: Global, tokens: &mut Cursor<'_>) -> Result<Target, Refused<Syntax>>
    ensures reads { Reads (spec.all_targets (input_of tokens.old)) result tokens.new }
    ensures found { IsFound aims_text aims_tree tokens.old result tokens.new }
    ensures only { (aims : Aims) (place : Place) (rest : List Token)
        → tokens.old.ahead.now ≡ aims_text aims (at place (tok.Word word.In) ∷ rest)
        → IsRead (aims_tree aims) (at place (tok.Word word.In) ∷ rest) result tokens.new }
    ensures fault { NamesFront tokens.old result }
{
    all_targets(alloc, tokens)
}

/// Tests whose tree is a target are spelled as one, and each target is spelled as tests whose tree it is. An expression is
/// one target at most.
pub fn targets_law()
    ensures one { (value : Tree) (first second : Target) → IsTarget value first → IsTarget value second → first ≡ second }
    ensures aimed { (m : Members) (depth : ℕ) (target : Target) → spec.target_of depth (members_tree m) ≡ Some target
        → AimedMembers (members_text m) target }
    ensures embedded { (aims : Aims) → (m : Members) × ((rest : List Token) → members_text m rest ≡ aims_text aims rest)
        × ((depth : ℕ) (rest : List Token) → length (aims_text aims rest) ≤ depth
        → spec.target_of (suc depth) (members_tree m) ≡ Some (aims_tree aims)) }
{}
