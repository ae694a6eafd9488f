//! Headers of clauses, from their first word up to the colon.

ghost use Rattle.std.specs.Prelude.{◌≡◌, true, IfOk};
ghost use Rattle.std.specs.List.{list_any, list_all};
ghost use Rattle.std.specs.Option.{is_some};
ghost use Rattle.std.specs.Result.{result_map_both};
ghost use Rattle.std.specs.Str.{bytes_eq};
ghost use Rattle.py_expressions.specs.Input.{Reads, input_of};
ghost use Rattle.py_expressions.specs.Reading as expressions;
ghost use Rattle.py_statements.specs.Reading as statements;
ghost use Rattle.py_parser.specs.declared.clause.Head.TheVariants as head;
ghost use Rattle.py_parser.specs.Clauses as clauses;
ghost use Rattle.py_parser.specs.Reading as spec;

use crate::clause::{Head, Header};
use mpy_base::{Items, NoMemory, Refused, Text};
use py_expressions::{
    Cursor, FEW_NAMES, Mark, NameTable, Syntax, read_targets, read_test, read_tests, release,
};
use py_tokens::{Op, Tok, Word};
use py_tree::{Expr, Param, Target};
use std::alloc::Global;

/// Passes a word and a colon.
#[tactic(auto, unfolding(crate::specs::Reading::word_alone))]
fn word_alone(tokens: &mut Cursor<'_>) -> Result<(), Refused<Syntax>>
    ensures { Reads (spec.word_alone (input_of tokens.old)) result tokens.new }
{
    tokens.take();
    tokens.expect(Mark::Op(Op::Colon))
}

/// Reads a test between a word and a colon, and passes these.
#[tactic(auto, unfolding(crate::specs::Reading::condition))]
fn condition(alloc: Global, tokens: &mut Cursor<'_>) -> Result<Expr, Refused<Syntax>>
    ensures { Reads (spec.condition (input_of tokens.old)) result tokens.new }
{
    tokens.take();
    let test = read_test(alloc, tokens)?;
    tokens.closed(Mark::Op(Op::Colon), test)
}

/// What a `for` goes over: `in`, tests and a colon.
#[tactic(auto, unfolding(crate::specs::Reading::iterable))]
fn iterable(alloc: Global, tokens: &mut Cursor<'_>) -> Result<Expr, Refused<Syntax>>
    ensures { Reads (spec.iterable (input_of tokens.old)) result tokens.new }
{
    tokens.expect(Mark::Word(Word::In))?;
    let over = read_tests(alloc, tokens)?;
    tokens.closed(Mark::Op(Op::Colon), over)
}

/// The header of a `for`, if what it goes over was read.
fn for_over(target: Target, over: Result<Expr, Refused<Syntax>>) -> Result<Head, Refused<Syntax>>
    ensures { result ≡ result_map_both (λ x. head.For target x) (λ error. error) over }
{
    match over {
        Ok(over) => Ok(Head::For { target, over }),
        Err(error) => {
            release(target);
            Err(error)
        }
    }
}

/// Reads `"for" targets "in" tests ":"`.
fn for_head(alloc: Global, tokens: &mut Cursor<'_>) -> Result<Head, Refused<Syntax>>
    ensures { Reads (spec.for_head (input_of tokens.old)) result tokens.new }
{
    tokens.take();
    let target = read_targets(alloc, tokens)?;
    let over = iterable(alloc, tokens);
    for_over(target, over)
}

/// Reads `NAME [ "=" test ]`.
#[tactic(auto, unfolding(crate::specs::Reading::parameter))]
fn parameter(alloc: Global, tokens: &mut Cursor<'_>) -> Result<Param, Refused<Syntax>>
    ensures { Reads (spec.parameter (input_of tokens.old)) result tokens.new }
{
    let name = tokens.name(alloc)?;
    if !tokens.eat(Mark::Op(Op::Assign)) {
        return Ok(Param {
            name,
            default: None,
        });
    }
    let default = Some(read_test(alloc, tokens)?);
    Ok(Param { name, default })
}

/// One parameter or more, behind which a comma may stand.
fn some_parameters(alloc: Global, tokens: &mut Cursor<'_>) -> Result<Items<Param>, Refused<Syntax>>
    ensures { Reads (statements.series spec.parameter true (input_of tokens.old)) result tokens.new }
{
    let mut found = Items::new(alloc);
    for _turn in 0..tokens.left() {
        found.push(parameter(alloc, tokens)?)?;
        if !tokens.eat(Mark::Op(Op::Comma)) {
            return Ok(found);
        }
        if tokens.sees(Mark::Op(Op::CloseParen)) {
            return Ok(found);
        }
    }
    Err(tokens.refuse())
}

/// Reads `[ param { "," param } [ "," ] ]`.
#[tactic(auto, unfolding(crate::specs::Reading::parameters))]
fn parameters(alloc: Global, tokens: &mut Cursor<'_>) -> Result<Items<Param>, Refused<Syntax>>
    ensures { Reads (spec.parameters (input_of tokens.old)) result tokens.new }
{
    if tokens.sees(Mark::Op(Op::CloseParen)) {
        return Ok(Items::new(alloc));
    }
    some_parameters(alloc, tokens)
}

/// Whether one of them has the name.
fn has_name(params: &[Param], name: &Text) -> bool
    ensures { result ≡ list_any (λ param. bytes_eq param.name name.now) params.now }
{
    params
        .iter()
        .any(|param| param.name.bytes() == name.bytes())
}

/// Has none of the parameters this name?
fn is_new(name: &Text, params: &[Param]) -> bool
    ensures { result ≡ expressions.is_new name.now (clauses.param_names params.now) }
{
    !has_name(params, name)
}

/// Do the names of a few parameters differ? Each is compared with all behind it.
fn few_differ(params: &[Param]) -> bool
    ensures { result ≡ clauses.names_differ (clauses.param_names params.now) }
{
    let mut rest = params;
    'more: while let [first, others @ ..] = rest {
        if !is_new(&first.name, others) {
            return false;
        }
        rest = others;
    }
    true
}

/// Do the names of parameters differ, however many they are? Each is looked up among those in front of it.
fn many_differ(alloc: Global, params: &[Param]) -> Result<bool, NoMemory>
    ensures { IfOk result (λ differ. differ ≡ clauses.names_differ (clauses.param_names params.now)) }
{
    let mut table = NameTable::new(alloc);
    for param in params {
        if !table.insert(alloc, param.name.bytes())? {
            return Ok(false);
        }
    }
    Ok(true)
}

/// Do the names of parameters differ?
fn names_differ(alloc: Global, params: &[Param]) -> Result<bool, NoMemory>
    ensures { IfOk result (λ differ. differ ≡ clauses.names_differ (clauses.param_names params.now)) }
{
    if params.len() <= FEW_NAMES {
        return Ok(few_differ(params));
    }
    many_differ(alloc, params)
}

/// Has each parameter a default?
fn all_default(params: &[Param]) -> bool
    ensures { result ≡ clauses.all_default params.now }
{
    params.iter().all(|param| param.default.is_some())
}

/// No parameter without a default stands behind one with a default.
fn defaults_last(params: &[Param]) -> bool
    ensures { result ≡ clauses.defaults_last params.now }
{
    let mut rest = params;
    'more: while let [first, others @ ..] = rest {
        if first.default.is_some() {
            return all_default(others);
        }
        rest = others;
    }
    true
}

/// Do the names of parameters differ, and are those with defaults the last?
fn params_fit(alloc: Global, params: &[Param]) -> Result<bool, NoMemory>
    ensures { IfOk result (λ fit. fit ≡ clauses.params_fit params.now) }
{
    if !names_differ(alloc, params)? {
        return Ok(false);
    }
    Ok(defaults_last(params))
}

/// A `def` whose parameters fit; refused where they don't.
fn fitting(
    alloc: Global,
    tokens: &Cursor<'_>,
    name: Text,
    params: Items<Param>,
) -> Result<Head, Refused<Syntax>>
    ensures { Reads (spec.fitting name params (input_of tokens.now)) result tokens.now }
{
    if params_fit(alloc, params.as_slice())? {
        Ok(Head::Def { name, params })
    } else {
        Err(tokens.refuse())
    }
}

/// Behind the opening bracket of a `def`.
#[tactic(auto, unfolding(crate::specs::Reading::defined))]
fn defined(alloc: Global, tokens: &mut Cursor<'_>, name: Text) -> Result<Head, Refused<Syntax>>
    ensures { Reads (spec.defined name (input_of tokens.old)) result tokens.new }
{
    let params = parameters(alloc, tokens)?;
    tokens.expect(Mark::Op(Op::CloseParen))?;
    tokens.expect(Mark::Op(Op::Colon))?;
    fitting(alloc, tokens, name, params)
}

/// Reads `"def" NAME "(" [ param { "," param } [ "," ] ] ")" ":"`.
#[tactic(auto, unfolding(crate::specs::Reading::def_head))]
fn def_head(alloc: Global, tokens: &mut Cursor<'_>) -> Result<Head, Refused<Syntax>>
    ensures { Reads (spec.def_head (input_of tokens.old)) result tokens.new }
{
    tokens.take();
    let name = tokens.name(alloc)?;
    tokens.expect(Mark::Op(Op::OpenParen))?;
    defined(alloc, tokens, name)
}

/// The header of a first clause.
#[tactic(auto, unfolding(crate::specs::Reading::first))]
pub(crate) fn first(alloc: Global, tokens: &mut Cursor<'_>) -> Result<Head, Refused<Syntax>>
    ensures { Reads (spec.first (input_of tokens.old)) result tokens.new }
{
    match tokens.peek() {
        Some(Tok::Word(Word::If)) => Ok(Head::If(condition(alloc, tokens)?)),
        Some(Tok::Word(Word::While)) => Ok(Head::While(condition(alloc, tokens)?)),
        Some(Tok::Word(Word::For)) => for_head(alloc, tokens),
        Some(Tok::Word(Word::Try)) => {
            word_alone(tokens)?;
            Ok(Head::Try)
        }
        Some(Tok::Word(Word::Def)) => def_head(alloc, tokens),
        _ => Err(tokens.refuse()),
    }
}

/// Reads `[ "as" NAME ]`.
#[tactic(auto, unfolding(crate::specs::Reading::naming))]
fn naming(alloc: Global, tokens: &mut Cursor<'_>) -> Result<Option<Text>, Refused<Syntax>>
    ensures { Reads (spec.naming (input_of tokens.old)) result tokens.new }
{
    if !tokens.eat(Mark::Word(Word::As)) {
        return Ok(None);
    }
    let name = tokens.name(alloc)?;
    Ok(Some(name))
}

/// Reads `test [ "as" NAME ] ":"`.
#[tactic(auto, unfolding(crate::specs::Reading::catching))]
fn catching(alloc: Global, tokens: &mut Cursor<'_>) -> Result<Header, Refused<Syntax>>
    ensures { Reads (spec.catching (input_of tokens.old)) result tokens.new }
{
    let test = Some(read_test(alloc, tokens)?);
    match naming(alloc, tokens) {
        Ok(name) => tokens.closed(Mark::Op(Op::Colon), Header::Except { test, name }),
        Err(refused) => {
            release(test);
            Err(refused)
        }
    }
}

/// Reads `"except" [ test [ "as" NAME ] ] ":"`.
#[tactic(auto, unfolding(crate::specs::Reading::except_header))]
fn except_header(alloc: Global, tokens: &mut Cursor<'_>) -> Result<Header, Refused<Syntax>>
    ensures { Reads (spec.except_header (input_of tokens.old)) result tokens.new }
{
    tokens.take();
    if !tokens.eat(Mark::Op(Op::Colon)) {
        return catching(alloc, tokens);
    }
    Ok(Header::Except {
        test: None,
        name: None,
    })
}

/// The header of a further clause.
#[tactic(auto, unfolding(crate::specs::Reading::later))]
pub(crate) fn later(alloc: Global, tokens: &mut Cursor<'_>) -> Result<Header, Refused<Syntax>>
    ensures { Reads (spec.later (input_of tokens.old)) result tokens.new }
{
    match tokens.peek() {
        Some(Tok::Word(Word::Elif)) => Ok(Header::Elif(condition(alloc, tokens)?)),
        Some(Tok::Word(Word::Else)) => {
            word_alone(tokens)?;
            Ok(Header::Else)
        }
        Some(Tok::Word(Word::Except)) => except_header(alloc, tokens),
        Some(Tok::Word(Word::Finally)) => {
            word_alone(tokens)?;
            Ok(Header::Finally)
        }
        _ => Err(tokens.refuse()),
    }
}
