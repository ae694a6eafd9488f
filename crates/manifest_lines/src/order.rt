//! What a call orders.

ghost use Rattle.std.specs.Prelude.{◌≡◌, [], ◌∷◌, IfOk};
ghost use Rattle.manifest_lines.specs.Ahead.{Gives};
ghost use Rattle.manifest_lines.specs.Forms as calls;
ghost use Rattle.manifest_lines.specs.Orders as spec;

use crate::ahead::NoCall;
use crate::call::{Argument, Call};
use crate::entry::{Entry, Sources, entries_of};
use crate::form::{Form, fits, form_of, value_of};
use crate::literal::Literal;
use mpy_base::{Items, NoMemory, Refused, Text};
use std::alloc::Global;

/// What a line of a manifest orders.
#[derive(Debug, Drop)]
pub enum Order {
    /// The lines of another manifest, by its path from the manifest's folder on.
    Include(Text),
    Freeze(Items<Entry>),
    Nothing,
    /// A package of this name that can't be had.
    Require(Text),
}

/// `$(` stands for a variable, and there are none.
fn has_variable(text: &[u8]) -> bool
    ensures { result ≡ spec.has_variable text.now }
{
    let mut rest = text;
    'more: while let [first, behind @ ..] = rest {
        if *first == b'$' && begins_with_bracket(behind) {
            return true;
        }
        rest = behind;
    }
    false
}

/// Is the first byte `(`?
fn begins_with_bracket(text: &[u8]) -> bool
    ensures { result ≡ spec.begins_with_bracket text.now }
{
    match text {
        [first, ..] => *first == b'(',
        [] => false,
    }
}

/// A text that may be a path, which has no variable.
fn path_text(alloc: Global, text: &[u8]) -> Result<Text, Refused<NoCall>>
    ensures { Gives (spec.path_text text.now) result }
{
    if has_variable(text) {
        return Err(Refused::Fault(NoCall));
    }
    Ok(Text::new(alloc, text)?)
}

/// The path that is given to a parameter.
fn path(
    alloc: Global,
    form: Form,
    arguments: &[Argument],
    parameter: usize,
) -> Result<Text, Refused<NoCall>>
    ensures { Gives (spec.path_of (calls.value_of form parameter arguments.now)) result }
{
    match value_of(form, arguments, parameter) {
        Some(Literal::Text(text)) => path_text(alloc, text.bytes()),
        _ => Err(Refused::Fault(NoCall)),
    }
}

/// The path that is given to a parameter, and the folder itself where none is.
fn path_or_dot(
    alloc: Global,
    form: Form,
    arguments: &[Argument],
    parameter: usize,
) -> Result<Text, Refused<NoCall>>
    ensures { Gives (spec.path_or_dot (calls.value_of form parameter arguments.now)) result }
{
    match value_of(form, arguments, parameter) {
        None => Ok(Text::new(alloc, b".")?),
        Some(Literal::Text(text)) => path_text(alloc, text.bytes()),
        Some(_) => Err(Refused::Fault(NoCall)),
    }
}

/// The level that a number is, from 0 to 3.
fn level_of(number: i32) -> Result<u8, Refused<NoCall>>
    ensures { Gives (spec.level_of_number number) result }
{
    if 0 <= number && number <= 3 {
        Ok(number as u8)
    } else {
        Err(Refused::Fault(NoCall))
    }
}

/// The level that is given to a parameter, and 0 where none is.
fn level(form: Form, arguments: &[Argument], parameter: usize) -> Result<u8, Refused<NoCall>>
    ensures { Gives (spec.level_of (calls.value_of form parameter arguments.now)) result }
{
    match value_of(form, arguments, parameter) {
        None | Some(Literal::None) => Ok(0),
        Some(Literal::Number(number)) => level_of(*number),
        Some(_) => Err(Refused::Fault(NoCall)),
    }
}

/// A copy of each text.
fn copies(alloc: Global, texts: &[Text]) -> Result<Items<Text>, NoMemory>
    ensures { IfOk result (λ copies. copies ≡ texts.now) }
{
    let mut copies = Items::new(alloc);
    for text in texts {
        copies.push(Text::new(alloc, text.bytes())?)?;
    }
    Ok(copies)
}

/// The list of this one text.
fn alone(alloc: Global, text: &[u8]) -> Result<Items<Text>, NoMemory>
    ensures { IfOk result (λ texts. texts ≡ text.now ∷ []) }
{
    let mut texts = Items::new(alloc);
    texts.push(Text::new(alloc, text)?)?;
    Ok(texts)
}

/// The string that is given to a parameter, as a list of one.
fn one(
    alloc: Global,
    form: Form,
    arguments: &[Argument],
    parameter: usize,
) -> Result<Items<Text>, Refused<NoCall>>
    ensures { Gives (spec.one (calls.value_of form parameter arguments.now)) result }
{
    match value_of(form, arguments, parameter) {
        Some(Literal::Text(text)) => Ok(alone(alloc, text.bytes())?),
        _ => Err(Refused::Fault(NoCall)),
    }
}

/// The tuple of strings that is given to a parameter.
fn several(
    alloc: Global,
    form: Form,
    arguments: &[Argument],
    parameter: usize,
) -> Result<Items<Text>, Refused<NoCall>>
    ensures { Gives (spec.several (calls.value_of form parameter arguments.now)) result }
{
    match value_of(form, arguments, parameter) {
        Some(Literal::Texts(texts)) => Ok(copies(alloc, texts.as_slice())?),
        _ => Err(Refused::Fault(NoCall)),
    }
}

/// The scripts that are given to a parameter, as a string or a tuple.
fn one_or_several(
    alloc: Global,
    form: Form,
    arguments: &[Argument],
    parameter: usize,
) -> Result<Items<Text>, Refused<NoCall>>
    ensures { Gives (spec.one_or_several (calls.value_of form parameter arguments.now)) result }
{
    match value_of(form, arguments, parameter) {
        Some(Literal::Text(text)) => Ok(alone(alloc, text.bytes())?),
        Some(Literal::Texts(texts)) => Ok(copies(alloc, texts.as_slice())?),
        _ => Err(Refused::Fault(NoCall)),
    }
}

/// What `module(module_path, base_path=".", opt=None)` names.
#[tactic(auto, unfolding(crate::specs::Orders::module_sources))]
fn module_sources(alloc: Global, arguments: &[Argument]) -> Result<Sources, Refused<NoCall>>
    ensures { Gives (spec.module_sources arguments.now) result }
{
    let form = Form::Module;
    let base = path_or_dot(alloc, form, arguments, 1)?;
    let scripts = one(alloc, form, arguments, 0)?;
    let opt = level(form, arguments, 2)?;
    let package = Text::new(alloc, b".")?;
    Ok(Sources {
        base,
        package,
        scripts,
        opt,
    })
}

/// What `freeze(path, script, opt=None)` names.
#[tactic(auto, unfolding(crate::specs::Orders::freeze_sources))]
fn freeze_sources(alloc: Global, arguments: &[Argument]) -> Result<Sources, Refused<NoCall>>
    ensures { Gives (spec.freeze_sources arguments.now) result }
{
    let form = Form::Freeze;
    let base = path(alloc, form, arguments, 0)?;
    let scripts = one_or_several(alloc, form, arguments, 1)?;
    let opt = level(form, arguments, 2)?;
    let package = Text::new(alloc, b".")?;
    Ok(Sources {
        base,
        package,
        scripts,
        opt,
    })
}

/// What `package(package_path, files, base_path=".", opt=None)` names.
#[tactic(auto, unfolding(crate::specs::Orders::package_sources))]
fn package_sources(alloc: Global, arguments: &[Argument]) -> Result<Sources, Refused<NoCall>>
    ensures { Gives (spec.package_sources arguments.now) result }
{
    let form = Form::Package;
    let base = path_or_dot(alloc, form, arguments, 2)?;
    let package = path(alloc, form, arguments, 0)?;
    let scripts = several(alloc, form, arguments, 1)?;
    let opt = level(form, arguments, 3)?;
    Ok(Sources {
        base,
        package,
        scripts,
        opt,
    })
}

/// Refuses where the arguments don't fit the call.
fn expect_fit(form: Form, arguments: &[Argument]) -> Result<(), Refused<NoCall>>
    ensures { Gives (spec.expect_fit form arguments.now) result }
{
    if fits(form, arguments) {
        Ok(())
    } else {
        Err(Refused::Fault(NoCall))
    }
}

/// The order of `include(manifest_path)`.
#[tactic(auto, unfolding(crate::specs::Orders::include))]
fn include(alloc: Global, arguments: &[Argument]) -> Result<Order, Refused<NoCall>>
    ensures { Gives (spec.include arguments.now) result }
{
    expect_fit(Form::Include, arguments)?;
    let path = path(alloc, Form::Include, arguments, 0)?;
    Ok(Order::Include(path))
}

/// The order of `module(module_path, base_path=".", opt=None)`.
#[tactic(auto, unfolding(crate::specs::Orders::module_call))]
fn module_call(alloc: Global, arguments: &[Argument]) -> Result<Order, Refused<NoCall>>
    ensures { Gives (spec.module_call arguments.now) result }
{
    expect_fit(Form::Module, arguments)?;
    let sources = module_sources(alloc, arguments)?;
    let entries = entries_of(alloc, &sources)?;
    Ok(Order::Freeze(entries))
}

/// The order of `freeze(path, script, opt=None)`.
#[tactic(auto, unfolding(crate::specs::Orders::freeze_call))]
fn freeze_call(alloc: Global, arguments: &[Argument]) -> Result<Order, Refused<NoCall>>
    ensures { Gives (spec.freeze_call arguments.now) result }
{
    expect_fit(Form::Freeze, arguments)?;
    let sources = freeze_sources(alloc, arguments)?;
    let entries = entries_of(alloc, &sources)?;
    Ok(Order::Freeze(entries))
}

/// The order of `package(package_path, files, base_path=".", opt=None)`.
#[tactic(auto, unfolding(crate::specs::Orders::package_call))]
fn package_call(alloc: Global, arguments: &[Argument]) -> Result<Order, Refused<NoCall>>
    ensures { Gives (spec.package_call arguments.now) result }
{
    expect_fit(Form::Package, arguments)?;
    let sources = package_sources(alloc, arguments)?;
    let entries = entries_of(alloc, &sources)?;
    Ok(Order::Freeze(entries))
}

/// The first string among the arguments.
fn require(alloc: Global, arguments: &[Argument]) -> Result<Order, Refused<NoCall>>
    ensures { Gives (spec.require arguments.now) result }
{
    for argument in arguments {
        if let Literal::Text(text) = &argument.value {
            return Ok(Order::Require(Text::new(alloc, text.bytes())?));
        }
    }
    Err(Refused::Fault(NoCall))
}

/// What a call orders.
pub(crate) fn order_of(alloc: Global, call: &Call) -> Result<Order, Refused<NoCall>>
    ensures { Gives (spec.order_of call.now) result }
{
    let arguments = call.arguments.as_slice();
    match form_of(call.name.bytes()) {
        None => Err(Refused::Fault(NoCall)),
        Some(Form::Include) => include(alloc, arguments),
        Some(Form::Module) => module_call(alloc, arguments),
        Some(Form::Freeze) => freeze_call(alloc, arguments),
        Some(Form::Package) => package_call(alloc, arguments),
        Some(Form::Metadata) => Ok(Order::Nothing),
        Some(Form::Require) => require(alloc, arguments),
    }
}
