//! The calls that a manifest may make, and their parameters.

ghost use Rattle.std.specs.Prelude.{◌≡◌};
ghost use Rattle.std.specs.List.{list_all};
ghost use Rattle.std.specs.Option.{option_copied};
ghost use Rattle.manifest_lines.specs.Forms as spec;

use crate::call::Argument;
use crate::literal::Literal;

const INCLUDE: &[u8] = b"include";

const MODULE: &[u8] = b"module";

const FREEZE: &[u8] = b"freeze";

const PACKAGE: &[u8] = b"package";

const METADATA: &[u8] = b"metadata";

const REQUIRE: &[u8] = b"require";

const MODULE_PATH: &[u8] = b"module_path";

const BASE_PATH: &[u8] = b"base_path";

const OPT: &[u8] = b"opt";

const PATH: &[u8] = b"path";

const SCRIPT: &[u8] = b"script";

const PACKAGE_PATH: &[u8] = b"package_path";

const FILES: &[u8] = b"files";

const MANIFEST_PATH: &[u8] = b"manifest_path";

/// A call that a manifest may make.
#[derive(Clone, Copy, Debug, PartialEq, Eq)]
pub(crate) enum Form {
    Include,
    Module,
    Freeze,
    Package,
    Metadata,
    Require,
}

/// The call of that name, if a manifest may make it.
pub(crate) fn form_of(name: &[u8]) -> Option<Form>
    ensures { result ≡ spec.form_of name.now }
{
    if name == INCLUDE {
        Some(Form::Include)
    } else if name == MODULE {
        Some(Form::Module)
    } else if name == FREEZE {
        Some(Form::Freeze)
    } else if name == PACKAGE {
        Some(Form::Package)
    } else if name == METADATA {
        Some(Form::Metadata)
    } else if name == REQUIRE {
        Some(Form::Require)
    } else {
        None
    }
}

/// How many parameters it has, where they are fixed.
fn parameters(form: Form) -> usize
    ensures { result ≡ spec.parameters form }
{
    match form {
        Form::Include => 1,
        Form::Module | Form::Freeze => 3,
        Form::Package => 4,
        Form::Metadata | Form::Require => 0,
    }
}

/// The place of the parameter of `module` that has the name.
fn module_place(name: &[u8]) -> Option<usize>
    ensures { result ≡ spec.module_place name.now }
{
    if name == MODULE_PATH {
        Some(0)
    } else if name == BASE_PATH {
        Some(1)
    } else if name == OPT {
        Some(2)
    } else {
        None
    }
}

/// The place of the parameter of `freeze` that has the name.
fn freeze_place(name: &[u8]) -> Option<usize>
    ensures { result ≡ spec.freeze_place name.now }
{
    if name == PATH {
        Some(0)
    } else if name == SCRIPT {
        Some(1)
    } else if name == OPT {
        Some(2)
    } else {
        None
    }
}

/// The place of the parameter of `package` that has the name.
fn package_place(name: &[u8]) -> Option<usize>
    ensures { result ≡ spec.package_place name.now }
{
    if name == PACKAGE_PATH {
        Some(0)
    } else if name == FILES {
        Some(1)
    } else if name == BASE_PATH {
        Some(2)
    } else if name == OPT {
        Some(3)
    } else {
        None
    }
}

/// The place of the parameter of `include` that has the name.
fn include_place(name: &[u8]) -> Option<usize>
    ensures { result ≡ spec.include_place name.now }
{
    if name == MANIFEST_PATH { Some(0) } else { None }
}

/// The place of the parameter of this name, counted from 0.
fn place_of(form: Form, name: &[u8]) -> Option<usize>
    ensures { result ≡ spec.place_of form name.now }
{
    match form {
        Form::Include => include_place(name),
        Form::Module => module_place(name),
        Form::Freeze => freeze_place(name),
        Form::Package => package_place(name),
        Form::Metadata | Form::Require => None,
    }
}

/// The value at a place, where it has no name.
fn nameless_at(arguments: &[Argument], place: usize) -> Option<&Literal>
    ensures { option_copied result ≡ spec.nameless_at arguments.now place }
{
    match arguments.get(place) {
        Some(argument) => match &argument.name {
            None => Some(&argument.value),
            Some(_) => None,
        },
        None => None,
    }
}

/// Is it the place of this parameter?
fn is_at(place: Option<usize>, parameter: usize) -> bool
    ensures { result ≡ spec.is_at place parameter }
{
    match place {
        None => false,
        Some(place) => place == parameter,
    }
}

/// Whether an argument is given by name to the parameter at a place.
fn is_for(form: Form, parameter: usize, argument: &Argument) -> bool
    ensures { result ≡ spec.is_for form parameter argument.now }
{
    match &argument.name {
        None => false,
        Some(name) => is_at(place_of(form, name.bytes()), parameter),
    }
}

/// The value that is given by name to the parameter at a place.
fn named_for(form: Form, arguments: &[Argument], parameter: usize) -> Option<&Literal>
    ensures { option_copied result ≡ spec.named_for form parameter arguments.now }
{
    for argument in arguments {
        if is_for(form, parameter, argument) {
            return Some(&argument.value);
        }
    }
    None
}

/// The value of the parameter at a place.
pub(crate) fn value_of(form: Form, arguments: &[Argument], parameter: usize) -> Option<&Literal>
    ensures { option_copied result ≡ spec.value_of form parameter arguments.now }
{
    match nameless_at(arguments, parameter) {
        Some(value) => Some(value),
        None => named_for(form, arguments, parameter),
    }
}

/// Whether an argument, among all of a call, is given to a parameter of its own.
fn is_given(form: Form, arguments: &[Argument], argument: &Argument) -> bool
    ensures { result ≡ spec.is_given form arguments.now argument.now }
{
    match &argument.name {
        None => true,
        Some(name) => match place_of(form, name.bytes()) {
            None => false,
            Some(place) => nameless_at(arguments, place).is_none(),
        },
    }
}

/// Is each argument given to a parameter?
fn are_given(form: Form, arguments: &[Argument]) -> bool
    ensures { result ≡ list_all (spec.is_given form arguments.now) arguments.now }
{
    arguments
        .iter()
        .all(|argument| is_given(form, arguments, argument))
}

/// Whether each argument is given to a parameter of its own.
pub(crate) fn fits(form: Form, arguments: &[Argument]) -> bool
    ensures { result ≡ spec.fits form arguments.now }
{
    if nameless_at(arguments, parameters(form)).is_none() {
        are_given(form, arguments)
    } else {
        false
    }
}
