//! What is found in the tables of a library.

ghost use Rattle.std.specs.Prelude.{◌≡◌, ◌<◌, length, Some, IsSome, IfSome, IfNone, slice_get};
ghost use Rattle.vm_states.specs.bc_rows.Codes.{code_numbered};
ghost use Rattle.vm_states.specs.bc_rows.Rows.{IsRow};
ghost use Rattle.vm_states.specs.frame_exits.declared.names.ModuleName.{ModuleName as Numbers};
ghost use Rattle.state_calls.specs.Children.{HasChildIn, IsChildIn};
ghost use Rattle.state_calls.specs.Codes.{module_of_name, LacksCode};

use arena_heap::{Constants, StrNo};
use frame_calls::{Child, Function};
use vm_states::{Library, ModuleName, Row, Rows};

/// The row of a code that is there.
fn row_at<'b, 'a>(rows: &'b Rows<'a>, module_number: u32, code: u32) -> &'b Row<'a>
    requires { IsSome (code_numbered rows.now module_number code) }
    ensures { IsRow rows.now module_number code result.now }
{
    match rows.row(module_number, code) {
        Some(row) => row,
        None => unreachable!(),
    }
}

/// The number at a place.
fn number_at(numbers: &[u32], at: u32) -> u32
    requires { at < length numbers.now }
    ensures { slice_get numbers.now at ≡ Some result }
{
    numbers[at as usize]
}

/// The number of the text of a module's name.
fn name_at(names: &[ModuleName], module_number: u32) -> u32
    requires { module_number < length names.now }
    ensures { (number : Numbers) × (slice_get names.now module_number ≡ Some number) × (result ≡ number.name) }
{
    names[module_number as usize].name
}

/// The child of this number of a code, as its function keeps it.
pub(crate) fn child_in(
    rows: &Rows<'_>,
    names: &[ModuleName],
    module_number: u32,
    code: u32,
    number: u32,
) -> Child
    requires { HasChildIn rows.now names.now module_number code number }
    ensures { IsChildIn rows.now names.now module_number code number result }
{
    let parent = row_at(rows, module_number, code);
    let child = number_at(parent.children.as_slice(), number);
    let row = row_at(rows, module_number, child);
    Child {
        name: row.name,
        module_name: name_at(names, module_number),
        code: child,
        given: row.given,
    }
}

/// The module that the text of the number names. A number without a text has the empty one.
fn module_of(library: &Library, rows: &Rows<'_>, number: u32) -> Option<u32>
    requires { rows.now ≡ library.now }
    ensures { result ≡ module_of_name library.now number }
{
    library.empty_law();
    match library.text(StrNo::Pool(number)) {
        Some(_) => rows.module_of_text(number),
        None => rows.module_of_text(1),
    }
}

/// The row of a function's code, and the number of its module.
pub(crate) fn code_of<'b, 'a>(
    library: &Library,
    rows: &'b Rows<'a>,
    function: Function,
) -> Option<(u32, &'b Row<'a>)>
    requires { rows.now ≡ library.now }
    ensures found { IfSome result (λ found. (module_of_name library.now function.module_name ≡ Some found.0)
        × IsRow library.now found.0 function.code found.1.now) }
    ensures none { IfNone result (LacksCode library.now function) }
{
    match module_of(library, rows, function.module_name) {
        None => None,
        Some(module_number) => match rows.row(module_number, function.code) {
            None => None,
            Some(row) => Some((module_number, row)),
        },
    }
}
