//! The numbers of the names of codes.

ghost use Rattle.std.specs.Prelude.{◌≡◌, ℕ};
ghost use Rattle.vm_starting.specs.vm_states.bc_rows.declared.row.Row.{Row as CodeRow};
ghost use Rattle.vm_starting.specs.vm_states.bc_rows.Rows.{IsRow};
ghost use Rattle.snap_states.specs.Decoded.{AreTitles};
ghost use Rattle.snap_loading.specs.Coded.{HasCode, HasOneTitle};

use bc_library::{Library, library_law, modules_law};
use vm_machine::Rows;
use vm_starting::{code_law, program_law};

/// The names of a library's codes have numbers, one each, and each code that is there has a row.
pub fn titles_law(library: &Library, rows: &Rows<'_>)
    requires { rows.now ≡ library.now }
    ensures titles { (title : ℕ → ℕ → ℕ) × AreTitles library.now title }
    ensures one { HasOneTitle library.now }
    ensures rows { (m code : ℕ) → HasCode library.now m code → (row : CodeRow) × IsRow library.now m code row }
{
    library_law(library);
    modules_law(library);
    program_law();
    code_law();
    rows.codes_law();
}

/// The number of the name of a code that is there. In constant time.
pub(crate) fn code_title(library: &Library, rows: &Rows<'_>, module_number: u32, code: u32) -> u32
    requires rows { rows.now ≡ library.now }
    requires there { HasCode library.now module_number code }
    ensures { (title : ℕ → ℕ → ℕ) → AreTitles library.now title → result ≡ title module_number code }
{
    library_law(library);
    modules_law(library);
    program_law();
    code_law();
    let Some(row) = rows.row(module_number, code) else {
        unreachable!();
    };
    row.name
}
