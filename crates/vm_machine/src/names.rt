//! The names of a library's modules.

ghost use Rattle.std.specs.Prelude.{IfOk};
ghost use Rattle.vm_starting.specs.Titles.{AreTitles};

use bc_library::{Library, library_law};
use mpy_base::NoMemory;
use mpy_base::limits::MAX_MODULES;
use std::alloc::Global;
use vm_at_once::ModuleName;

/// The names of the library's modules, in the order of their numbers.
pub fn module_names(alloc: Global, library: &Library) -> Result<Vec<ModuleName>, NoMemory>
    ensures { IfOk result (λ names. AreTitles library.now names.items) }
{
    library_law(library);
    let mut names = Vec::new(alloc);
    for number in 0..MAX_MODULES as u32 {
        let Some(title) = library.title(number) else {
            return Ok(names);
        };
        names.push(ModuleName {
            name: title.name,
            last: title.last,
        })?;
    }
    Ok(names)
}
