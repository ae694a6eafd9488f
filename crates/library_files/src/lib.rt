//! The library of a main file: the modules that it imports, from the files of a folder.
#![tactic(auto)]

mod asked;
mod entry;
mod imports;
mod laws;
mod limit;
mod loading;
mod module_files;
mod reader;
mod search;

pub use asked::asked_names;
pub use bc_library::Library;
pub use entry::Entry;
pub use imports::{imported_names, imports_law};
pub use laws::loads_law;
pub use limit::{FailedRead, Limit, LoadFault, MAX_LIBRARY_BYTES, UnacceptedSource};
pub use loading::{load, load_by};
pub use module_files::ModuleFiles;
pub use reader::Reader;
pub use search::entry_of;
