//! What a name comes to.

use bc_library::Verified;

/// What a name comes to.
#[derive(Drop)]
pub enum Entry {
    /// There is no file of the name.
    Absent,
    /// The file is too long, or no module's, or its module isn't verified.
    Refused,
    /// The file's module, and how many bytes a file of it has.
    Held(Verified, usize),
}
