//! Why there is no snapshot.

/// Why a state has no snapshot.
#[derive(Clone, Copy, Debug, PartialEq, Eq)]
pub enum SaveFault {
    /// Too many steps are paid, there are too many frames, its bytes would be too many, or a number in it has no spelling.
    TooBig,
}
