//! Why a module can't be written.

/// What a module has too much of.
#[derive(Clone, Copy, Debug, PartialEq, Eq)]
pub enum WriteFault {
    /// Names or objects.
    TooManyNames,
    /// An offset fits no form.
    TooFar,
    /// Bytes, in a code or in the file.
    TooBig,
}
