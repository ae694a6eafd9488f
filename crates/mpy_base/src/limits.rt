//! How large things may be.

/// The bytes of a source.
pub const MAX_SOURCE_BYTES: usize = 1_048_576;

/// The bytes of any file that is read from a folder.
pub const MAX_READ_BYTES: usize = 16_777_216;

/// The bytes of a `.mpy` file.
pub const MAX_FILE_BYTES: usize = 4_194_304;

/// The names of a file, its objects, and the children of a code, each.
pub const MAX_TABLE: usize = 65_535;

/// The bytes of one code.
pub const MAX_CODE_BYTES: usize = 32_767;

/// How deep codes nest in one another, and constant tuples likewise.
pub const MAX_DEPTH: usize = 32;

/// The slots of a code that is read: locals and stack together.
pub const MAX_STATE: usize = 4_096;

/// The handler entries of a code that is read.
pub const MAX_HANDLERS: usize = 255;

/// The arguments of a code that is read.
pub const MAX_ARGUMENTS: usize = 255;

/// The items that one operand names.
pub const MAX_ITEMS: usize = 4_096;

/// The wide length of an emitted function: the bytes of its code with each operand at its longest.
pub const MAX_WIDE_LENGTH: usize = 16_000;

/// The modules and refused entries of a library together.
pub const MAX_MODULES: usize = 256;

/// The bytes of an image.
pub const MAX_IMAGE_BYTES: usize = 16_777_216;

/// How deep calls and imports nest.
pub const MAX_CALLS: usize = 64;

/// How deep a walk through a value goes.
pub const MAX_WALK_DEPTH: usize = 32;

/// The tasks of a board.
pub const MAX_TASKS: usize = 16;
