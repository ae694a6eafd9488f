//! The names of modules.

ghost use Rattle.std.specs.Prelude.{◌≡◌, ◌<◌, Some, length, slice_get};

/// The name of a module: the number of its text, and that of the text of its last part.
#[derive(Clone, Copy, Debug, PartialEq, Eq)]
pub struct ModuleName {
    pub name: u32,
    pub last: u32,
}

/// The name of the module of this number.
pub(crate) fn name_of(names: &[ModuleName], module_number: u32) -> ModuleName
    requires { module_number < length names.now }
    ensures { slice_get names.now module_number ≡ Some result }
{
    names[module_number as usize]
}
