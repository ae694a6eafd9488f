//! The codes of a module.

ghost use Rattle.std.specs.Prelude.{◌≡◌, ◌++◌, map, OnOk};
ghost use Rattle.mpy_writer.specs.Codes.{codes_in};
ghost use Rattle.mpy_writer.specs.Writable.{IsShallow};

use mpy_base::NoMemory;
use mpy_tree::Code;

/// Adds the code, and behind it those in it, `levels` levels deep.
pub(crate) fn add_codes<'a>(
    codes: &mut Vec<&'a Code>,
    code: &'a Code,
    levels: usize,
) -> Result<(), NoMemory>
    requires { IsShallow levels code.now }
    ensures { OnOk result (map (λ c. c.now) codes.new.items ≡ map (λ c. c.now) codes.old.items ++ codes_in levels code.now) }
{
    codes.push(code)?;
    for child in code.children.as_slice() {
        add_codes(codes, child, levels - 1)?;
    }
    Ok(())
}
