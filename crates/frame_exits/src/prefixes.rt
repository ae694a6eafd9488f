//! The prefixes of a dotted name: the texts that end before a dot or at the end.

ghost use Rattle.std.specs.Prelude.{◌≡◌, ◌≤◌, take, length, IfSome, ◌||◌, is_some};
ghost use Rattle.std.specs.Option.{option_map};
ghost use Rattle.mpy_base.specs.Val.{PlainWorld};
ghost use Rattle.frame_moves.specs.py_effects.Modules.{prefixes, first_of, registered_as, is_port};
ghost use Rattle.frame_moves.specs.bc_machine.Parts.{first_absent as first_absent_in};
ghost use Rattle.frame_moves.specs.prim_faults.Sights.{under};
ghost use Rattle.prim_modules.specs.Registry.{plain_modules};

use arena_heap::Constants;
use prim_modules::Modules;

/// Whether a module of this name is there without an import: it is registered, or it is `port`.
fn is_there<C: Constants>(consts: &C, modules: &Modules, name: &[u8]) -> bool
    ensures { result ≡ (is_some (registered_as (under C.Constants consts.now plain_modules modules.now) name.now) || is_port name.now) }
{
    modules.registered_as(consts, name).is_some() || name == b"port".as_slice()
}

/// How long the first prefix is that isn't there.
pub(crate) fn first_absent<C: Constants>(
    consts: &C,
    modules: &Modules,
    name: &[u8],
) -> Option<usize>
    ensures first { (w : PlainWorld)
        → option_map (λ len. take len name.now) result
        ≡ first_absent_in (record w { modules = under C.Constants consts.now plain_modules modules.now }) (prefixes name.now) }
    ensures within { IfSome result (λ len. len ≤ length name.now) }
{
    for at in 0..name.len() {
        if name[at] == b'.' && !is_there(consts, modules, &name[..at]) {
            return Some(at);
        }
    }
    if is_there(consts, modules, name) {
        None
    } else {
        Some(name.len())
    }
}

/// How long the first prefix is.
pub(crate) fn first_len(name: &[u8]) -> usize
    ensures first { take result name.now ≡ first_of (prefixes name.now) }
    ensures within { result ≤ length name.now }
{
    for at in 0..name.len() {
        if name[at] == b'.' {
            return at;
        }
    }
    name.len()
}
