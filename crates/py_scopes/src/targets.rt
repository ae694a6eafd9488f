//! What targets do.

ghost use Rattle.std.specs.Prelude.{◌≡◌, ◌++◌, OnOk};
ghost use Rattle.std.specs.List.{flat_map};
ghost use Rattle.py_scopes.specs.Events.{at, target_acts};

use crate::event::{Act, Event};
use crate::uses::{put, uses};
use mpy_base::{NoMemory, Text};
use py_tree::Target;
use std::alloc::Global;

/// The bindings and uses of a target.
#[cycle(targets)]
pub(crate) fn target_binds(
    alloc: Global,
    events: &mut Vec<Event>,
    line: u32,
    target: &Target,
) -> Result<(), NoMemory>
    ensures { OnOk result (events.new.items ≡ events.old.items ++ at line (target_acts target.now)) }
{
    match target {
        Target::Name(name) => put(events, line, Act::Bind(Text::new(alloc, name.bytes())?)),
        Target::Attr { object, .. } => uses(alloc, events, line, object),
        Target::Index { object, index } => {
            uses(alloc, events, line, object)?;
            uses(alloc, events, line, index)
        }
        Target::Unpack(targets) => targets_bind(alloc, events, line, targets.as_slice()),
    }
}

/// The bindings and uses of targets, one behind another.
#[cycle(targets)]
pub(crate) fn targets_bind(
    alloc: Global,
    events: &mut Vec<Event>,
    line: u32,
    targets: &[Target],
) -> Result<(), NoMemory>
    ensures { OnOk result (events.new.items ≡ events.old.items ++ at line (flat_map target_acts targets.now)) }
{
    for target in targets {
        target_binds(alloc, events, line, target)?;
    }
    Ok(())
}
