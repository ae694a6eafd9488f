//! Why a call gives no value.

ghost use Rattle.std.specs.Prelude.{◌≡◌};
ghost use Rattle.prim_faults.specs.declared.stop.Stop.TheVariants as stops;

use crate::fault::Fault;
use prim_walks::NoRoom;

/// Why a primitive's call gives no value.
#[derive(Clone, Copy, Debug, PartialEq, Eq)]
pub enum Stop {
    Raises(Fault),
    /// A making doesn't fit.
    Full(NoRoom),
}

impl From<NoRoom> for Stop {
    ghost from_gives = { λ room stop. stop ≡ stops.Full room };

    fn from(room: NoRoom) -> Stop {
        Stop::Full(room)
    }
}
