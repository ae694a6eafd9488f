//! Why a call of a port gives no answer.

use mpy_io::Failed;
use thiserror::Error;

/// Why a call of a port gives no answer.
#[derive(Clone, Copy, Debug, PartialEq, Eq, Error)]
pub enum PortFault {
    /// No port has the number.
    #[error("no such port")]
    NoPort,
    /// The port failed.
    #[error("the port failed")]
    Failed,
}

impl From<Failed> for PortFault {
    ghost use Rattle.std.specs.Prelude.{◌≡◌};
    ghost use Rattle.port_set.specs.declared.fault.PortFault.{PortFault};
    ghost use Rattle.port_set.specs.declared.fault.PortFault.TheVariants.{Failed};

    ghost from_gives = { λ _ fault. fault ≡ Failed };

    fn from(_: Failed) -> PortFault {
        PortFault::Failed
    }
}
