//! Certificates of verified code.
#![tactic(auto)]

ghost use Rattle.bc_flow.specs.Code.{Code};
ghost use Rattle.bc_flow.specs.Verified.{Holds, Verified};
ghost use Rattle.bc_certificates.specs.Rows.{Rows, carried, Certifies};

mod blocks;
mod certificate;
mod checking;
mod groups;
mod obeying;
mod passing;
mod searching;
mod sharing;
mod walking;

pub use certificate::{Row, Table};
pub use checking::{Seen, action_in, are_ordered, check, copy_row, leads_if, row_at, stands};
pub use searching::{certified, search};

/// Code with a certificate is verified: what its rows carry meets the rules along every edge.
pub fn certificate_law()
    ensures holds { (code : Code) (rows : Rows) → Certifies code rows → Holds code (carried code rows) }
    ensures verified { (code : Code) (rows : Rows) → Certifies code rows → Verified code }
{}
