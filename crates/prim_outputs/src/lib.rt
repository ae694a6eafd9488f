//! `print` and the calls of ports: each is the primitive of its name.
#![tactic(auto)]

mod keywords;
mod pieces;
mod ports;
mod printer;
mod prints;
mod report_printer;
mod reports;
mod rooms;
mod strs;

pub use ports::{call_port_count, call_port_get, call_port_put};
pub use prints::{PrintStop, call_print, visits_call_print};
pub use reports::put_report;
pub use rooms::put_no_room;
