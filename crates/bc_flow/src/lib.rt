//! The slots and handler entries of one code, at each of its positions.
#![tactic(auto)]

mod action;
mod code;
mod edges;
mod passing;
mod rules;
mod walk;

pub use action::{Action, action_at};
pub use bc_ops::{Instr, Item, Op, items_of};
pub use code::{Code, Fault, Rule, fault_of, locals};
pub use edges::{
    Behind, Change, Edge, all_edges, change_of, entries_behind, falls, gives, gives_there,
    jump_edge, next_edge, raise_edge, run_count, run_edge, takes, target,
};
pub use rules::{are_marked, base, finds, fits_entries, holds, left, room, stays};
pub use walk::{State, copy, flow, nothing, one_fault, order, others, progress, same_entries};
