//! What a plan is made of: tasks with their rooms, turns with their steps, and the faults of a text that is none.

use mpy_base::{Items, Room, Text};

/// A task: the run of a module, in an arena of this room.
#[derive(Debug, Drop)]
pub struct Task {
    pub module: Text,
    pub room: Room,
}

/// Steps for a task.
#[derive(Clone, Copy, Debug, PartialEq, Eq)]
pub struct Turn {
    /// The number of the task, counted from 0.
    pub task: u32,
    pub steps: u64,
}

/// Tasks, and turns in the order in which they are made.
#[derive(Debug, Drop)]
pub struct Plan {
    pub tasks: Items<Task>,
    pub turns: Items<Turn>,
}

/// Why a text is no plan: its first line that keeps it from being one, counted from 1.
#[derive(Clone, Copy, Debug, PartialEq, Eq)]
pub enum PlanFault {
    /// The line is none of a plan, or one of a task behind one of a turn.
    BadLine(usize),
    /// The line is a turn of a task that there isn't.
    NoTask(usize),
    /// There are more tasks than a board has.
    TooMany,
}
