//! Rows of a code's positions. Those that have their lowest slots and entries in common share them.

use bc_shapes::Shape;

/// The row of a position: its topmost slots and entries, on the lowest ones of a base.
#[derive(Debug, Drop)]
pub struct Row {
    pub top: Shape,
    /// The base's number.
    pub base: usize,
    /// How many of its lowest slots the row has.
    pub slots: usize,
    /// How many of its lowest entries.
    pub entries: usize,
}

/// The rows of a code's positions, where they have one.
#[derive(Debug, Drop)]
pub struct Table {
    pub rows: Vec<Option<Row>>,
    pub bases: Vec<Shape>,
}
