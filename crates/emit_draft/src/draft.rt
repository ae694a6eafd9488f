//! A draft of one code.

ghost use Rattle.std.specs.Prelude.{◌≡◌, ◌+◌, ◌*◌, [], false, length, OnOk, IfOk, Some, None, slice_get};
ghost use Rattle.emit_draft.specs.Places.{AreWithin};

use bc_ops::{Instr, Op};
use mpy_base::limits::{MAX_ARGUMENTS, MAX_ITEMS};
use mpy_base::{Items, NoMemory, Text};
use std::alloc::Global;

/// An instruction whose jump names a label.
#[derive(Drop)]
pub enum DraftItem {
    /// One that names no text, no object and no place.
    Plain(Instr),
    /// One that names a text.
    Named(Op, Text),
    /// The one that loads a str as an object.
    Str(Text),
    Jump(Op, usize),
    /// With the byte behind the offset.
    Unwind(usize, u8),
}

/// An instruction and its line.
#[derive(Drop)]
pub struct DraftLine {
    pub item: DraftItem,
    pub line: u32,
}

/// The code of a module or a function in the making.
#[derive(Drop)]
pub struct Draft {
    /// The level of the source. At level 3 each line is 1.
    pub level: u8,
    pub lines: Items<DraftLine>,
    /// The position of each label that has one.
    pub labels: Vec<Option<usize>>,
    pub ghost within: { AreWithin labels.items (length lines) },
    /// Something in it has more members than its instruction can name. The code isn't whole then.
    pub crowded: bool,
}

impl Draft {
    ghost use Rattle.emit_draft.specs.Draft.{shown, Puts, Adds, Binds, PutsCount, passes_items, passes_members};

    /// The line that an instruction gets: 1 at level 3, and its own at the others.
    fn shown_line(level: u8, line: u32) -> u32
        ensures { result ≡ shown level line }
    {
        if level == 3 { 1 } else { line }
    }

    /// The empty draft, which takes no memory.
    pub fn new(alloc: Global, level: u8) -> Draft
        ensures level { result.level ≡ level }
        ensures lines { result.lines ≡ [] }
        ensures labels { result.labels.items ≡ [] }
        ensures crowded { result.crowded ≡ false }
    {
        Draft {
            level,
            lines: Items::new(alloc),
            labels: Vec::new(alloc),
            crowded: false,
        }
    }

    /// Puts an instruction at the end.
    pub fn put(&mut self, line: u32, item: DraftItem) -> Result<(), NoMemory>
        ensures { OnOk result (Puts self.old self.new line item) }
    {
        let line = Draft::shown_line(self.level, line);
        self.lines.push(DraftLine { item, line })?;
        Ok(())
    }

    /// Adds a label that has no position yet, and gives its number.
    pub fn new_label(&mut self) -> Result<usize, NoMemory>
        ensures { IfOk result (λ label. Adds self.old self.new label) }
    {
        let label = self.labels.len();
        self.labels.push(None)?;
        Ok(label)
    }

    /// Gives the label the position behind the last instruction.
    pub fn bind(&mut self, label: usize)
        requires { slice_get self.old.labels.items label ≡ Some None }
        ensures { Binds self.old self.new label }
    {
        self.labels[label] = Some(self.lines.len());
    }

    /// Puts an instruction that names a count of items. Past 4,096 items the draft is crowded.
    pub fn put_items(&mut self, line: u32, op: Op, count: usize) -> Result<(), NoMemory>
        ensures { OnOk result (PutsCount self.old self.new line op (passes_items count) count) }
    {
        if count > MAX_ITEMS {
            self.crowded = true;
            return Ok(());
        }
        self.put(line, DraftItem::Plain(Instr::Num(op, count as u32)))
    }

    /// Puts a call of `args` positional and `keys` keyword arguments. Past 255 of either the draft is crowded.
    pub fn put_call(&mut self, line: u32, op: Op, args: usize, keys: usize) -> Result<(), NoMemory>
        ensures { OnOk result (PutsCount self.old self.new line op (passes_members args keys) (args + 256 * keys)) }
    {
        if args > MAX_ARGUMENTS || keys > MAX_ARGUMENTS {
            self.crowded = true;
            return Ok(());
        }
        let number = (args + 256 * keys) as u32;
        self.put(line, DraftItem::Plain(Instr::Num(op, number)))
    }
}
