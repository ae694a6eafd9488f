//! The source of a row.

use std::alloc::{AllocError, Global};

/// The number in front of a text, and the text behind the blank.
pub fn counted(text: &str) -> (usize, &str) {
    let (count, rest) = text.split_once(" ").unwrap_or((text, ""));
    (count.parse::<usize>().unwrap_or(0), rest)
}

/// A text so often, each with the end.
pub fn put_often(to: &mut Vec<u8>, count: usize, text: &str, end: &str) -> Result<(), AllocError> {
    for _time in 0..count {
        to.extend_from_slice(text.as_bytes())?;
        to.extend_from_slice(end.as_bytes())?;
    }
    Ok(())
}

/// A text so often, with a number that rises from the first in place of its `#`.
fn put_numbered(
    alloc: Global,
    to: &mut Vec<u8>,
    count: usize,
    first: usize,
    text: &str,
) -> Result<(), AllocError> {
    let (front, behind) = text.split_once("#").unwrap_or((text, ""));
    for time in 0..count {
        let number = first.saturating_add(time);
        let shown = format!(in alloc; "{number}")?;
        to.extend_from_slice(front.as_bytes())?;
        to.extend_from_slice(shown.as_bytes())?;
        to.extend_from_slice(behind.as_bytes())?;
    }
    Ok(())
}

/// A line so often, each time behind a blank more, or a blank less down to none.
fn put_stairs(to: &mut Vec<u8>, count: usize, line: &str, rises: bool) -> Result<(), AllocError> {
    for time in 0..count {
        let blanks = if rises {
            time
        } else {
            count.saturating_sub(time).saturating_sub(1)
        };
        put_often(to, blanks, " ", "")?;
        put_often(to, 1, line, "\n")?;
    }
    Ok(())
}

/// A source that is being put together.
#[derive(Drop)]
pub struct Source {
    bytes: Vec<u8>,
    /// Where the part that is said again begins.
    mark: usize,
}

impl Source {
    /// A source of no byte, in which a part that is said again would begin at the start.
    pub fn new(alloc: Global) -> Source {
        Source {
            bytes: Vec::new(alloc),
            mark: 0,
        }
    }

    /// What was put together.
    pub fn bytes(&self) -> &[u8] {
        self.bytes.as_slice()
    }

    /// Has the part behind the mark `count` times in all, where it stood once.
    fn repeat(&mut self, alloc: Global, count: usize) -> Result<(), AllocError> {
        let mut part = Vec::new(alloc);
        if let Some(tail) = self.bytes.get(self.mark..) {
            part.extend_from_slice(tail)?;
        }
        for _time in 1..count {
            self.bytes.extend_from_slice(&part)?;
        }
        Ok(())
    }

    /// What a line of the row adds.
    pub fn add(&mut self, alloc: Global, tag: &str, rest: &str) -> Result<(), AllocError> {
        let (count, text) = counted(rest);
        match tag {
            "|" => put_often(&mut self.bytes, 1, rest, "\n")?,
            "." => put_often(&mut self.bytes, 1, rest, "")?,
            "*" => put_often(&mut self.bytes, count, text, "\n")?,
            "~" => put_often(&mut self.bytes, count, text, "")?,
            "%" => {
                let (first, text) = counted(text);
                put_numbered(alloc, &mut self.bytes, count, first, text)?
            }
            "/" => put_stairs(&mut self.bytes, count, text, true)?,
            "\\" => put_stairs(&mut self.bytes, count, text, false)?,
            "[" => self.mark = self.bytes.len(),
            "]" => self.repeat(alloc, count)?,
            _ => {}
        }
        Ok(())
    }
}
