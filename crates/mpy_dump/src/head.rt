//! What the lines of instructions begin with: an offset, which is counted up, and a line.

ghost use Rattle.std.specs.Prelude.{◌≡◌, ◌≤◌, ◌+◌};
ghost use Rattle.mpy_dump.specs.Short.{IsHead};

use crate::put::digits;
use crate::short::Short;
use itoa::Buffer;
use mpy_base::limits::MAX_CODE_BYTES;

/// An offset and a line as they are listed, but for the offset's last digit, which stands beside them with its place: an
/// array that was just written is slow to copy.
#[derive(Clone, Copy)]
pub(crate) struct Head {
    pub text: Short,
    pub last: usize,
    pub digit: u8,
    pub line: u32,
}

/// The head of the line of an instruction at the offset `start`, which is in the line `line` of the source.
pub(crate) fn head_of(start: u32, line: u32) -> Head
    ensures is { IsHead start result }
    ensures line { result.line ≡ line }
{
    let (mut first, mut second) = (Buffer::new(), Buffer::new());
    let mut text = Short::new();
    text.add(digits(&mut first, start));
    let last = text.len - 1;
    text.add(b" ");
    text.add(digits(&mut second, line));
    text.add(b" ");
    let digit = text.bytes[last];
    Head {
        text,
        last,
        digit,
        line,
    }
}

/// Counts the offset up. A digit that stays one is all that changes, mostly.
#[inline(always)]
pub(crate) fn count_up(head: &mut Head, start: u32, by: u32)
    requires is { IsHead start head.old }
    requires short { start + by ≤ MAX_CODE_BYTES }
    ensures is { IsHead (start + by) head.new }
    ensures line { head.new.line ≡ head.old.line }
{
    let digit = u32::from(head.digit) + by;
    if digit <= u32::from(b'9') {
        head.digit = digit as u8;
    } else {
        *head = head_of(start + by, head.line);
    }
}

/// Puts another number of a line into the head, where it differs.
#[inline(always)]
pub(crate) fn set_line(head: &mut Head, start: u32, line: u32)
    requires { IsHead start head.old }
    ensures is { IsHead start head.new }
    ensures line { head.new.line ≡ line }
{
    if head.line != line {
        *head = head_of(start, line);
    }
}
