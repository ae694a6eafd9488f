//! The numbers of ranges.

ghost use Rattle.std.specs.Prelude.{◌≡◌, ◌≢◌, ◌+◌, ◌-◌, ◌/◌, ◌<◌, ◌^◌, pos, ◌+ℤ◌, ◌*ℤ◌};
ghost use Rattle.arena_heap.specs.Values.{IsSmall};
ghost use Rattle.py_values.specs.Shown.{at_least_zero, range_len};

/// How many steps of this size a span takes, a cut one among them.
fn steps_over(span: i32, size: u32) -> u32
    requires positive { 0 < size }
    requires small { size < 2 ^ 30 + 1 }
    ensures { result ≡ (at_least_zero span + (size - 1)) / size }
{
    (span.max(0) as u32 + (size - 1)) / size
}

/// How many numbers a range has.
pub fn range_count(start: i32, stop: i32, step: i32) -> u32
    requires start { IsSmall start }
    requires stop { IsSmall stop }
    requires step { IsSmall step }
    requires nonzero { step ≢ pos 0 }
    ensures { result ≡ range_len start stop step }
{
    let span = if step > 0 { stop - start } else { start - stop };
    steps_over(span, step.unsigned_abs())
}

/// The number at a place of a range.
pub fn range_number(start: i32, stop: i32, step: i32, k: u32) -> i32
    requires start { IsSmall start }
    requires stop { IsSmall stop }
    requires nonzero { step ≢ pos 0 }
    requires within { k < range_len start stop step }
    ensures number { result ≡ start +ℤ pos k *ℤ step }
    ensures small { IsSmall result }
{
    let way = (k * step.unsigned_abs()) as i32;
    if step > 0 { start + way } else { start - way }
}
