//! Ranges that give the same numbers.

ghost use Rattle.std.specs.Prelude.{◌≡◌, ◌≢◌, pos, nat_eq, ◌&&◌, ◌||◌};
ghost use Rattle.std.specs.Ordering.{int_eq};
ghost use Rattle.arena_objects.specs.arena_heap.Values.{IsSmall};
ghost use Rattle.py_primitives.specs.py_values.Shown.{is_same_range as is_one_range};

use arena_objects::range_count;

/// Whether the two numbers are equal.
pub(crate) fn is_one_number(a: i32, b: i32) -> bool
    ensures { result ≡ int_eq a b }
{
    a == b
}

/// Whether the `count` numbers of two ranges are the same, by whether the starts are and the steps are.
fn has_same_numbers(count: u32, is_start: bool, is_step: bool) -> bool
    ensures { result ≡ (nat_eq count 0 || (is_start && (nat_eq count 1 || is_step))) }
{
    count == 0 || (is_start && (count == 1 || is_step))
}

/// Whether two ranges give the same numbers.
pub(crate) fn is_same_range(
    start: i32,
    stop: i32,
    step: i32,
    first: i32,
    last: i32,
    way: i32,
) -> bool
    requires start { IsSmall start }
    requires stop { IsSmall stop }
    requires step { IsSmall step }
    requires nonzero { step ≢ pos 0 }
    requires first { IsSmall first }
    requires last { IsSmall last }
    requires way { IsSmall way }
    requires way_nonzero { way ≢ pos 0 }
    ensures { result ≡ is_one_range start stop step first last way }
{
    let count = range_count(start, stop, step);
    let other = range_count(first, last, way);
    let has_numbers = has_same_numbers(
        count,
        is_one_number(start, first),
        is_one_number(step, way),
    );
    count == other && has_numbers
}
