//! The places that indexes name.

ghost use Rattle.std.specs.Prelude.{◌≡◌, ◌<◌, IfSome};
ghost use Rattle.prim_faults.specs.py_primitives.Iterables.{place_at as place_in};

use prim_faults::SmallInt;

/// The place that an index names, if it is there. A negative one counts from the end.
pub(crate) fn place_at(len: usize, index: SmallInt) -> Option<usize>
    ensures place { result ≡ place_in len index }
    ensures within { IfSome result (λ at. at < len) }
{
    let index = index.value();
    if index >= 0 {
        let at = index as usize;
        if at < len { Some(at) } else { None }
    } else {
        let back = index.unsigned_abs() as usize;
        if back <= len { Some(len - back) } else { None }
    }
}
