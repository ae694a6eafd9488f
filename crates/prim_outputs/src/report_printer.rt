//! A pen over a sink.

ghost use Rattle.std.specs.Prelude.{◌≡◌, false};

use mpy_io::Sink;
use prim_walks::Pen;

/// Puts the pieces of texts, up to the first that fails.
#[derive(Drop)]
pub(crate) struct Printer<'a, S> {
    pub(crate) out: &'a mut S,
    pub(crate) failed: bool,
}

impl<'a, S: Sink> Printer<'a, S> {
    /// A printer over a sink, of which no put has failed.
    pub(crate) fn new(out: &'a mut S) -> Printer<'a, S>
        ensures same_reference { result.out.ghost_name ≡ out.entry.ghost_name }
        ensures unchanged { result.out.now ≡ out.old }
        ensures fine { result.failed ≡ false }
    {
        Printer { out, failed: false }
    }
}

impl<'a, S: Sink> Pen for Printer<'a, S> {
    ghost use Rattle.std.specs.Prelude.{◌≡◌};
    ghost use Rattle.prim_outputs.specs.Prints.{PutsOn};

    ghost Takes = { λ old piece new. (new.out.ghost_name ≡ old.out.ghost_name) × PutsOn S.told S.count old.failed old.out.now new.out.now new.failed piece };

    fn put(&mut self, piece: &[u8]) {
        if !self.failed && self.out.put(piece).is_err() {
            self.failed = true;
        }
    }
}
