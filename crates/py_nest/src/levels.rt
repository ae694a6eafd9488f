//! The stack of levels, while it is at most as deep as it may be.

ghost use Rattle.std.specs.Prelude.{◌≡◌, ◌<◌, ◌≤◌, ◌↔◌, IsTrue};
ghost use Rattle.py_nest.specs.Nest.{base, behind, depth, popped};
ghost use Rattle.py_nest.specs.declared.effect.Effect.TheVariants.{Pushes, Counts, Clears};
ghost use Rattle.py_nest.specs.declared.nest.TheConstants.{MAX_NEST};

use crate::effect::Effect;
use crate::nest::MAX_NEST;
use std::marker::Model;

/// The count on each level of nesting, the innermost on top.
#[derive(Drop)]
pub(crate) struct Levels {
    /// The count of the level on top.
    top: u8,
    /// The counts of the levels below it, the lowest first.
    counts: [u8; 201],
    /// How many levels were pushed.
    pushed: u8,
    /// The sum of the counts and the levels that were pushed.
    total: u8,
}

impl Model for Levels {
    ghost use Rattle.std.specs.Prelude.{◌≡◌};
    ghost use Rattle.py_nest.specs.Nest.{Levels as Seen, counts_below, depth};

    ghost Value = { Seen };

    ghost view = { λ l. record { top = l.top; below = counts_below l.counts l.pushed } };

    ghost invariant = { λ l. l.total ≡ depth (record { top = l.top; below = counts_below l.counts l.pushed }) };
}

impl Levels {
    /// The base level alone.
    pub(crate) fn new() -> Levels
        ensures { result ≡ base }
    {
        Levels {
            top: 0,
            counts: [0; 201],
            pushed: 0,
            total: 0,
        }
    }

    /// Do the levels lie deeper than a source may nest? It takes constant time.
    pub(crate) fn is_too_deep(&self) -> bool
        ensures { IsTrue result ↔ (MAX_NEST < depth self.now) }
    {
        self.total > MAX_NEST
    }

    /// Puts a level on top, of count 0.
    fn push(&mut self)
        requires { depth self.old ≤ MAX_NEST }
        ensures { self.new ≡ behind Pushes self.old }
    {
        self.counts[self.pushed as usize] = self.top;
        self.pushed += 1;
        self.top = 0;
        self.total += 1;
    }

    /// Takes the level on top away, unless it is the base level, and adds that much to the count below.
    fn pop(&mut self, more: u8)
        requires within { depth self.old ≤ MAX_NEST }
        requires one { more ≤ 1 }
        ensures { self.new ≡ popped self.old self.old.below more }
    {
        if self.pushed > 0 {
            self.total = self.total - 1 - self.top + more;
            self.pushed -= 1;
            self.top = self.counts[self.pushed as usize] + more;
        }
    }

    /// Counts one more on the level on top.
    fn count(&mut self)
        requires { depth self.old ≤ MAX_NEST }
        ensures { self.new ≡ behind Counts self.old }
    {
        self.top += 1;
        self.total += 1;
    }

    /// Sets the count of the level on top to 0.
    fn clear(&mut self)
        ensures { self.new ≡ behind Clears self.old }
    {
        self.total -= self.top;
        self.top = 0;
    }

    /// Goes on over such a token.
    pub(crate) fn step(&mut self, effect: Effect)
        requires { depth self.old ≤ MAX_NEST }
        ensures { self.new ≡ behind effect self.old }
    {
        match effect {
            Effect::Pushes => self.push(),
            Effect::Closes => self.pop(1),
            Effect::Pops => self.pop(0),
            Effect::Counts => self.count(),
            Effect::Clears => self.clear(),
            Effect::Keeps => {}
        }
    }
}
