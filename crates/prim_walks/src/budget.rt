//! How many visits a walk may make.

ghost use Rattle.std.specs.Prelude.{◌≡◌, ◌-◌, Some, None, OnOk, OnErr, IfErr, IfSome};
ghost use Rattle.prim_walks.specs.declared.budget.Halt.TheVariants.{Spent as NoneLeft};
ghost use Rattle.prim_walks.specs.Runs.{spent};

/// Why a walk has no answer.
#[derive(Clone, Copy, Debug, PartialEq, Eq)]
pub(crate) enum Halt {
    /// A visit would lie too deep.
    TooDeep,
    /// No visit is left.
    Spent,
}

/// The visits that a walk may still make, or None where it may make any number.
#[derive(Clone, Copy)]
pub(crate) struct Budget {
    pub(crate) left: Option<u64>,
}

impl Budget {
    /// Takes one visit.
    pub(crate) fn spend(&mut self) -> Result<(), Halt>
        ensures ok { OnOk result (spent self.old.left ≡ Some self.new.left) }
        ensures cause { IfErr result (λ e. e ≡ NoneLeft) }
        ensures spent { OnErr result (spent self.old.left ≡ None) }
        ensures kept { OnErr result (self.new.left ≡ self.old.left) }
    {
        match self.left {
            None => Ok(()),
            Some(0) => Err(Halt::Spent),
            Some(left) => {
                self.left = Some(left - 1);
                Ok(())
            }
        }
    }

    /// How many of the `most` visits that there were at first were made.
    pub(crate) fn made_of(self, most: u64) -> u64
        ensures { IfSome self.left (λ left. result ≡ most - left) }
    {
        match self.left {
            Some(left) => most.saturating_sub(left),
            None => 0,
        }
    }
}
