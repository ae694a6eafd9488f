//! Numbers that are drawn.

ghost use Rattle.std.specs.Prelude.{◌≡◌};
ghost use Rattle.run_commands.specs.Draws.{next, drawn};

/// A generator of numbers, which is all its state.
#[derive(Drop)]
pub(crate) struct Draws {
    pub state: u32,
}

impl Draws {
    /// The next number, below 1,000.
    #[tactic(auto, unfolding(crate::specs::Draws::next, crate::specs::Draws::drawn))]
    pub(crate) fn draw(&mut self) -> u32
        ensures state { self.new.state ≡ next self.old.state }
        ensures number { result ≡ drawn self.new.state }
    {
        self.state = ((self.state as u64 * 1103515245 + 12345) % 2147483648) as u32;
        self.state / 65536 % 1000
    }
}
