//! What takes the pieces of a text.

ghost use Rattle.std.specs.Prelude.{◌<◌, All};

/// What takes the pieces of a text, one after another.
pub trait Pen {
    ghost use Rattle.std.specs.Prelude.{ℕ, List};

    /// What a pen is behind a piece.
    ghost Takes: { Self → List ℕ → Self → Type 0 };

    /// Takes a piece.
    fn put(&mut self, piece: &[u8])
        requires ascii { All (λ b. b < 128) piece.now }
        ensures taken { Takes self.old piece.now self.new };
}
