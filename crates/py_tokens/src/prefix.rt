//! Prefixes of string literals.

ghost use Rattle.std.specs.Prelude.{MatchOption};
ghost use Rattle.py_tokens.specs.declared.prefix.Prefix.{Prefix};
ghost use Rattle.py_tokens.specs.Prefix.{IsPrefix};

/// What a name directly before a quote says of the literal.
#[derive(Clone, Copy)]
pub(crate) enum Prefix {
    /// It says nothing.
    Plain,
    /// Backslashes stand for themselves.
    Raw,
    /// Bytes, which this language leaves out.
    Bytes,
    /// A formatted string, which this language leaves out.
    Format,
}

/// The prefix of a string that a word is.
pub(crate) fn prefix_of(text: &[u8]) -> Option<Prefix>
    ensures { MatchOption result ((prefix : Prefix) → ¬ IsPrefix prefix text.now)
        (λ prefix. IsPrefix prefix text.now) }
{
    match text {
        [b'u' | b'U'] => Some(Prefix::Plain),
        [b'r' | b'R'] => Some(Prefix::Raw),
        [b'b' | b'B'] | [b'b' | b'B', b'r' | b'R'] | [b'r' | b'R', b'b' | b'B'] => Some(
            Prefix::Bytes,
        ),
        [b'f' | b'F'] | [b'f' | b'F', b'r' | b'R'] | [b'r' | b'R', b'f' | b'F'] => Some(
            Prefix::Format,
        ),
        _ => None,
    }
}
