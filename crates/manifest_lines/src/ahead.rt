//! The tokens of a logical line that are ahead of a reader.

ghost use Rattle.std.specs.Prelude.{◌≡◌, length};
ghost use Rattle.std.specs.Option.{option_copied};
ghost use Rattle.manifest_lines.specs.Ahead as spec;
ghost use Rattle.manifest_lines.specs.Ahead.{Reads};

use mpy_base::{Refused, Text};
use py_tokens::{Op, Tok, Token};
use std::alloc::Global;

/// The tokens are no call with literal arguments.
#[derive(Clone, Copy, Debug, PartialEq, Eq)]
pub struct NoCall;

/// A sign that a call is made of.
#[derive(Clone, Copy, Debug)]
pub(crate) enum Sign {
    Open,
    Close,
    Comma,
    Equals,
}

/// What is ahead of a reader.
#[derive(Drop)]
pub(crate) struct Ahead<'a> {
    pub(crate) tokens: &'a [Token],
}

/// Is the token of this kind the sign?
fn is_sign(sign: Sign, kind: &Tok) -> bool
    ensures { result ≡ spec.is_sign sign kind.now }
{
    matches!(
        (sign, kind),
        (Sign::Open, Tok::Op(Op::OpenParen))
            | (Sign::Close, Tok::Op(Op::CloseParen))
            | (Sign::Comma, Tok::Op(Op::Comma))
            | (Sign::Equals, Tok::Op(Op::Assign))
    )
}

impl<'a> Ahead<'a> {
    /// The kind of the next token.
    pub(crate) fn peek(&self) -> Option<&'a Tok>
        ensures { spec.seen (option_copied result) ≡ spec.kind_at self.now.tokens.now }
    {
        match self.tokens {
            [] => None,
            [token, ..] => Some(&token.kind),
        }
    }

    /// How many tokens are ahead.
    pub(crate) fn left(&self) -> usize
        ensures { result ≡ length self.now.tokens.now }
    {
        self.tokens.len()
    }

    /// Passes the next token, if there is one.
    pub(crate) fn take(&mut self)
        ensures { self.new.tokens.now ≡ spec.next self.old.tokens.now }
    {
        if let [_, rest @ ..] = self.tokens {
            self.tokens = rest;
        }
    }

    /// Is the next token this sign?
    #[tactic(auto, unfolding(crate::specs::Ahead::sees))]
    pub(crate) fn sees(&self, sign: Sign) -> bool
        ensures { result ≡ spec.sees sign self.now.tokens.now }
    {
        match self.tokens {
            [] => false,
            [token, ..] => is_sign(sign, &token.kind),
        }
    }

    /// Passes the next token if it is this sign, and says whether it was.
    #[tactic(auto, unfolding(crate::specs::Ahead::after))]
    pub(crate) fn eat(&mut self, sign: Sign) -> bool
        ensures found { result ≡ spec.sees sign self.old.tokens.now }
        ensures after { self.new.tokens.now ≡ spec.after sign self.old.tokens.now }
    {
        let found = self.sees(sign);
        if found {
            self.take();
        }
        found
    }

    /// Passes the next token, which must be this sign.
    #[tactic(auto, unfolding(crate::specs::Ahead::expect))]
    pub(crate) fn expect(&mut self, sign: Sign) -> Result<(), Refused<NoCall>>
        ensures { Reads (spec.expect sign self.old.tokens.now) result self.new }
    {
        if self.sees(sign) {
            self.take();
            Ok(())
        } else {
            Err(Refused::Fault(NoCall))
        }
    }

    /// A name and `=` come next.
    #[tactic(auto, unfolding(crate::specs::Ahead::sees_named))]
    pub(crate) fn sees_named(&self) -> bool
        ensures { result ≡ spec.sees_named self.now.tokens.now }
    {
        match self.tokens {
            [first, second, ..] => {
                matches!(first.kind, Tok::Name(_)) && is_sign(Sign::Equals, &second.kind)
            }
            _ => false,
        }
    }

    /// Takes a name, and copies its text.
    #[tactic(auto, unfolding(crate::specs::Ahead::name))]
    pub(crate) fn name(&mut self, alloc: Global) -> Result<Text, Refused<NoCall>>
        ensures { Reads (spec.name self.old.tokens.now) result self.new }
    {
        match self.peek() {
            Some(Tok::Name(text)) => {
                let copy = Text::new(alloc, text.bytes())?;
                self.take();
                Ok(copy)
            }
            _ => Err(Refused::Fault(NoCall)),
        }
    }
}
