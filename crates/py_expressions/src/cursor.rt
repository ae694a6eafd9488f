//! A cursor over tokens.

ghost use Rattle.std.specs.Prelude.{◌≡◌, length};
ghost use Rattle.std.specs.Option.{option_copied};
ghost use Rattle.mpy_base.specs.declared.refused.Refused.TheVariants as refused;
ghost use Rattle.py_expressions.specs.Input as spec;
ghost use Rattle.py_expressions.specs.Reading as reading;
ghost use Rattle.py_expressions.specs.Input.{Reads, input_of};

use mpy_base::{Refused, Text};
use py_tokens::{Op, Tok, Token, Word};
use std::alloc::Global;

/// No tree: how many tokens stand behind the longest front.
#[derive(Clone, Copy, Debug, PartialEq, Eq)]
pub struct Syntax {
    pub left: usize,
}

/// A token that has no value.
#[derive(Clone, Copy, Debug)]
pub enum Mark {
    Word(Word),
    Op(Op),
    Newline,
    Indent,
    Dedent,
    End,
}

/// What is ahead of a reader.
#[derive(Drop)]
pub struct Cursor<'a> {
    pub ahead: &'a [Token],
    /// How many tokens were ahead at the end of the longest front so far.
    pub front: usize,
}

/// Lets a value go. A tree is let go here, so that this is proved once, for every type.
pub fn release<T: Drop>(_value: T) {}

/// Is the token of this kind the mark?
fn is_mark(mark: Mark, kind: &Tok) -> bool
    ensures { result ≡ spec.is_mark mark kind.now }
{
    match (mark, kind) {
        (Mark::Word(wanted), Tok::Word(found)) => wanted == *found,
        (Mark::Op(wanted), Tok::Op(found)) => wanted == *found,
        (Mark::Newline, Tok::Newline) => true,
        (Mark::Indent, Tok::Indent) => true,
        (Mark::Dedent, Tok::Dedent) => true,
        (Mark::End, Tok::End) => true,
        _ => false,
    }
}

impl<'a> Cursor<'a> {
    /// The kind of the next token.
    pub fn peek(&self) -> Option<&'a Tok>
        ensures { spec.seen (option_copied result) ≡ spec.kind (input_of self.now) }
    {
        match self.ahead {
            [] => None,
            [token, ..] => Some(&token.kind),
        }
    }

    /// How many tokens are ahead.
    pub fn left(&self) -> usize
        ensures { result ≡ length self.now.ahead.now }
    {
        self.ahead.len()
    }

    /// A refusal that leaves the longest front as it is.
    pub fn refuse(&self) -> Refused<Syntax>
        ensures { result ≡ refused.Fault (record { left = self.now.front }) }
    {
        Refused::Fault(Syntax { left: self.front })
    }

    /// Passes the next token, if there is one.
    pub fn take(&mut self)
        ensures { input_of self.new ≡ spec.next (input_of self.old) }
    {
        if let [_, rest @ ..] = self.ahead {
            self.ahead = rest;
        }
    }

    /// Is the next token this one?
    #[tactic(auto, unfolding(crate::specs::Input::sees))]
    pub fn sees(&self, mark: Mark) -> bool
        ensures { result ≡ spec.sees mark (input_of self.now) }
    {
        match self.ahead {
            [] => false,
            [token, ..] => is_mark(mark, &token.kind),
        }
    }

    /// Passes the next token if it is this one, and says whether it was.
    #[tactic(auto, unfolding(crate::specs::Input::after))]
    pub fn eat(&mut self, mark: Mark) -> bool
        ensures found { result ≡ spec.sees mark (input_of self.old) }
        ensures after { input_of self.new ≡ spec.after mark (input_of self.old) }
    {
        let found = self.sees(mark);
        if found {
            self.take();
        }
        found
    }

    /// Passes the next token, which must be this one. It is refused otherwise, and stays.
    #[tactic(auto, unfolding(crate::specs::Input::expect))]
    pub fn expect(&mut self, mark: Mark) -> Result<(), Refused<Syntax>>
        ensures { Reads (spec.expect mark (input_of self.old)) result self.new }
    {
        if self.sees(mark) {
            self.take();
            Ok(())
        } else {
            Err(self.refuse())
        }
    }

    /// What was read in front of the mark, which comes next and is taken.
    pub fn closed<T: Drop>(&mut self, mark: Mark, found: T) -> Result<T, Refused<Syntax>>
        ensures { Reads (spec.closed mark found (input_of self.old)) result self.new }
    {
        match self.expect(mark) {
            Ok(()) => Ok(found),
            Err(refused) => Err(refused),
        }
    }

    /// A name and `=` come next.
    #[tactic(auto, unfolding(crate::specs::Reading::sees_keyword))]
    pub(crate) fn sees_keyword(&self) -> bool
        ensures { result ≡ reading.sees_keyword (input_of self.now) }
    {
        match self.ahead {
            [first, second, ..] => {
                matches!(first.kind, Tok::Name(_)) && is_mark(Mark::Op(Op::Assign), &second.kind)
            }
            _ => false,
        }
    }

    /// Takes a name, and copies its text.
    #[tactic(auto, unfolding(crate::specs::Input::name))]
    pub fn name(&mut self, alloc: Global) -> Result<Text, Refused<Syntax>>
        ensures { Reads (spec.name (input_of self.old)) result self.new }
    {
        match self.peek() {
            Some(Tok::Name(text)) => {
                let copy = Text::new(alloc, text.bytes())?;
                self.take();
                Ok(copy)
            }
            _ => Err(self.refuse()),
        }
    }
}
