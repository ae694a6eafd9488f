//! The lines of a text, and the words of a line.

ghost use Rattle.std.specs.Prelude.{◌≡◌, ◌<◌, ◌≤◌, [], ◌∷◌, false, length, IfNone, IfSome, MatchOption};
ghost use Rattle.board_plan.specs.Lines as spec;

/// The byte between two lines.
const LINE_END: u8 = b'\n';

/// The byte between two words.
const SPACE: u8 = b' ';

/// How many bytes stand before the first one of this kind.
fn front_length(byte: u8, text: &[u8]) -> usize
    ensures length { result ≡ spec.front_length byte text.now }
    ensures within { result ≤ length text.now }
{
    for (at, other) in text.iter().enumerate() {
        if *other == byte {
            return at;
        }
    }
    text.len()
}

/// The first word of a line, and the line behind its space, where there is one.
pub(crate) fn next_word(line: &[u8]) -> (&[u8], Option<&[u8]>)
    ensures { MatchOption result.1 (spec.words_of line.now ≡ result.0.now ∷ []) (λ rest. spec.words_of line.now ≡ result.0.now ∷ spec.words_of rest.now) }
{
    let (word, behind) = line.split_at(front_length(SPACE, line));
    match behind.split_first() {
        Some((_space, rest)) => (word, Some(rest)),
        None => (word, None),
    }
}

/// The words of a line of two, None where it has fewer or more.
#[tactic(auto, using(crate::proofs::Parts::three_words))]
pub(crate) fn two_words(line: &[u8]) -> Option<(&[u8], &[u8])>
    ensures two { IfSome result (λ words. spec.words_of line.now ≡ words.0.now ∷ words.1.now ∷ []) }
    ensures others { IfNone result (spec.are_two (spec.words_of line.now) ≡ false) }
{
    let (first, behind) = next_word(line);
    let Some(rest) = behind else {
        return None;
    };
    let (second, behind) = next_word(rest);
    match behind {
        None => Some((first, second)),
        Some(_more) => None,
    }
}

/// The first line of a text, and the text behind it.
pub(crate) fn next_line(text: &[u8]) -> (&[u8], &[u8])
    requires { 0 < length text.now }
    ensures lines { spec.lines_of text.now ≡ result.0.now ∷ spec.lines_of result.1.now }
    ensures shorter { length result.1.now < length text.now }
{
    let (line, behind) = text.split_at(front_length(LINE_END, text));
    match behind.split_first() {
        Some((_end, rest)) => (line, rest),
        None => (line, behind),
    }
}
