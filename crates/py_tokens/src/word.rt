//! Words: texts that would be names, had they no meaning of their own.

ghost use Rattle.std.specs.Prelude.{◌≡◌, ◌↔◌, ◌≤◌, Contains, IsTrue, Some};
ghost use Rattle.py_tokens.specs.declared.word.Word.{Word};
ghost use Rattle.py_tokens.specs.Word.{spelling, refused_words, debug_word, IsWord};

/// A word with a meaning of its own.
#[derive(Clone, Copy, Debug, PartialEq, Eq)]
pub enum Word {
    False,
    None,
    True,
    And,
    As,
    Assert,
    Break,
    Continue,
    Def,
    Del,
    Elif,
    Else,
    Except,
    Finally,
    For,
    From,
    Global,
    If,
    Import,
    In,
    Is,
    Not,
    Or,
    Pass,
    Raise,
    Return,
    Try,
    While,
}

/// The name that is a word, of one meaning or the other.
const DEBUG: &[u8] = b"__debug__";

/// What a text of letters, digits and underscores is.
#[derive(Clone, Copy, Debug, PartialEq, Eq)]
pub enum Spelled {
    Word(Word),
    /// A word of Python that this language leaves out.
    Refused,
    Name,
}

/// Each word in the slot that its text gives. The other slots have the first word.
static WORDS: [Word; 48] = [
    Word::False,
    Word::Continue,
    Word::Or,
    Word::True,
    Word::Global,
    Word::And,
    Word::While,
    Word::False,
    Word::Import,
    Word::Is,
    Word::False,
    Word::False,
    Word::False,
    Word::Def,
    Word::Finally,
    Word::None,
    Word::Except,
    Word::False,
    Word::False,
    Word::Not,
    Word::False,
    Word::Pass,
    Word::False,
    Word::From,
    Word::Assert,
    Word::As,
    Word::If,
    Word::False,
    Word::False,
    Word::False,
    Word::Try,
    Word::Del,
    Word::False,
    Word::False,
    Word::In,
    Word::False,
    Word::Elif,
    Word::False,
    Word::False,
    Word::False,
    Word::Raise,
    Word::Else,
    Word::Break,
    Word::False,
    Word::Return,
    Word::For,
    Word::False,
    Word::False,
];

impl Word {
    /// How the word is written.
    pub fn spelling(self) -> &'static [u8]
        ensures { result.now ≡ spelling self }
    {
        match self {
            Word::False => b"False",
            Word::None => b"None",
            Word::True => b"True",
            Word::And => b"and",
            Word::As => b"as",
            Word::Assert => b"assert",
            Word::Break => b"break",
            Word::Continue => b"continue",
            Word::Def => b"def",
            Word::Del => b"del",
            Word::Elif => b"elif",
            Word::Else => b"else",
            Word::Except => b"except",
            Word::Finally => b"finally",
            Word::For => b"for",
            Word::From => b"from",
            Word::Global => b"global",
            Word::If => b"if",
            Word::Import => b"import",
            Word::In => b"in",
            Word::Is => b"is",
            Word::Not => b"not",
            Word::Or => b"or",
            Word::Pass => b"pass",
            Word::Raise => b"raise",
            Word::Return => b"return",
            Word::Try => b"try",
            Word::While => b"while",
        }
    }
}

/// The word that stands for whether programs check their assertions.
fn debug_value(opt: u8) -> Word
    ensures { result ≡ debug_word opt }
{
    if opt == 0 { Word::True } else { Word::False }
}

/// The word of the language that a text spells, if it does.
fn word_of(text: &[u8]) -> Option<Word>
    ensures { (w : Word) → (result ≡ Some w) ↔ (text.now ≡ spelling w) }
{
    if text.is_empty() {
        return None;
    }
    let (first, last) = (usize::from(text[0]), usize::from(text[text.len() - 1]));
    let word = WORDS[(text.len() + 22 * first + 43 * last) % WORDS.len()];
    if text == word.spelling() {
        Some(word)
    } else {
        None
    }
}

/// Whether the text is a word of Python that this language leaves out.
fn is_refused(text: &[u8]) -> bool
    ensures { IsTrue result ↔ Contains refused_words text.now }
{
    matches!(
        text,
        b"class" | b"lambda" | b"nonlocal" | b"async" | b"await" | b"with" | b"yield"
    )
}

/// Reads a text of letters, digits and underscores at a level of optimization.
pub fn read_word(text: &[u8], opt: u8) -> Spelled
    requires { opt ≤ 3 }
    ensures word { (w : Word) → (result ≡ Spelled.Word w) ↔ IsWord opt text.now w }
    ensures refused { (result ≡ Spelled.Refused) ↔ Contains refused_words text.now }
    ensures name { (result ≡ Spelled.Name)
        ↔ (((w : Word) → ¬ IsWord opt text.now w) × ¬ Contains refused_words text.now) }
{
    match word_of(text) {
        Some(word) => Spelled::Word(word),
        None if text == DEBUG => Spelled::Word(debug_value(opt)),
        None if is_refused(text) => Spelled::Refused,
        None => Spelled::Name,
    }
}

/// A spelling has one word, and no refused word is one.
pub fn word_law()
    ensures one_word { (v w : Word) → spelling v ≡ spelling w → v ≡ w }
    ensures apart { (w : Word) → ¬ Contains refused_words (spelling w) }
{}
