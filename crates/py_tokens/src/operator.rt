//! Operators and other marks, of which the longest counts.

ghost use Rattle.std.specs.Prelude.{◌≡◌, ℕ, ◌≤◌, ◌↔◌, List, Contains, length, take, Some, IfSome, IsNone, IsTrue};
ghost use Rattle.py_tokens.specs.declared.operator.Op.{Op};
ghost use Rattle.py_tokens.specs.declared.operator.Operator.{Operator};
ghost use Rattle.py_tokens.specs.Operator.{spelling, refused, Spells, Stands, IsLongest};

/// An operator, a bracket or another mark of this language.
#[derive(Clone, Copy, Debug, PartialEq, Eq)]
pub enum Op {
    OpenParen,
    CloseParen,
    OpenBracket,
    CloseBracket,
    OpenBrace,
    CloseBrace,
    Comma,
    Colon,
    Semicolon,
    Dot,
    Assign,
    Equal,
    NotEqual,
    Less,
    Greater,
    LessEqual,
    GreaterEqual,
    Plus,
    Minus,
    Star,
    DoubleSlash,
    Percent,
    DoubleStar,
    Ampersand,
    Bar,
    Caret,
    Tilde,
    ShiftLeft,
    ShiftRight,
    PlusAssign,
    MinusAssign,
    StarAssign,
    DoubleSlashAssign,
    PercentAssign,
    DoubleStarAssign,
    AmpersandAssign,
    BarAssign,
    CaretAssign,
    ShiftLeftAssign,
    ShiftRightAssign,
}

/// What the bytes of an operator are.
#[derive(Clone, Copy, Debug, PartialEq, Eq)]
pub enum Operator {
    Op(Op),
    /// One of Python that this language leaves out.
    Refused,
}

/// Each operator in the slot that its text gives. The other slots have the first operator.
static OPS: [Op; 71] = [
    Op::ShiftLeftAssign,
    Op::DoubleSlashAssign,
    Op::OpenParen,
    Op::Star,
    Op::DoubleStar,
    Op::BarAssign,
    Op::OpenParen,
    Op::Tilde,
    Op::OpenParen,
    Op::OpenParen,
    Op::OpenParen,
    Op::DoubleSlash,
    Op::NotEqual,
    Op::OpenParen,
    Op::Less,
    Op::ShiftLeft,
    Op::OpenParen,
    Op::OpenBrace,
    Op::OpenParen,
    Op::Caret,
    Op::Comma,
    Op::OpenParen,
    Op::MinusAssign,
    Op::OpenParen,
    Op::OpenParen,
    Op::OpenParen,
    Op::OpenParen,
    Op::OpenParen,
    Op::AmpersandAssign,
    Op::OpenBracket,
    Op::CloseParen,
    Op::Greater,
    Op::ShiftRight,
    Op::OpenParen,
    Op::CloseBrace,
    Op::OpenParen,
    Op::OpenParen,
    Op::Dot,
    Op::OpenParen,
    Op::PercentAssign,
    Op::Ampersand,
    Op::Semicolon,
    Op::OpenParen,
    Op::OpenParen,
    Op::PlusAssign,
    Op::OpenParen,
    Op::CloseBracket,
    Op::Plus,
    Op::GreaterEqual,
    Op::ShiftRightAssign,
    Op::OpenParen,
    Op::CaretAssign,
    Op::OpenParen,
    Op::OpenParen,
    Op::OpenParen,
    Op::StarAssign,
    Op::DoubleStarAssign,
    Op::OpenParen,
    Op::Assign,
    Op::Equal,
    Op::OpenParen,
    Op::Bar,
    Op::OpenParen,
    Op::OpenParen,
    Op::Minus,
    Op::OpenParen,
    Op::OpenParen,
    Op::Percent,
    Op::Colon,
    Op::OpenParen,
    Op::LessEqual,
];

impl Op {
    /// How the operator is written.
    pub fn spelling(self) -> &'static [u8]
        ensures { result.now ≡ spelling self }
    {
        match self {
            Op::OpenParen => b"(",
            Op::CloseParen => b")",
            Op::OpenBracket => b"[",
            Op::CloseBracket => b"]",
            Op::OpenBrace => b"{",
            Op::CloseBrace => b"}",
            Op::Comma => b",",
            Op::Colon => b":",
            Op::Semicolon => b";",
            Op::Dot => b".",
            Op::Assign => b"=",
            Op::Equal => b"==",
            Op::NotEqual => b"!=",
            Op::Less => b"<",
            Op::Greater => b">",
            Op::LessEqual => b"<=",
            Op::GreaterEqual => b">=",
            Op::Plus => b"+",
            Op::Minus => b"-",
            Op::Star => b"*",
            Op::DoubleSlash => b"//",
            Op::Percent => b"%",
            Op::DoubleStar => b"**",
            Op::Ampersand => b"&",
            Op::Bar => b"|",
            Op::Caret => b"^",
            Op::Tilde => b"~",
            Op::ShiftLeft => b"<<",
            Op::ShiftRight => b">>",
            Op::PlusAssign => b"+=",
            Op::MinusAssign => b"-=",
            Op::StarAssign => b"*=",
            Op::DoubleSlashAssign => b"//=",
            Op::PercentAssign => b"%=",
            Op::DoubleStarAssign => b"**=",
            Op::AmpersandAssign => b"&=",
            Op::BarAssign => b"|=",
            Op::CaretAssign => b"^=",
            Op::ShiftLeftAssign => b"<<=",
            Op::ShiftRightAssign => b">>=",
        }
    }
}

fn op_of(text: &[u8]) -> Option<Op>
    ensures { (op : Op) → (result ≡ Some op) ↔ (text.now ≡ spelling op) }
{
    if text.is_empty() {
        return None;
    }
    let (first, last) = (usize::from(text[0]), usize::from(text[text.len() - 1]));
    let op = OPS[(text.len() + 60 * first + 55 * last) % OPS.len()];
    if text == op.spelling() {
        Some(op)
    } else {
        None
    }
}

/// Whether the text is an operator of Python that this language leaves out.
fn is_refused(text: &[u8]) -> bool
    ensures { IsTrue result ↔ Contains refused text.now }
{
    matches!(text, b"/" | b"/=" | b"@" | b"@=" | b":=" | b"->" | b"...")
}

/// Whether an operator may have the second byte of the text, or is as short.
fn may_spell(text: &[u8]) -> bool
    ensures { (operator : Operator) → Spells operator text.now → IsTrue result }
{
    matches!(text, [_] | [_, b'=' | b'*' | b'/' | b'<' | b'>' | b'.', ..])
}

fn operator_of(text: &[u8]) -> Option<Operator>
    ensures { (operator : Operator) → (result ≡ Some operator) ↔ Spells operator text.now }
{
    match op_of(text) {
        Some(op) => Some(Operator::Op(op)),
        None if is_refused(text) => Some(Operator::Refused),
        None => None,
    }
}

/// The operator that the front of that length is.
#[inline(always)]
fn operator_of_front(bytes: &[u8], len: usize) -> Option<Operator>
    ensures { (operator : Operator) → (result ≡ Some operator)
        ↔ ((len ≤ length bytes.now) × Spells operator (take len bytes.now)) }
{
    let front = bytes.get(..len)?;
    if may_spell(front) {
        operator_of(front)
    } else {
        None
    }
}

/// The longest operator in front and its length.
pub fn operator_at(bytes: &[u8]) -> Option<(Operator, usize)>
    ensures found { IfSome result (λ found. (text : List ℕ)
        × IsLongest found.0 text bytes.now × (found.1 ≡ length text)) }
    ensures only { (operator : Operator) (text : List ℕ) → IsLongest operator text bytes.now
        → result ≡ Some (operator, length text) }
    ensures none { IsNone result
        ↔ ((operator : Operator) (text : List ℕ) → Spells operator text → ¬ Stands text bytes.now) }
{
    if let Some(operator) = operator_of_front(bytes, 3) {
        return Some((operator, 3));
    }
    if let Some(operator) = operator_of_front(bytes, 2) {
        return Some((operator, 2));
    }
    let operator = operator_of_front(bytes, 1)?;
    Some((operator, 1))
}

/// Bytes begin with one longest operator at most, and a spelling has one operator.
pub fn operator_law()
    ensures one_longest { (a b : Operator) (s t bytes : List ℕ) → IsLongest a s bytes
        → IsLongest b t bytes → (a ≡ b) × (s ≡ t) }
    ensures one_operator { (a b : Operator) (text : List ℕ) → Spells a text → Spells b text → a ≡ b }
{}
