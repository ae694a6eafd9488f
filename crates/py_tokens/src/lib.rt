//! The tokens of a source, and the small languages inside a token.
#![tactic(auto)]

mod digits;
mod escape;
mod lexeme;
mod lines;
mod name;
mod number;
mod operator;
mod prefix;
mod source;
mod string;
mod token;
mod word;

pub use escape::StringFaultKind;
pub use name::name_len;
pub use number::{NumberFault, number_law, number_len, number_of};
pub use operator::{Op, Operator, operator_at, operator_law};
pub use source::{tokens, tokens_law};
pub use string::{StringFault, string_law, string_of};
pub use token::{Tok, Token};
pub use word::{Spelled, Word, read_word, word_law};
