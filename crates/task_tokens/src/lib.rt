//! Tokens, and the division of a text into them.
#![tactic(auto)]

mod cut;
mod dividing;
mod laws;
mod token;

pub use dividing::{DivideError, Divided, divide};
pub use laws::{
    divides_or_breaks, one_division, reserved_words_are_keywords, spaced_tokens_divide,
    tokens_are_fair,
};
pub use token::{Keyword, Lexeme, Sign, Token};
