//! Cuts a text of any bytes into tokens: parentheses, names, variables, numbers and the like.
//!
//! [`tokens`] returns exactly the tokens of the text, in order and with their places. If the text
//! has a bad word, it reports the first one. Each text has tokens or an error, and never both
//! ([`each_text_is_good_or_bad`]). [`front_of`] reads one token, blank or comment, so a caller need
//! not store them all.
//!
//! Blanks are space, tab, carriage return and line feed. A semicolon starts a comment, up to the
//! line feed. Each parenthesis is a word, and so is each longest run of other bytes. Letters are
//! folded to lower case. Start reading at [`tokens`], then `specs/Text`.
#![tactic(auto)]

mod byte;
mod error;
mod law;
mod text;
mod token;
mod word;

pub use error::LexError;
pub use law::{
    each_text_has_its_words, each_text_is_good_or_bad, each_word_is_good_or_bad, words_are_short,
};
pub use text::{front_of, tokens};
pub use token::{Front, Operator, Token, Word};
