//! Nests the tokens of a text (hd_lex) by its parentheses, and reads words and forms from the left.
//!
//! [`text_forms`] returns the forms with which the text is written, at most 64 of them open at
//! once. Else it reports the first bad word, or, in a text without one, the first error of the
//! parentheses. A call such as [`name_at`] or [`group_at`] returns exactly what its rule gives of
//! the next forms. It refuses them only if the rule gives nothing, or if memory runs out.
//!
//! Tokens come one by one from the lexer, and the open forms lie on a stack. A [`Form`] has at most
//! 40 bytes, and a closed one keeps no spare room. Places are counted in bytes from 0. Start
//! reading at [`text_forms`], then `specs/Forms`.
#![tactic(auto)]

mod error;
mod forms;
mod law;
mod names;
mod place;
mod refusal;
mod text;
mod word;

pub use error::ReadError;
pub use forms::Form;
pub use law::forms_are_shallow;
pub use names::{
    NameAt, end_at, find_keyword_form, forms_behind_keyword, forms_behind_name, group_at, name_at,
    number_at, placed_name,
};
pub use place::TextPlace;
pub use refusal::{first_refusal, form_refusal};
pub use text::text_forms;
pub use word::{ChangeWord, FormWord};
