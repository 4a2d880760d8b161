//! Explains errors of texts to a person: the line and the column, the word that stands there, and
//! what the grammar wants instead.
//!
//! [`spot_of`] returns exactly the line and the column of a place. [`push_read_hint`],
//! [`push_check_hint`] and [`push_line_hint`] append an explanation to a text: a line with the
//! file's name, the spot and a sentence, the line of the file, and a mark under the word. The
//! sentences are tested only.
//!
//! What the grammar wants is found by trial: a word is wanted exactly if the reader (hd_pddl) goes
//! on with it after the text before the place. Start reading at [`push_read_hint`], then
//! `specs/Spots`.
#![tactic(auto)]

mod checking;
mod excerpt;
mod frames;
mod reading;
mod sentences;
mod spot;
mod wanted;
mod words;

pub use checking::push_check_hint;
pub use excerpt::push_excerpt;
pub use reading::{push_line_hint, push_read_hint};
pub use spot::{Spot, place_of_line, spot_of};
