//! The command line of hplan: reads its arguments with `clap` into a typed [`Request`],
//! and whether errors are to be explained ([`Asked`]).
//!
//! A request to solve or to resume, as [`read_words`] returns it, has 1 to [`MAX_WORKERS`] workers.
//! Its limit, if any, is 1 to [`MAX_LIMIT`]. No other clause speaks of the arguments; all else is
//! tested. Help, version and faulty arguments come as a [`WordsError`] with the text to print.
//!
//! `src/line.rt` declares the commands, their options and the help texts. `src/request.rt` turns
//! the matches into a `Request`, and checks both ranges.
//! Start reading at [`read_words`], then at `src/line.rt`.
#![tactic(auto)]

mod error;
mod line;
mod request;

pub use error::WordsError;
pub use request::{Asked, MAX_LIMIT, MAX_WORKERS, Request, Search, read_words};
