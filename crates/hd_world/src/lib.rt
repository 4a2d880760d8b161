//! The world of schedules: a search with its disk as plain data, what each move does to it, and the
//! headline, that stops and resumptions keep the search.
//!
//! The contract of [`headline`] is `specs/Headline`, for any task and every schedule. It stands on
//! laws: [`running_laws`] keep a running search sound, whatever its workers do in any order, and
//! lose no generated node; [`disk_laws`] say what any number of stops leaves of a disk, and that
//! it is opened again; by [`stop_laws`] each reached world is sound; by [`answer_laws`] answers are
//! true, and a resumption closes each entry and opens each other generated node at its owner.
//! [`limits::limits_are`] gives the limits of a run as numbers.
//!
//! A world is either stopped, with the bytes of a disk, or running, with a journal and a run. A run
//! has the book, the workers, their mailboxes, the shared bound and the group that is out.
//! `StepsTo` relates a world, a move and the next world; an impossible move changes nothing. A
//! parameter says what a stop may leave, so one definition serves both the claim and the replay.
//! *Sound* (`specs/Sound`) means: what the run holds is true of its book (`specs/Truth`), each node
//! is in at most one place (`specs/Once`), and tickets, book and journal agree (`specs/Order`).
//!
//! The only code that runs is [`read_schedule`]. It returns exactly the moves of a text, in order,
//! or the number of its first bad line. A line is a move exactly if a row of `specs/MoveTable` says
//! so. Start reading at `specs/World`, then `specs/Moves` and `specs/Headline`.
#![tactic(auto)]

pub mod answer_laws;
pub mod disk_laws;
pub mod limits;
mod moves;
pub mod running_laws;
mod schedule;
mod schedule_error;
mod schedule_laws;
mod schedule_line;
mod schedule_number;
mod sentence;
pub mod stop_laws;

pub use moves::{Move, StopAt};
pub use schedule::read_schedule;
pub use schedule_error::ScheduleError;
pub use schedule_laws::{moves_are_those_of_the_table, printed_schedules_are_read_back};
pub use sentence::headline;
