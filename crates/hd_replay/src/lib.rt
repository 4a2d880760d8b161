//! Plays schedules in memory: moves a search step by step, in any order, with stops anywhere.
//!
//! [`replay`] returns only the report of the run to which the schedule leads by the definitions of
//! hd_world (`specs/Playing`). A verdict in the [`Report`] is true. Afterwards the disk holds
//! exactly the bytes of that run's journal. After an error it is as it was, or as a stop leaves it.
//!
//! One thread plays all moves. It uses the program's own book, workers and journal; only the
//! mailboxes and the shared bound are plain data. A move that is not possible changes nothing. A
//! stop drops all but the disk, on which each byte that is not synced then reads as the schedule
//! says.
//! Start reading at [`replay`], then at `src/stepping.rt` and `specs/Playing`.
#![tactic(auto)]

mod ending;
mod fault;
mod moving;
mod opening;
mod playing;
mod replaying;
mod report;
mod run;
mod saying;
mod seat;
mod settling;
mod starting;
mod stepping;
mod writing;

pub use fault::ReplayFault;
pub use hd_world::{Move, ScheduleError, StopAt, headline, read_schedule};
pub use replaying::replay;
pub use report::{Report, Says};
