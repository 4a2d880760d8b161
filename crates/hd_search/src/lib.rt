//! Searches a task over a journal by several workers, each in its own thread, and a committer.
//!
//! [`run`] answers only what the journal's entries show at its end, and that answer is true.
//! These entries begin with those before the call, also after an error. If the journal has not
//! failed and nothing is pending on the device, a stop at any moment leaves the entries that it
//! had. [`recover`] rebuilds the book and the workers from entries, and [`certify`] reads entries
//! as a proof.
//!
//! Each worker gets a scoped thread; the calling thread is the committer. `run` joins all threads,
//! then asks the book for the answer. Each worker owns the states that their hashes select, so no
//! closed list is shared.
//!
//! [`Watch`] prints a line on standard error each so many seconds, if lines are asked for, and one
//! at the end. It keeps what workers and committer report for statistics, in atomic numbers. It is
//! a [`Gate`], so the threads call it outside of every lock. A printed [`ProgressLine`] is exactly
//! the text that `specs/Line` defines for its fields. When lines are printed, and from which
//! counts, is tested only.
//!
//! Start reading at [`run`], then at `src/opening.rt` and `specs/Opening`.
#![tactic(auto)]

mod committing;
mod fault;
mod line;
mod machine;
mod opening;
mod running;
mod scoping;
mod starting;
mod watch;

pub use fault::ThreadsFault;
pub use hd_certify::{Certified, RecoverError, certify};
pub use hd_recovery::{Recovered, recover};
pub use hd_threads::{Concluded, Gate, OpenGate, Outcome, RunFault, Standing, Tally, Work};
pub use line::{ProgressLine, rate_of};
pub use machine::Machine;
pub use running::run;
pub use watch::Watch;
