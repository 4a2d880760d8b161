//! The threads of a search: what they share, what each worker does, and what the committer does.
//!
//! [`committer_round`] keeps the journal's entries a prefix of the book's log. As many are
//! acknowledged, except after `NotOut`. If [`commit_next`] returns `Taken`, it has appended
//! exactly the expansions of the worker's batch to the log. [`answer`] returns what the journal's
//! entries show, and it is true.
//!
//! One lock holds the [`SharedBook`]. A worker enters it to redeem tickets, to commit, or to halt
//! the search. The committer asks it whether the search is over, and tells the workers ([`Bells`]).
//! Parcels and journal writes need no lock. If the lock is taken, a worker with open nodes may
//! settle more of them before it commits.
//! Start reading at [`work`], then at [`commit_all`].
#![tactic(auto)]

mod committing;
mod ending;
mod ends;
mod fault;
mod gate;
mod gathering;
mod halting;
mod letter;
mod pacing;
mod pausing;
mod placing;
mod posting;
mod progress;
mod shared;
mod tally;
mod turning;
mod waking;
mod working;

pub use committing::{Round, committer_round};
pub use ending::{CommitterRole, Concluded, Outcome, answer, commit_all, is_over};
pub use ends::{WorkerEnd, first_fault};
pub use fault::RunFault;
pub use gate::{Gate, OpenGate, Standing};
pub use gathering::gather;
pub use halting::{give_up, halt};
pub use letter::Letter;
pub use pacing::Pace;
pub use pausing::Pause;
pub use placing::{Desk, Workplace};
pub use posting::{Sending, send_next, take_next};
pub use progress::Progress;
pub use shared::{Given, Halted, SharedBook};
pub use tally::{Tally, Work};
pub use turning::{Role, work};
pub use waking::{Bell, Bells};
pub use working::{Committed, Held, Redemption, commit_next, redeem_next, settle_best};
