//! The moves of a schedule.

ghost use Rattle.std.specs.Prelude.{◌≡◌, Some};
ghost use Rattle.hd_world.specs.MoveText.{move_text, stop_text};

use std::fmt;

/// Where a stop falls, and what it leaves.
#[derive(Clone, Copy, Debug, PartialEq, Eq)]
pub struct StopAt {
    /// The number of the call in which it falls, counted from 1.
    pub call: u32,
    /// What every byte reads that was not sure.
    pub byte: u8,
}

/// A move of the world that a schedule is played in. Whether it is possible there is not asked
/// here.
#[derive(Clone, Copy, Debug, PartialEq, Eq)]
pub enum Move {
    /// The journal is opened and recovered for so many workers; with a stop, this comes to an end
    /// in one of its calls.
    Resume { workers: u32, stop: Option<StopAt> },
    /// The worker pops its mailbox into its hand, if that is empty.
    Pop { worker: u32 },
    /// The worker takes the parcel in its hand.
    Take { worker: u32 },
    /// The worker expands its open node at this place, counted from 0 in the order of arrival.
    Expand { worker: u32, place: u32 },
    /// The worker's outcomes so far are committed.
    Commit { worker: u32 },
    /// The worker redeems its oldest ticket.
    Redeem { worker: u32 },
    /// The next parcel of the worker's outbox goes to its owner's mailbox.
    Push { worker: u32 },
    /// The worker offers the bound that the book had after its last commit.
    Offer { worker: u32 },
    /// The worker sees the bound.
    Load { worker: u32 },
    /// What is pending is pulled out of the book.
    Pull,
    /// What was pulled is appended to the journal.
    Flush,
    /// What was appended is acknowledged.
    Ack,
    /// A stop, in a call of the append or, where the call's number is 0, now.
    Stop(StopAt),
}

impl fmt::Display for StopAt {
    ghost output = { λ stop. Some (stop_text stop) };

    fn fmt<W: fmt::Write>(&self, f: &mut fmt::Formatter<W>) -> fmt::Result {
        let StopAt { call, byte } = *self;
        write!(f, "{call} {byte:02x}")
    }
}

impl fmt::Display for Move {
    ghost output = { λ said. Some (move_text said) };

    /// Returns the line that is read as this move, without its end.
    fn fmt<W: fmt::Write>(&self, f: &mut fmt::Formatter<W>) -> fmt::Result {
        match self {
            Move::Resume {
                workers,
                stop: None,
            } => write!(f, "resume {workers}"),
            Move::Resume {
                workers,
                stop: Some(stop),
            } => write!(f, "resume {workers} {stop}"),
            Move::Pop { worker } => write!(f, "pop {worker}"),
            Move::Take { worker } => write!(f, "take {worker}"),
            Move::Expand { worker, place } => write!(f, "expand {worker} {place}"),
            Move::Commit { worker } => write!(f, "commit {worker}"),
            Move::Redeem { worker } => write!(f, "redeem {worker}"),
            Move::Push { worker } => write!(f, "push {worker}"),
            Move::Offer { worker } => write!(f, "offer {worker}"),
            Move::Load { worker } => write!(f, "load {worker}"),
            Move::Pull => write!(f, "pull"),
            Move::Flush => write!(f, "flush"),
            Move::Ack => write!(f, "ack"),
            Move::Stop(stop) => write!(f, "stop {stop}"),
        }
    }
}
