//! How a worker sends parcels to others, and takes those that were sent to it.
ghost use Rattle.std.specs.Prelude.{◌≡◌, ◌<◌, length, IfOk, OnErr};
ghost use Rattle.hd_desk.specs.Hands.{IsFor, parts_of};
ghost use Rattle.hd_threads.specs.Posting.{HaveBoxes, HasSent, TakesParcel, LosesParcel};

use crate::Letter;
use crate::waking::Bells;
use hd_base::NoMemory;
use hd_desk::{Hands, Mailboxes};
use hd_task::Task;
use hd_worker::Worker;
use hd_zobrist::owner;

/// What became of the next parcel of the outbox.
#[derive(Clone, Copy, Debug, PartialEq, Eq)]
pub enum Sending {
    /// It is in the mailbox of the worker that owns its state.
    Sent,
    /// It is the next one still: that mailbox is full, or another thread was in the way.
    Full,
    /// There is none.
    Empty,
}

/// Sends the first parcel of a worker's outbox, if there is one, to the worker that owns its state,
/// and wakes that. It does not allocate, and takes no lock.
pub fn send_next<'t>(
    boxes: &Mailboxes<Task, Letter<'t>>,
    bells: &Bells,
    hands: &mut Hands<'t, Task, Letter<'t>>,
    worker: &mut Worker<'t>,
    workers: usize,
) -> Sending
    requires of { IsFor boxes.now hands.old }
    requires task { worker.old.task ≡ hands.old.of }
    requires workers { HaveBoxes workers (length boxes.now) }
    ensures of { IsFor boxes.now hands.new }
    ensures same { hands.new.of ≡ hands.old.of }
    ensures parts { parts_of hands.new ≡ parts_of hands.old }
    ensures sent { HasSent workers hands.old worker.old hands.new worker.new result }
{
    let Some(parcel) = worker.next_out() else {
        return Sending::Empty;
    };
    let to = owner(parcel.hash(), workers);
    match boxes.push(hands, to, Letter::of(parcel)) {
        Ok(()) => {
            bells.ring_worker(to);
            Sending::Sent
        }
        Err(letter) => {
            worker.put_back(letter.into_parcel());
            Sending::Full
        }
    }
}

/// Takes the oldest parcel out of a worker's mailbox, if there is one: it is the last open node. It
/// takes no lock.
///
/// # Errors
/// - `NoMemory`: there is no room for it: the parcel is lost, and no other.
pub fn take_next<'t>(
    boxes: &Mailboxes<Task, Letter<'t>>,
    hands: &mut Hands<'t, Task, Letter<'t>>,
    worker: &mut Worker<'t>,
    from: usize,
) -> Result<bool, NoMemory>
    requires of { IsFor boxes.now hands.old }
    requires task { worker.old.task ≡ hands.old.of }
    requires there { from < length boxes.now }
    ensures of { IsFor boxes.now hands.new }
    ensures same { hands.new.of ≡ hands.old.of }
    ensures parts { parts_of hands.new ≡ parts_of hands.old }
    ensures taken { IfOk result (TakesParcel from hands.old worker.old hands.new worker.new) }
    ensures lost { OnErr result (LosesParcel from hands.old hands.new) }
    ensures err { OnErr result (worker.new ≡ worker.old) }
{
    let Some(letter) = boxes.pop(hands, from) else {
        return Ok(false);
    };
    if let Err((_, error)) = worker.take(letter.into_parcel()) {
        return Err(error);
    }
    Ok(true)
}
