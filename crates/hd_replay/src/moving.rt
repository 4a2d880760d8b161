//! The moves of workers. One that is not possible changes nothing.
ghost use Rattle.std.specs.Prelude.{◌≡◌, ◌⊎◌, OnOk, OnErr, IfErr};
ghost use Rattle.hd_world.specs.declared.moves.Move.TheVariants as moves;
ghost use Rattle.hd_world.specs.Moves.{TurnsTo, EndsRun};
ghost use Rattle.hd_replay.specs.declared.fault.ReplayFault.TheVariants as faults;
ghost use Rattle.hd_replay.specs.Held.{IsSoundRun};

use crate::fault::ReplayFault;
use crate::run::Run;
use hd_zobrist::owner;
use std::sync::ledger::Ledger;

impl<'t, L: Ledger> Run<'t, L> {
    /// Pops the mailbox of worker `number` into its hand, if that is empty.
    pub(crate) fn pop(&mut self, number: usize)
        requires sound { IsSoundRun self.old }
        ensures { TurnsTo self.old.book.state.task self.old (moves.Pop number) self.new }
    {
        let Run {
            seats,
            mailboxes,
            ..
        } = self;
        if number >= seats.len() || number >= mailboxes.len() {
            return;
        }
        seats[number].pop(&mut mailboxes[number]);
    }

    /// Makes the parcel in the hand of worker `number`, if any, its last open node.
    ///
    /// # Errors
    /// - `NoMemory`: there is no room for it: it is in the hand still.
    pub(crate) fn take(&mut self, number: usize) -> Result<(), ReplayFault>
        ensures ok { OnOk result
            (TurnsTo self.old.book.state.task self.old (moves.Take number) self.new) }
        ensures memory { IfErr result (λ fault. fault ≡ faults.NoMemory) }
    {
        if number >= self.seats.len() {
            return Ok(());
        }
        self.seats[number].take()?;
        Ok(())
    }

    /// Expands the open node of worker `number` at `place`, in the order of arrival.
    ///
    /// # Errors
    /// - `NoMemory`: there is no room for its outcome: it is open still.
    pub(crate) fn expand(&mut self, number: usize, place: usize) -> Result<(), ReplayFault>
        requires sound { IsSoundRun self.old }
        ensures ok { OnOk result (TurnsTo self.old.book.state.task self.old
            (moves.Expand number place) self.new) }
        ensures memory { IfErr result (λ fault. fault ≡ faults.NoMemory) }
    {
        let Run { seats, lookup, .. } = self;
        if number >= seats.len() {
            return Ok(());
        }
        seats[number].expand(lookup, place)?;
        Ok(())
    }

    /// Commits the first outcomes of worker `number`, if it has any and may hold another ticket.
    /// A batch that is refused for what it says is dropped.
    ///
    /// # Errors
    /// - `Full`: the book takes no more, or `NoMemory`.
    pub(crate) fn commit(&mut self, number: usize) -> Result<(), ReplayFault>
        requires sound { IsSoundRun self.old }
        ensures ok { OnOk result
            (TurnsTo self.old.book.state.task self.old (moves.Commit number) self.new) }
        ensures fault { IfErr result (λ fault. (fault ≡ faults.NoMemory)
            ⊎ ((fault ≡ faults.Full) × EndsRun self.old (moves.Commit number))) }
    {
        let Run {
            book,
            share,
            seats,
            ..
        } = self;
        if number >= seats.len() {
            return Ok(());
        }
        seats[number].commit(book, share)?;
        Ok(())
    }

    /// Redeems the oldest ticket of worker `number`: what it releases is open, or in the outbox.
    pub(crate) fn redeem(&mut self, number: usize)
        requires sound { IsSoundRun self.old }
        ensures { TurnsTo self.old.book.state.task self.old (moves.Redeem number) self.new }
    {
        let Run { book, seats, .. } = self;
        if number >= seats.len() {
            return;
        }
        seats[number].redeem(book);
    }

    /// Pushes the next parcel of the outbox of worker `number` to its owner's mailbox, if not full.
    ///
    /// # Errors
    /// - `NoMemory`: the mailbox can't grow.
    pub(crate) fn push(&mut self, number: usize) -> Result<(), ReplayFault>
        requires sound { IsSoundRun self.old }
        ensures ok { OnOk result
            (TurnsTo self.old.book.state.task self.old (moves.Push number) self.new) }
        ensures memory { IfErr result (λ fault. fault ≡ faults.NoMemory) }
    {
        let workers = self.seats.len();
        let Run {
            seats,
            mailboxes,
            ..
        } = self;
        if number >= workers {
            return Ok(());
        }
        let seat = &mut seats[number];
        let Some(parcel) = seat.next_out() else {
            return Ok(());
        };
        let to = owner(parcel.hash(), workers);
        seat.post(&mut mailboxes[to], parcel)?;
        Ok(())
    }

    /// Offers the bound that the book had after the last commit of worker `number`.
    pub(crate) fn offer(&mut self, number: usize)
        ensures { TurnsTo self.old.book.state.task self.old (moves.Offer number) self.new }
    {
        if number >= self.seats.len() {
            return;
        }
        if let Some(told) = self.seats[number].told {
            self.bound = match self.bound {
                Some(bound) => Some(bound.min(told)),
                None => Some(told),
            };
        }
    }

    /// Shows worker `number` the least bound that was offered.
    pub(crate) fn load(&mut self, number: usize)
        ensures { TurnsTo self.old.book.state.task self.old (moves.Load number) self.new }
    {
        if number < self.seats.len() {
            self.seats[number].worker.see(self.bound);
        }
    }
}
