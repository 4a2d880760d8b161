//! How a run's entries come into its journal. A move that is not possible changes nothing.
ghost use Rattle.std.specs.Prelude.{◌≡◌, ◌||◌, List, ℕ, is_some, IfErr, OnOk};
ghost use Rattle.hd_world.specs.declared.moves.Move.TheVariants as moves;
ghost use Rattle.hd_world.specs.Moves.{TurnsTo};
ghost use Rattle.hd_world.specs.Stops.{File};
ghost use Rattle.hd_replay.specs.declared.fault.ReplayFault.TheVariants as faults;
ghost use Rattle.hd_replay.specs.Held.{IsSoundRun};
ghost use Rattle.hd_replay.specs.Journals.{StandsAs, Flushes};

use crate::fault::{ReplayFault, told_of_journal};
use crate::run::{Out, Run};
use hd_journal::Journal;
use hd_store::MemoryDisk;
use std::sync::ledger::Ledger;

impl<'t, L: Ledger> Run<'t, L> {
    /// Reports whether a group was pulled that is not appended yet.
    pub(crate) fn has_pulled(&self) -> bool
        ensures { result ≡ is_some self.now.group }
    {
        matches!(&self.out, Out::Pulled(_))
    }

    /// Reports whether a group is out.
    fn is_out(&self) -> bool
        ensures { result ≡ (is_some self.now.group || is_some self.now.flushed) }
    {
        !matches!(&self.out, Out::Nothing)
    }

    /// Pulls what is pending out of the book, if no group is out.
    ///
    /// # Errors
    /// - `NoMemory`: there is no room for a group.
    pub(crate) fn pull(&mut self) -> Result<(), ReplayFault>
        requires sound { IsSoundRun self.old }
        ensures ok { OnOk result (TurnsTo self.old.book.state.task self.old moves.Pull self.new) }
        ensures memory { IfErr result (λ fault. fault ≡ faults.NoMemory) }
    {
        if self.is_out() {
            return Ok(());
        }
        let room = self.rooms.take()?;
        match self.book.take_pending(room) {
            Ok(group) => {
                self.put_out(Out::Pulled(group));
                Ok(())
            }
            Err(room) => {
                self.rooms.put_back(room);
                Ok(())
            }
        }
    }

    /// Acknowledges the group that was appended, if there is one.
    pub(crate) fn ack(&mut self)
        ensures { TurnsTo self.old.book.state.task self.old moves.Ack self.new }
    {
        match self.take_out() {
            Out::Flushed(flushed) => {
                if let Ok(kids) = self.book.acknowledge(flushed) {
                    self.rooms.reuse(kids);
                }
            }
            out => self.put_out(out),
        }
    }

    /// Appends what was pulled to `journal`.
    ///
    /// # Errors
    /// - Why it is not appended: it is pulled still.
    pub(crate) fn flush(&mut self, journal: &mut Journal<MemoryDisk>) -> Result<(), ReplayFault>
        ensures flushed { (digest : List ℕ) (f : File) → StandsAs digest f journal.old
            → OnOk result (Flushes digest f self.old journal.new self.new) }
    {
        match self.take_out() {
            Out::Pulled(group) => match journal.append(group) {
                Ok(flushed) => {
                    self.put_out(Out::Flushed(flushed));
                    Ok(())
                }
                Err((group, error)) => {
                    self.put_out(Out::Pulled(group));
                    Err(told_of_journal(error))
                }
            },
            out => {
                self.put_out(out);
                Ok(())
            }
        }
    }
}
