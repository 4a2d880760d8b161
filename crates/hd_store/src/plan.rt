//! Which calls of a disk in memory fail, and how many have failed.
ghost use Rattle.std.specs.Prelude.{◌≡◌, ◌==◌, true, false, if◌then◌else◌, IfErr, OnOk, OnErr};
ghost use Rattle.hd_store.specs.declared.error.StoreError.TheVariants.{Failed};
ghost use Rattle.hd_store.specs.Ahead.{later, behind_failure, is_down, is_failing, is_refused, reads_behind};
ghost use Rattle.hd_store.specs.Device.{one_more};

use crate::ahead::Ahead;
use crate::error::{MOST_FAILURES, StoreError};

/// The count of failures, and what is planned for the changes and the reads to come.
#[derive(Clone, Copy, Debug, PartialEq, Eq)]
pub(crate) struct FailurePlan {
    pub(crate) failures: u64,
    pub(crate) changes: Ahead,
    pub(crate) reads: Ahead,
}

impl FailurePlan {
    /// Returns a plan by which each call goes well, with `failures` failures so far.
    pub(crate) fn none_ahead(failures: u64) -> FailurePlan
        ensures { result
            ≡ record { failures = failures; changes = Ahead.Well; reads = Ahead.Well } }
    {
        FailurePlan {
            failures,
            changes: Ahead::Well,
            reads: Ahead::Well,
        }
    }

    /// Adds one failure more.
    pub(crate) fn count(&mut self)
        ensures { self.new ≡ record self.old { failures = one_more self.old.failures } }
    {
        self.failures = self.failures.saturating_add(1);
    }

    /// Reports whether a change can be begun: else it fails.
    pub(crate) fn begin(&mut self) -> Result<(), StoreError>
        ensures begun { OnOk result (self.new ≡ self.old) }
        ensures few { OnOk result ((self.old.failures == MOST_FAILURES) ≡ false) }
        ensures running { OnOk result (is_down self.old.changes ≡ false) }
        ensures error { IfErr result (λ error. error ≡ Failed) }
        ensures stopped { OnErr result (is_refused self.old.failures self.old.changes ≡ true) }
        ensures counted { OnErr result
            (self.new ≡ record self.old { failures = one_more self.old.failures }) }
    {
        if self.failures == MOST_FAILURES || self.changes.is_down() {
            self.count();
            return Err(StoreError::Failed);
        }
        Ok(())
    }

    /// Reports whether the read that is asked for fails, and moves the plan past it.
    pub(crate) fn read(&mut self) -> bool
        ensures fails { result ≡ is_failing self.old.failures self.old.reads }
        ensures changes { self.new.changes ≡ self.old.changes }
        ensures reads { self.new.reads ≡ later self.old.reads }
        ensures failures { self.new.failures
            ≡ (if result then one_more self.old.failures else self.old.failures) }
    {
        let fails = self.failures == MOST_FAILURES || self.reads.is_down() || self.reads.is_next();
        self.reads = self.reads.later();
        if fails {
            self.count();
        }
        fails
    }

    /// Records that a change was begun and failed.
    pub(crate) fn break_off(&mut self)
        ensures { self.new ≡ record {
          failures = one_more self.old.failures;
          changes = behind_failure self.old.changes;
          reads = reads_behind self.old.changes self.old.reads;
        } }
    {
        self.count();
        self.reads = self.changes.reads_behind(self.reads);
        self.changes = self.changes.behind_failure();
    }

    /// Records that a change was done.
    pub(crate) fn go_on(&mut self)
        ensures { self.new ≡ record self.old { changes = later self.old.changes } }
    {
        self.changes = self.changes.later();
    }
}
