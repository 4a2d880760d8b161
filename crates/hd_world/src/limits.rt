//! Limits of what a run holds.
ghost use Rattle.std.specs.Prelude.{◌≡◌};
ghost use Rattle.hd_desk.specs.declared.mail.TheConstants.{MAILBOX_PLACES};
ghost use Rattle.hd_book.specs.declared.ticket.TheConstants.{MAX_TICKETS};
ghost use Rattle.hd_zobrist.specs.declared.owners.TheConstants.{MAX_WORKERS};

/// Law: the limits of workers, tickets and mailboxes as numbers. It does nothing: its contract is
/// the law.
pub fn limits_are()
    ensures workers { MAX_WORKERS ≡ 64 }
    ensures tickets { MAX_TICKETS ≡ 4 }
    ensures places { MAILBOX_PLACES ≡ 1024 }
{}
