//! Laws over the definitions, for all lists of calls. Each function does nothing: its contract is
//! the law.
ghost use Rattle.std.specs.Prelude.{◌≡◌, ℕ, ◌||◌, ◌++◌, List, true, false};
ghost use Rattle.hd_book.specs.Queue.{entries_in_all, are_acknowledged};
ghost use Rattle.hd_book.specs.Batches.{Batches, TicketView, is_ticket_out};
ghost use Rattle.hd_book.specs.TicketSteps.{redeemed};
ghost use Rattle.hd_book.specs.Moves.{Move, after_moves, ends_by, groups_acknowledged, AreCutBy, Lead};

/// Law: no batch is split: the entries that are acknowledged end where a batch ends, and the
/// batches after them are those that wait or are out.
pub fn batches_stay_whole<R>()
    ensures { (b : Batches R) (moves : List (Move R))
        → AreCutBy b.queue.acknowledged (b.queue.ends ++ ends_by (entries_in_all b.queue) moves)
        (after_moves moves b).queue }
{}

/// Law: the groups that are acknowledged follow one another without a gap, up to what is
/// acknowledged.
pub fn groups_follow<R>()
    ensures { (b : Batches R) (moves : List (Move R))
        → Lead b.queue.acknowledged (groups_acknowledged b moves)
        (after_moves moves b).queue.acknowledged }
{}

/// Law: a ticket that is redeemed for anything but itself is never out again.
pub fn tickets_are_spent_once<R>()
    ensures { (b : Batches R) (k j : TicketView) (moves : List (Move R))
        → is_ticket_out b k ≡ true
        → (are_acknowledged b.queue k.first k.end || b.halted) ≡ true
        → j.number ≡ k.number
        → is_ticket_out (after_moves moves (redeemed k b)) j ≡ false }
{}
