//! The book of a search whose threads have ended.
ghost use Rattle.std.specs.Prelude.{◌≡◌, ◌+◌, length};
ghost use Rattle.std.specs.List.{All, sum_by};
ghost use Rattle.crossbeam_queue.specs.Passes.{view};
ghost use Rattle.hd_desk.specs.declared.rule.TheConstants.{ALL_PARTS};
ghost use Rattle.hd_desk.specs.Passes.{IsOutside, IsSeenIn, parts_in};

use crate::SharedBook;
use hd_desk::{Lock, Pass};
use std::sync::Wait;
use std::sync::ledger::{Ledger, Share};

/// Returns one share that has the parts and the amounts of all.
fn merge_all<L: Ledger>(share: Share<L>, shares: Vec<Share<L>>) -> Share<L>
    ensures parts { result.parts ≡ share.parts + sum_by (λ s. s.parts) shares.items }
    ensures amount { result.amount ≡ share.amount + sum_by (λ s. s.amount) shares.items }
{
    let mut all = share;
    for other in shares {
        all.merge(other);
    }
    all
}

/// Returns the book, from a lock that nobody uses any more, and how many batches it has taken,
/// which is the sum of what all shares count: all passes and all shares are handed in. It waits for
/// no other thread.
pub fn gather<'t, L: Ledger, A: Ledger, R: Wait>(
    rt: &R,
    lock: Lock<SharedBook<'t, L, A>>,
    pass: Pass<SharedBook<'t, L, A>>,
    passes: Vec<Pass<SharedBook<'t, L, A>>>,
    share: Share<L>,
    shares: Vec<Share<L>>,
) -> (SharedBook<'t, L, A>, u64)
    requires pass { IsOutside lock.place pass }
    requires passes { All (IsOutside lock.place) passes.items }
    requires parts { (view pass).parts + parts_in passes.items ≡ ALL_PARTS }
    requires shares { share.parts + sum_by (λ s. s.parts) shares.items ≡ L.parts }
    ensures seen { IsSeenIn result.0.state.task result.0.state.entries pass.entry }
    ensures all_seen { All (IsSeenIn result.0.state.task result.0.state.entries)
        passes.entry.items }
    ensures sum { result.1 ≡ share.amount + sum_by (λ s. s.amount) shares.items }
    ensures commits { result.1 ≡ length result.0.batches.tickets }
{
    let mut all = merge_all(share, shares);
    let mut book = lock.gather(rt, pass, passes);
    let commits = book.audit(&mut all);
    (book, commits)
}
