//! A book that comes back from its lock.
ghost use Rattle.std.specs.Prelude.{◌≡◌, ◌<◌};

use crate::tasks::{G, G_PROBLEM, task};
use hd_book::Book;
use hd_desk::Lock;
use hd_task::Task;
use hd_threads::{SharedBook, gather};
use std::alloc::Global;
use std::marker::Brand;
use std::sync::Wait;
use std::sync::ledger::{Blank, Ledger};
use std::test::Fail;

/// Returns a new book in a lock, of which two have a pass and a share of the commits; what is
/// reported when both give them back: how many commits, and how many successors are posted.
fn gathered<L: Ledger, A: Ledger, R: Wait>(
    rt: &R,
    alloc: Global,
    commits: Blank,
    flushes: Blank,
    task: &Task,
) -> Result<(u64, u64), Fail>
    requires name { commits.name ≡ L.name }
    requires parts { commits.parts ≡ L.parts }
    requires two { 1 < L.parts }
    requires flushes_name { flushes.name ≡ A.name }
    requires flushes_parts { flushes.parts ≡ A.parts }
    requires flushes_some { 0 < A.parts }
{
    let (book, share) = Book::<L>::new(alloc, commits, task, 100)?;
    let (book, _all) = SharedBook::<L, A>::of(flushes, book);
    let (lock, pass) = Lock::open(rt, alloc, book)?;
    let (mut share, mut pass) = (share, pass);
    let mut shares = Vec::new(alloc);
    shares.push(share.split_off(1, 0))?;
    let mut passes = Vec::new(alloc);
    passes.push(lock.another(&mut pass))?;
    let (book, number) = gather(rt, lock, pass, passes, share, shares);
    Ok((number, book.counts().posted))
}

/// Returns the same with two parts of the commits, and one of what is acknowledged.
fn gathered_of_two<R: Wait>(rt: &R, alloc: Global, task: &Task) -> Result<(u64, u64), Fail> {
    gathered::<Brand, Brand, R>(rt, alloc, Blank::new(2), Blank::new(1), task)
}

#[test]
fn a_book_is_gathered_with_the_number_of_its_commits(rt: HostRuntime) -> Result<(), Fail> {
    let alloc = rt.alloc();
    let task = task(&rt, alloc, G, G_PROBLEM);
    let told = gathered_of_two(&rt, alloc, &task)?;
    assert_eq!(rt; told.0, 0);
    assert_eq!(rt; told.1, 1);
    Ok(())
}
