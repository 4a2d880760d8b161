//! Four threads that write through one lock.
ghost use Rattle.std.specs.Prelude.{◌≡◌, ◌<◌};
ghost use Rattle.crossbeam_queue.specs.Passes.{view};
ghost use Rattle.hd_desk.specs.Passes.{IsOutside};
ghost use Rattle.std.specs.Thread.{IsSync};

use crate::diary::{Diary, write};
use hd_desk::{Lock, Pass};
use std::sync::Wait;
use std::test::Fail;
use std::thread;
use std::thread::{JoinHandle, Scope, Threads};

const ENTRIES: u64 = 1000;

/// Writes the entries of one writer. One that finds no memory is missed in the end.
fn write_all<R: Wait>(rt: &R, lock: &Lock<Diary>, pass: Pass<Diary>, writer: u8)
    requires { IsOutside lock.now.place pass }
{
    let mut pass = pass;
    for entry in 0..ENTRIES {
        let _ = write(rt, lock, &mut pass, writer as u64 * ENTRIES + entry);
    }
}

/// Starts the thread of one writer.
fn start<'s, 'e: 's, R: Threads + Wait + Sync>(
    rt: &'s R,
    scope: &'s Scope<'s, &'e ()>,
    lock: &'s Lock<Diary>,
    pass: Pass<Diary>,
    writer: u8,
) -> Option<JoinHandle<()>>
    requires { IsOutside lock.now.place pass }
{
    let started = scope.spawn(
        move ||
            requires { IsSync R.row × IsOutside lock.now.place pass }
        { write_all(rt, lock, pass, writer) },
    );
    started.ok()
}

/// Returns four threads write, and are joined. Says whether all four were started.
fn write_by_four<R: Threads + Wait + Sync>(
    rt: &R,
    lock: &Lock<Diary>,
    first: &mut Pass<Diary>,
) -> bool
    requires first { IsOutside lock.now.place first.old }
    requires parts { 4 < (view first.old).parts }
    ensures { IsOutside lock.now.place first.new }
{
    let a = lock.another(first);
    let b = lock.another(first);
    let c = lock.another(first);
    let d = lock.another(first);
    thread::scope(
        thread::scope_env(),
        rt,
        move |scope| -> bool
            requires { IsSync R.row × IsOutside lock.now.place a × IsOutside lock.now.place b
                × IsOutside lock.now.place c × IsOutside lock.now.place d }
        {
            let a = start(rt, scope, lock, a, 0);
            let b = start(rt, scope, lock, b, 1);
            let c = start(rt, scope, lock, c, 2);
            let d = start(rt, scope, lock, d, 3);
            join(rt, a) && join(rt, b) && join(rt, c) && join(rt, d)
        },
    )
}

/// Joins a thread, if it was started.
fn join<R: Threads>(rt: &R, started: Option<JoinHandle<()>>) -> bool {
    match started {
        Some(handle) => {
            handle.join(rt);
            true
        }
        None => false,
    }
}

#[test]
fn each_entry_of_four_threads_is_there_once(rt: HostRuntime) -> Result<(), Fail> {
    let alloc = rt.alloc();
    let (lock, mut first) = Lock::open(&rt, alloc, Diary::of(alloc, 7)?)?;
    assert!(rt; write_by_four(&rt, &lock, &mut first));
    let diary = lock.enter(&rt, &mut first);
    let mut log = diary.sheets.log.clone()?;
    lock.leave(&rt, &mut first, diary);
    assert_eq!(rt; log.len(), 4000);
    log.sort()?;
    for (entry, found) in (0u64..4000).zip(log.iter()) {
        assert_eq!(rt; *found, entry);
    }
    Ok(())
}
