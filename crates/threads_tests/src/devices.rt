//! Devices that fail, and searches that go on after.
ghost use Rattle.std.specs.Prelude.{◌≤◌, ◌<◌};

use crate::tasks::{DIGEST, N, N_PROBLEM, Says, said, task};
use hd_journal::{Entry, Journal, JournalError};
use hd_search::{OpenGate, ThreadsFault, run};
use hd_store::MemoryDisk;
use hd_task::Task;
use hd_threads::RunFault;
use std::alloc::Global;
use std::sync::Wait;
use std::test::Fail;
use std::thread::Threads;

/// What a search leaves: the disk, the entries that its journal had and those that it has, and
/// what it said, if its device did not fail before.
#[derive(Drop)]
struct Left {
    disk: MemoryDisk,
    found: Vec<Entry>,
    has: Vec<Entry>,
    says: Option<Says>,
}

/// Opens the journal on a disk, which is made if there is none, and searches on.
fn go_on<R: Threads + Wait + Sync>(
    rt: &R,
    alloc: Global,
    task: &Task,
    disk: MemoryDisk,
    workers: usize,
) -> Result<Left, Fail>
    requires some { 1 ≤ workers }
    requires few { workers ≤ 64 }
{
    let mut journal = match Journal::open(alloc, disk, &DIGEST) {
        Ok(journal) => journal,
        Err((disk, JournalError::Device)) => {
            return Ok(Left {
                disk,
                found: Vec::new(alloc),
                has: Vec::new(alloc),
                says: None,
            });
        }
        Err((_, error)) => return Err(error.into()),
    };
    let found = Vec::from_slice(alloc, journal.entries())?;
    let says = match run(rt, alloc, task, &mut journal, workers, 1, None, &OpenGate) {
        Ok(concluded) => Some(said(&concluded.outcome)),
        Err(ThreadsFault::Run(RunFault::Device)) => None,
        Err(fault) => return Err(fault.into()),
    };
    let has = Vec::from_slice(alloc, journal.entries())?;
    Ok(Left {
        disk: journal.into_store(),
        found,
        has,
        says,
    })
}

/// Reports whether entries begin with others.
pub fn begin_with(entries: &[Entry], others: &[Entry]) -> bool {
    others.len() <= entries.len()
        && entries
            .iter()
            .zip(others.iter())
            .all(|(entry, other)| *entry == *other)
}

/// What happens in a call of the device.
#[derive(Clone, Copy)]
enum Event {
    /// It fails, and the next one does not.
    Failure,
    /// The machine stops, and each byte that is not sure reads this afterwards.
    Stop(u8),
}

const EVENTS: [Event; 4] = [
    Event::Failure,
    Event::Stop(0),
    Event::Stop(1),
    Event::Stop(0x37),
];

/// Returns a search by two workers in whose n-th write, cut or sync this happens: what it leaves,
/// with the disk as it is when it is used again.
fn broken_off<R: Threads + Wait + Sync>(
    rt: &R,
    alloc: Global,
    task: &Task,
    event: Event,
    n: u64,
) -> Result<Left, Fail>
    requires { 0 < n }
{
    let mut disk = MemoryDisk::new(alloc);
    match event {
        Event::Failure => disk.fail_at(n),
        Event::Stop(_) => disk.stop_at(n),
    }
    let mut left = go_on(rt, alloc, task, disk, 2)?;
    if let Event::Stop(fill) = event {
        left.disk.settle(fill)?;
    }
    Ok(left)
}

/// More calls than the device has in any search of the task: a journal is made by six, and a
/// group takes four.
const CALLS: u64 = 40;

/// Shows that what was in the journal when the device failed is found there again, and stays. Some
/// searches had begun to write and were not at their end.
#[test]
fn searches_go_on_behind_each_failing_call(rt: HostRuntime) -> Result<(), Fail> {
    let alloc = rt.alloc();
    let task = task(&rt, alloc, N, N_PROBLEM);
    for event in EVENTS {
        let mut broken = 0u64;
        let mut between = 0u64;
        for n in 1..=CALLS {
            let before = broken_off(&rt, alloc, &task, event, n)?;
            match before.says {
                Some(says) => assert!(rt; says == Says::Optimal(3), "without event {n}"),
                None => broken = broken.wrapping_add(1),
            }
            let written = before.has;
            let after = go_on(&rt, alloc, &task, before.disk, 1 + (n % 4) as usize)?;
            assert!(rt;
                begin_with(after.found.as_slice(), written.as_slice()),
                "at {n}"
            );
            assert!(rt;
                begin_with(after.has.as_slice(), after.found.as_slice()),
                "at {n}"
            );
            assert!(rt; after.says == Some(Says::Optimal(3)), "at {n}");
            if 0 < written.len() && written.len() < after.has.len() {
                between = between.wrapping_add(1);
            }
        }
        assert!(rt; 10 <= broken && broken < CALLS);
        assert!(rt; 0 < between);
    }
    Ok(())
}
