//! What a user is told of a search while it runs: by a clock that the test sets, on a screen that
//! keeps what it is told.
use hd_book::Counts;
use hd_search::{Machine, Watch};
use hd_threads::{Gate, Standing, Tally, Work};
use std::alloc::{AllocError, Global};
use std::cell::Cell;
use std::fmt::Display;
use std::io::{self, Eprint};
use std::test::Fail;
use std::time::{Clock, Duration};

/// A clock that stands at so many milliseconds, and the last line that was told, with how many
/// there were.
#[derive(Drop)]
struct Screen {
    alloc: Global,
    milliseconds: Cell<u64>,
    lines: Cell<u64>,
    line: Cell<Option<String>>,
    /// How much memory the process has, if that is known.
    megabytes: Option<u64>,
    is_terminal: bool,
}

impl Screen {
    fn new(alloc: Global, milliseconds: u64) -> Screen {
        Screen {
            alloc,
            milliseconds: Cell::new(milliseconds),
            lines: Cell::new(0),
            line: Cell::new(None),
            megabytes: None,
            is_terminal: false,
        }
    }

    /// Returns a terminal, beside a process that has so much memory.
    fn terminal(alloc: Global, milliseconds: u64, megabytes: u64) -> Screen {
        let mut screen = Screen::new(alloc, milliseconds);
        screen.megabytes = Some(megabytes);
        screen.is_terminal = true;
        screen
    }

    /// Reports whether just one line was told since this was asked last, and what it was; or
    /// whether none was.
    fn is_told(&self, line: Option<&str>) -> bool {
        match (self.line.take(), line) {
            (Some(told), Some(line)) => self.lines.replace(0) == 1 && told.as_str() == line,
            (told, line) => told.is_none() && line.is_none(),
        }
    }

    fn keep<D: Display + Drop>(&self, value: D) -> Result<(), AllocError> {
        let text = format!(in self.alloc; "{value}")?;
        self.line.set(Some(text));
        self.lines.set(self.lines.get().wrapping_add(1));
        Ok(())
    }
}

impl Machine for Screen {
    fn megabytes(&self) -> Option<u64> {
        self.megabytes
    }

    fn is_terminal(&self) -> bool {
        self.is_terminal
    }
}

impl Clock for Screen {
    fn monotonic(&self) -> io::Result<Duration> {
        Ok(Duration::from_millis(self.milliseconds.get()))
    }

    fn since_1970(&self) -> io::Result<Duration> {
        self.monotonic()
    }
}

impl Eprint for Screen {
    fn eprint<D: Display + Drop>(&self, value: D) -> io::Result<()> {
        self.eprintln(value)
    }

    fn eprintln<D: Display + Drop>(&self, value: D) -> io::Result<()> {
        self.keep(value)?;
        Ok(())
    }
}

/// Returns a standing with the best cost `bound`. `counted` has the entries, the successors posted
/// and settled, and the entries acknowledged.
fn standing(counted: [u64; 4], bound: Option<u64>) -> Standing {
    let [entries, posted, settled, acknowledged] = counted;
    let counts = Counts {
        entries,
        posted,
        settled,
        acknowledged,
        commits: settled,
    };
    Standing { counts, bound }
}

/// Checks that a line is reported once a second has passed since the one before, and that the
/// workers are asked a tenth of a second before. The search by two workers begins at 5 seconds,
/// with 10 entries; the last line is reported when the search ends.
#[test]
fn a_line_is_told_each_second(rt: HostRuntime) -> Result<(), Fail> {
    let screen = Screen::new(rt.alloc(), 5000);
    let watch = Watch::begin(&screen, &screen, rt.alloc(), 2, 10, Some(1))?;
    assert!(rt; watch.asks_committer());
    screen.milliseconds.set(5899);
    watch.hear_committer(standing([20, 50, 30, 10], None));
    assert!(rt; !watch.asks_worker(0) && !watch.asks_worker(1));
    screen.milliseconds.set(5900);
    watch.hear_committer(standing([30, 60, 40, 20], None));
    assert!(rt; watch.asks_worker(0) && watch.asks_worker(1) && !watch.asks_worker(2));
    watch.hear_worker(0, Some(9));
    assert!(rt; !watch.asks_worker(0) && watch.asks_worker(1));
    watch.hear_worker(1, None);
    assert!(rt; screen.is_told(None));
    screen.milliseconds.set(6000);
    watch.hear_committer(standing([60, 100, 70, 40], None));
    let first =
        "entries 60, 50 a second, open 30, bound none, least 9, acknowledged 40, 1 seconds, 0 MB";
    assert!(rt; screen.is_told(Some(first)));
    screen.milliseconds.set(6500);
    watch.hear_committer(standing([70, 100, 80, 40], Some(12)));
    assert!(rt; screen.is_told(Some("a plan of cost 12, 1 seconds")));
    screen.milliseconds.set(7250);
    watch.hear_committer(standing([85, 100, 90, 70], Some(12)));
    let second =
        "entries 85, 20 a second, open 10, bound 12, least 9, acknowledged 70, 2 seconds, 0 MB";
    assert!(rt; screen.is_told(Some(second)));
    screen.milliseconds.set(7500);
    watch.hear_committer(standing([90, 100, 100, 90], Some(12)));
    watch.end();
    let last =
        "entries 90, 20 a second, open 0, bound 12, least none, acknowledged 90, 2 seconds, 0 MB";
    assert!(rt; screen.is_told(Some(last)));
    Ok(())
}

/// Checks that a line each minute is reported once a minute has passed since the one before, that
/// the workers are asked a tenth of a second before, and that a plan is reported at once: each
/// that costs less than the one before it, and no other.
#[test]
fn a_line_is_told_each_minute_and_each_better_plan(rt: HostRuntime) -> Result<(), Fail> {
    let screen = Screen::new(rt.alloc(), 5000);
    let watch = Watch::begin(&screen, &screen, rt.alloc(), 1, 0, Some(60))?;
    screen.milliseconds.set(9999);
    watch.hear_committer(standing([20, 50, 30, 10], Some(17)));
    assert!(rt; screen.is_told(Some("a plan of cost 17, 4 seconds")));
    screen.milliseconds.set(64_899);
    watch.hear_committer(standing([20, 50, 30, 10], Some(17)));
    assert!(rt; screen.is_told(None) && !watch.asks_worker(0));
    screen.milliseconds.set(64_900);
    watch.hear_committer(standing([20, 50, 30, 10], Some(17)));
    assert!(rt; screen.is_told(None) && watch.asks_worker(0));
    watch.hear_worker(0, Some(16));
    screen.milliseconds.set(65_000);
    watch.hear_committer(standing([90, 150, 100, 60], Some(17)));
    let line =
        "entries 90, 1 a second, open 50, bound 17, least 16, acknowledged 60, 60 seconds, 0 MB";
    assert!(rt; screen.is_told(Some(line)));
    screen.milliseconds.set(65_001);
    watch.hear_committer(standing([90, 150, 100, 60], Some(16)));
    assert!(rt; screen.is_told(Some("a plan of cost 16, 60 seconds")));
    Ok(())
}

/// Checks that to a terminal a line takes the place of the one before, and that a plan's line and
/// the last one stay; each line of how the search stands ends with the memory.
#[test]
fn a_terminal_has_one_line_rewritten(rt: HostRuntime) -> Result<(), Fail> {
    let screen = Screen::terminal(rt.alloc(), 0, 17);
    let watch = Watch::begin(&screen, &screen, rt.alloc(), 1, 0, Some(1))?;
    watch.hear_rebuilding(0, 9);
    let rebuilding = "\r\x1b[?7lrebuilding 0 of 9 entries\x1b[K\x1b[?7h";
    assert!(rt; screen.is_told(Some(rebuilding)));
    screen.milliseconds.set(1000);
    watch.hear_committer(standing([20, 50, 30, 10], None));
    let line =
        "\r\x1b[?7lentries 20, 20 a second, open 20, bound none, least none, acknowledged 10, 1 seconds, 17 MB\x1b[K\x1b[?7h";
    assert!(rt; screen.is_told(Some(line)));
    screen.milliseconds.set(1500);
    watch.hear_committer(standing([40, 50, 30, 10], Some(3)));
    assert!(rt; screen.is_told(Some("\ra plan of cost 3, 1 seconds\x1b[K")));
    watch.hear_committer(standing([40, 50, 50, 40], Some(3)));
    watch.end();
    let last =
        "\rentries 40, 40 a second, open 0, bound 3, least none, acknowledged 40, 1 seconds, 17 MB\x1b[K";
    assert!(rt; screen.is_told(Some(last)));
    Ok(())
}

/// Checks that a watch without lines keeps what it hears: how the search stands, and what each
/// worker did.
#[test]
fn numbers_are_kept_without_lines(rt: HostRuntime) -> Result<(), Fail> {
    let screen = Screen::new(rt.alloc(), 0);
    let watch = Watch::begin(&screen, &screen, rt.alloc(), 2, 0, None)?;
    screen.milliseconds.set(90_000);
    watch.hear_rebuilding(0, 9);
    watch.hear_committer(standing([40, 50, 45, 40], Some(3)));
    let tally = Tally {
        expanded: 15,
        duplicates: 3,
        pruned: 2,
        dead: 1,
    };
    let work = Work {
        tally,
        reopened: 4,
        evaluated: 21,
    };
    watch.hear_work(1, work);
    watch.hear_work(2, work);
    watch.end();
    assert!(rt; screen.is_told(None) && watch.asks_work());
    let counts = watch.counts();
    assert_eq!(rt;
        [counts.entries, counts.posted, counts.settled],
        [40, 50, 45]
    );
    assert_eq!(rt; watch.work(1), work);
    assert_eq!(rt; watch.work(0).tally, Tally::none());
    assert_eq!(rt; watch.work(2).evaluated, 0);
    Ok(())
}
