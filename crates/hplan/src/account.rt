//! What a command measures and counts beside its answer.
ghost use Rattle.std.specs.Prelude.{◌≡◌, Some, IfOk, IfSome};
ghost use Rattle.hplan.specs.PlanText.{file_of_plan, plan_file_text, shown_line, shows_optimal};

use crate::host::Host;
use crate::naming::NamedPlan;
use crate::told::{Ending, Told};
use hd_base::NoMemory;
use hd_image::{Entry, FIRST_GATE, Version};
use hd_plan::{Step, plan_text};
use hd_search::{Tally, Work};
use hd_texts::Stages;
use std::alloc::Global;

/// How many bytes an entry takes at most: the next one of its group begins no later.
const WIDEST: u64 = 9;

/// What is counted of a search.
#[derive(Debug, Drop)]
pub(crate) struct SearchNumbers {
    /// How many entries there were before it.
    pub(crate) before: u64,
    pub(crate) entries: u64,
    pub(crate) posted: u64,
    pub(crate) settled: u64,
    /// What each worker did.
    pub(crate) works: Vec<Work>,
}

/// What is counted of a journal.
#[derive(Clone, Copy, Debug)]
pub(crate) struct JournalNumbers {
    pub(crate) entries: u64,
    pub(crate) groups: u64,
    /// Up to its last gate.
    pub(crate) bytes: u64,
}

/// What a plan costs, and how many steps it has.
#[derive(Clone, Copy, Debug)]
pub(crate) struct PlanNumbers {
    pub(crate) cost: u64,
    pub(crate) length: u64,
}

/// How long each part of a command took, in milliseconds.
#[derive(Clone, Copy, Debug)]
pub(crate) struct Times {
    pub(crate) reading: u64,
    pub(crate) checking: u64,
    pub(crate) grounding: u64,
    pub(crate) recovering: u64,
    pub(crate) searching: u64,
}

/// What a command measures and counts beside its answer, and the plan that it writes to a file.
#[derive(Drop)]
pub struct Account<'h, H: Host> {
    host: &'h H,
    /// The file that the best plan so far is written to, if one is.
    pub(crate) plan_file: Option<&'h str>,
    /// That file could not be written, which was reported.
    pub(crate) plan_failed: bool,
    /// The text of the answer's plan, if it has one, and whether that is shown to be optimal.
    pub(crate) plan_text: Option<Vec<u8>>,
    /// The answer has a plan, and there was no room for its text.
    pub(crate) is_plan_lost: bool,
    /// Whether the numbers are reported at the end.
    pub(crate) stats: bool,
    /// When the last part ended.
    lap_at: u64,
    pub(crate) times: Times,
    pub(crate) search: Option<SearchNumbers>,
    pub(crate) journal: Option<JournalNumbers>,
    pub(crate) plan: Option<PlanNumbers>,
}

/// Returns how many groups the entries of a journal are in: a gate and a count stand between those
/// of two.
fn groups_of(entries: &[Entry]) -> u64 {
    let mut groups = 0u64;
    let mut last: Option<u64> = None;
    for entry in entries {
        let begins = match last {
            Some(last) => entry.at.saturating_sub(last) > WIDEST,
            None => true,
        };
        groups = groups.saturating_add(u64::from(begins));
        last = Some(entry.at);
    }
    groups
}

/// Returns how many bytes a journal of these entries has, which may have `most`: the gate after the
/// last entry is the last byte.
fn bytes_of(entries: &[Entry], most: u64) -> u64 {
    let width = if most == Version::One.most() {
        Version::One.entry_width()
    } else {
        Version::Two.entry_width()
    };
    match entries.last() {
        Some(entry) => entry.at.saturating_add(width as u64).saturating_add(1),
        None => FIRST_GATE as u64 + 1,
    }
}

/// Returns the line that says whether a plan is shown to be optimal.
fn shown_line(is_optimal: bool) -> &'static [u8]
    ensures { result.now ≡ shown_line is_optimal }
{
    if is_optimal {
        b"; optimal\n"
    } else {
        b"; not shown optimal\n"
    }
}

/// Reports whether the plan of an answer is shown to be optimal.
fn shows_optimal(ending: &Ending) -> bool
    ensures { result ≡ shows_optimal ending.now }
{
    matches!(ending, Ending::Optimal)
}

/// Returns the text of a plan, as it is printed, and after it whether it is shown to be optimal.
///
/// # Errors
/// - `NoMemory`: there is no room for it.
pub(crate) fn plan_file_text(
    alloc: Global,
    steps: &[Step],
    cost: u64,
    is_optimal: bool,
) -> Result<Vec<u8>, NoMemory>
    ensures { IfOk result (λ text. text.items ≡ plan_file_text steps.now cost is_optimal) }
{
    let mut text = plan_text(alloc, steps, cost)?;
    text.extend_from_slice(shown_line(is_optimal))?;
    Ok(text)
}

impl<'h, H: Host> Account<'h, H> {
    /// Returns the account of a command that began at this time of the host's clock.
    pub fn begin(
        host: &'h H,
        began: u64,
        stats: bool,
        plan_file: Option<&'h str>,
    ) -> Account<'h, H> {
        Account {
            host,
            plan_file,
            plan_failed: false,
            plan_text: None,
            is_plan_lost: false,
            stats,
            lap_at: began,
            times: Times {
                reading: 0,
                checking: 0,
                grounding: 0,
                recovering: 0,
                searching: 0,
            },
            search: None,
            journal: None,
            plan: None,
        }
    }

    /// Returns the machine.
    pub(crate) fn host(&self) -> &'h H {
        self.host
    }

    /// Returns how long the part took that ends now, in milliseconds.
    pub(crate) fn lap(&mut self) -> u64 {
        let now = self.host.milliseconds();
        let passed = now.saturating_sub(self.lap_at);
        self.lap_at = now;
        passed
    }

    /// Ends a search that went on from its entries at a moment, in milliseconds of the machine, if
    /// it came to that.
    pub(crate) fn end_search(&mut self, opened_at: Option<u64>) {
        let passed = self.lap();
        let searching = match opened_at {
            Some(opened_at) => self.lap_at.saturating_sub(opened_at),
            None => 0,
        };
        self.times.searching = searching;
        self.times.recovering = passed.saturating_sub(searching);
    }

    /// Ends what is recovered of a journal's entries.
    pub(crate) fn end_recovery(&mut self) {
        self.times.recovering = self.lap();
    }

    /// Counts the entries of a journal, which may have `most`, where the numbers are reported.
    pub(crate) fn count_journal(&mut self, entries: &[Entry], most: u64) {
        if self.stats {
            self.journal = Some(JournalNumbers {
                entries: entries.len() as u64,
                groups: groups_of(entries),
                bytes: bytes_of(entries, most),
            });
        }
    }

    /// Notes that a journal has no more than so many bytes: its header may not be made yet.
    pub(crate) fn cap_journal(&mut self, length: usize) {
        if let Some(journal) = &mut self.journal {
            journal.bytes = journal.bytes.min(length as u64);
        }
    }

    /// Notes what a plan costs, and its length.
    pub(crate) fn note_plan(&mut self, cost: u64, length: usize)
        ensures { self.new.plan_text ≡ self.old.plan_text }
    {
        self.plan = Some(PlanNumbers {
            cost,
            length: length as u64,
        });
    }

    /// Keeps the plan of an answer, if it has one: its numbers, and its text where it is written to
    /// a file. If there is no room for that, `is_plan_lost` says so.
    pub(crate) fn keep_answer(&mut self, alloc: Global, told: &Told)
        ensures { IfSome self.new.plan_text (λ text.
            file_of_plan told.now.ending told.now.plan ≡ Some text.items) }
    {
        self.plan_text = None;
        let Some(NamedPlan { steps, cost }) = &told.plan else {
            return;
        };
        self.note_plan(*cost, steps.len());
        if self.plan_file.is_none() {
            return;
        }
        let is_optimal = shows_optimal(&told.ending);
        match plan_file_text(alloc, steps.as_slice(), *cost, is_optimal) {
            Ok(text) => self.plan_text = Some(text),
            Err(_) => self.is_plan_lost = true,
        }
    }
}

impl<H: Host> Stages for Account<'_, H> {
    fn read(&mut self) {
        self.times.reading = self.lap();
    }

    fn checked(&mut self) {
        self.times.checking = self.lap();
    }

    fn grounded(&mut self) {
        self.times.grounding = self.lap();
    }
}

impl SearchNumbers {
    /// Returns what all workers did.
    pub(crate) fn all_work(&self) -> Work {
        let mut all = Work {
            tally: Tally::none(),
            reopened: 0,
            evaluated: 0,
        };
        for work in &self.works {
            all = Work {
                tally: all.tally.plus(work.tally),
                reopened: all.reopened.saturating_add(work.reopened),
                evaluated: all.evaluated.saturating_add(work.evaluated),
            };
        }
        all
    }
}
