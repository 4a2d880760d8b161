//! What stands at the end of a schedule.
ghost use Rattle.std.specs.Prelude.{◌≡◌, Some};
ghost use Rattle.hd_replay.specs.ReportText.{says_text, verdict_text, report_text};

use std::fmt;

/// What a book answers that is at its end.
#[derive(Clone, Copy, Debug, PartialEq, Eq)]
pub enum Says {
    /// There is a valid plan of this cost, and none that costs less.
    Optimal(u64),
    /// No plan is valid.
    NoPlan,
    /// A number left the range, at first where this entry was expanded.
    RangeLeft(u64),
}

/// What stands at the end of a schedule.
#[derive(Clone, Copy, Debug, PartialEq, Eq)]
pub struct Report {
    /// How many entries the book has.
    pub expansions: u64,
    /// How many of them are acknowledged.
    pub acknowledged: u64,
    /// The disk's length.
    pub bytes: u64,
    /// What the book answers, if it is at its end.
    pub verdict: Option<Says>,
}

impl fmt::Display for Says {
    ghost output = { λ says. Some (says_text says) };

    fn fmt<W: fmt::Write>(&self, f: &mut fmt::Formatter<W>) -> fmt::Result {
        match self {
            Says::Optimal(cost) => write!(f, "optimal {cost}"),
            Says::NoPlan => write!(f, "no-plan"),
            Says::RangeLeft(entry) => write!(f, "range-left {entry}"),
        }
    }
}

/// What is said at an end, if anything is.
#[derive(Clone, Copy)]
struct SaidVerdict(Option<Says>);

impl fmt::Display for SaidVerdict {
    ghost output = { λ verdict. Some (verdict_text verdict.0) };

    fn fmt<W: fmt::Write>(&self, f: &mut fmt::Formatter<W>) -> fmt::Result {
        match self.0 {
            Some(says) => write!(f, "{says}"),
            None => write!(f, "none"),
        }
    }
}

impl fmt::Display for Report {
    ghost output = { λ report. Some (report_text report) };

    /// Returns four lines, each with its end.
    fn fmt<W: fmt::Write>(&self, f: &mut fmt::Formatter<W>) -> fmt::Result {
        writeln!(f, "expansions {}", self.expansions)?;
        writeln!(f, "acknowledged {}", self.acknowledged)?;
        writeln!(f, "bytes {}", self.bytes)?;
        writeln!(f, "verdict {}", SaidVerdict(self.verdict))
    }
}
