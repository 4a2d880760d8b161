//! A line that reports how a search stands.
ghost use Rattle.std.specs.Prelude.{◌≡◌, Some};
ghost use Rattle.hd_search.specs.Line.{cost_text, costs_text, line_text, nodes_text, plan_text, rate, rebuilding_text, rest_text};

use std::fmt;

/// How a search stands.
#[derive(Clone, Copy, Debug, PartialEq, Eq)]
pub struct ProgressLine {
    /// How many plans are expanded.
    pub entries: u64,
    /// How many of these a second, since the line before.
    pub rate: u64,
    /// How many plans are generated and not settled.
    pub open: u64,
    /// The cost of the best plan that was found, if one was.
    pub bound: Option<u64>,
    /// The least cost plus estimate of what is open, if that is finite for any.
    pub least: Option<u64>,
    /// How many entries are in the journal.
    pub acknowledged: u64,
    /// How many whole seconds have passed since the search began.
    pub seconds: u64,
    /// How many megabytes of memory the process has; 0 if that is not known.
    pub memory: u64,
}

/// A cost, if there is one.
#[derive(Clone, Copy)]
struct Cost(Option<u64>);

impl fmt::Display for Cost {
    ghost output = { λ cost. Some (cost_text cost.0) };

    fn fmt<W: fmt::Write>(&self, f: &mut fmt::Formatter<W>) -> fmt::Result {
        match self.0 {
            Some(cost) => write!(f, "{cost}"),
            None => write!(f, "none"),
        }
    }
}

/// How many nodes a line reports.
#[derive(Clone, Copy)]
struct Nodes(ProgressLine);

impl fmt::Display for Nodes {
    ghost output = { λ nodes. Some (nodes_text nodes.0) };

    fn fmt<W: fmt::Write>(&self, f: &mut fmt::Formatter<W>) -> fmt::Result {
        let line = self.0;
        write!(
            f,
            "entries {}, {} a second, open {}",
            line.entries, line.rate, line.open
        )
    }
}

/// Which costs a line reports.
#[derive(Clone, Copy)]
struct Costs(ProgressLine);

impl fmt::Display for Costs {
    ghost output = { λ costs. Some (costs_text costs.0) };

    fn fmt<W: fmt::Write>(&self, f: &mut fmt::Formatter<W>) -> fmt::Result {
        let line = self.0;
        write!(f, "bound {}, least {}", Cost(line.bound), Cost(line.least))
    }
}

/// What a line reports last.
#[derive(Clone, Copy)]
struct Rest(ProgressLine);

impl fmt::Display for Rest {
    ghost output = { λ rest. Some (rest_text rest.0) };

    fn fmt<W: fmt::Write>(&self, f: &mut fmt::Formatter<W>) -> fmt::Result {
        let line = self.0;
        write!(
            f,
            "acknowledged {}, {} seconds, {} MB",
            line.acknowledged, line.seconds, line.memory
        )
    }
}

impl fmt::Display for ProgressLine {
    ghost output = { λ line. Some (line_text line) };

    fn fmt<W: fmt::Write>(&self, f: &mut fmt::Formatter<W>) -> fmt::Result {
        write!(f, "{}, {}, {}", Nodes(*self), Costs(*self), Rest(*self))
    }
}

/// A line that reports a plan that costs less than the one before it.
#[derive(Clone, Copy, Debug, PartialEq, Eq)]
pub(crate) struct PlanLine {
    pub(crate) cost: u64,
    /// How many whole seconds have passed since the search began.
    pub(crate) seconds: u64,
}

impl fmt::Display for PlanLine {
    ghost output = { λ line. Some (plan_text line) };

    fn fmt<W: fmt::Write>(&self, f: &mut fmt::Formatter<W>) -> fmt::Result {
        write!(f, "a plan of cost {}, {} seconds", self.cost, self.seconds)
    }
}

/// A line that reports how many entries of a journal are made again.
#[derive(Clone, Copy, Debug, PartialEq, Eq)]
pub(crate) struct RebuildingLine {
    pub(crate) done: u64,
    pub(crate) all: u64,
}

impl fmt::Display for RebuildingLine {
    ghost output = { λ line. Some (rebuilding_text line) };

    fn fmt<W: fmt::Write>(&self, f: &mut fmt::Formatter<W>) -> fmt::Result {
        write!(f, "rebuilding {} of {} entries", self.done, self.all)
    }
}

/// Returns how many a second `count` in `milliseconds` are, rounded down. Less than a millisecond
/// counts as one.
pub fn rate_of(count: u64, milliseconds: u64) -> u64
    ensures { result ≡ rate count milliseconds }
{
    let rate = u128::from(count) * 1000 / u128::from(milliseconds.max(1));
    u64::try_from(rate).unwrap_or(u64::MAX)
}
