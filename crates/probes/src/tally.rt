//! Counts of probes.
use crate::playing::Line;
use std::alloc::{AllocError, Global};

/// Counts of the probes that were played, and a line for each one that failed.
#[derive(Drop)]
pub struct Tally {
    alloc: Global,
    pub passed: u64,
    pub failed: u64,
    pub told: String,
}

impl Tally {
    /// Returns the counts before the first probe.
    pub fn new(alloc: Global) -> Tally {
        Tally {
            alloc,
            passed: 0,
            failed: 0,
            told: String::new(alloc),
        }
    }

    /// Counts a probe that failed, and reports its place, `wanted` and `got`.
    pub fn fail(
        &mut self,
        file: &str,
        number: usize,
        wanted: &str,
        got: &str,
    ) -> Result<(), AllocError> {
        self.failed = self.failed.saturating_add(1);
        let line = format!(in self.alloc; "{file}:{number}: wanted {wanted}, got {got}\n")?;
        self.told.push_str(line.as_str())?;
        Ok(())
    }

    /// Counts a probe, which passes if `wanted` is what was answered.
    pub fn judge_answer(
        &mut self,
        line: &Line,
        wanted: &str,
        got: &Option<String>,
    ) -> Result<(), AllocError> {
        let got = match got {
            Some(text) => text.as_str(),
            None => "not understood",
        };
        if wanted == got {
            self.passed = self.passed.saturating_add(1);
            return Ok(());
        }
        self.fail(line.file, line.number, wanted, got)
    }
}
