//! The cases of a file, and their plays.

use crate::host::Host;
use crate::loops::{Loops, Values, filled};
use crate::stage::Stage;
use crate::stop::Stop;
use std::alloc::{AllocError, Global};

/// A case, with the lines that belong to each case of its file.
#[derive(Clone, Copy)]
pub struct Case<'t> {
    /// The file's name.
    pub file: &'t str,
    /// The lines before the first case.
    pub before: &'t str,
    /// The case's name, and its lines.
    pub body: &'t str,
    /// The number of the case's first line in the file.
    pub number: u64,
}

/// How many plays passed and failed.
#[derive(Clone, Copy, Default)]
pub struct Score {
    /// The number of plays in which all was as wanted.
    pub passed: u64,
    /// The number of all others.
    pub failed: u64,
}

impl Score {
    /// Returns the sum of two scores.
    pub fn with(self, other: Score) -> Score {
        Score {
            passed: self.passed.saturating_add(other.passed),
            failed: self.failed.saturating_add(other.failed),
        }
    }
}

/// A line with its number in the file.
type Line<'t> = (u64, &'t str);

/// Returns whether a line says something.
fn says(line: &str) -> bool {
    !line.is_empty() && !line.starts_with("#")
}

impl<'t> Case<'t> {
    /// Returns the case's name.
    fn name(&self) -> &'t str {
        self.body.lines().next().unwrap_or("")
    }

    /// Returns the lines that say something, without those of loops, which are taken.
    fn lines(&self, alloc: Global, loops: &mut Loops) -> Result<Vec<Line<'t>>, Stop> {
        let mut lines = Vec::new(alloc);
        let mut number = 0u64;
        for line in self.before.lines() {
            number = number.saturating_add(1);
            if says(line) && !loops.take(alloc, line)? {
                lines.push((number, line))?;
            }
        }
        number = self.number;
        for line in self.body.lines().skip(1) {
            number = number.saturating_add(1);
            if says(line) && !loops.take(alloc, line)? {
                lines.push((number, line))?;
            }
        }
        Ok(lines)
    }

    /// Prints why a play failed, and where.
    fn tell(&self, rt: &impl Host, line: u64, values: &Values, stop: Stop) {
        let (file, name) = (self.file, self.name());
        let _ = print!(rt; "{file}:{line}: {name}");
        for (name, value) in values.iter() {
            let (name, value) = (name.as_str(), value.as_str());
            let _ = print!(rt; " {name}={value}");
        }
        match stop {
            Stop::Broken => {
                let _ = println!(rt; ": no memory, or no such file of the program's own");
            }
            Stop::Failed(words) => {
                let _ = println!(rt; ": {words}");
            }
        }
    }

    /// Plays the lines with these values, and returns whether all is as wanted.
    fn play_once(&self, rt: &impl Host, lines: &[Line<'t>], values: &Values) -> bool {
        let mut stage = Stage::empty(rt.alloc());
        let played = play_lines(rt, &mut stage, lines, values);
        stage.clear(rt);
        match played {
            Ok(()) => true,
            Err((line, stop)) => {
                self.tell(rt, line, values, stop);
                false
            }
        }
    }

    /// Plays the lines once for each value of the loops.
    fn play_all(&self, rt: &impl Host, lines: &[Line<'t>], loops: &Loops) -> Score {
        let mut score = Score::default();
        for play in 0..loops.count() {
            let is_fine = match loops.values(rt.alloc(), play) {
                Ok(values) => self.play_once(rt, lines, &values),
                Err(AllocError) => false,
            };
            score = score.with(score_of(is_fine));
        }
        score
    }

    /// Plays the case, and prints each play that failed.
    pub fn play(&self, rt: &impl Host) -> Score {
        let mut loops = Loops::none(rt.alloc());
        match self.lines(rt.alloc(), &mut loops) {
            Ok(lines) => self.play_all(rt, &lines, &loops),
            Err(stop) => {
                self.tell(rt, self.number, &Vec::new(rt.alloc()), stop);
                score_of(false)
            }
        }
    }
}

/// Returns the score of one play.
fn score_of(is_fine: bool) -> Score {
    Score {
        passed: u64::from(is_fine),
        failed: u64::from(!is_fine),
    }
}

/// Plays one line with these values.
fn play_line(rt: &impl Host, stage: &mut Stage, line: &str, values: &Values) -> Result<(), Stop> {
    let line = filled(rt.alloc(), line, values)?;
    stage.play(rt, line.as_str())
}

/// Plays lines with these values; an error has the number of its line.
fn play_lines(
    rt: &impl Host,
    stage: &mut Stage,
    lines: &[Line<'_>],
    values: &Values,
) -> Result<(), (u64, Stop)> {
    let mut last = 0;
    for (number, line) in lines {
        last = *number;
        if let Err(stop) = play_line(rt, stage, line, values) {
            return Err((last, stop));
        }
    }
    match stage.close(rt) {
        Ok(()) => Ok(()),
        Err(stop) => Err((last, stop)),
    }
}
