//! The loops of a case.

use crate::stop::{Stop, unread};
use std::alloc::{AllocError, Global};

/// Names, and the rows of their values.
#[derive(Drop)]
struct Loop {
    names: Vec<String>,
    rows: Vec<Vec<String>>,
}

/// The loops of a case, of which the last runs fastest.
#[derive(Drop)]
pub struct Loops {
    loops: Vec<Loop>,
}

/// Names with their values.
pub type Values = Vec<(String, String)>;

/// Returns the parts of a text, without blanks around them.
fn parts_of(alloc: Global, text: &str, by: &str) -> Result<Vec<String>, AllocError> {
    let mut parts = Vec::new(alloc);
    for part in text.split(by) {
        parts.push(String::from_str(alloc, part.trim())?)?;
    }
    Ok(parts)
}

/// Returns a row of one value.
fn row_of(alloc: Global, value: String) -> Result<Vec<String>, AllocError> {
    let mut row = Vec::new(alloc);
    row.push(value)?;
    Ok(row)
}

/// Returns a row for each number.
fn numbers(alloc: Global, first: u64, last: u64) -> Result<Vec<Vec<String>>, AllocError> {
    let mut rows = Vec::new(alloc);
    for number in first..=last {
        rows.push(row_of(alloc, format!(in alloc; "{number}")?)?)?;
    }
    Ok(rows)
}

/// Returns a row for each word.
fn words(alloc: Global, text: &str) -> Result<Vec<Vec<String>>, AllocError> {
    let mut rows = Vec::new(alloc);
    for word in text.split(' ') {
        rows.push(row_of(alloc, String::from_str(alloc, word)?)?)?;
    }
    Ok(rows)
}

/// Reads a range of numbers.
fn range_in(text: &str) -> Option<(u64, u64)> {
    let (first, last) = text.split_once("..")?;
    Some((first.parse::<u64>().ok()?, last.parse::<u64>().ok()?))
}

/// Returns the loop of a name and its values.
fn simple_loop(alloc: Global, text: &str) -> Result<Loop, Stop> {
    let Some((name, values)) = text.split_once(" ") else {
        return unread(alloc, "a loop");
    };
    let rows = match range_in(values) {
        Some((first, last)) => numbers(alloc, first, last)?,
        None => words(alloc, values)?,
    };
    Ok(Loop {
        names: parts_of(alloc, name, " ")?,
        rows,
    })
}

impl Loops {
    /// Returns no loops: one play.
    pub fn none(alloc: Global) -> Loops {
        Loops {
            loops: Vec::new(alloc),
        }
    }

    /// Takes a line of a loop, and returns whether the line is one.
    pub fn take(&mut self, alloc: Global, line: &str) -> Result<bool, Stop> {
        if let Some(text) = line.strip_prefix("for ") {
            self.loops.push(simple_loop(alloc, text)?)?;
            return Ok(true);
        }
        if let Some(names) = line.strip_prefix("each ") {
            let names = parts_of(alloc, names, " ")?;
            let rows = Vec::new(alloc);
            self.loops.push(Loop { names, rows })?;
            return Ok(true);
        }
        match line.strip_prefix("- ") {
            Some(row) => self.add_row(alloc, row),
            None => Ok(false),
        }
    }

    /// Adds a row to the last loop.
    fn add_row(&mut self, alloc: Global, row: &str) -> Result<bool, Stop> {
        let values = parts_of(alloc, row, " | ")?;
        match self.loops.last_mut() {
            Some(last) if last.names.len() == values.len() => {
                last.rows.push(values)?;
                Ok(true)
            }
            _ => unread(alloc, "a row"),
        }
    }

    /// Returns how many plays there are.
    pub fn count(&self) -> u64 {
        let mut count = 1u64;
        for each in self.loops.iter() {
            count = count.saturating_mul(each.rows.len() as u64);
        }
        count
    }

    /// Returns the values of one play.
    pub fn values(&self, alloc: Global, play: u64) -> Result<Values, AllocError> {
        let mut values = Vec::new(alloc);
        let mut left = play;
        for each in self.loops.iter().rev() {
            let count = each.rows.len() as u64;
            let at = left.checked_rem(count).unwrap_or(0);
            left = left.checked_div(count).unwrap_or(0);
            each.add_values(alloc, at as usize, &mut values)?;
        }
        Ok(values)
    }
}

impl Loop {
    /// Adds the values of one row.
    fn add_values(&self, alloc: Global, at: usize, values: &mut Values) -> Result<(), AllocError> {
        let Some(row) = self.rows.get(at) else {
            return Ok(());
        };
        for (name, value) in self.names.iter().zip(row.iter()) {
            let name = String::from_str(alloc, name.as_str())?;
            let value = String::from_str(alloc, value.as_str())?;
            values.push((name, value))?;
        }
        Ok(())
    }
}

/// Returns a line with the values in the place of their names.
pub fn filled(alloc: Global, line: &str, values: &Values) -> Result<String, AllocError> {
    let mut text = String::from_str(alloc, line)?;
    for (name, value) in values.iter() {
        let braced = format!(in alloc; "${{{}}}", name.as_str())?;
        text = text
            .as_str()
            .replace(alloc, braced.as_str(), value.as_str())?;
        let plain = format!(in alloc; "${}", name.as_str())?;
        text = text
            .as_str()
            .replace(alloc, plain.as_str(), value.as_str())?;
    }
    Ok(text)
}
