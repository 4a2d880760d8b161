//! How often each value is there.
ghost use Rattle.std.specs.Prelude.{◌<◌, ◌^◌, IfOk, OnOk};
ghost use Rattle.std.specs.Ordering.{nat_cmp};
ghost use Rattle.std.specs.List.Sorted.{IsSorted};
ghost use Rattle.hd_certify.specs.Survey.{CountsOn, IsTableOf};

use crate::surveyed::ValueCount;
use hd_base::{NoMemory, Sequence};
use std::alloc::Global;

/// Counts one value more: in the last row, if it has that value, or else in a new one.
///
/// # Errors
/// - `NoMemory`: there is no room for the row.
fn count_on(rows: &mut Vec<ValueCount>, last: &mut ValueCount, value: u64) -> Result<(), NoMemory>
    requires { last.old.count < 2 ^ 63 }
    ensures { OnOk result
        (CountsOn rows.old.items last.old value rows.new.items last.new) }
{
    if value == last.value {
        last.count += 1;
        return Ok(());
    }
    rows.push(*last)?;
    *last = ValueCount { value, count: 1 };
    Ok(())
}

/// Returns the rows of values that ascend.
///
/// # Errors
/// - `NoMemory`: there is no room for them.
fn rows_of(alloc: Global, values: &[u64]) -> Result<Vec<ValueCount>, NoMemory>
    requires { IsSorted nat_cmp values.now }
    ensures { IfOk result (λ rows. IsTableOf values.now rows.items) }
{
    let mut rows = Vec::new(alloc);
    let Some(first) = values.first() else {
        return Ok(rows);
    };
    let mut last = ValueCount {
        value: *first,
        count: 1,
    };
    for place in 1..values.len() {
        count_on(&mut rows, &mut last, values[place])?;
    }
    rows.push(last)?;
    Ok(rows)
}

/// Returns how often each of these values is there.
pub(crate) fn table_of(alloc: Global, values: Vec<u64>) -> Result<Sequence<ValueCount>, NoMemory>
    ensures { IfOk result (IsTableOf values.items) }
{
    let mut values = values;
    values.sort()?;
    let rows = rows_of(alloc, &values)?;
    Ok(Sequence::from_vec(rows))
}
