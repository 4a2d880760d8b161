//! The text of what entries tell of a search.
ghost use Rattle.std.specs.Prelude.{◌≡◌, ◌∷◌, ◌++◌, [], IfOk, OnOk, string_bytes};
ghost use Rattle.hplan.specs.Inspection.{inspected_text};
ghost use Rattle.hplan.specs.Surveying.{bound_line, bound_plan, departure_line, least_line, plan_lines};
ghost use Rattle.hplan.specs.Surveying.{reach_lines, row_line, row_lines, survey_text, table_lines};

use crate::text::{inspected_text, push_action, push_count, push_departed};
use hd_base::NoMemory;
use hd_certify::{Survey, ValueCount};
use hd_image::Inspected;
use hd_task::{Departure, Plan, Task};
use std::alloc::Global;

/// Appends the line of a row to a text.
fn push_row(alloc: Global, text: &mut String, what: &str, row: ValueCount) -> Result<(), NoMemory>
    ensures { OnOk result (string_bytes text.new
        ≡ string_bytes text.old ++ row_line what.now row) }
{
    let value = row.value;
    let count = row.count;
    let counted = format!(in alloc; "{what} {value}: {count}")?;
    text.push_str(counted.as_str())?;
    text.push_str("\n")
}

/// Appends the lines of rows to a text.
fn push_rows(
    alloc: Global,
    text: &mut String,
    what: &str,
    rows: &[ValueCount],
) -> Result<(), NoMemory>
    ensures { OnOk result (string_bytes text.new
        ≡ string_bytes text.old ++ row_lines what.now rows.now) }
{
    let mut rest = rows;
    while let [first, after @ ..] = rest {
        push_row(alloc, text, what, *first)?;
        rest = after;
    }
    Ok(())
}

/// Appends the line of an action to a text.
fn push_step(text: &mut String, task: &Task, action: usize) -> Result<(), NoMemory>
    ensures { OnOk result (string_bytes text.new
        ≡ string_bytes text.old ++ plan_lines task.now (action ∷ [])) }
{
    push_action(text, task, action)?;
    text.push_str("\n")
}

/// Appends the lines of a plan's actions to a text.
fn push_plan(text: &mut String, task: &Task, plan: &Plan) -> Result<(), NoMemory>
    ensures { OnOk result (string_bytes text.new
        ≡ string_bytes text.old ++ plan_lines task.now plan.now) }
{
    let mut rest = plan.as_slice();
    while let [first, after @ ..] = rest {
        push_step(text, task, first.0 as usize)?;
        rest = after;
    }
    Ok(())
}

/// Appends the least total of what is open to a text.
fn push_least(alloc: Global, text: &mut String, least: Option<u128>) -> Result<(), NoMemory>
    ensures { OnOk result (string_bytes text.new
        ≡ string_bytes text.old ++ least_line least) }
{
    match least {
        Some(least) => {
            let line = format!(in alloc; "least {least}")?;
            text.push_str(line.as_str())?;
            text.push_str("\n")
        }
        None => text.push_str("no least\n"),
    }
}

/// Appends the bound, and the actions of its plan to a text.
fn push_bound(
    alloc: Global,
    text: &mut String,
    task: &Task,
    survey: &Survey,
) -> Result<(), NoMemory>
    ensures { OnOk result (string_bytes text.new ≡ string_bytes text.old
        ++ bound_line survey.now.bound ++ bound_plan task.now survey.now.plan) }
{
    match survey.bound {
        Some(bound) => push_count(alloc, text, "bound", bound)?,
        None => text.push_str("no bound\n")?,
    }
    match &survey.plan {
        Some(plan) => push_plan(text, task, plan),
        None => Ok(()),
    }
}

/// Appends the first departure to a text.
fn push_departure(
    alloc: Global,
    text: &mut String,
    task: &Task,
    departure: Option<Departure>,
) -> Result<(), NoMemory>
    ensures { OnOk result (string_bytes text.new
        ≡ string_bytes text.old ++ departure_line task.now departure) }
{
    match departure {
        Some(departure) => {
            push_departed(alloc, text, task, departure)?;
            text.push_str("\n")
        }
        None => text.push_str("nothing left the range\n"),
    }
}

/// Appends how far a search is to a text.
fn push_reach(alloc: Global, text: &mut String, survey: &Survey) -> Result<(), NoMemory>
    ensures { OnOk result (string_bytes text.new
        ≡ string_bytes text.old ++ reach_lines survey.now) }
{
    push_count(alloc, text, "posted", survey.posted)?;
    push_count(alloc, text, "settled", survey.settled)?;
    push_least(alloc, text, survey.least)
}

/// Appends how many entries there are of each depth, cost and total to a text.
fn push_tables(alloc: Global, text: &mut String, survey: &Survey) -> Result<(), NoMemory>
    ensures { OnOk result (string_bytes text.new
        ≡ string_bytes text.old ++ table_lines survey.now) }
{
    push_rows(alloc, text, "depth", survey.depths.as_slice())?;
    push_rows(alloc, text, "cost", survey.costs.as_slice())?;
    push_rows(alloc, text, "total", survey.totals.as_slice())
}

/// Returns what entries tell of a search.
fn survey_part(alloc: Global, task: &Task, survey: &Survey) -> Result<String, NoMemory>
    ensures { IfOk result (λ s. string_bytes s ≡ survey_text task.now survey.now) }
{
    let mut text = String::new(alloc);
    push_reach(alloc, &mut text, survey)?;
    push_bound(alloc, &mut text, task, survey)?;
    push_departure(alloc, &mut text, task, survey.departure)?;
    push_tables(alloc, &mut text, survey)?;
    Ok(text)
}

/// Returns what is reported of a file's bytes, and of what its entries tell of a search.
pub fn survey_text(
    alloc: Global,
    task: &Task,
    inspected: &Inspected,
    survey: &Survey,
) -> Result<Vec<u8>, NoMemory>
    ensures { IfOk result (λ v. v.items
        ≡ inspected_text inspected.now ++ survey_text task.now survey.now) }
{
    let mut text = inspected_text(alloc, inspected)?;
    let told = survey_part(alloc, task, survey)?;
    text.extend_from_slice(told.as_bytes())?;
    Ok(text)
}
