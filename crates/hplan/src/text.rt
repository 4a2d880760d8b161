//! The texts of departures, of tasks, of verdicts on plans and of what journals show.
ghost use Rattle.std.specs.Prelude.{◌≡◌, ◌++◌, Some, IfOk, IfSome, OnOk, string_bytes};
ghost use Rattle.hd_plan.specs.PlanText.{line_end};
ghost use Rattle.hd_task.specs.Plans.{Node};
ghost use Rattle.hplan.specs.Inspection.{digest_line, inspected_text, summary_text};
ghost use Rattle.hd_image.specs.Image.{version_byte};
ghost use Rattle.hplan.specs.Certifying.{certified_text, verdict_text, optimal_text, CanBeTold};
ghost use Rattle.hplan.specs.Migrating.{dropped_line, migrated_text};
ghost use Rattle.hplan.specs.TaskText.{action_form_text, departing_text, departure_text, count_line, numbered_line, numbered_lines, task_text};
ghost use Rattle.hplan.specs.Verdict.{valid_text};

use crate::cost::cost_of;
use hd_base::NoMemory;
use hd_certify::Certified;
use hd_image::{DIGEST_LEN, Inspected, Summary, Version, image_digest_text};
use hd_task::{DepartsBy, Departure, Task, push_ground_form};
use std::alloc::Global;

/// Appends the ground form of an action to a text.
pub fn push_action(text: &mut String, task: &Task, action: usize) -> Result<(), NoMemory>
    ensures { OnOk result (string_bytes text.new
        ≡ string_bytes text.old ++ action_form_text task.now action) }
{
    match task.actions.as_slice().get(action) {
        Some(found) => push_ground_form(
            text,
            task.names.schemas.as_slice(),
            task.names.objects.as_slice(),
            found.form.symbol,
            found.form.objects.as_slice(),
        ),
        None => Ok(()),
    }
}

/// Appends what leaves the range to `text`.
fn push_departing(text: &mut String, task: &Task, by: DepartsBy) -> Result<(), NoMemory>
    ensures { OnOk result (string_bytes text.new
        ≡ string_bytes text.old ++ departing_text task.now by) }
{
    match by {
        DepartsBy::Goal => text.push_str("goal"),
        DepartsBy::Action(action) => push_action(text, task, action as usize),
    }
}

/// Appends the text of a departure to a text.
pub fn push_departed(
    alloc: Global,
    text: &mut String,
    task: &Task,
    departure: Departure,
) -> Result<(), NoMemory>
    ensures { OnOk result (string_bytes text.new
        ≡ string_bytes text.old ++ departure_text task.now departure) }
{
    let entry = departure.entry;
    let lead = format!(in alloc; "range left: entry {entry}, ")?;
    text.push_str(lead.as_str())?;
    push_departing(text, task, departure.by)?;
    Ok(())
}

/// Returns a departure, as it is told.
pub fn departure_text(alloc: Global, task: &Task, departure: Departure) -> Result<Vec<u8>, NoMemory>
    ensures { IfOk result (λ v. v.items ≡ departure_text task.now departure) }
{
    let mut text = String::new(alloc);
    push_departed(alloc, &mut text, task, departure)?;
    Ok(text.into_bytes())
}

/// Appends the line that counts something to a text.
pub fn push_count(alloc: Global, text: &mut String, what: &str, count: u64) -> Result<(), NoMemory>
    ensures { OnOk result (string_bytes text.new
        ≡ string_bytes text.old ++ count_line what.now count) }
{
    let counted = format!(in alloc; "{what} {count}")?;
    text.push_str(counted.as_str())?;
    text.push_str("\n")
}

/// Appends the line of the action with this number to a text.
fn push_numbered(
    alloc: Global,
    text: &mut String,
    task: &Task,
    action: usize,
) -> Result<(), NoMemory>
    ensures { OnOk result (string_bytes text.new
        ≡ string_bytes text.old ++ numbered_line task.now action) }
{
    let number = format!(in alloc; "{action} ")?;
    text.push_str(number.as_str())?;
    push_action(text, task, action)?;
    text.push_str("\n")
}

/// Appends the lines of all actions to a text.
fn push_actions(alloc: Global, text: &mut String, task: &Task) -> Result<(), NoMemory>
    ensures { OnOk result (string_bytes text.new
        ≡ string_bytes text.old ++ numbered_lines task.now) }
{
    for action in 0..task.actions.len() {
        push_numbered(alloc, text, task, action)?;
    }
    Ok(())
}

/// Returns a task: how many actions, atoms and fluents it has, and then its actions in the order of
/// their numbers, a line each.
pub fn task_text(alloc: Global, task: &Task) -> Result<Vec<u8>, NoMemory>
    ensures { IfOk result (λ v. v.items ≡ task_text task.now) }
{
    let mut text = String::new(alloc);
    push_count(alloc, &mut text, "actions", task.actions.len() as u64)?;
    push_count(alloc, &mut text, "atoms", task.atoms.len() as u64)?;
    push_count(alloc, &mut text, "fluents", task.fluents.len() as u64)?;
    push_actions(alloc, &mut text, task)?;
    Ok(text.into_bytes())
}

/// Appends the line that tells from which byte on a file is dropped, if it is to a text.
fn push_dropped(alloc: Global, text: &mut String, dropped: Option<u64>) -> Result<(), NoMemory>
    ensures { OnOk result (string_bytes text.new
        ≡ string_bytes text.old ++ dropped_line dropped) }
{
    match dropped {
        Some(at) => push_count(alloc, text, "dropped from byte", at),
        None => Ok(()),
    }
}

/// Returns how it is told how many entries were written to another file, and from which byte on the
/// rest is dropped, if it is.
pub fn migrated_text(alloc: Global, entries: u64, dropped: Option<u64>) -> Result<Vec<u8>, NoMemory>
    ensures { IfOk result (λ v. v.items ≡ migrated_text entries dropped) }
{
    let mut text = String::new(alloc);
    push_count(alloc, &mut text, "migrated", entries)?;
    push_dropped(alloc, &mut text, dropped)?;
    Ok(text.into_bytes())
}

/// Returns how it is told that a plan is valid.
pub fn valid_text(alloc: Global, cost: u64) -> Result<Vec<u8>, NoMemory>
    ensures { IfOk result (λ v. v.items ≡ valid_text cost) }
{
    let mut text = format!(in alloc; "valid; cost = {cost}")?;
    text.push_str("\n")?;
    Ok(text.into_bytes())
}

/// Returns a line of its own.
fn line_of(alloc: Global, text: &str) -> Result<Vec<u8>, NoMemory>
    ensures { IfOk result (λ v. v.items ≡ text.now ++ line_end) }
{
    let mut line = String::from_str(alloc, text)?;
    line.push_str("\n")?;
    Ok(line.into_bytes())
}

/// Returns how it is told that a plan of this cost is shown to be optimal.
fn optimal_text(alloc: Global, cost: u64) -> Result<Vec<u8>, NoMemory>
    ensures { (r : Node) → r.cost ≡ cost
        → IfOk result (λ v. v.items ≡ optimal_text (Some r)) }
{
    let mut text = format!(in alloc; "certified optimal; cost = {cost}")?;
    text.push_str("\n")?;
    Ok(text.into_bytes())
}

/// Returns how it is told which verdict is shown.
fn verdict_text(alloc: Global, task: &Task, verdict: &Certified) -> Result<Vec<u8>, NoMemory>
    requires { CanBeTold task.now verdict.now }
    ensures { IfOk result (λ v. v.items ≡ verdict_text task.now verdict.now) }
{
    match verdict {
        Certified::Optimal(plan) => match cost_of(alloc, task, plan)? {
            Some(cost) => optimal_text(alloc, cost),
            None => unreachable!(),
        },
        Certified::NoPlan => line_of(alloc, "certified no plan"),
    }
}

/// Returns how it is told what is shown of a task.
pub fn certified_text(
    alloc: Global,
    task: &Task,
    shown: &Option<Certified>,
) -> Result<Vec<u8>, NoMemory>
    requires { IfSome shown.now (CanBeTold task.now) }
    ensures { IfOk result (λ v. v.items ≡ certified_text task.now shown.now) }
{
    match shown {
        Some(verdict) => verdict_text(alloc, task, verdict),
        None => line_of(alloc, "not certified"),
    }
}

/// Appends the line of a digest to a text.
fn push_digest(alloc: Global, text: &mut String, digest: &[u8; DIGEST_LEN]) -> Result<(), NoMemory>
    ensures { OnOk result (string_bytes text.new
        ≡ string_bytes text.old ++ digest_line digest.now) }
{
    let digits = image_digest_text(alloc, digest)?;
    text.push_str("digest ")?;
    text.push_str(digits.as_str())?;
    text.push_str("\n")
}

/// Returns the number of a version.
fn version_byte(version: Version) -> u64
    ensures { result ≡ version_byte version }
{
    match version {
        Version::One => 1,
        Version::Two => 2,
    }
}

/// Returns the lines that tell of a journal.
fn summary_text(alloc: Global, summary: &Summary) -> Result<Vec<u8>, NoMemory>
    ensures { IfOk result (λ v. v.items ≡ summary_text summary.now) }
{
    let mut text = String::new(alloc);
    push_count(alloc, &mut text, "version", version_byte(summary.version))?;
    push_digest(alloc, &mut text, &summary.digest)?;
    push_count(alloc, &mut text, "entries", summary.entries)?;
    push_count(alloc, &mut text, "groups", summary.groups)?;
    push_count(alloc, &mut text, "bytes behind", summary.behind)?;
    Ok(text.into_bytes())
}

/// Returns what is reported of a file's bytes.
pub fn inspected_text(alloc: Global, inspected: &Inspected) -> Result<Vec<u8>, NoMemory>
    ensures { IfOk result (λ v. v.items ≡ inspected_text inspected.now) }
{
    match inspected {
        Inspected::Unmade => line_of(alloc, "no header yet"),
        Inspected::HalfMade => line_of(alloc, "a header that is being made"),
        Inspected::Journal(summary) => summary_text(alloc, summary),
    }
}
