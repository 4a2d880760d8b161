//! From the bytes of three texts to the report of a schedule.
ghost use Rattle.std.specs.Prelude.{◌≡◌, ◌⊎◌, IfOk, IfErr, OnOk, OnErr};
ghost use Rattle.hd_replay.specs.ReportText.{report_text};
ghost use Rattle.hplan.specs.Replaying.{IsPlayed, ExplainsSchedule, IsReportOfTexts, IsReportText, HasNoReport, HasNoReportYet};
ghost use Rattle.hplan.specs.Written.{WritesA, WritesFrontOfA};

use crate::fault::{Fault, replay_in, schedule_in};
use crate::output::write_out;
use hd_base::NoMemory;
use hd_journal::DIGEST_LEN;
use hd_plan::Watched;
use hd_replay::{Report, read_schedule};
use hd_store::MemoryDisk;
use hd_task::Task;
use hd_texts::{digest_of, task_of};
use std::alloc::Global;
use std::io::Write;

/// Returns what stands at the end of the schedule that a text says, played on a task from an empty
/// disk on.
fn played_in(
    alloc: Global,
    task: &Task,
    digest: &[u8; DIGEST_LEN],
    schedule: &[u8],
) -> Result<Report, Fault>
    ensures played { IfOk result (IsPlayed task.now digest.now schedule.now) }
    ensures refusal { IfErr result (ExplainsSchedule schedule.now) }
{
    let moves = match read_schedule(alloc, schedule) {
        Ok(moves) => moves,
        Err(error) => return Err(schedule_in(error)),
    };
    let mut disk = MemoryDisk::new(alloc);
    let report = hd_replay::replay(alloc, task, digest, &mut disk, moves.as_slice());
    drop(disk);
    drop(moves);
    match report {
        Ok(report) => Ok(report),
        Err(fault) => Err(replay_in(fault)),
    }
}

/// Returns what stands at the end of the schedule of the third text, played on the task of the
/// first two.
fn report_of(alloc: Global, domain: &[u8], problem: &[u8], schedule: &[u8]) -> Result<Report, Fault>
    ensures found { IfOk result (IsReportOfTexts domain.now problem.now schedule.now) }
    ensures refusal { IfErr result (HasNoReportYet domain.now problem.now schedule.now) }
{
    match task_of(alloc, domain, problem) {
        Ok(task) => {
            let digest = digest_of(domain, problem);
            let report = played_in(alloc, &task, &digest, schedule);
            drop(task);
            report
        }
        Err(fault) => Err(Fault::from(fault)),
    }
}

/// Returns the four lines of a report.
fn report_text(alloc: Global, report: &Report) -> Result<Vec<u8>, NoMemory>
    ensures { IfOk result (λ v. v.items ≡ report_text report.now) }
{
    let text = format!(in alloc; "{report}")?;
    Ok(text.into_bytes())
}

/// Plays the schedule of a third text on the task that two texts say, and writes what stands at
/// its end: how many expansions there are, how many of them are acknowledged, how long the
/// journal is, and the verdict, a line each. The journal is in memory, and empty at first.
///
/// # Errors
/// - The first fault: of the first two texts; the first line of the third that is no move; why the
///   schedule was not played to its end; or what is reported of the error that the writer has
///   answered. A beginning of the lines has then been written, and else nothing.
#[tactic(auto, using(crate::proofs::Replays::memory_unreported))]
pub fn replay<W: Write>(
    alloc: Global,
    domain: &[u8],
    problem: &[u8],
    schedule: &[u8],
    out: &mut Watched<'_, W>,
) -> Result<(), Fault>
    // The lines are exactly those of what the schedule comes to, and their verdict is true of all
    // plans of the domain.
    ensures whole { OnOk result (WritesA (IsReportText domain.now problem.now schedule.now)
        (W.contents out.old.writer.now) (W.contents out.new.writer.now)) }
    ensures front { OnErr result
        ((W.contents out.new.writer.now ≡ W.contents out.old.writer.now)
        ⊎ WritesFrontOfA (IsReportText domain.now problem.now schedule.now)
        (W.contents out.old.writer.now) (W.contents out.new.writer.now)) }

    // Why nothing is written, or not all. `Device` is reported only of an error that the writer has
    // answered, after which a beginning of the lines is written; none that it answers is passed
    // over.
    ensures refusal { IfErr result (HasNoReport domain.now problem.now schedule.now
        (W.contents out.old.writer.now) (W.contents out.new.writer.now)
        out.old.fault out.new.fault) }
    ensures no_fault { OnOk result (out.new.fault ≡ out.old.fault) }
{
    let report = report_of(alloc, domain, problem, schedule)?;
    let text = report_text(alloc, &report)?;
    let written = write_out(out, &text);
    drop(text);
    match written {
        Ok(()) => Ok(()),
        Err(fault) => Err(fault),
    }
}
