//! From the bytes of two texts to the bytes of a plan.
ghost use Rattle.std.specs.Prelude.{◌≡◌, ◌≢◌, ◌⊎◌, ℕ, true, is_some, List, IfOk, IfErr, OnOk, OnErr};
ghost use Rattle.std.specs.Io.KnownBytes.{Appends};
ghost use Rattle.hd_plan.specs.Output.{AppendsShort, KeepsFor, NotesError};
ghost use Rattle.hplan.specs.Answer.{IsKeptAnswer, IsAnswerText, IsUnwritten, Writes, HasNoAnswer, HasNoAnswerYet};
ghost use Rattle.hplan.specs.Fault.{IsTextFault};
ghost use Rattle.hplan.specs.Kept.{InMemory, InFile};
ghost use Rattle.hplan.specs.PlanText.{printed};
ghost use Rattle.hplan.specs.Written.{WritesFrontOfA};
ghost use Rattle.hd_words.specs.Request.{IsWorkers};

use crate::account::Account;
use crate::fault::{Fault, unwritten};
use crate::host::Host;
use crate::kept::{Start, solution_in_file, solution_in_memory};
use crate::naming::NamedPlan;
use crate::places::Places;
use crate::told::{Ending, Told};
use hd_plan::{Watched, WriteFault, write_plan};
use hd_texts::{digest_of, task_by};
use hd_words::Search;
use std::alloc::Global;
use std::io::{Eprint, Write};
use std::sync::Wait;
use std::thread::Threads;
use std::time::Clock;

/// Returns the answer to two texts; its search is kept in memory.
fn answer_in_memory<R: Threads + Wait + Sync + Eprint + Clock, H: Host + Sync>(
    rt: &R,
    alloc: Global,
    domain: &[u8],
    problem: &[u8],
    how: Search,
    account: &mut Account<'_, H>,
) -> Result<Told, Fault>
    requires { IsWorkers how.workers }
    ensures found { IfOk result (λ told. IsKeptAnswer InMemory how.limit domain.now problem.now
        told.ending (printed told.plan)) }
    ensures refusal { IfErr result (HasNoAnswerYet InMemory how.limit domain.now problem.now) }
{
    match task_by(alloc, domain, problem, account) {
        Ok(task) => {
            let digest = digest_of(domain, problem);
            let answer = solution_in_memory(rt, alloc, &task, &digest, how, account);
            drop(task);
            answer
        }
        Err(fault) => Err(Fault::from(fault)),
    }
}

/// Returns the answer to two texts; its search is kept in a file.
fn answer_in_file<P: Places, R: Threads + Wait + Sync + Eprint + Clock, H: Host + Sync>(
    rt: &R,
    alloc: Global,
    places: &mut P,
    name: &str,
    start: Start,
    domain: &[u8],
    problem: &[u8],
    how: Search,
    account: &mut Account<'_, H>,
) -> Result<Told, Fault>
    requires { IsWorkers how.workers }
    ensures found { IfOk result (λ told. IsKeptAnswer
        (InFile start (P.file_of places.old name.now) (P.file_of places.new name.now))
        how.limit domain.now problem.now told.ending (printed told.plan)) }
    ensures refusal { IfErr result (HasNoAnswerYet
        (InFile start (P.file_of places.old name.now) (P.file_of places.new name.now))
        how.limit domain.now problem.now) }
    ensures untouched { IfErr result (λ f. IsTextFault f → places.new ≡ places.old) }
    ensures known { is_some (P.file_of places.old name.now) ≡ true
        → is_some (P.file_of places.new name.now) ≡ true }
    ensures others { (other : List ℕ) → other ≢ name.now
        → P.file_of places.new other ≡ P.file_of places.old other }
{
    match task_by(alloc, domain, problem, account) {
        Ok(task) => {
            let digest = digest_of(domain, problem);
            let answer = solution_in_file(
                rt, alloc, places, name, start, &task, &digest, how, account,
            );
            drop(task);
            answer
        }
        Err(fault) => Err(Fault::from(fault)),
    }
}

/// Writes the text of a plan, if there is one.
fn write_found<W: Write>(
    alloc: Global,
    plan: &Option<NamedPlan>,
    out: &mut Watched<'_, W>,
) -> Result<(), WriteFault>
    ensures whole { OnOk result (Appends (W.contents out.old.writer.now)
        (W.contents out.new.writer.now) (printed plan.now)) }
    ensures short { OnErr result (AppendsShort (W.contents out.old.writer.now)
        (W.contents out.new.writer.now) (printed plan.now)) }
    ensures no_memory { IfErr result (KeepsFor (W.contents out.old.writer.now)
        (W.contents out.new.writer.now)) }
    ensures fault { NotesError out.old.fault out.new.fault result }
{
    match plan {
        Some(plan) => write_plan(alloc, plan.steps.as_slice(), plan.cost, out),
        None => Ok(()),
    }
}

/// Writes the text of an answer's plan, if it has one, and reports how the answer ends.
fn write_told<W: Write>(
    alloc: Global,
    told: Told,
    out: &mut Watched<'_, W>,
) -> Result<Ending, Fault>
    ensures ends { IfOk result (λ ending. ending ≡ told.ending) }
    ensures whole { OnOk result (Appends (W.contents out.old.writer.now)
        (W.contents out.new.writer.now) (printed told.plan)) }
    ensures no_fault { OnOk result (out.new.fault ≡ out.old.fault) }
    ensures refusal { IfErr result (IsUnwritten (printed told.plan)
        (W.contents out.old.writer.now) (W.contents out.new.writer.now)
        out.old.fault out.new.fault) }
{
    let Told { ending, plan } = told;
    let written = write_found(alloc, &plan, out);
    drop(plan);
    match written {
        Ok(()) => Ok(ending),
        Err(error) => {
            drop(ending);
            Err(unwritten(error))
        }
    }
}

/// Solves the task of `domain` and `problem`, and writes the text of its plan, if it has one. As
/// many threads search as `how` has workers. If it has a limit, they stop once so many nodes, or
/// some more, are expanded. The search is kept in memory. What is measured and counted beside the
/// answer is in the account.
///
/// # Errors
/// - The first fault of the texts, or why the search fails, or what is reported of the error that
///   the writer has answered. A beginning of the text has then been written, and not all of it, and
///   else nothing.
pub fn solve<W: Write, R: Threads + Wait + Sync + Eprint + Clock, H: Host + Sync>(
    rt: &R,
    alloc: Global,
    domain: &[u8],
    problem: &[u8],
    how: Search,
    account: &mut Account<'_, H>,
    out: &mut Watched<'_, W>,
) -> Result<Ending, Fault>
    requires { IsWorkers how.workers }
    // The text is exactly that of the plan that the search of the task answers.
    ensures whole { IfOk result (Writes InMemory how.limit domain.now problem.now
        (W.contents out.old.writer.now) (W.contents out.new.writer.now)) }
    ensures front { OnErr result
        ((W.contents out.new.writer.now ≡ W.contents out.old.writer.now)
        ⊎ WritesFrontOfA (IsAnswerText InMemory how.limit domain.now problem.now)
        (W.contents out.old.writer.now) (W.contents out.new.writer.now)) }

    // Why there is no answer, and what is written then. `Fault::Device` is reported only of an
    // error that the writer has answered, after which a beginning of the answer's text is written;
    // none that it answers is passed over. A fault of the journal's device is another one.
    ensures refusal { IfErr result (HasNoAnswer InMemory how.limit domain.now problem.now
        (W.contents out.old.writer.now) (W.contents out.new.writer.now)
        out.old.fault out.new.fault) }
    ensures no_fault { OnOk result (out.new.fault ≡ out.old.fault) }
{
    let told = answer_in_memory(rt, alloc, domain, problem, how, account)?;
    account.keep_answer(alloc, &told);
    write_told(alloc, told, out)
}

/// Returns the same, if the search is kept in a file: once it has answered, the journal there
/// has all of its entries, also where `out` fails. A new journal wants a file that is not there or
/// empty; one that is there goes on from the entries that are found in it, in its version.
///
/// # Errors
/// - The same, and, after the faults of the texts, that the file can't be had, begun or gone on
///   with.
pub fn solve_kept<P: Places, W: Write, R: Threads + Wait + Sync + Eprint + Clock, H: Host + Sync>(
    rt: &R,
    alloc: Global,
    places: &mut P,
    name: &str,
    start: Start,
    domain: &[u8],
    problem: &[u8],
    how: Search,
    account: &mut Account<'_, H>,
    out: &mut Watched<'_, W>,
) -> Result<Ending, Fault>
    requires { IsWorkers how.workers }
    // The text is that of the plan that the entries answer which the file has at the end; they
    // begin with those that were found in it.
    ensures whole { IfOk result (Writes
        (InFile start (P.file_of places.old name.now) (P.file_of places.new name.now))
        how.limit domain.now problem.now
        (W.contents out.old.writer.now) (W.contents out.new.writer.now)) }
    ensures front { OnErr result
        ((W.contents out.new.writer.now ≡ W.contents out.old.writer.now)
        ⊎ WritesFrontOfA (IsAnswerText
        (InFile start (P.file_of places.old name.now) (P.file_of places.new name.now))
        how.limit domain.now problem.now)
        (W.contents out.old.writer.now) (W.contents out.new.writer.now)) }
    ensures refusal { IfErr result (HasNoAnswer
        (InFile start (P.file_of places.old name.now) (P.file_of places.new name.now))
        how.limit domain.now problem.now
        (W.contents out.old.writer.now) (W.contents out.new.writer.now)
        out.old.fault out.new.fault) }
    ensures no_fault { OnOk result (out.new.fault ≡ out.old.fault) }
    // Texts at fault begin no journal.
    ensures untouched { IfErr result (λ f. IsTextFault f → places.new ≡ places.old) }
    // A file whose bytes are known is there still, and all others are as they were.
    ensures known { is_some (P.file_of places.old name.now) ≡ true
        → is_some (P.file_of places.new name.now) ≡ true }
    ensures others { (other : List ℕ) → other ≢ name.now
        → P.file_of places.new other ≡ P.file_of places.old other }
{
    let told = answer_in_file(
        rt, alloc, places, name, start, domain, problem, how, account,
    )?;
    account.keep_answer(alloc, &told);
    write_told(alloc, told, out)
}
