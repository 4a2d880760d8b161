//! From the bytes of two texts to the actions of their task.
ghost use Rattle.std.specs.Prelude.{◌≡◌, ◌⊎◌, IfOk, IfErr, OnOk, OnErr};
ghost use Rattle.hplan.specs.Written.{WritesA, WritesFrontOfA};
ghost use Rattle.hplan.specs.Printing.{IsPrintOf, IsNotPrinted, IsNotPrintedYet};

use crate::fault::Fault;
use crate::output::write_out;
use crate::text::task_text;
use hd_plan::Watched;
use hd_texts::task_of;
use std::alloc::Global;
use std::io::Write;

/// Returns the task that two texts say, as it is printed.
#[tactic(auto, using(crate::proofs::Explaining::memory_unprinted, crate::proofs::Explaining::task_unprinted))]
fn print_of(alloc: Global, domain: &[u8], problem: &[u8]) -> Result<Vec<u8>, Fault>
    ensures found { IfOk result (λ text. IsPrintOf domain.now problem.now text.items) }
    ensures refusal { IfErr result (IsNotPrintedYet domain.now problem.now) }
{
    match task_of(alloc, domain, problem) {
        Ok(task) => {
            let text = task_text(alloc, &task);
            drop(task);
            match text {
                Ok(text) => Ok(text),
                Err(_) => Err(Fault::NoMemory),
            }
        }
        Err(fault) => Err(Fault::from(fault)),
    }
}

/// Writes the task that two texts say: how many actions, atoms and fluents it has, and then its
/// actions in the order of their numbers, a line each.
///
/// # Errors
/// - The first fault of the texts, or why the writer fails. After a fault of the writer a beginning
///   of the text has been written, and else nothing.
pub fn ground<W: Write>(
    alloc: Global,
    domain: &[u8],
    problem: &[u8],
    out: &mut Watched<'_, W>,
) -> Result<(), Fault>
    // The text is exactly that of the task that the two texts say.
    ensures whole { OnOk result (WritesA (IsPrintOf domain.now problem.now)
        (W.contents out.old.writer.now) (W.contents out.new.writer.now)) }
    ensures front { OnErr result
        ((W.contents out.new.writer.now ≡ W.contents out.old.writer.now)
        ⊎ WritesFrontOfA (IsPrintOf domain.now problem.now)
        (W.contents out.old.writer.now) (W.contents out.new.writer.now)) }

    // Why nothing is written, or not all. `Device` is reported only of an error that the writer has
    // answered, after which a beginning of the task's text is written; none that it answers is
    // passed over.
    ensures refusal { IfErr result (IsNotPrinted domain.now problem.now
        (W.contents out.old.writer.now) (W.contents out.new.writer.now)
        out.old.fault out.new.fault) }
    ensures no_fault { OnOk result (out.new.fault ≡ out.old.fault) }
{
    let text = print_of(alloc, domain, problem)?;
    let written = write_out(out, &text);
    drop(text);
    match written {
        Ok(()) => Ok(()),
        Err(fault) => Err(fault),
    }
}
