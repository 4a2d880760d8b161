//! Writing plan files.

ghost use Rattle.std.specs.Prelude.{◌≡◌, ◌++◌, IfOk, IfErr, OnOk, OnErr, flat_map};
ghost use Rattle.std.specs.Io.KnownBytes.{Appends};
ghost use Rattle.hd_plan.specs.Output.{AppendsShort, KeepsFor, NotesError};
ghost use Rattle.hd_plan.specs.PlanText.{arg_text, step_text, step_line, plan_text};

use crate::output::{Watched, WriteFault};
use crate::step::Step;
use hd_base::{Name, NoMemory};
use std::alloc::Global;
use std::io::Write;

/// Appends an object after a space to a text.
fn push_arg(text: &mut Vec<u8>, arg: &Name) -> Result<(), NoMemory>
    ensures { OnOk result (text.new.items ≡ text.old.items ++ arg_text arg.now) }
{
    text.push(b' ')?;
    text.extend_from_slice(arg.as_str().as_bytes())
}

/// Appends `args` to `text`, each after a space.
fn push_args(text: &mut Vec<u8>, args: &[Name]) -> Result<(), NoMemory>
    ensures { OnOk result (text.new.items ≡ text.old.items ++ flat_map arg_text args.now) }
{
    for arg in args {
        push_arg(text, arg)?;
    }
    Ok(())
}

/// Appends a step to a text.
fn push_step(text: &mut Vec<u8>, step: &Step) -> Result<(), NoMemory>
    ensures { OnOk result (text.new.items ≡ text.old.items ++ step_text step.now) }
{
    text.push(b'(')?;
    text.extend_from_slice(step.name.as_str().as_bytes())?;
    push_args(text, step.args.as_slice())?;
    text.push(b')')?;
    Ok(())
}

/// Appends the line of a step to a text.
fn push_line(text: &mut Vec<u8>, step: &Step) -> Result<(), NoMemory>
    ensures { OnOk result (text.new.items ≡ text.old.items ++ step_line step.now) }
{
    push_step(text, step)?;
    text.push(b'\n')?;
    Ok(())
}

/// Returns the text of a plan at a cost, as [`write_plan`] writes it.
///
/// # Errors
/// - `NoMemory`: there is no room for it.
pub fn plan_text(alloc: Global, steps: &[Step], cost: u64) -> Result<Vec<u8>, NoMemory>
    ensures { IfOk result (λ text. text.items ≡ plan_text steps.now cost) }
{
    let mut text = Vec::new(alloc);
    for step in steps {
        push_line(&mut text, step)?;
    }
    let cost = format!(in alloc; "; cost = {cost}")?;
    text.extend_from_slice(cost.as_bytes())?;
    text.push(b'\n')?;
    Ok(text)
}

/// Writes the text of a plan at a cost: each step as `(name object ..)` on a line, and then `; cost
/// = N`.
///
/// # Errors
/// - Lack of memory, before anything is written; and the writer's fault, which it has then answered
///   and which is noted of it. A beginning of the text has then been written, and not all of it.
#[tactic(auto, using(crate::proofs::Parts::nothing_appended))]
pub fn write_plan<W: Write>(
    alloc: Global,
    steps: &[Step],
    cost: u64,
    out: &mut Watched<'_, W>,
) -> Result<(), WriteFault>
    // What is written: just that text.
    ensures whole { OnOk result (Appends (W.contents out.old.writer.now)
        (W.contents out.new.writer.now) (plan_text steps.now cost)) }

    // What an error leaves: a beginning of that text, which is not all of it, and nothing of it
    // if memory ran out.
    ensures short { OnErr result (AppendsShort (W.contents out.old.writer.now)
        (W.contents out.new.writer.now) (plan_text steps.now cost)) }
    ensures no_memory { IfErr result (KeepsFor (W.contents out.old.writer.now)
        (W.contents out.new.writer.now)) }

    // A fault of the writer is reported only if it has answered that error, and none that it
    // answers is passed over.
    ensures fault { NotesError out.old.fault out.new.fault result }
{
    let text = plan_text(alloc, steps, cost)?;
    let written = out.put(&text);
    drop(text);
    match written {
        Ok(()) => Ok(()),
        Err(kind) => Err(WriteFault::Device(kind)),
    }
}
