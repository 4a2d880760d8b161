//! The ground forms that faults name.
ghost use Rattle.std.specs.Prelude.{◌≡◌, IfOk, string_bytes};
ghost use Rattle.hd_ground.specs.Telling.{ground_fluent_text, action_text};

use hd_base::NoMemory;
use hd_images::names_in;
use hd_lifted::{Ground, Instance, LiftedTask};
use hd_task::form_text;
use std::alloc::Global;

/// Returns a fluent in its ground form.
pub fn fluent_text(alloc: Global, task: &LiftedTask, fluent: &Ground) -> Result<String, NoMemory>
    ensures { IfOk result (λ s. string_bytes s ≡ ground_fluent_text task.now fluent.now) }
{
    let names = names_in(alloc, task)?;
    let functions = names.functions.as_slice();
    let objects = names.objects.as_slice();
    let text = form_text(
        alloc,
        functions,
        objects,
        fluent.symbol,
        fluent.objects.as_slice(),
    );
    drop(names);
    text
}

/// Returns an action in its ground form.
pub fn action_text(
    alloc: Global,
    task: &LiftedTask,
    instance: &Instance,
) -> Result<String, NoMemory>
    ensures { IfOk result (λ s. string_bytes s ≡ action_text task.now instance.now) }
{
    let names = names_in(alloc, task)?;
    let schemas = names.schemas.as_slice();
    let objects = names.objects.as_slice();
    let text = form_text(
        alloc,
        schemas,
        objects,
        instance.schema,
        instance.objects.as_slice(),
    );
    drop(names);
    text
}
