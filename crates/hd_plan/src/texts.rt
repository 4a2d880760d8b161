//! The texts of fluents and instances.
ghost use Rattle.std.specs.Prelude.{◌≡◌, ◌++◌, IfOk, OnOk, flat_map, slice_get, string_bytes};
ghost use Rattle.hd_plan.specs.Texts.{name_of_object, name_of_function, name_of_schema, object_text, form_text, fluent_text, instance_text};

use hd_base::NoMemory;
use hd_lifted::{Ground, Instance, LiftedTask, Object};
use std::alloc::Global;

/// Returns the name of the object of this number.
fn object_name(objects: &[Object], number: usize) -> &str
    ensures { result.now ≡ name_of_object (slice_get objects.now number) }
{
    match objects.get(number) {
        Some(object) => object.name.as_str(),
        None => "",
    }
}

/// Returns the name of the function of this number.
fn function_name(task: &LiftedTask, number: usize) -> &str
    ensures { result.now ≡ name_of_function (slice_get task.now.functions number) }
{
    match task.functions.as_slice().get(number) {
        Some(function) => function.name.as_str(),
        None => "",
    }
}

/// Returns the name of the schema of this number.
fn schema_name(task: &LiftedTask, number: usize) -> &str
    ensures { result.now ≡ name_of_schema (slice_get task.now.schemas number) }
{
    match task.schemas.as_slice().get(number) {
        Some(schema) => schema.name.as_str(),
        None => "",
    }
}

/// Appends an object after a space to a text.
fn push_object(text: &mut String, objects: &[Object], number: usize) -> Result<(), NoMemory>
    ensures { OnOk result (string_bytes text.new
        ≡ string_bytes text.old ++ object_text objects.now number) }
{
    text.push_str(" ")?;
    text.push_str(object_name(objects, number))
}

/// Appends the names of the objects `numbers` to `text`, each after a space.
fn push_objects(text: &mut String, objects: &[Object], numbers: &[usize]) -> Result<(), NoMemory>
    ensures { OnOk result (string_bytes text.new
        ≡ string_bytes text.old ++ flat_map (object_text objects.now) numbers.now) }
{
    for number in numbers {
        push_object(text, objects, *number)?;
    }
    Ok(())
}

/// Returns a name and objects in parentheses, with single spaces.
fn form_text(
    alloc: Global,
    name: &str,
    objects: &[Object],
    numbers: &[usize],
) -> Result<String, NoMemory>
    ensures { IfOk result (λ s. string_bytes s ≡ form_text name.now objects.now numbers.now) }
{
    let mut text = String::new(alloc);
    text.push_str("(")?;
    text.push_str(name)?;
    push_objects(&mut text, objects, numbers)?;
    text.push_str(")")?;
    Ok(text)
}

/// Returns a fluent in its ground form, such as `(fuel truck)`.
pub(crate) fn fluent_text(
    alloc: Global,
    task: &LiftedTask,
    fluent: &Ground,
) -> Result<String, NoMemory>
    ensures { IfOk result (λ s. string_bytes s ≡ fluent_text task.now fluent.now) }
{
    let name = function_name(task, fluent.symbol);
    form_text(
        alloc,
        name,
        task.objects.as_slice(),
        fluent.objects.as_slice(),
    )
}

/// Returns an instance in its ground form, such as `(drive truck depot)`.
pub(crate) fn instance_text(
    alloc: Global,
    task: &LiftedTask,
    instance: &Instance,
) -> Result<String, NoMemory>
    ensures { IfOk result (λ s. string_bytes s ≡ instance_text task.now instance.now) }
{
    let name = schema_name(task, instance.schema);
    form_text(
        alloc,
        name,
        task.objects.as_slice(),
        instance.objects.as_slice(),
    )
}
