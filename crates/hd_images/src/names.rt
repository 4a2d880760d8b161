//! Names, and the ground forms that are printed with them.
ghost use Rattle.std.specs.Prelude.{◌≡◌, map, IfOk};
ghost use Rattle.hd_grounding.specs.Grounding.{form_of, form_of_instance, names_in};

use crate::NumberedForms;
use hd_base::{Name, NoMemory, Sequence};
use hd_lifted::{Ground, Instance, LiftedTask, Object, Schema, Signature};
use hd_task::{GroundForm, Names};
use std::alloc::Global;

/// Returns the form of an instance: its schema and its objects.
///
/// # Errors
/// - Lack of memory.
pub fn form_of_instance(alloc: Global, instance: &Instance) -> Result<GroundForm, NoMemory>
    ensures { IfOk result (λ f. f ≡ form_of_instance instance.now) }
{
    let objects = Vec::from_slice(alloc, instance.objects.as_slice())?;
    Ok(GroundForm {
        symbol: instance.schema,
        objects: Sequence::from_vec(objects),
    })
}

/// Returns what an atom or a fluent is printed as.
fn form_of(alloc: Global, form: &Ground) -> Result<GroundForm, NoMemory>
    ensures { IfOk result (λ f. f ≡ form_of form.now) }
{
    let objects = Vec::from_slice(alloc, form.objects.as_slice())?;
    Ok(GroundForm {
        symbol: form.symbol,
        objects: Sequence::from_vec(objects),
    })
}

/// Returns what atoms or fluents are printed as, in the order of their numbers.
///
/// # Errors
/// - Lack of memory.
pub fn forms_of(alloc: Global, numbers: &NumberedForms) -> Result<Sequence<GroundForm>, NoMemory>
    ensures { IfOk result (λ s. s ≡ map form_of numbers.now) }
{
    let mut forms = Vec::new(alloc);
    for form in numbers.as_slice() {
        forms.push(form_of(alloc, form)?)?;
    }
    Ok(Sequence::from_vec(forms))
}

/// Returns the names of `schemas`, in order.
fn schema_names(alloc: Global, schemas: &[Schema]) -> Result<Sequence<Name>, NoMemory>
    ensures { IfOk result (λ s. s ≡ map (λ a. a.name) schemas.now) }
{
    let mut names = Vec::new(alloc);
    for schema in schemas {
        names.push(schema.name.copied(alloc)?)?;
    }
    Ok(Sequence::from_vec(names))
}

/// Returns the names of `signatures`, which are of predicates or functions, in order.
fn symbol_names(alloc: Global, signatures: &[Signature]) -> Result<Sequence<Name>, NoMemory>
    ensures { IfOk result (λ s. s ≡ map (λ p. p.name) signatures.now) }
{
    let mut names = Vec::new(alloc);
    for signature in signatures {
        names.push(signature.name.copied(alloc)?)?;
    }
    Ok(Sequence::from_vec(names))
}

/// Returns the names of `objects`, in order.
fn object_names(alloc: Global, objects: &[Object]) -> Result<Sequence<Name>, NoMemory>
    ensures { IfOk result (λ s. s ≡ map (λ o. o.name) objects.now) }
{
    let mut names = Vec::new(alloc);
    for object in objects {
        names.push(object.name.copied(alloc)?)?;
    }
    Ok(Sequence::from_vec(names))
}

/// Returns the names of the schemas of `task`, and those of its objects.
fn schemas_and_objects(
    alloc: Global,
    task: &LiftedTask,
) -> Result<(Sequence<Name>, Sequence<Name>), NoMemory>
    ensures schemas { IfOk result (λ p. p.0 ≡ (names_in task.now).schemas) }
    ensures objects { IfOk result (λ p. p.1 ≡ (names_in task.now).objects) }
{
    let schemas = schema_names(alloc, task.schemas.as_slice())?;
    match object_names(alloc, task.objects.as_slice()) {
        Ok(objects) => Ok((schemas, objects)),
        Err(error) => {
            drop(schemas);
            Err(error)
        }
    }
}

/// Returns the names of the predicates of `task`, and those of its functions.
fn predicates_and_functions(
    alloc: Global,
    task: &LiftedTask,
) -> Result<(Sequence<Name>, Sequence<Name>), NoMemory>
    ensures predicates { IfOk result (λ p. p.0 ≡ (names_in task.now).predicates) }
    ensures functions { IfOk result (λ p. p.1 ≡ (names_in task.now).functions) }
{
    let predicates = symbol_names(alloc, task.predicates.as_slice())?;
    match symbol_names(alloc, task.functions.as_slice()) {
        Ok(functions) => Ok((predicates, functions)),
        Err(error) => {
            drop(predicates);
            Err(error)
        }
    }
}

/// Returns the names with which ground forms of `task` are printed.
///
/// # Errors
/// - Lack of memory.
pub fn names_in(alloc: Global, task: &LiftedTask) -> Result<Names, NoMemory>
    ensures { IfOk result (λ n. n ≡ names_in task.now) }
{
    let (schemas, objects) = schemas_and_objects(alloc, task)?;
    match predicates_and_functions(alloc, task) {
        Ok((predicates, functions)) => Ok(Names {
            schemas,
            predicates,
            functions,
            objects,
        }),
        Err(error) => {
            drop(schemas);
            drop(objects);
            Err(error)
        }
    }
}
