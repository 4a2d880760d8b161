//! The texts of ground forms.
ghost use Rattle.std.specs.Prelude.{◌≡◌, ◌++◌, IfOk, OnOk, string_bytes};
ghost use Rattle.hd_task.specs.FormText.{name_at, object_text, objects_text, form_text};

use hd_base::{Name, NoMemory};
use std::alloc::Global;

/// Returns the name of this number.
fn name_at(names: &[Name], number: usize) -> &str
    ensures { result.now ≡ name_at names.now number }
{
    match names.get(number) {
        Some(name) => name.as_str(),
        None => "",
    }
}

/// Appends an object after a space to a text.
fn push_object(text: &mut String, objects: &[Name], object: usize) -> Result<(), NoMemory>
    ensures { OnOk result (string_bytes text.new
        ≡ string_bytes text.old ++ object_text objects.now object) }
{
    text.push_str(" ")?;
    text.push_str(name_at(objects, object))
}

/// Appends the objects at `numbers` to `text`, each after a space.
fn push_objects(text: &mut String, objects: &[Name], numbers: &[usize]) -> Result<(), NoMemory>
    ensures { OnOk result (string_bytes text.new
        ≡ string_bytes text.old ++ objects_text objects.now numbers.now) }
{
    for number in numbers {
        push_object(text, objects, *number)?;
    }
    Ok(())
}

/// Puts a ground form after a text: the name of its symbol among `symbols`, and those of its
/// arguments among `objects`.
///
/// # Errors
/// - Lack of memory: a beginning of the form may then stand after the text.
pub fn push_ground_form(
    text: &mut String,
    symbols: &[Name],
    objects: &[Name],
    symbol: usize,
    arguments: &[usize],
) -> Result<(), NoMemory>
    ensures { OnOk result (string_bytes text.new ≡ string_bytes text.old
        ++ form_text symbols.now objects.now
        (record { symbol = symbol; objects = arguments.now })) }
{
    text.push_str("(")?;
    text.push_str(name_at(symbols, symbol))?;
    push_objects(text, objects, arguments)?;
    text.push_str(")")
}

/// Returns the text of a ground form, such as `(drive truck depot)`.
///
/// # Errors
/// - Lack of memory.
pub fn form_text(
    alloc: Global,
    symbols: &[Name],
    objects: &[Name],
    symbol: usize,
    arguments: &[usize],
) -> Result<String, NoMemory>
    ensures { IfOk result (λ s. string_bytes s
        ≡ form_text symbols.now objects.now (record { symbol = symbol; objects = arguments.now })) }
{
    let mut text = String::new(alloc);
    push_ground_form(&mut text, symbols, objects, symbol, arguments)?;
    Ok(text)
}
