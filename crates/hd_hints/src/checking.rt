//! Errors of names, types and the metric, explained.

use crate::excerpt::push_excerpt;
use crate::reading::{push_found, push_spot, text_from};
use hd_base::NoMemory;
use hd_check::{CheckFault, Source};
use hd_names::NameFault;

/// Returns the place of an error.
fn place_of(fault: &CheckFault) -> usize {
    match fault {
        CheckFault::OfName(
            NameFault::UnknownName(_, at)
            | NameFault::Duplicate(_, at)
            | NameFault::TypeCycle(_, at),
        ) => *at,
        CheckFault::WrongArity(_, at) | CheckFault::WrongType(_, at) => *at,
        CheckFault::OfMetric(misuse) => misuse.at,
        CheckFault::DomainMismatch(at) | CheckFault::InitOutOfRange(at) => *at,
    }
}

/// Returns what is said of a name that is not declared.
fn unknown(source: Source, is_variable: bool) -> &'static str {
    match source {
        Source::Domain if is_variable => ", which is no parameter here",
        Source::Problem if is_variable => ", and variables stand in a domain alone",
        _ => ", which is not declared: declare it, or correct its name",
    }
}

/// Returns the rest of the sentence of an error, after the word that was found.
fn sentence_of(source: Source, fault: &CheckFault, is_variable: bool) -> &'static str {
    match fault {
        CheckFault::OfName(NameFault::UnknownName(_, _)) => unknown(source, is_variable),
        CheckFault::OfName(NameFault::Duplicate(_, _)) => {
            " a second time: remove one of the declarations, or of the first values"
        }
        CheckFault::OfName(NameFault::TypeCycle(_, _)) => {
            ", a type that is above itself: remove one of its groups"
        }
        CheckFault::WrongArity(_, _) => " with too few or too many arguments",
        CheckFault::WrongType(_, _) => ", which is of another type than the parameter",
        CheckFault::OfMetric(_) => {
            "; the metric's function begins at 0, is increased alone, and is read nowhere"
        }
        CheckFault::DomainMismatch(_) => {
            ", and the domain file has another name: give the two files of one task"
        }
        CheckFault::InitOutOfRange(_) => {
            "; numbers are from -10^15 to 10^15: count in a larger unit"
        }
    }
}

/// Appends an explanation of an error of names, types or the metric in the text of a file.
///
/// # Errors
/// - Lack of memory: a part may have been appended.
pub fn push_check_hint(
    out: &mut String,
    name: &str,
    source: Source,
    text: &[u8],
    fault: &CheckFault,
) -> Result<(), NoMemory> {
    let at = place_of(fault);
    push_spot(out, name, text, at)?;
    push_found(out, text, at)?;
    let is_variable = matches!(text_from(text, at), [b'?', ..]);
    out.push_str(sentence_of(source, fault, is_variable))?;
    out.push_str("\n")?;
    push_excerpt(out, text, at)
}
