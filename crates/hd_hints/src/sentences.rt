//! What a user may have meant, where another word is wanted.

use crate::frames::{Frame, Frames, is_section, keyword_of, name_of};
use hd_base::NoMemory;
use hd_check::Source;
use hd_lex::{Operator, Word};

/// Returns the place of a section among those of a definition of this kind, from 1; 0 if it is none
/// of them.
fn rank_of(source: Source, name: &str) -> u8 {
    match source {
        Source::Domain => match name {
            "requirements" => 1,
            "types" => 2,
            "constants" => 3,
            "predicates" => 4,
            "functions" => 5,
            "action" => 6,
            _ => 0,
        },
        Source::Problem => match name {
            "domain" => 1,
            "requirements" => 2,
            "objects" => 3,
            "init" => 4,
            "goal" => 5,
            "metric" => 6,
            _ => 0,
        },
    }
}

/// Appends why a section may not stand after another.
fn push_order(
    out: &mut String,
    source: Source,
    section: &str,
    before: &str,
) -> Result<(), NoMemory> {
    if section == before {
        return out.push_str("; the section stands twice");
    }
    if rank_of(source, section) > rank_of(source, before) {
        return out.push_str("; a section is missing before it, or stands after it");
    }
    out.push_str("; sections in another order: `:")?;
    out.push_str(section)?;
    out.push_str("` comes before `:")?;
    out.push_str(before)?;
    out.push_str("`")
}

/// Returns what is meant by a section that is none of a definition of this kind.
fn other_section(source: Source, section: &str) -> &'static str {
    match source {
        Source::Domain if is_section(section) => {
            "; this section stands in a problem, and a domain is wanted"
        }
        Source::Problem if is_section(section) => {
            "; this section stands in a domain, and a problem is wanted"
        }
        _ => "; there is no such section",
    }
}

/// Returns what is meant by a word in the place of the definition's kind.
fn other_kind(source: Source, kind: &str) -> &'static str {
    match source {
        Source::Domain if kind == "problem" => {
            "; this looks like a problem file, and the domain file comes first"
        }
        Source::Problem if kind == "domain" => {
            "; this looks like a domain file, and the problem file comes after it"
        }
        _ => "",
    }
}

/// Appends what is meant by the first word of a form that stands in a definition itself.
fn push_of_section(
    out: &mut String,
    source: Source,
    around: Frame<'_>,
    found: Option<&Word>,
) -> Result<(), NoMemory> {
    let section = keyword_of(found);
    if section.is_empty() {
        return out.push_str(other_kind(source, name_of(found)));
    }
    if rank_of(source, section) > 0 {
        return push_order(out, source, section, keyword_of(around.child));
    }
    out.push_str(other_section(source, section))
}

/// Returns what is meant by a form more, behind one that stands there already.
fn one_form(frame: Frame<'_>) -> &'static str {
    match keyword_of(frame.head) {
        "goal" => "; a goal of several atoms wants `and`: `(and (a) (b))`",
        "action" => match keyword_of(frame.keyword) {
            "precondition" => "; a condition of several atoms wants `and`: `(and (a) (b))`",
            "effect" => "; several effects want `and`: `(and (a) (b))`",
            _ => "",
        },
        _ => match name_of(frame.head) {
            "not" => "; `not` has one part",
            _ => "",
        },
    }
}

/// Returns what is meant by a part of an action.
fn part_of_action(part: &str, last: &str) -> &'static str {
    match part {
        "precondition" | "effect" if last == "action" => {
            "; an action without parameters has `:parameters ()`"
        }
        "parameters" | "precondition" | "effect" if part == last => "; the part stands twice",
        "parameters" | "precondition" => {
            "; the order of parts is `:parameters`, `:precondition`, `:effect`"
        }
        "effect" => "",
        _ => "; an action has no such part",
    }
}

/// Returns what is meant by an operator's third part.
fn two_parts(frame: Frame<'_>) -> &'static str {
    match frame.head {
        Some(Word::Operator(Operator::Plus | Operator::Times)) if frame.items == 3 => {
            "; `+` and `*` have two parts: `(+ (a) (+ (b) (c)))`"
        }
        _ => "",
    }
}

/// Reports whether a word is one that no name is spelled like.
fn is_reserved(name: &str) -> bool {
    matches!(
        name,
        "and" | "not" | "assign" | "increase" | "decrease" | "scale-up"
    )
}

/// Returns what is meant by a word where another one is wanted.
fn meant_by_word(found: Option<&Word>) -> &'static str {
    match found {
        Some(Word::Name(name)) if is_reserved(name.as_str()) => "; the word can't be a name",
        _ => "",
    }
}

/// Returns what is meant by a word in an open form.
fn meant_in(frame: Frame<'_>, around: Frame<'_>, found: Option<&Word>) -> &'static str {
    if keyword_of(around.head) == "metric" && frame.items == 0 {
        return "; a metric is one function without parameters, as `(:metric minimize (total-cost))`";
    }
    let two = two_parts(frame);
    if !two.is_empty() {
        return two;
    }
    match found {
        Some(Word::OpenParenthesis) if frame.items > 1 => one_form(frame),
        Some(Word::Keyword(part)) if keyword_of(frame.head) == "action" => {
            part_of_action(part.as_str(), keyword_of(frame.keyword))
        }
        Some(Word::Number(_)) if name_of(frame.head) == "at" => {
            "; initial literals with a time are not read"
        }
        _ => meant_by_word(found),
    }
}

/// Appends what a user may have meant by a word that is not wanted, if that is known.
pub fn push_meant(
    out: &mut String,
    source: Source,
    frames: &Frames<'_>,
    found: Option<&Word>,
) -> Result<(), NoMemory> {
    let (frame, around) = (frames.innermost(), frames.around());
    if frames.depth() == 0 {
        let follows = frame.items > 0 && found.is_some();
        return out.push_str(if follows {
            "; a file has one definition, and nothing follows it"
        } else {
            "; a file is one definition: `(define ..)`"
        });
    }
    if frame.items == 0 && name_of(around.head) == "define" {
        return push_of_section(out, source, around, found);
    }
    out.push_str(meant_in(frame, around, found))
}

/// Returns what to write in the place of a word of PDDL that is not read.
pub fn instead_of(word: &str) -> &'static str {
    match word {
        "or" | "imply" => "write an action for each case",
        "forall" => "write the cases out, in an `and`",
        "exists" => "write one more parameter",
        "when" => "write an action for each case",
        "not" => "`not` is of an atom or of `=` of objects: `(not (>= a b))` is `(< a b)`",
        "/" | "scale-down" => "count in a smaller unit",
        "either" => "`tools/adapt` may rewrite it",
        "maximize" => "put the gain into the goal, and raise it step by step",
        "total-time" => "use a function of your own",
        "preference" => "write an atom that actions add at a cost",
        ":durative-action" => "write an action without times; its time may be its cost",
        ":derived" => "write its condition where it is used",
        ":constraints" => "write conditions of actions",
        _ => "leave it out if the text needs it not; `tools/adapt` does so",
    }
}
