//! Probes of states: hashes, owners, packings, estimates, the goal, and where actions lead.
ghost use Rattle.std.specs.Prelude.{IfOk, IfSome};
ghost use Rattle.hd_task.specs.Plans.{IsStateOf};

use crate::texts::{hex_of, told};
use hd_base::Name;
use hd_hmax::{EstimateValue, Hmax};
use hd_pack::{Layout, pack};
use hd_task::{ActionId, Applied, GoalTest, GroundForm, Sequence, State, Task, apply, goal};
use hd_zobrist::{MAX_WORKERS, Words, owner};
use std::alloc::{AllocError, Global};

/// Returns the place of the first of `forms` that has this name.
fn place_in(names: &[Name], forms: &[GroundForm], name: &str) -> Option<usize> {
    for (place, form) in forms.iter().enumerate() {
        if let Some(found) = names.get(form.symbol)
            && found.as_str() == name
        {
            return Some(place);
        }
    }
    None
}

/// Puts an item into a list; reports whether the list has this place.
fn put<T: Copy + Drop>(items: &mut Vec<T>, place: Option<usize>, item: T) -> bool {
    match place {
        Some(place) if place < items.len() => {
            items[place] = item;
            true
        }
        _ => false,
    }
}

/// Does what a word of a state says: `ATOM` is true, or `FLUENT=NUMBER`; reports whether it is
/// known.
fn put_word(task: &Task, atoms: &mut Vec<bool>, fluents: &mut Vec<i64>, word: &str) -> bool {
    let Some((name, number)) = word.split_once('=') else {
        let names = task.names.predicates.as_slice();
        return put(atoms, place_in(names, task.atoms.as_slice(), word), true);
    };
    let names = task.names.functions.as_slice();
    match number.parse::<i64>() {
        Ok(value) => put(
            fluents,
            place_in(names, task.fluents.as_slice(), name),
            value,
        ),
        Err(_) => false,
    }
}

/// Reads the parts of a state.
fn parts_of(alloc: Global, task: &Task, text: &str) -> Result<Option<State>, AllocError> {
    let (at_start, words) = match text.strip_prefix("start") {
        Some(words) => (true, words),
        None => (false, text),
    };
    let mut atoms = Vec::new(alloc);
    for atom in task.initial.atoms.as_slice() {
        atoms.push(*atom && at_start)?;
    }
    let mut fluents = Vec::from_slice(alloc, task.initial.fluents.as_slice())?;
    for word in words.split(' ') {
        if word.is_empty() || word == "-" {
            continue;
        }
        if !put_word(task, &mut atoms, &mut fluents, word) {
            return Ok(None);
        }
    }
    Ok(Some(State {
        atoms: Sequence::from_vec(atoms),
        fluents: Sequence::from_vec(fluents),
    }))
}

/// Reads a state: words of it, after `start` if they change the initial state. Else no other atom
/// is true, and `-` stands for no atom. Fluents that it does not name are as in the initial state.
pub fn state_of(alloc: Global, task: &Task, text: &str) -> Result<Option<State>, AllocError>
    ensures { IfOk result (λ r. IfSome r (IsStateOf task.now)) }
{
    let Some(state) = parts_of(alloc, task, text)? else {
        return Ok(None);
    };
    if state.atoms.len() != task.atoms.len() || state.fluents.len() != task.fluents.len() {
        return Ok(None);
    }
    Ok(Some(state))
}

/// Appends a word of a state.
fn push_word(list: &mut String, word: &str) -> Result<(), AllocError> {
    if !list.is_empty() {
        list.push_str(" ")?;
    }
    list.push_str(word)?;
    Ok(())
}

/// Returns the name of a form.
fn name_at<'a>(names: &'a [Name], forms: &[GroundForm], place: usize) -> &'a str {
    match forms.get(place) {
        Some(form) => match names.get(form.symbol) {
            Some(name) => name.as_str(),
            None => "?",
        },
        None => "?",
    }
}

/// Writes a state.
fn state_text(alloc: Global, task: &Task, state: &State) -> Result<String, AllocError> {
    let mut list = String::new(alloc);
    for (place, atom) in state.atoms.as_slice().iter().enumerate() {
        if *atom {
            let names = task.names.predicates.as_slice();
            push_word(&mut list, name_at(names, task.atoms.as_slice(), place))?;
        }
    }
    for (place, value) in state.fluents.as_slice().iter().enumerate() {
        let names = task.names.functions.as_slice();
        let name = name_at(names, task.fluents.as_slice(), place);
        let word = format!(in alloc; "{name}={value}")?;
        push_word(&mut list, word.as_str())?;
    }
    if list.is_empty() {
        list.push_str("-")?;
    }
    Ok(list)
}

/// Answers where an action leads from a state, and its cost.
fn applied(
    alloc: Global,
    task: &Task,
    name: &str,
    state: &State,
) -> Result<Option<String>, AllocError>
    requires { IsStateOf task.now state.now }
{
    for (place, action) in task.actions.as_slice().iter().enumerate() {
        let Some(found) = task.names.schemas.as_slice().get(action.form.symbol) else {
            return Ok(None);
        };
        if found.as_str() != name {
            continue;
        }
        let Ok(number) = u32::try_from(place) else {
            return Ok(None);
        };
        if number as usize >= task.actions.len() {
            return Ok(None);
        }
        return match apply(alloc, task, state, ActionId(number))? {
            Applied::No => told(alloc, "no"),
            Applied::Departs => told(alloc, "departs"),
            Applied::Next(after, cost) => {
                let text = state_text(alloc, task, &after)?;
                Ok(Some(format!(in alloc; "{text}, cost {cost}")?))
            }
        };
    }
    Ok(None)
}

/// Answers which worker owns a state.
fn owned(
    alloc: Global,
    task: &Task,
    count: &str,
    state: &State,
) -> Result<Option<String>, AllocError> {
    let hash = Words::new(alloc, task)?.hash(state);
    match count.parse::<usize>() {
        Ok(workers) if workers >= 1 && workers <= MAX_WORKERS => {
            Ok(Some(format!(in alloc; "{}", owner(hash, workers))?))
        }
        _ => Ok(None),
    }
}

/// Answers the estimate of a state.
fn estimated(alloc: Global, task: &Task, state: &State) -> Result<Option<String>, AllocError>
    requires { IsStateOf task.now state.now }
{
    let mut hmax = Hmax::new(alloc, task)?;
    match hmax.value(state) {
        EstimateValue::Cost(cost) => Ok(Some(format!(in alloc; "{cost}")?)),
        EstimateValue::Dead => told(alloc, "dead"),
    }
}

/// Answers what `verb` asks of a state.
fn asked(
    alloc: Global,
    task: &Task,
    verb: &str,
    state: &State,
) -> Result<Option<String>, AllocError>
    requires { IsStateOf task.now state.now }
{
    match verb {
        "hash" => Ok(Some(format!(in alloc; "{:X}", Words::new(alloc, task)?.hash(state))?)),
        "packed" => {
            let packed = pack(alloc, &Layout::new(task), state)?;
            Ok(Some(hex_of(alloc, packed.bytes())?))
        }
        "estimate" => estimated(alloc, task, state),
        "goal" => match goal(task, state) {
            GoalTest::Yes => told(alloc, "yes"),
            GoalTest::No => told(alloc, "no"),
            GoalTest::Departs => told(alloc, "departs"),
        },
        _ => Ok(None),
    }
}

/// Answers a question about a state: `hash STATE`, `packed STATE`, `estimate STATE`, `goal STATE`,
/// `owner WORKERS STATE` or `apply ACTION STATE`.
pub fn ask_state(
    alloc: Global,
    task: &Task,
    verb: &str,
    rest: &str,
) -> Result<Option<String>, AllocError> {
    let (word, text) = match (verb, rest.split_once(' ')) {
        ("owner", Some((word, text))) | ("apply", Some((word, text))) => (word, text),
        _ => ("", rest),
    };
    let Some(state) = state_of(alloc, task, text)? else {
        return Ok(None);
    };
    match verb {
        "owner" => owned(alloc, task, word, &state),
        "apply" => applied(alloc, task, word, &state),
        _ => asked(alloc, task, verb, &state),
    }
}
