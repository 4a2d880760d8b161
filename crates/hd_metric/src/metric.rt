//! How a metric's function may be used.
ghost use Rattle.std.specs.Prelude.{◌≡◌};
ghost use Rattle.std.specs.List.{list_any};
ghost use Rattle.std.specs.Option.{option_map};
ghost use Rattle.hd_metric.specs.Metric.{read_in, read_by_part, read_by_condition, change_of_metric, misused_by_part, misused_by_effect, misused_by_action, misused_by_actions, is_value_of, nonzero_at, nonzero_in, missing_in, bad_metric, misused_by_problem, misused_in_domain, misused_in_problem};

use crate::fault::BadMetric;
use hd_base::Name;
use hd_forms::{ChangeWord, NameAt};
use hd_pddl::{Action, DomainAst, Init, ProblemAst};
use hd_terms::{Condition, Effect, Expr, ExprParts, FluentChange, Leaf};

/// Returns the first place where an expression reads a function.
fn read_in(function: &Name, expression: &Expr) -> Option<usize>
    ensures { result ≡ read_in function.now expression.now }
{
    match expression.parts() {
        ExprParts::Leaf(Leaf::Number(_, _)) => None,
        ExprParts::Leaf(Leaf::Fluent(fluent)) => {
            let fluent = fluent.get();
            if fluent.name.name == *function {
                Some(fluent.name.at)
            } else {
                None
            }
        }
        ExprParts::Negate(inner) => read_in(function, inner),
        ExprParts::Binary(_, left, right) => match read_in(function, left) {
            Some(at) => Some(at),
            None => read_in(function, right),
        },
    }
}

/// Returns the first place where a part of a condition reads a function.
fn read_by_part(function: &Name, part: &Condition) -> Option<usize>
    ensures { result ≡ read_by_part function.now part.now }
{
    match part {
        Condition::Compare(comparison) => {
            match read_in(function, &comparison.left) {
                Some(at) => Some(at),
                None => read_in(function, comparison.right.get()),
            }
        }
        Condition::Atom(_) => None,
        Condition::NotAtom(_) => None,
        Condition::Equal(_, _) => None,
        Condition::NotEqual(_, _) => None,
    }
}

/// Returns the first place where a condition reads a function.
fn read_by_condition(function: &Name, condition: &[Condition]) -> Option<usize>
    ensures { result ≡ read_by_condition function.now condition.now }
{
    let mut rest = condition;
    while let [first, after @ ..] = rest {
        if let Some(at) = read_by_part(function, first) {
            return Some(at);
        }
        rest = after;
    }
    None
}

/// Returns the place where a change of the metric's function is none that it may have, or reads it.
fn change_of_metric(function: &Name, change: &FluentChange) -> Option<usize>
    ensures { result ≡ change_of_metric function.now change.now change.now.change }
{
    match change.change {
        ChangeWord::Increase => read_in(function, &change.amount),
        ChangeWord::Assign => Some(change.fluent.name.at),
        ChangeWord::ScaleUp => Some(change.fluent.name.at),
        ChangeWord::Decrease => Some(change.fluent.name.at),
    }
}

/// Returns the place where a part of an effect misuses the metric's function.
fn misused_by_part(function: &Name, part: &Effect) -> Option<usize>
    ensures { result ≡ misused_by_part function.now part.now }
{
    match part {
        Effect::Add(_) => None,
        Effect::Delete(_) => None,
        Effect::Change(change) => {
            let change = change.get();
            if change.fluent.name.name == *function {
                change_of_metric(function, change)
            } else {
                read_in(function, &change.amount)
            }
        }
    }
}

/// Returns the first place where an effect misuses the metric's function.
fn misused_by_effect(function: &Name, effect: &[Effect]) -> Option<usize>
    ensures { result ≡ misused_by_effect function.now effect.now }
{
    let mut rest = effect;
    while let [first, after @ ..] = rest {
        if let Some(at) = misused_by_part(function, first) {
            return Some(at);
        }
        rest = after;
    }
    None
}

/// Returns the place where an action misuses the metric's function.
fn misused_by_action(function: &Name, action: &Action) -> Option<usize>
    ensures { result ≡ misused_by_action function.now action.now }
{
    match read_by_condition(function, action.precondition.as_slice()) {
        Some(at) => Some(at),
        None => misused_by_effect(function, action.effect.as_slice()),
    }
}

/// Returns the first place where actions misuse the metric's function.
fn misused_by_actions(function: &Name, actions: &[Action]) -> Option<usize>
    ensures { result ≡ misused_by_actions function.now actions.now }
{
    let mut rest = actions;
    while let [first, after @ ..] = rest {
        if let Some(at) = misused_by_action(function, first) {
            return Some(at);
        }
        rest = after;
    }
    None
}

/// Reports whether this is the function's first value.
fn is_value_of(function: &Name, said: &Init) -> bool
    ensures { result ≡ is_value_of function.now said.now }
{
    match said {
        Init::Value(value) => value.fluent.get().name.name == *function,
        Init::Atom(_) => false,
        Init::NotAtom(_) => false,
    }
}

/// Returns the place of the function's first value, if that is not 0.
fn nonzero_at(function: &Name, said: &Init) -> Option<usize>
    ensures { result ≡ nonzero_at function.now said.now }
{
    match said {
        Init::Value(value) => {
            if value.fluent.get().name.name == *function && value.value.unsigned_abs() != 0 {
                Some(value.at)
            } else {
                None
            }
        }
        Init::Atom(_) => None,
        Init::NotAtom(_) => None,
    }
}

/// Returns the first such place.
fn nonzero_in(function: &Name, init: &[Init]) -> Option<usize>
    ensures { result ≡ nonzero_in function.now init.now }
{
    let mut rest = init;
    while let [first, after @ ..] = rest {
        if let Some(at) = nonzero_at(function, first) {
            return Some(at);
        }
        rest = after;
    }
    None
}

/// Reports whether the function has a first value.
fn has_value(function: &Name, init: &[Init]) -> bool
    ensures { result ≡ list_any (is_value_of function.now) init.now }
{
    let mut rest = init;
    while let [first, after @ ..] = rest {
        if is_value_of(function, first) {
            return true;
        }
        rest = after;
    }
    false
}

/// Returns the place of the metric's name, where its function has no first value.
fn missing_in(metric: &NameAt, init: &[Init]) -> Option<usize>
    ensures { result ≡ missing_in metric.now init.now }
{
    if has_value(&metric.name, init) {
        None
    } else {
        Some(metric.at)
    }
}

/// Returns the first place in a problem where the metric's function is misused.
fn misused_by_problem(metric: &NameAt, problem: &ProblemAst) -> Option<usize>
    ensures { result ≡ misused_by_problem metric.now problem.now }
{
    let init = problem.init.as_slice();
    if let Some(at) = nonzero_in(&metric.name, init) {
        return Some(at);
    }
    if let Some(at) = read_by_condition(&metric.name, problem.goal.as_slice()) {
        return Some(at);
    }
    missing_in(metric, init)
}

/// Returns the misuse that is at this place, if there is one.
fn bad_metric(place: Option<usize>) -> Option<BadMetric>
    ensures { result ≡ option_map bad_metric place }
{
    match place {
        Some(at) => Some(BadMetric { at }),
        None => None,
    }
}

/// Returns the first misuse of the metric's function in a domain.
pub fn misused_in_domain(metric: &Option<NameAt>, domain: &DomainAst) -> Option<BadMetric>
    ensures { result ≡ misused_in_domain metric.now domain.now }
{
    let Some(name) = metric else {
        return None;
    };
    bad_metric(misused_by_actions(&name.name, domain.actions.as_slice()))
}

/// Returns the first such misuse in a problem.
pub fn misused_in_problem(metric: &Option<NameAt>, problem: &ProblemAst) -> Option<BadMetric>
    ensures { result ≡ misused_in_problem metric.now problem.now }
{
    let Some(name) = metric else {
        return None;
    };
    bad_metric(misused_by_problem(name, problem))
}
