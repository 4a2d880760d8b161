//! The tests that the parts of a task fit together.
ghost use Rattle.std.specs.Prelude.{◌≡◌, ◌+ℤ◌, ◌≤ℤ◌, pos, neg_ℤ, ◌^◌, [], map, nat_lt, IfSome};
ghost use Rattle.std.specs.List.{list_all};
ghost use Rattle.hd_base.specs.Numbers.{in_range};
ghost use Rattle.hd_base.specs.Answers.{Judges};
ghost use Rattle.hd_task.specs.Expressions.{value_of};
ghost use Rattle.hd_base.specs.Numbers.{IsNear};
ghost use Rattle.hd_task.specs.WellFormed.{within_limits, is_named, are_named, leaf_reads_below, reads_below, comparison_reads_below, term_reads_below, change_reads_below, effect_fits, is_rising, action_fits, goal_fits, is_constant_amount, constant_sum, costs_fit, constant_cost_fits};

use crate::{
    Action, Comparison, Condition, Effect, Expr, GroundForm, MAX_ACTIONS, MAX_AMOUNTS, MAX_ATOMS,
    MAX_FLUENTS, Names, SumPart, ValueChange,
};
use hd_base::{ExprParts, Operand, in_range};

/// Reports whether a task may have so many atoms, fluents and actions.
pub(crate) fn are_within_limits(atoms: usize, fluents: usize, actions: usize) -> bool
    ensures { result ≡ within_limits atoms fluents actions }
{
    atoms <= MAX_ATOMS && fluents <= MAX_FLUENTS && actions <= MAX_ACTIONS
}

/// Reports whether all values are in the range.
pub(crate) fn are_all_in_range(values: &[i64]) -> bool
    ensures { result ≡ list_all in_range values.now }
{
    values.iter().all(|value| in_range(*value))
}

fn are_below(numbers: &[u32], end: usize) -> bool
    ensures { result ≡ list_all (λ i. nat_lt i end) numbers.now }
{
    numbers.iter().all(|number| (*number as usize) < end)
}

fn are_objects(numbers: &[usize], objects: usize) -> bool
    ensures { result ≡ list_all (λ o. nat_lt o objects) numbers.now }
{
    numbers.iter().all(|number| *number < objects)
}

fn is_named(form: &GroundForm, symbols: usize, objects: usize) -> bool
    ensures { result ≡ is_named symbols objects form.now }
{
    form.symbol < symbols && are_objects(form.objects.as_slice(), objects)
}

fn are_forms_named(forms: &[GroundForm], symbols: usize, objects: usize) -> bool
    ensures { result ≡ list_all (is_named symbols objects) forms.now }
{
    forms.iter().all(|form| is_named(form, symbols, objects))
}

fn are_actions_named(actions: &[Action], schemas: usize, objects: usize) -> bool
    ensures { result ≡ list_all (λ a. is_named schemas objects a.form) actions.now }
{
    actions
        .iter()
        .all(|action| is_named(&action.form, schemas, objects))
}

/// Reports whether each atom, fluent and action has its names.
pub(crate) fn are_named(
    names: &Names,
    atoms: &[GroundForm],
    fluents: &[GroundForm],
    actions: &[Action],
) -> bool
    ensures { result ≡ are_named names.now atoms.now fluents.now actions.now }
{
    let objects = names.objects.len();
    are_forms_named(atoms, names.predicates.len(), objects)
        && are_forms_named(fluents, names.functions.len(), objects)
        && are_actions_named(actions, names.schemas.len(), objects)
}

/// Reports whether a leaf is a number, or a fluent below a number.
fn leaf_reads_below(leaf: Operand<u32>, fluents: usize) -> bool
    ensures { result ≡ leaf_reads_below fluents leaf }
{
    match leaf {
        Operand::Number(_) => true,
        Operand::Fluent(fluent) => (fluent as usize) < fluents,
    }
}

/// Reports whether an expression reads only fluents below a number.
fn reads_below(expr: &Expr, fluents: usize) -> bool
    ensures { result ≡ reads_below fluents expr.now }
{
    match expr.parts() {
        ExprParts::Leaf(leaf) => leaf_reads_below(*leaf, fluents),
        ExprParts::Negate(inner) => reads_below(inner, fluents),
        ExprParts::Binary(_, left, right) => {
            reads_below(left, fluents) && reads_below(right, fluents)
        }
    }
}

fn comparison_reads_below(comparison: &Comparison, fluents: usize) -> bool
    ensures { result ≡ comparison_reads_below fluents comparison.now }
{
    reads_below(&comparison.left, fluents) && reads_below(&comparison.right, fluents)
}

fn comparisons_read_below(comparisons: &[Comparison], fluents: usize) -> bool
    ensures { result ≡ list_all (comparison_reads_below fluents) comparisons.now }
{
    comparisons
        .iter()
        .all(|comparison| comparison_reads_below(comparison, fluents))
}

fn term_reads_below(term: &SumPart, fluents: usize) -> bool
    ensures { result ≡ term_reads_below fluents term.now }
{
    match term {
        SumPart::Increase(amount) | SumPart::Decrease(amount) => reads_below(amount, fluents),
    }
}

fn terms_read_below(terms: &[SumPart], fluents: usize) -> bool
    ensures { result ≡ list_all (term_reads_below fluents) terms.now }
{
    terms.iter().all(|term| term_reads_below(term, fluents))
}

fn change_reads_below(change: &ValueChange, fluents: usize) -> bool
    ensures { result ≡ change_reads_below fluents change.now }
{
    match change {
        ValueChange::Assign(amount) | ValueChange::ScaleUp(amount) => reads_below(amount, fluents),
        ValueChange::Sum(terms) => terms_read_below(terms.as_slice(), fluents),
    }
}

fn effect_fits(effect: &Effect, fluents: usize) -> bool
    ensures { result ≡ effect_fits fluents effect.now }
{
    (effect.fluent as usize) < fluents && change_reads_below(&effect.change, fluents)
}

fn effects_fit(effects: &[Effect], fluents: usize) -> bool
    ensures { result ≡ list_all (effect_fits fluents) effects.now }
{
    effects.iter().all(|effect| effect_fits(effect, fluents))
}

/// Reports whether the fluents of the effects rise, so that none stands twice.
fn are_rising(effects: &[Effect]) -> bool
    ensures { result ≡ is_rising (map (λ e. e.fluent) effects.now) }
{
    let mut left = effects;
    while let [first, rest @ ..] = left {
        if let [second, ..] = rest
            && second.fluent <= first.fluent
        {
            return false;
        }
        left = rest;
    }
    true
}

fn action_fits(action: &Action, atoms: usize, fluents: usize) -> bool
    ensures { result ≡ action_fits atoms fluents action.now }
{
    are_below(action.adds.as_slice(), atoms)
        && comparisons_read_below(action.condition.comparisons.as_slice(), fluents)
        && effects_fit(action.effects.as_slice(), fluents)
        && are_rising(action.effects.as_slice())
}

/// Reports whether each action adds atoms of the task, and reads and changes its fluents, each of
/// them at most once.
pub(crate) fn are_actions_well_formed(actions: &[Action], atoms: usize, fluents: usize) -> bool
    ensures { result ≡ list_all (action_fits atoms fluents) actions.now }
{
    actions
        .iter()
        .all(|action| action_fits(action, atoms, fluents))
}

fn literals_name_below(condition: &Condition, atoms: usize) -> bool
    ensures { result ≡ list_all (λ l. nat_lt l.atom atoms) condition.now.literals }
{
    let literals = condition.literals.as_slice();
    literals
        .iter()
        .all(|literal| (literal.atom as usize) < atoms)
}

/// Reports whether a goal names atoms of the task and reads its fluents.
pub(crate) fn goal_fits(goal: &Condition, atoms: usize, fluents: usize) -> bool
    ensures { result ≡ goal_fits atoms fluents goal.now }
{
    literals_name_below(goal, atoms) && comparisons_read_below(goal.comparisons.as_slice(), fluents)
}

/// Returns a sum with one more amount, if that is a number.
fn plus_number(sum: i128, cost: &Expr) -> Option<i128>
    requires low { neg_ℤ (pos (2 ^ 126)) ≤ℤ sum }
    requires high { sum ≤ℤ pos (2 ^ 126) }
    ensures value { Judges result (is_constant_amount cost.now) (sum +ℤ value_of [] cost.now) }
    ensures near { IfSome result (IsNear (2 ^ 63) sum) }
{
    match cost.parts() {
        ExprParts::Leaf(Operand::Number(amount)) => Some(sum + i128::from(*amount)),
        _ => None,
    }
}

/// Returns the sum of the amounts, if each is a number.
fn constant_sum(costs: &[Expr]) -> Option<i128>
    ensures { Judges result (list_all is_constant_amount costs.now) (constant_sum costs.now) }
{
    let mut sum = 0;
    for cost in costs {
        sum = plus_number(sum, cost)?;
    }
    Some(sum)
}

fn read_below(amounts: &[Expr], fluents: usize) -> bool
    ensures { result ≡ list_all (reads_below fluents) amounts.now }
{
    amounts.iter().all(|amount| reads_below(amount, fluents))
}

fn costs_fit(action: &Action, fluents: usize, metric: bool) -> bool
    ensures { result ≡ costs_fit fluents metric action.now }
{
    (metric || action.costs.is_empty())
        && action.costs.len() <= MAX_AMOUNTS
        && read_below(action.costs.as_slice(), fluents)
}

/// Reports whether the actions' amounts read fluents of the task, and there are not too many of
/// them, without a metric none.
pub(crate) fn do_costs_fit(actions: &[Action], fluents: usize, metric: bool) -> bool
    ensures { result ≡ list_all (costs_fit fluents metric) actions.now }
{
    actions
        .iter()
        .all(|action| costs_fit(action, fluents, metric))
}

fn constant_cost_fits(action: &Action) -> bool
    ensures { result ≡ constant_cost_fits action.now }
{
    match constant_sum(action.costs.as_slice()) {
        Some(sum) => 0 <= sum,
        None => true,
    }
}

/// Reports whether no action whose amounts are all constant has a negative cost.
pub(crate) fn do_constant_costs_fit(actions: &[Action]) -> bool
    ensures { result ≡ list_all constant_cost_fits actions.now }
{
    actions.iter().all(|action| constant_cost_fits(action))
}
