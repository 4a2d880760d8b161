//! Effects.
ghost use Rattle.std.specs.Prelude.{◌≡◌};
ghost use Rattle.hd_check.specs.Lifting.{Lifts};
ghost use Rattle.hd_check.specs.Effects.{is_metric, lifted_change, change_fault, effects_fault, lifted_effect, lifted_effects};
ghost use Rattle.hd_check.specs.Effects.{GathersDeletes, GathersAdds, GathersChanges};

use crate::context::Context;
use crate::expressions::resolve_expression;
use crate::fault::CheckStop;
use crate::terms::resolve_applied;
use hd_base::{Boxed, Sequence};
use hd_lifted::{AppliedSymbol, ChangeKind, NumericEffect};
use hd_terms::{Effect, FluentChange};
use std::alloc::Global;

/// What an action does, by its kinds: each list is in the text's order.
#[derive(Debug, Drop)]
pub struct Effects {
    pub deletes: Sequence<AppliedSymbol>,
    pub adds: Sequence<AppliedSymbol>,
    pub changes: Sequence<NumericEffect>,
}

/// Reports whether a function is the metric's.
pub fn is_metric(metric: Option<usize>, function: usize) -> bool
    ensures { result ≡ is_metric metric function }
{
    match metric {
        Some(number) => number == function,
        None => false,
    }
}

/// Returns how a change changes its fluent, which may be the metric's.
fn change_of(cost: bool, change: hd_forms::ChangeWord) -> ChangeKind
    ensures { result ≡ lifted_change cost change }
{
    match change {
        hd_forms::ChangeWord::Assign => ChangeKind::Assign,
        hd_forms::ChangeWord::ScaleUp => ChangeKind::ScaleUp,
        hd_forms::ChangeWord::Increase if cost => ChangeKind::Cost,
        hd_forms::ChangeWord::Increase => ChangeKind::Increase,
        hd_forms::ChangeWord::Decrease => ChangeKind::Decrease,
    }
}

/// Returns what a change of a fluent stands for.
fn effect_of(
    alloc: Global,
    context: Context<'_>,
    said: &Boxed<FluentChange>,
) -> Result<NumericEffect, CheckStop>
    ensures { Lifts result change_fault lifted_effect context.entry said.now }
{
    let said = said.get();
    let fluent = resolve_applied(alloc, &context.scope.functions, context, &said.fluent)?;
    let cost = is_metric(context.scope.metric, fluent.symbol);
    let amount = resolve_expression(alloc, context, &said.amount)?;
    Ok(NumericEffect {
        change: change_of(cost, said.change),
        fluent,
        amount,
    })
}

/// What was found of an effect, by its kinds.
#[derive(Drop)]
struct FoundEffects {
    deletes: Vec<AppliedSymbol>,
    adds: Vec<AppliedSymbol>,
    changes: Vec<NumericEffect>,
}

impl FoundEffects {
    /// Adds what a part stands for.
    fn add(&mut self, alloc: Global, context: Context<'_>, part: &Effect) -> Result<(), CheckStop>
        ensures deletes { GathersDeletes result self.old self.new context.entry part.now }
        ensures adds { GathersAdds result self.old self.new context.entry part.now }
        ensures changes { GathersChanges result self.old self.new context.entry part.now }
    {
        match part {
            Effect::Add(atom) => {
                self.adds.push(resolve_applied(alloc, &context.scope.predicates, context, atom)?)?;
            }
            Effect::Delete(atom) => {
                self.deletes.push(resolve_applied(
                    alloc,
                    &context.scope.predicates,
                    context,
                    atom,
                )?)?;
            }
            Effect::Change(said) => {
                self.changes.push(effect_of(alloc, context, said)?)?;
            }
        }
        Ok(())
    }
}

/// Returns what an effect stands for.
pub fn effects_of(
    alloc: Global,
    context: Context<'_>,
    parts: &[Effect],
) -> Result<Effects, CheckStop>
    ensures { Lifts result effects_fault lifted_effects context.entry parts.now }
{
    let mut found = FoundEffects {
        deletes: Vec::new(alloc),
        adds: Vec::new(alloc),
        changes: Vec::new(alloc),
    };
    let mut rest = parts;
    while let [part, after @ ..] = rest {
        found.add(alloc, context, part)?;
        rest = after;
    }
    Ok(Effects {
        deletes: Sequence::from_vec(found.deletes),
        adds: Sequence::from_vec(found.adds),
        changes: Sequence::from_vec(found.changes),
    })
}
