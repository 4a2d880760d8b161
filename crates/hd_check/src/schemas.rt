//! Actions.
ghost use Rattle.std.specs.Prelude.{◌≡◌, IfOk};
ghost use Rattle.hd_check.specs.Lifting.{Lifts, LiftsIn};
ghost use Rattle.hd_check.specs.Schemas.{body_fault, body_of, schema_by, action_fault, lifted_schema, LiftsBody, LiftsActions};

use crate::conditions::condition_of;
use crate::context::Context;
use crate::effects::{Effects, effects_of};
use crate::fault::CheckStop;
use hd_base::{Name, Sequence};
use hd_lifted::{Condition, Schema};
use hd_names::{Scope, Table, declare, table_of};
use hd_pddl::Action;
use hd_terms::ItemKind;
use std::alloc::{AllocError, Global};

/// What an action's precondition and effect stand for.
#[derive(Debug, Drop)]
pub struct Body {
    pub condition: Condition,
    pub effects: Effects,
}

/// Returns what an action's precondition and effect stand for.
#[tactic(auto, unfolding(crate::specs::Schemas::body_fault))]
fn body_of(alloc: Global, context: Context<'_>, action: &Action) -> Result<Body, CheckStop>
    ensures { Lifts result body_fault body_of context.entry action.now }
{
    let condition = condition_of(alloc, context, action.precondition.as_slice())?;
    match effects_of(alloc, context, action.effect.as_slice()) {
        Ok(effects) => Ok(Body { condition, effects }),
        Err(stop) => {
            drop(condition);
            Err(stop)
        }
    }
}

/// Returns what an action of this name, with these parameters and this body, stands for.
fn schema_by(name: Name, parameters: Table<usize>, body: Body) -> Schema
    ensures { result ≡ schema_by name parameters body }
{
    Schema {
        name,
        parameters: parameters.items,
        condition: body.condition,
        deletes: body.effects.deletes,
        adds: body.effects.adds,
        effects: body.effects.changes,
    }
}

/// Returns what an action with these parameters and this body stands for.
fn named(
    alloc: Global,
    action: &Action,
    parameters: Table<usize>,
    body: Body,
) -> Result<Schema, AllocError>
    ensures { IfOk result (λ schema. schema ≡ schema_by action.now.name.name parameters body) }
{
    match action.name.name.copied(alloc) {
        Ok(name) => Ok(schema_by(name, parameters, body)),
        Err(error) => {
            drop(parameters);
            drop(body);
            Err(error)
        }
    }
}

/// Returns what an action with these parameters stands for.
#[tactic(auto, unfolding(crate::specs::Schemas::schema_with))]
fn schema_with(
    alloc: Global,
    scope: &Scope,
    parameters: Table<usize>,
    action: &Action,
) -> Result<Schema, CheckStop>
    ensures { LiftsBody result scope.now parameters action.now }
{
    let context = Context {
        scope,
        parameters: &parameters,
    };
    match body_of(alloc, context, action) {
        Ok(body) => Ok(named(alloc, action, parameters, body)?),
        Err(stop) => {
            drop(parameters);
            Err(stop)
        }
    }
}

/// Returns what an action stands for.
#[tactic(auto, unfolding(crate::specs::Schemas::lifted_schema, crate::specs::Schemas::action_fault), using(crate::proofs::Telling::stops_first))]
fn schema_of(alloc: Global, scope: &Scope, action: &Action) -> Result<Schema, CheckStop>
    ensures { LiftsIn result action_fault lifted_schema scope.now action.now }
{
    let declared = action.parameters.as_slice();
    let parameters = table_of(alloc, ItemKind::Variable, &scope.types, declared)?;
    schema_with(alloc, scope, parameters, action)
}

/// Returns what actions stand for, in their order.
#[tactic(auto, using(crate::proofs::Telling::stops_first))]
pub fn schemas_of(
    alloc: Global,
    scope: &Scope,
    actions: &[Action],
) -> Result<Sequence<Schema>, CheckStop>
    ensures { LiftsActions result scope.now actions.now }
{
    let mut names = scope.types.none_alike(alloc);
    let mut schemas = Vec::new(alloc);
    let mut rest = actions;
    while let [first, after @ ..] = rest {
        declare(alloc, ItemKind::Name, &mut names, &first.name)?;
        schemas.push(schema_of(alloc, scope, first)?)?;
        rest = after;
    }
    Ok(Sequence::from_vec(schemas))
}
