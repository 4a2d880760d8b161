//! What holds at first.
ghost use Rattle.std.specs.Prelude.{◌≡◌, IfOk};
ghost use Rattle.hd_base.specs.Answers.{Checks};
ghost use Rattle.hd_check.specs.Fault.{StopsAt};
ghost use Rattle.hd_check.specs.Initial.{no_parameters, object_in, ground_form, range_fault};
ghost use Rattle.hd_check.specs.Initial.{LiftsGround, Notes, LiftsFluent, NotesFluent, GathersFirstValues, NotesSaid, GathersAtoms, GathersValues, LiftsInitial};

use crate::context::Context;
use crate::effects::is_metric;
use crate::fault::{CheckFault, CheckStop};
use crate::keys::Keys;
use crate::terms::resolve_applied;
use hd_base::{Sequence, Tuple, in_range};
use hd_lifted::{AppliedSymbol, Argument, Ground, InitialValue};
use hd_names::{Scope, Table, duplicate};
use hd_pddl::Init;
use hd_terms::{Atom, ItemKind};
use smallvec::SmallVec;
use std::alloc::{AllocError, Global};

/// What holds at first. Both lists are in the text's order.
#[derive(Debug, Drop)]
pub struct Initial {
    pub atoms: Sequence<Ground>,
    pub values: Sequence<InitialValue>,
}

/// Returns a table of no parameters: outside of actions there are none.
pub fn no_parameters(alloc: Global, scope: &Scope) -> Table<usize>
    ensures { result ≡ no_parameters }
{
    Table {
        names: scope.types.none_alike(alloc),
        items: Sequence::empty(alloc),
    }
}

/// Returns the object of an argument: outside of actions each is one.
fn object_in(argument: Argument) -> usize
    ensures { result ≡ object_in argument }
{
    match argument {
        Argument::Object(number) => number,
        Argument::Parameter(_) => 0,
    }
}

/// Returns an atom or a fluent of objects.
fn ground_form(alloc: Global, applied: &AppliedSymbol) -> Result<Ground, AllocError>
    ensures { IfOk result (λ g. g ≡ ground_form applied.now) }
{
    let mut objects = SmallVec::new(alloc);
    for argument in applied.arguments.as_slice() {
        objects.push(object_in(*argument))?;
    }
    Ok(Ground {
        symbol: applied.symbol,
        objects: Tuple::from_small_vec(objects),
    })
}

/// Returns what an atom, or a fluent, outside of actions stands for.
fn ground_of(
    alloc: Global,
    symbols: &Table<Sequence<usize>>,
    scope: &Scope,
    atom: &Atom,
) -> Result<Ground, CheckStop>
    ensures { LiftsGround result symbols.now scope.now atom.now }
{
    let parameters = no_parameters(alloc, scope);
    let context = Context {
        scope,
        parameters: &parameters,
    };
    let applied = resolve_applied(alloc, symbols, context, atom);
    drop(parameters);
    Ok(ground_form(alloc, &applied?)?)
}

/// Asks that a first value is in the range.
fn check_range(value: &hd_pddl::InitialValue) -> Result<(), CheckStop>
    ensures { Checks StopsAt result (range_fault value.now) tt }
{
    if in_range(value.value) {
        Ok(())
    } else {
        Err(CheckStop::At(CheckFault::InitOutOfRange(value.at)))
    }
}

/// Asks that a fluent has no value yet, and notes that it has one now.
#[tactic(auto, using(crate::proofs::Telling::stops_part))]
fn note_value(
    alloc: Global,
    given: &mut Keys,
    fluent: &Ground,
    said: &Atom,
) -> Result<(), CheckStop>
    ensures { Notes result given.old given.new fluent.now said.now }
{
    if given.add(alloc, fluent)? {
        Ok(())
    } else {
        Err(CheckStop::from(duplicate(alloc, ItemKind::Name, &said.name)))
    }
}

/// Returns the fluent that has a first value.
fn fluent_of(
    alloc: Global,
    scope: &Scope,
    given: &mut Keys,
    value: &hd_pddl::InitialValue,
) -> Result<Ground, CheckStop>
    ensures fluent { LiftsFluent result given.old scope.now value.now }
    ensures given { NotesFluent result given.old given.new scope.now value.now }
{
    let said = value.fluent.get();
    let fluent = ground_of(alloc, &scope.functions, scope, said)?;
    note_value(alloc, given, &fluent, said)?;
    check_range(value)?;
    Ok(fluent)
}

/// Adds one first value more: the metric's function is no part of a state.
fn add_value(
    alloc: Global,
    scope: &Scope,
    given: &mut Keys,
    found: &mut Vec<InitialValue>,
    said: &hd_pddl::InitialValue,
) -> Result<(), CheckStop>
    ensures given { NotesFluent result given.old given.new scope.now said.now }
    ensures found { GathersFirstValues result found.old.items found.new.items
        given.old scope.now said.now }
{
    let fluent = fluent_of(alloc, scope, given, said)?;
    if !is_metric(scope.metric, fluent.symbol) {
        found.push(InitialValue {
            fluent,
            value: said.value,
        })?;
    }
    Ok(())
}

/// What was found of what holds at first, and the fluents that have a value.
#[derive(Drop)]
struct FoundInitial {
    given: Keys,
    atoms: Vec<Ground>,
    values: Vec<InitialValue>,
}

impl FoundInitial {
    /// Adds an atom, or a first value.
    fn add(&mut self, alloc: Global, scope: &Scope, said: &Init) -> Result<(), CheckStop>
        ensures given { NotesSaid result self.old self.new scope.now said.now }
        ensures atoms { GathersAtoms result self.old self.new scope.now said.now }
        ensures values { GathersValues result self.old self.new scope.now said.now }
    {
        match said {
            Init::Atom(atom) => {
                self.atoms
                    .push(ground_of(alloc, &scope.predicates, scope, atom)?)?;
            }
            Init::NotAtom(atom) => {
                ground_of(alloc, &scope.predicates, scope, atom)?;
            }
            Init::Value(value) => {
                add_value(alloc, scope, &mut self.given, &mut self.values, value)?;
            }
        }
        Ok(())
    }
}

/// Returns what holds at first.
pub fn initial_of(alloc: Global, scope: &Scope, init: &[Init]) -> Result<Initial, CheckStop>
    ensures { LiftsInitial result scope.now init.now }
{
    let mut found = FoundInitial {
        given: Keys::none(alloc, scope.types.seed()),
        atoms: Vec::new(alloc),
        values: Vec::new(alloc),
    };
    let mut rest = init;
    while let [first, after @ ..] = rest {
        if let Err(stop) = found.add(alloc, scope, first) {
            drop(found);
            return Err(stop);
        }
        rest = after;
    }
    let FoundInitial {
        given,
        atoms,
        values,
    } = found;
    drop(given);
    Ok(Initial {
        atoms: Sequence::from_vec(atoms),
        values: Sequence::from_vec(values),
    })
}
