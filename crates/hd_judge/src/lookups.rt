//! What is looked up in a lifted task for each of its instances.
ghost use Rattle.std.specs.Prelude.{◌≡◌, IfOk};
ghost use Rattle.hd_base.specs.Expression.{leaf};
ghost use Rattle.hd_lifted.specs.Expressions.{value_of};
ghost use Rattle.hd_lifted.specs.States.{first_value, ground_form_of};
ghost use Rattle.hd_lifted.specs.Amounts.{is_constant};

use crate::changed::Changed;
use crate::table::Numbers;
use hd_base::{ExprParts, NoMemory, Operand, Seed};
use hd_lifted::{AppliedSymbol, Expr, Ground, Leaf, LiftedTask, ground_form_of};
use std::alloc::Global;
use std::marker::Model;

/// A lifted task with tables of the functions that change and of the first values. Contracts see
/// the task.
#[derive(Drop)]
pub struct Lookups<'a> {
    task: &'a LiftedTask,
    changed: Changed,
    values: Numbers,
}

impl<'a> Model for Lookups<'a> {
    ghost use Rattle.hd_lifted.specs.declared.task.LiftedTask.{LiftedTask};
    ghost use Rattle.hd_judge.specs.Tables.{AreTablesOf};

    ghost Value = { LiftedTask };

    ghost use Rattle.hd_lifted.specs.contracts.task.LiftedTask as lifted;
    ghost use Rattle.std.specs.Coded.{codes};

    ghost coded = { Prim.hlevel (codes, lifted.the_row.coded) };

    ghost view = { λ l. l.task.now };

    ghost invariant = { λ l. AreTablesOf l.task.now l.changed l.values };
}

impl<'a> Lookups<'a> {
    /// Returns the tables of a lifted task, which hash by the seed.
    ///
    /// # Errors
    /// - Lack of memory.
    #[tactic(auto, unfolding(hd_lifted::specs::Amounts::is_changed))]
    pub fn of(alloc: Global, seed: Seed, task: &'a LiftedTask) -> Result<Lookups<'a>, NoMemory>
        ensures { IfOk result (λ l. l ≡ task.now) }
    {
        let changed = Changed::of(alloc, seed, task.schemas.as_slice())?;
        match Numbers::listed(alloc, seed, task.values.as_slice()) {
            Ok(values) => Ok(Lookups {
                task,
                changed,
                values,
            }),
            Err(error) => {
                drop(changed);
                Err(error)
            }
        }
    }

    /// Returns the lifted task.
    pub fn task(&self) -> &'a LiftedTask
        ensures { result.now ≡ self.now }
    {
        self.task
    }

    /// Reports whether an amount is the same in each state.
    pub fn is_constant(&self, amount: &Expr) -> bool
        ensures { result ≡ is_constant self.now amount.now }
    {
        match amount.parts() {
            ExprParts::Leaf(Operand::Number(_)) => true,
            ExprParts::Leaf(Operand::Fluent(fluent)) => !self.changed.has(fluent.get().symbol),
            ExprParts::Negate(_) | ExprParts::Binary(_, _, _) => false,
        }
    }

    /// Returns the first value of a fluent, if it has one.
    pub fn first_value_of(&self, fluent: &Ground) -> Option<i64>
        ensures { result ≡ first_value self.now.values fluent.now }
    {
        self.values.get(fluent)
    }

    /// Returns the first value of a fluent with objects in the place of its arguments, if it has
    /// one.
    ///
    /// # Errors
    /// - Lack of memory, where the fluent has more than four objects.
    pub fn first_value(
        &self,
        alloc: Global,
        objects: &[usize],
        said: &AppliedSymbol,
    ) -> Result<Option<i64>, NoMemory>
        ensures { IfOk result (λ v. v
            ≡ first_value self.now.values (ground_form_of objects.now said.now)) }
    {
        let fluent = ground_form_of(alloc, objects, said)?;
        Ok(self.first_value_of(&fluent))
    }

    /// Returns the value of a number, or of a fluent at first, if it has one.
    ///
    /// # Errors
    /// - Lack of memory, where the fluent has more than four objects.
    pub fn first_value_of_leaf(
        &self,
        alloc: Global,
        objects: &[usize],
        said: &Leaf,
    ) -> Result<Option<i64>, NoMemory>
        ensures { IfOk result (λ v. v
            ≡ value_of (first_value self.now.values) objects.now (leaf said.now)) }
    {
        match said {
            Operand::Number(value) => Ok(Some(*value)),
            Operand::Fluent(fluent) => self.first_value(alloc, objects, fluent.get()),
        }
    }
}
