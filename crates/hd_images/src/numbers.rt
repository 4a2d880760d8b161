//! Ground forms by number.
ghost use Rattle.std.specs.Prelude.{◌≡◌, ◌≤◌, ◌^◌, Contains, length, IfOk};
ghost use Rattle.hd_lifted.specs.States.{ground_form_of};
ghost use Rattle.hd_lifted.specs.Numbering.{form_key, HasExactly};
ghost use Rattle.hd_grounding.specs.Images.{number_of};
ghost use Rattle.hd_images.specs.Order.{IsRising};

use crate::Forms;
use hd_base::{NoMemory, Seed};
use hd_lifted::{AppliedSymbol, Ground, ground_form_of};
use indexmap::IndexSet;
use std::alloc::Global;
use std::marker::Model;

/// Ground atoms, or ground fluents, which are numbered from 0 in the order of their symbols and
/// then of their objects. Contracts see the list of them.
#[derive(Drop)]
pub struct NumberedForms {
    table: IndexSet<Ground, Seed>,
}

impl Model for NumberedForms {
    ghost use Rattle.std.specs.Prelude.{List};
    ghost use Rattle.hd_lifted.specs.declared.schema.Ground.{Ground};
    ghost use Rattle.hd_images.specs.Order.{HaveNumbers};

    ghost Value = { List Ground };

    ghost view = { λ n. n.table.keys };

    ghost invariant = { λ n. HaveNumbers n.table.keys };
}

impl NumberedForms {
    /// Returns these forms by number.
    ///
    /// # Errors
    /// - Lack of memory.
    pub fn of(forms: Forms) -> Result<NumberedForms, NoMemory>
        requires { length forms ≤ 2 ^ 32 }
        ensures exactly { IfOk result (HasExactly (Contains forms) form_key) }
        ensures as_many { IfOk result (λ n. length n ≡ length forms) }
    {
        let Forms { table } = forms;
        let mut table = table;
        table.sort_unstable()?;
        Ok(NumberedForms { table })
    }

    /// Law: each form comes before the next, so that it has one number. Nothing is computed.
    pub fn are_rising(&self)
        ensures { IsRising self.now }
    {
        let _table = self.table.len();
    }

    /// Returns how many there are.
    pub fn len(&self) -> usize
        ensures { result ≡ length self.now }
    {
        self.table.len()
    }

    /// Returns the forms, in their order.
    pub(crate) fn as_slice(&self) -> &[Ground]
        ensures { result.now ≡ self.now }
    {
        self.table.as_slice()
    }

    /// Returns the number of a form, if it has one.
    pub fn number_of(&self, form: &Ground) -> Option<u32>
        ensures { result ≡ number_of self.now form.now }
    {
        match self.table.get_index_of(form) {
            Some(place) => Some(place as u32),
            None => None,
        }
    }

    /// Returns the number of a form with objects in the place of its arguments, if it has one.
    ///
    /// # Errors
    /// - Lack of memory, where the form has more than four objects.
    pub fn number_at(
        &self,
        alloc: Global,
        objects: &[usize],
        said: &AppliedSymbol,
    ) -> Result<Option<u32>, NoMemory>
        ensures { IfOk result (λ n. n ≡ number_of self.now (ground_form_of objects.now said.now)) }
    {
        let form = ground_form_of(alloc, objects, said)?;
        Ok(self.number_of(&form))
    }
}
