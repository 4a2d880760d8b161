//! What workers send to one another.
ghost use Rattle.std.specs.Prelude.{◌≡◌};

use hd_desk::Sent;
use hd_node::Parcel;
use hd_task::Task;
use std::marker::Model;

/// A parcel on its way to the worker that owns its state.
#[derive(Debug, Drop)]
pub struct Letter<'t> {
    parcel: Parcel<'t>,
}

impl<'t> Model for Letter<'t> {
    ghost use Rattle.hd_node.specs.Parcel.{ParcelView};
    ghost use Rattle.hd_task.specs.contracts.task.Task as tasks;
    ghost use Rattle.std.specs.Coded.{codes};

    ghost Value = { ParcelView };

    ghost coded = { Prim.hlevel (codes, tasks.the_row.coded) };

    ghost view = { λ l. l.parcel };
}

impl<'t> Sent<Task> for Letter<'t> {
    ghost of = { λ l. l.task };
}

impl<'t> Letter<'t> {
    /// Returns the letter of `parcel`, which is to be sent.
    pub fn of(parcel: Parcel<'t>) -> Letter<'t>
        ensures { result ≡ parcel.entry }
    {
        Letter { parcel }
    }

    /// Returns the parcel that came.
    pub fn into_parcel(self) -> Parcel<'t>
        ensures { result ≡ self.entry }
    {
        let Letter { parcel } = self;
        parcel
    }
}
