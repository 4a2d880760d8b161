//! What a search looks up, made once for a task.
ghost use Rattle.std.specs.Prelude.{◌≡◌, IfOk};
ghost use Rattle.hd_worker.specs.Lookup.{IsLookupOf};

use hd_base::NoMemory;
use hd_hmax::Hmax;
use hd_successors::Successors;
use hd_task::Task;
use hd_zobrist::Words;
use std::alloc::Global;

/// The words of a task's hashes, the index of its actions, and what computes the estimates of its
/// states.
#[derive(Drop)]
pub struct Lookup<'t> {
    pub words: Words,
    pub successors: Successors<'t>,
    pub hmax: Hmax<'t>,
}

impl<'t> Lookup<'t> {
    /// Returns what is looked up for a task.
    ///
    /// # Errors
    /// - `NoMemory`: there is no room for it.
    pub fn of(alloc: Global, task: &'t Task) -> Result<Lookup<'t>, NoMemory>
        ensures { IfOk result (IsLookupOf task.now) }
    {
        let words = Words::new(alloc, task)?;
        let hmax = Hmax::new(alloc, task)?;
        match Successors::new(alloc, task) {
            Ok(successors) => Ok(Lookup {
                words,
                successors,
                hmax,
            }),
            Err(error) => {
                drop(words);
                drop(hmax);
                Err(error)
            }
        }
    }
}
