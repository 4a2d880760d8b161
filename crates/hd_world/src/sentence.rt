//! The headline: the sentence that the project is for, as the contract of a call that does
//! nothing.
ghost use Rattle.hd_world.specs.Headline.{Headline};

use hd_task::Task;

/// Law: for every list of worker steps, flushes, stops at any moment, also within a write, and
/// resumptions with any number of workers, recovery gives the search after a prefix, in commit
/// order, of the expansions that holds every acknowledged batch; a plan given is valid by PDDL
/// 2.1, one called optimal costs no more than any valid plan, and 'no plan' means that there is
/// none.
pub fn headline(_task: &Task)
    ensures { Headline _task.now }
{}
