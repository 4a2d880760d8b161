//! The instance that a step names.
ghost use Rattle.std.specs.Prelude.{◌≡◌, IfOk};
ghost use Rattle.hd_plan.specs.Tables.{numbers_of, FindsNamed};

use crate::Step;
use crate::names::{NameTable, TaskNames};
use hd_base::{Name, NoMemory, Tuple};
use hd_lifted::Instance;
use smallvec::SmallVec;
use std::alloc::Global;

/// Returns the numbers of `names`, unless one is not in `table`.
#[tactic(auto, using(crate::proofs::Finding::behind_more, crate::proofs::Finding::behind_nil))]
fn numbers_of(
    alloc: Global,
    table: &NameTable<'_>,
    names: &[Name],
) -> Result<Option<Tuple<usize>>, NoMemory>
    ensures { IfOk result (λ found. found ≡ numbers_of table.now names.now) }
{
    let mut numbers = SmallVec::new(alloc);
    let mut rest = names;
    while let [first, after @ ..] = rest {
        let Some(number) = table.number_of(first) else {
            drop(numbers);
            return Ok(None);
        };
        numbers.push(number)?;
        rest = after;
    }
    Ok(Some(Tuple::from_small_vec(numbers)))
}

/// Returns the instance that has the names of a step, if there is one: whether its objects fit is
/// not asked here.
///
/// Fails only for lack of memory.
#[tactic(auto, using(crate::proofs::Stepping::names_found, crate::proofs::Stepping::no_schema, crate::proofs::Stepping::no_objects))]
pub fn instance_of(
    alloc: Global,
    names: &TaskNames<'_>,
    step: &Step,
) -> Result<Option<Instance>, NoMemory>
    ensures { IfOk result (FindsNamed names.now step.now) }
{
    let Some(schema) = names.schemas().number_of(&step.name) else {
        return Ok(None);
    };
    match numbers_of(alloc, names.objects(), step.args.as_slice())? {
        Some(objects) => Ok(Some(Instance { schema, objects })),
        None => Ok(None),
    }
}
