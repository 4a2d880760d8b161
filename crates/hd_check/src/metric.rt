//! The metric's name.
ghost use Rattle.hd_base.specs.Answers.{Checks};
ghost use Rattle.hd_check.specs.Fault.{StopsAt};
ghost use Rattle.hd_check.specs.MetricName.{metric_name_fault};

use crate::fault::CheckStop;
use crate::terms::{parameters_at, wrong_arity};
use hd_base::Sequence;
use hd_forms::NameAt;
use hd_names::{Table, known};
use hd_terms::ItemKind;
use std::alloc::Global;

/// Asks that the metric's function is declared, without parameters.
#[tactic(auto, using(crate::proofs::Telling::stops_first))]
pub fn check_metric_name(
    alloc: Global,
    functions: &Table<Sequence<usize>>,
    metric: &Option<NameAt>,
) -> Result<(), CheckStop>
    ensures { Checks StopsAt result (metric_name_fault functions.now metric.now) tt }
{
    let Some(name) = metric else {
        return Ok(());
    };
    let number = known(alloc, ItemKind::Name, &functions.names, name)?;
    if parameters_at(functions, number).is_empty() {
        Ok(())
    } else {
        Err(wrong_arity(alloc, name))
    }
}
