//! Why a condition on atoms and objects does not hold.
ghost use Rattle.std.specs.Prelude.{◌≡◌, true, IfOk, IfSome, IfNone, option_map};
ghost use Rattle.hd_lifted.specs.Conditions.{literal_holds, equality_holds, literals_hold};
ghost use Rattle.hd_judge.specs.Tables.{reached_in};
ghost use Rattle.hd_judge.specs.Reasons.{failing_literal, failing_equality, IsReasonOfLiterals};

use crate::reason::Reason;
use crate::table::Place;
use hd_base::NoMemory;
use hd_lifted::{Condition, Equality, Literal, ground_form_of, object_of};
use std::alloc::Global;

/// Reports whether a literal holds at a place.
fn literal_holds(
    alloc: Global,
    place: &Place,
    objects: &[usize],
    said: &Literal,
) -> Result<bool, NoMemory>
    ensures { IfOk result (λ b. b
        ≡ literal_holds (reached_in place.now).state.atoms objects.now said.now) }
{
    let atom = ground_form_of(alloc, objects, &said.atom)?;
    Ok(place.is_true(&atom) == said.positive)
}

/// Returns the first literal that does not hold at a place.
fn failing_literal<'a>(
    alloc: Global,
    place: &Place,
    objects: &[usize],
    said: &'a [Literal],
) -> Result<Option<&'a Literal>, NoMemory>
    ensures { IfOk result (λ l. option_map (λ r. r.now) l
        ≡ failing_literal (reached_in place.now).state.atoms objects.now said.now) }
{
    let mut rest = said;
    while let [first, after @ ..] = rest {
        if !literal_holds(alloc, place, objects, first)? {
            return Ok(Some(first));
        }
        rest = after;
    }
    Ok(None)
}

/// Reports whether an equality holds.
fn equality_holds(objects: &[usize], said: Equality) -> bool
    ensures { result ≡ equality_holds objects.now said }
{
    (object_of(objects, said.left) == object_of(objects, said.right)) == said.positive
}

/// Returns the first equality that does not hold.
fn failing_equality(objects: &[usize], said: &[Equality]) -> Option<Equality>
    ensures { result ≡ failing_equality objects.now said.now }
{
    let mut rest = said;
    while let [first, after @ ..] = rest {
        if !equality_holds(objects, *first) {
            return Some(*first);
        }
        rest = after;
    }
    None
}

/// Returns why a condition on atoms and objects does not hold at a place, where the parameters
/// stand for the objects: the first literal that does not hold, or else the first equality. `None`
/// says that all of them hold; comparisons are not asked.
///
/// # Errors
/// - Lack of memory.
#[tactic(auto, using(crate::proofs::Failing::all_where_none))]
pub(crate) fn explain_literals<'a>(
    alloc: Global,
    place: &Place,
    objects: &[usize],
    condition: &'a Condition,
) -> Result<Option<Reason<'a>>, NoMemory>
    ensures reason { IfOk result (λ r. IfSome r (IsReasonOfLiterals (reached_in place.now).state
        objects.now condition.now)) }
    ensures none { IfOk result (λ r. IfNone r (literals_hold (reached_in place.now).state
        objects.now condition.now ≡ true)) }
{
    let literals = condition.literals.as_slice();
    if let Some(literal) = failing_literal(alloc, place, objects, literals)? {
        return Ok(Some(Reason::Literal(literal)));
    }
    match failing_equality(objects, condition.equalities.as_slice()) {
        Some(equality) => Ok(Some(Reason::Equality(equality))),
        None => Ok(None),
    }
}
