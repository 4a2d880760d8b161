//! Reasons as text, in the words of PDDL: with the names of objects in the place of parameters.
ghost use Rattle.std.specs.Prelude.{◌≡◌, ◌++◌, ◌∷◌, ℤ, List, codes, flat_map, map, slice_get, string_bytes, IfOk, OnOk};
ghost use Rattle.std.specs.Fmt.{decimal, signed_decimal};
ghost use Rattle.hd_lifted.specs.States.{ground_form_of, object_of};
ghost use Rattle.hd_judge.specs.Tables.{reached_in};
ghost use Rattle.hd_plan.specs.Texts.{name_of_object, name_of_function, object_text, form_text, fluent_text};
ghost use Rattle.hd_explain.specs.Texts.{literal_text, same_text, equality_text, operation_sign, leaf_text, expression_text, relation_sign, comparison_text, out_text, said_text, value_text, reading_text, readings_text, text_of};

use crate::reading::{Reading, readings_of};
use hd_base::{ExprParts, NoMemory, Operand, Operation, Relation};
use hd_judge::{DepartingPart, NewValue, Place, Reason};
use hd_lifted::{
    AppliedSymbol, Comparison, Equality, Expr, Ground, Leaf, LiftedTask, Literal, Signature,
    ground_form_of, object_of,
};
use std::alloc::Global;
use std::fmt::Write;

// ---- ground forms

/// Puts an object's name after a text.
fn push_object(text: &mut String, task: &LiftedTask, object: usize) -> Result<(), NoMemory>
    ensures { OnOk result (string_bytes text.new ≡ string_bytes text.old
        ++ name_of_object (slice_get task.now.objects object)) }
{
    match task.objects.as_slice().get(object) {
        Some(declared) => text.push_str(declared.name.as_str()),
        None => Ok(()),
    }
}

/// Puts an object after a space after a text.
fn push_argument(text: &mut String, task: &LiftedTask, object: usize) -> Result<(), NoMemory>
    ensures { OnOk result (string_bytes text.new ≡ string_bytes text.old
        ++ object_text task.now.objects object) }
{
    text.push_str(" ")?;
    push_object(text, task, object)
}

/// Puts objects after a text, each after a space.
pub(crate) fn push_objects(
    text: &mut String,
    task: &LiftedTask,
    objects: &[usize],
) -> Result<(), NoMemory>
    ensures { OnOk result (string_bytes text.new ≡ string_bytes text.old
        ++ flat_map (object_text task.now.objects) objects.now) }
{
    for object in objects {
        push_argument(text, task, *object)?;
    }
    Ok(())
}

/// Puts a symbol's name after a text.
fn push_symbol(text: &mut String, symbols: &[Signature], symbol: usize) -> Result<(), NoMemory>
    ensures { OnOk result (string_bytes text.new ≡ string_bytes text.old
        ++ name_of_function (slice_get symbols.now symbol)) }
{
    match symbols.get(symbol) {
        Some(declared) => text.push_str(declared.name.as_str()),
        None => Ok(()),
    }
}

/// Puts a ground form after a text, its symbol one of these.
pub(crate) fn push_ground_form(
    text: &mut String,
    task: &LiftedTask,
    symbols: &[Signature],
    form: &Ground,
) -> Result<(), NoMemory>
    ensures { OnOk result (string_bytes text.new ≡ string_bytes text.old
        ++ form_text (name_of_function (slice_get symbols.now form.now.symbol))
        task.now.objects form.now.objects) }
{
    text.push_str("(")?;
    push_symbol(text, symbols, form.symbol)?;
    push_objects(text, task, form.objects.as_slice())?;
    text.push_str(")")
}

/// Puts a fluent after a text.
fn push_fluent(
    alloc: Global,
    text: &mut String,
    task: &LiftedTask,
    objects: &[usize],
    said: &AppliedSymbol,
) -> Result<(), NoMemory>
    ensures { OnOk result (string_bytes text.new ≡ string_bytes text.old
        ++ fluent_text task.now (ground_form_of objects.now said.now)) }
{
    let fluent = ground_form_of(alloc, objects, said)?;
    push_ground_form(text, task, task.functions.as_slice(), &fluent)
}

// ---- conditions

/// Puts a literal after a text.
fn push_literal(
    alloc: Global,
    text: &mut String,
    task: &LiftedTask,
    objects: &[usize],
    said: &Literal,
) -> Result<(), NoMemory>
    ensures { OnOk result (string_bytes text.new ≡ string_bytes text.old
        ++ literal_text task.now objects.now said.now) }
{
    let atom = ground_form_of(alloc, objects, &said.atom)?;
    if said.positive {
        return push_ground_form(text, task, task.predicates.as_slice(), &atom);
    }
    text.push_str("(not ")?;
    push_ground_form(text, task, task.predicates.as_slice(), &atom)?;
    text.push_str(")")
}

/// Puts two objects that are the same after a text.
fn push_same(
    text: &mut String,
    task: &LiftedTask,
    objects: &[usize],
    said: Equality,
) -> Result<(), NoMemory>
    ensures { OnOk result (string_bytes text.new ≡ string_bytes text.old
        ++ same_text task.now objects.now said) }
{
    text.push_str("(= ")?;
    push_object(text, task, object_of(objects, said.left))?;
    text.push_str(" ")?;
    push_object(text, task, object_of(objects, said.right))?;
    text.push_str(")")
}

/// Puts an equality after a text.
fn push_equality(
    text: &mut String,
    task: &LiftedTask,
    objects: &[usize],
    said: Equality,
) -> Result<(), NoMemory>
    ensures { OnOk result (string_bytes text.new ≡ string_bytes text.old
        ++ equality_text task.now objects.now said) }
{
    if said.positive {
        return push_same(text, task, objects, said);
    }
    text.push_str("(not ")?;
    push_same(text, task, objects, said)?;
    text.push_str(")")
}

/// Returns the beginning of what an operation makes of two expressions.
fn operation_start(operation: Operation) -> &'static str
    ensures { result.now ≡ operation_sign operation }
{
    match operation {
        Operation::Add => "(+ ",
        Operation::Subtract => "(- ",
        Operation::Multiply => "(* ",
    }
}

/// Puts a number or a fluent after a text.
fn push_leaf(
    alloc: Global,
    text: &mut String,
    task: &LiftedTask,
    objects: &[usize],
    said: &Leaf,
) -> Result<(), NoMemory>
    ensures { OnOk result (string_bytes text.new ≡ string_bytes text.old
        ++ leaf_text task.now objects.now said.now) }
{
    match said {
        Operand::Number(number) => write!(text, "{number}"),
        Operand::Fluent(fluent) => push_fluent(alloc, text, task, objects, fluent.get()),
    }
}

/// Puts an expression after a text.
fn push_expression(
    alloc: Global,
    text: &mut String,
    task: &LiftedTask,
    objects: &[usize],
    said: &Expr,
) -> Result<(), NoMemory>
    ensures { OnOk result (string_bytes text.new ≡ string_bytes text.old
        ++ expression_text task.now objects.now said.now) }
{
    match said.parts() {
        ExprParts::Leaf(leaf) => push_leaf(alloc, text, task, objects, leaf),
        ExprParts::Negate(inner) => {
            text.push_str("(- ")?;
            push_expression(alloc, text, task, objects, inner)?;
            text.push_str(")")
        }
        ExprParts::Binary(operation, left, right) => {
            text.push_str(operation_start(operation))?;
            push_expression(alloc, text, task, objects, left)?;
            text.push_str(" ")?;
            push_expression(alloc, text, task, objects, right)?;
            text.push_str(")")
        }
    }
}

/// Returns the beginning of a comparison.
fn relation_start(relation: Relation) -> &'static str
    ensures { result.now ≡ relation_sign relation }
{
    match relation {
        Relation::Less => "(< ",
        Relation::LessOrEqual => "(<= ",
        Relation::Equal => "(= ",
        Relation::GreaterOrEqual => "(>= ",
        Relation::Greater => "(> ",
    }
}

/// Puts a comparison after a text.
fn push_comparison(
    alloc: Global,
    text: &mut String,
    task: &LiftedTask,
    objects: &[usize],
    said: &Comparison,
) -> Result<(), NoMemory>
    ensures { OnOk result (string_bytes text.new ≡ string_bytes text.old
        ++ comparison_text task.now objects.now said.now) }
{
    text.push_str(relation_start(said.relation))?;
    push_expression(alloc, text, task, objects, &said.left)?;
    text.push_str(" ")?;
    push_expression(alloc, text, task, objects, &said.right)?;
    text.push_str(")")
}

// ---- reasons

/// Puts a value that is out of the range after a text.
fn push_out(text: &mut String, value: i128) -> Result<(), NoMemory>
    ensures { OnOk result (string_bytes text.new ≡ string_bytes text.old ++ out_text value) }
{
    write!(text, " is {value}, out of the range")
}

/// Puts a subexpression with its value after a text.
fn push_departure(
    alloc: Global,
    text: &mut String,
    task: &LiftedTask,
    objects: &[usize],
    departure: &DepartingPart<'_>,
) -> Result<(), NoMemory>
    ensures { OnOk result (string_bytes text.new ≡ string_bytes text.old
        ++ (expression_text task.now objects.now departure.now.part.now
        ++ out_text departure.now.value)) }
{
    push_expression(alloc, text, task, objects, departure.part)?;
    push_out(text, departure.value)
}

/// Puts words, a fluent and its value, which is out of the range, after a text.
fn push_changed(
    alloc: Global,
    text: &mut String,
    task: &LiftedTask,
    objects: &[usize],
    words: &str,
    fluent: &AppliedSymbol,
    value: i128,
) -> Result<(), NoMemory>
    ensures { OnOk result (string_bytes text.new ≡ string_bytes text.old
        ++ (words.now ++ fluent_text task.now (ground_form_of objects.now fluent.now)
        ++ out_text value)) }
{
    text.push_str(words)?;
    push_fluent(alloc, text, task, objects, fluent)?;
    push_out(text, value)
}

/// Puts a fluent's new value after a text.
fn push_new_value(
    alloc: Global,
    text: &mut String,
    task: &LiftedTask,
    objects: &[usize],
    new: &NewValue<'_>,
) -> Result<(), NoMemory>
    ensures { OnOk result (string_bytes text.new ≡ string_bytes text.old
        ++ (codes "the new value of "
        ++ fluent_text task.now (ground_form_of objects.now new.now.effect.now.fluent)
        ++ out_text new.now.value)) }
{
    let words = "the new value of ";
    let fluent = &new.effect.fluent;
    push_changed(alloc, text, task, objects, words, fluent, new.value)
}

/// Puts a number between words after a text.
fn push_between(text: &mut String, before: &str, after: &str, value: i128) -> Result<(), NoMemory>
    ensures { OnOk result (string_bytes text.new ≡ string_bytes text.old
        ++ (before.now ++ signed_decimal value ++ after.now)) }
{
    text.push_str(before)?;
    write!(text, "{value}")?;
    text.push_str(after)
}

/// Puts a negative cost after a text.
fn push_negative_cost(text: &mut String, value: i128) -> Result<(), NoMemory>
    ensures { OnOk result (string_bytes text.new ≡ string_bytes text.old
        ++ (codes "the cost of the step is " ++ signed_decimal value
        ++ codes ", less than 0")) }
{
    push_between(text, "the cost of the step is ", ", less than 0", value)
}

/// Puts two numbers with words around them after a text.
fn push_both(
    text: &mut String,
    first: &str,
    value: i128,
    middle: &str,
    before: u64,
    last: &str,
) -> Result<(), NoMemory>
    ensures { OnOk result (string_bytes text.new ≡ string_bytes text.old
        ++ (first.now ++ signed_decimal value ++ middle.now ++ decimal before ++ last.now)) }
{
    push_between(text, first, middle, value)?;
    write!(text, "{before}")?;
    text.push_str(last)
}

/// Puts a plan's cost after a text: that of the step, and that before it.
fn push_plan_cost(text: &mut String, value: i128, before: u64) -> Result<(), NoMemory>
    ensures { OnOk result (string_bytes text.new ≡ string_bytes text.old
        ++ (codes "the cost of the step is " ++ signed_decimal value
        ++ codes ", and with the " ++ decimal before
        ++ codes " before it out of the range")) }
{
    let first = "the cost of the step is ";
    let last = " before it out of the range";
    push_both(text, first, value, ", and with the ", before, last)
}

/// Puts after a text that what it says does not hold.
fn push_unmet(text: &mut String) -> Result<(), NoMemory>
    ensures { OnOk result (string_bytes text.new ≡ string_bytes text.old
        ++ codes " does not hold") }
{
    text.push_str(" does not hold")
}

/// Puts what a reason says after a text, without the values of its fluents.
fn push_reason(
    alloc: Global,
    text: &mut String,
    task: &LiftedTask,
    objects: &[usize],
    reason: &Reason<'_>,
) -> Result<(), NoMemory>
    ensures { OnOk result (string_bytes text.new ≡ string_bytes text.old
        ++ said_text task.now objects.now reason.now) }
{
    match reason {
        Reason::Literal(literal) => {
            push_literal(alloc, text, task, objects, literal)?;
            push_unmet(text)
        }
        Reason::Equality(equality) => {
            push_equality(text, task, objects, *equality)?;
            push_unmet(text)
        }
        Reason::Comparison(comparison) => {
            push_comparison(alloc, text, task, objects, comparison)?;
            push_unmet(text)
        }
        Reason::Subexpression(departure) => push_departure(alloc, text, task, objects, departure),
        Reason::NewValue(new) => push_new_value(alloc, text, task, objects, new),
        Reason::NegativeCost(cost) => push_negative_cost(text, cost.value),
        Reason::PlanCost(cost) => push_plan_cost(text, cost.value, cost.before),
    }
}

/// Puts the value of a fluent after a text.
fn push_value(text: &mut String, value: Option<i64>) -> Result<(), NoMemory>
    ensures { OnOk result (string_bytes text.new ≡ string_bytes text.old ++ value_text value) }
{
    match value {
        Some(value) => write!(text, " = {value}"),
        None => text.push_str(" has no value"),
    }
}

/// Puts a fluent with its value after a text.
fn push_reading(text: &mut String, task: &LiftedTask, reading: &Reading) -> Result<(), NoMemory>
    ensures { OnOk result (string_bytes text.new ≡ string_bytes text.old
        ++ reading_text task.now reading.now) }
{
    push_ground_form(text, task, task.functions.as_slice(), &reading.fluent)?;
    push_value(text, reading.value)
}

/// Puts fluents with their values after a text, each after a comma.
fn push_more(text: &mut String, task: &LiftedTask, readings: &[Reading]) -> Result<(), NoMemory>
    ensures { OnOk result (string_bytes text.new ≡ string_bytes text.old
        ++ flat_map (λ x. codes ", " ++ reading_text task.now x) readings.now) }
{
    let mut rest = readings;
    while let [first, after @ ..] = rest {
        text.push_str(", ")?;
        push_reading(text, task, first)?;
        rest = after;
    }
    Ok(())
}

/// Puts fluents with their values after a text, the first after a colon.
fn push_readings(text: &mut String, task: &LiftedTask, readings: &[Reading]) -> Result<(), NoMemory>
    ensures { OnOk result (string_bytes text.new ≡ string_bytes text.old
        ++ readings_text task.now readings.now) }
{
    let [first, more @ ..] = readings else {
        return Ok(());
    };
    text.push_str(": ")?;
    push_reading(text, task, first)?;
    push_more(text, task, more)
}

/// Returns one line that reports a reason, without a line's end, such as `(at b) does not hold` or
/// `(>= (fuel) 9) does not hold: (fuel) = 8`. The objects stand for the parameters of the step's
/// action; for the goal there are none.
///
/// # Errors
/// - Lack of memory.
pub fn text_of(
    alloc: Global,
    task: &LiftedTask,
    place: &Place,
    objects: &[usize],
    reason: &Reason<'_>,
) -> Result<String, NoMemory>
    ensures { IfOk result (λ line. string_bytes line
        ≡ text_of task.now (reached_in place.now) objects.now reason.now) }
{
    let readings = readings_of(alloc, place, objects, reason)?;
    let mut text = String::new(alloc);
    push_reason(alloc, &mut text, task, objects, reason)?;
    push_readings(&mut text, task, readings.as_slice())?;
    drop(readings);
    Ok(text)
}
