//! What is left of a text, line by line, and which line may stand where.
ghost use Rattle.std.specs.Prelude.{◌≡◌, if◌then◌else◌, drop, length, Err, IfOk};
ghost use Rattle.proof_lines.specs.Known.{naming};
ghost use Rattle.proof_lines.specs.Words.{is_word, seen};
ghost use Rattle.bound_cert.specs.Lines.{Gives, fits, left_of, line_due, may_stand, next_line, of_seen};
ghost use Rattle.bound_cert.specs.Wants.{WantsNone};
ghost use Rattle.bound_cert.specs.declared.faults.TheConstants.{BAD_LINE, TEXT_ENDS};
ghost use Rattle.bound_cert.specs.declared.faults.Stop.TheVariants as stop;
ghost use Rattle.bound_cert.specs.declared.reading_lines.Due.TheVariants as due;

use crate::faults::{BAD_LINE, Stop, TEXT_ENDS, WRONG_WORD};
use entries::NoMemory;
use proof_lines::flaws::{Flaw, least};
use proof_lines::{Form, Grammar, Line, read_line};
use std::alloc::{AllocError, Global};

/// What kind of line is due.
#[derive(Clone, Copy)]
pub enum Due {
    /// Whether a plan comes with the proof.
    Plan,
    /// The first line of a node.
    Node,
    /// The scale of prices.
    Scale,
    /// The scale of a fractional assignment.
    Mixed,
    /// A rent.
    Rent,
    /// A charge.
    Charge,
    /// A step of a price.
    Step,
    /// A weight.
    Weight,
    /// The end.
    End,
}

/// All of a text, as what is left of it: its lines, and last what stands behind the last line feed.
pub fn left_of(alloc: Global, text: &[u8]) -> Result<Vec<&[u8]>, AllocError>
    ensures { IfOk result (λ left. seen left.items ≡ left_of text.now) }
{
    text.split(|byte| *byte == b'\n').collect(alloc)
}

/// The first line that is left, which is due to be of a kind.
#[tactic(auto, unfolding(crate::specs::Lines::line_due))]
pub fn line_due(
    alloc: Global,
    grammar: &Grammar<'_>,
    due: Due,
    left: &[&[u8]],
) -> Result<Line, Stop>
    ensures { Gives (λ line. line) result (line_due (naming grammar.now) due (seen left.now)) }
{
    let Some((line, rest)) = left.split_first() else {
        return stopped(left, TEXT_ENDS);
    };
    if rest.is_empty() {
        return stopped(left, end_kind(line));
    }
    let Ok(read) = read_line(alloc, grammar, line) else {
        return Err(Stop::NoMemory);
    };
    of_seen(fits(due, read.form), read.line, left)
}

/// What is wrong with a line that has no line feed: where it is empty, the text ends. Takes no memory.
fn end_kind(line: &[u8]) -> u8
    ensures { result ≡ (if is_word line.now then BAD_LINE else TEXT_ENDS) }
{
    if line.is_empty() { TEXT_ENDS } else { BAD_LINE }
}

/// A line that may stand here, or its flaw. Takes no memory.
fn of_seen(fit: bool, line: Result<Line, Flaw>, left: &[&[u8]]) -> Result<Line, Stop>
    ensures gives { Gives (λ line. line) result (of_seen fit line (seen left.now)) }
    ensures wants_none { WantsNone result }
{
    match line {
        Ok(line) => {
            if fit {
                Ok(line)
            } else {
                stopped(left, WRONG_WORD)
            }
        }
        Err(flaw) => {
            let told = if fit { flaw } else { least(flaw, Flaw::Word) };
            stopped(left, told.kind())
        }
    }
}

/// Whether a line of this form may stand where one of a kind is due, if its first words say a form. Takes no memory.
fn fits(due: Due, form: Option<Form>) -> bool
    ensures { result ≡ fits due form }
{
    match form {
        None => false,
        Some(form) => may_stand(due, form),
    }
}

/// Whether a line of this form may stand where one of a kind is due. Takes no memory.
fn may_stand(due: Due, form: Form) -> bool
    ensures { result ≡ may_stand due form }
{
    match due {
        Due::Plan => matches!(form, Form::PlanYes | Form::PlanNo),
        Due::Node => begins_node(form),
        Due::Scale => matches!(form, Form::Scale),
        Due::Mixed => matches!(form, Form::Mixed),
        Due::Rent => matches!(form, Form::Rent),
        Due::Charge => matches!(form, Form::Charge),
        Due::Step => matches!(form, Form::At),
        Due::Weight => matches!(form, Form::Weight),
        Due::End => matches!(form, Form::End),
    }
}

/// Whether a node may begin with a line of this form. Takes no memory.
fn begins_node(form: Form) -> bool
    ensures { result ≡ may_stand due.Node form }
{
    match form {
        Form::Bare
        | Form::Sole
        | Form::Refuted
        | Form::Priced
        | Form::OpenNodes
        | Form::OpenPivots
        | Form::OpenGrew
        | Form::OpenLift
        | Form::Trim
        | Form::Split => true,
        _ => false,
    }
}

/// The first line that is left, if it begins as one that may stand where one of a kind is due.
#[tactic(auto, unfolding(crate::specs::Lines::line_due))]
pub fn next_line(
    alloc: Global,
    grammar: &Grammar<'_>,
    due: Due,
    left: &[&[u8]],
) -> Result<Option<Line>, Stop>
    ensures { Gives (λ line. line) result (next_line (naming grammar.now) due (seen left.now)) }
{
    let Some((line, rest)) = left.split_first() else {
        return Ok(None);
    };
    let Ok(read) = read_line(alloc, grammar, line) else {
        return Err(Stop::NoMemory);
    };
    if !fits(due, read.form) {
        return Ok(None);
    }
    if rest.is_empty() {
        return stopped(left, end_kind(line));
    }
    match of_seen(true, read.line, left) {
        Ok(line) => Ok(Some(line)),
        Err(stop) => Err(stop),
    }
}

/// A fault at the first line that is left.
pub fn stopped<T>(left: &[&[u8]], kind: u8) -> Result<T, Stop>
    ensures { result ≡ Err (stop.Fault (length left.now) kind) }
{
    Err(Stop::Fault {
        left: left.len(),
        kind,
    })
}

/// What is left behind the first line.
pub fn behind<'a, 'b>(left: &'b [&'a [u8]]) -> &'b [&'a [u8]]
    ensures { result.now ≡ drop 1 left.now }
{
    let Some((_, rest)) = left.split_first() else {
        return left;
    };
    rest
}
