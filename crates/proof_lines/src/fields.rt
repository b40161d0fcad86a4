//! What stands behind the first words of a line, read. Of several flaws of a line the one of the least kind is told.
ghost use Rattle.std.specs.Prelude.{◌≡◌};
ghost use Rattle.proof_lines.specs.Known.{naming};
ghost use Rattle.proof_lines.specs.Reading.{form_line, grew_in, head_in, lift_in, mixed_in, pair_told, pivots_in, scale_in};
ghost use Rattle.proof_lines.specs.Words.{seen};
ghost use Rattle.proof_lines.specs.declared.forms.Form.TheVariants as form;

use crate::figures::{count, day, minute, number, version};
use crate::flaws::{Flaw, both};
use crate::forms::{Form, pair_end};
use crate::grammar::Grammar;
use crate::line::Line;
use crate::words::word_at;
use fleet_model::Pair;

/// The line of a form by its words, of which there are as many as the form has. Takes no memory.
#[tactic(auto, unfolding(crate::specs::Reading::form_line))]
pub fn fields(grammar: &Grammar<'_>, form: Form, words: &[&[u8]]) -> Result<Line, Flaw>
    ensures { result ≡ form_line (naming grammar.now) form (seen words.now) }
{
    match form {
        Form::Head => head(words),
        Form::PlanYes => Ok(Line::Plan { planned: true }),
        Form::PlanNo => Ok(Line::Plan { planned: false }),
        Form::Bare => bare(grammar, words),
        Form::Sole => Ok(Line::Sole),
        Form::Refuted => Ok(Line::Refuted),
        Form::Priced => Ok(Line::Priced),
        Form::OpenNodes => Ok(Line::OpenNodes),
        Form::OpenPivots => pivots(words),
        Form::OpenGrew => grew(words),
        Form::OpenLift => lift(words),
        Form::Trim => trim(grammar, words),
        Form::Split => split(grammar, words),
        Form::Scale => scale(words),
        Form::Rent => rent(grammar, words),
        Form::Charge => charge(grammar, words),
        Form::At => at(grammar, words),
        Form::Mixed => mixed(words),
        Form::Weight => weight(grammar, words),
        Form::End => Ok(Line::End),
    }
}

/// `fleet proof V`.
fn head(words: &[&[u8]]) -> Result<Line, Flaw>
    ensures { result ≡ head_in (seen words.now) }
{
    match version(word_at(words, 2)) {
        Ok(version) => Ok(Line::Head(version)),
        Err(flaw) => Err(flaw),
    }
}

/// `bare FLIGHT`.
#[tactic(auto, unfolding(crate::specs::Reading::form_line))]
fn bare(grammar: &Grammar<'_>, words: &[&[u8]]) -> Result<Line, Flaw>
    ensures { result ≡ form_line (naming grammar.now) form.Bare (seen words.now) }
{
    match grammar.leg(word_at(words, 1)) {
        Ok(leg) => Ok(Line::Bare { leg }),
        Err(flaw) => Err(flaw),
    }
}

/// `open pivots N`.
fn pivots(words: &[&[u8]]) -> Result<Line, Flaw>
    ensures { result ≡ pivots_in (seen words.now) }
{
    match count(word_at(words, 2)) {
        Ok(made) => Ok(Line::OpenPivots { made }),
        Err(flaw) => Err(flaw),
    }
}

/// `open grew N R C`.
fn grew(words: &[&[u8]]) -> Result<Line, Flaw>
    ensures { result ≡ grew_in (seen words.now) }
{
    match both(
        both(count(word_at(words, 2)), count(word_at(words, 3))),
        count(word_at(words, 4)),
    ) {
        Ok(((pivots, row), column)) => Ok(Line::OpenGrew {
            pivots,
            row,
            column,
        }),
        Err(flaw) => Err(flaw),
    }
}

/// `open lift S A`.
fn lift(words: &[&[u8]]) -> Result<Line, Flaw>
    ensures { result ≡ lift_in (seen words.now) }
{
    match both(count(word_at(words, 2)), count(word_at(words, 3))) {
        Ok((step, at)) => Ok(Line::OpenLift { step, at }),
        Err(flaw) => Err(flaw),
    }
}

/// The pair that words tell, behind the first.
fn pair_at(grammar: &Grammar<'_>, words: &[&[u8]]) -> Result<Pair, Flaw>
    ensures { result ≡ pair_told (naming grammar.now) (seen words.now) }
{
    grammar.pair(word_at(words, 1), word_at(words, 2), word_at(words, 3))
}

/// `trim FLIGHT FLEET`, and SHIFT where the tables have windows.
#[tactic(auto, unfolding(crate::specs::Reading::form_line))]
fn trim(grammar: &Grammar<'_>, words: &[&[u8]]) -> Result<Line, Flaw>
    ensures { result ≡ form_line (naming grammar.now) form.Trim (seen words.now) }
{
    match pair_at(grammar, words) {
        Ok(pair) => Ok(Line::Trim {
            leg: pair.leg,
            choice: pair.choice,
        }),
        Err(flaw) => Err(flaw),
    }
}

/// `split FLIGHT FLEET`, and SHIFT where the tables have windows.
#[tactic(auto, unfolding(crate::specs::Reading::form_line))]
fn split(grammar: &Grammar<'_>, words: &[&[u8]]) -> Result<Line, Flaw>
    ensures { result ≡ form_line (naming grammar.now) form.Split (seen words.now) }
{
    match pair_at(grammar, words) {
        Ok(pair) => Ok(Line::Split {
            leg: pair.leg,
            choice: pair.choice,
        }),
        Err(flaw) => Err(flaw),
    }
}

/// `scale Q`.
fn scale(words: &[&[u8]]) -> Result<Line, Flaw>
    ensures { result ≡ scale_in (seen words.now) }
{
    match number(word_at(words, 1)) {
        Ok(scale) => Ok(Line::Scale { scale }),
        Err(flaw) => Err(flaw),
    }
}

/// `rent FLEET R`.
#[tactic(auto, unfolding(crate::specs::Reading::form_line))]
fn rent(grammar: &Grammar<'_>, words: &[&[u8]]) -> Result<Line, Flaw>
    ensures { result ≡ form_line (naming grammar.now) form.Rent (seen words.now) }
{
    match both(grammar.fleet(word_at(words, 1)), number(word_at(words, 2))) {
        Ok((fleet, rent)) => Ok(Line::Rent { fleet, rent }),
        Err(flaw) => Err(flaw),
    }
}

/// `charge STATION DAY R`.
#[tactic(auto, unfolding(crate::specs::Reading::form_line))]
fn charge(grammar: &Grammar<'_>, words: &[&[u8]]) -> Result<Line, Flaw>
    ensures { result ≡ form_line (naming grammar.now) form.Charge (seen words.now) }
{
    match both(
        grammar.station(word_at(words, 1)),
        both(
            day(grammar.days(), word_at(words, 2)),
            number(word_at(words, 3)),
        ),
    ) {
        Ok((station, (day, charge))) => Ok(Line::Charge {
            station,
            day,
            charge,
        }),
        Err(flaw) => Err(flaw),
    }
}

/// `at FLEET STATION MINUTE VALUE`.
#[tactic(auto, unfolding(crate::specs::Reading::form_line))]
fn at(grammar: &Grammar<'_>, words: &[&[u8]]) -> Result<Line, Flaw>
    ensures { result ≡ form_line (naming grammar.now) form.At (seen words.now) }
{
    match both(
        both(
            grammar.fleet(word_at(words, 1)),
            grammar.station(word_at(words, 2)),
        ),
        both(
            minute(grammar.last(), word_at(words, 3)),
            number(word_at(words, 4)),
        ),
    ) {
        Ok(((fleet, station), (minute, value))) => Ok(Line::At {
            fleet,
            station,
            minute,
            value,
        }),
        Err(flaw) => Err(flaw),
    }
}

/// `mixed Q`.
fn mixed(words: &[&[u8]]) -> Result<Line, Flaw>
    ensures { result ≡ mixed_in (seen words.now) }
{
    match number(word_at(words, 1)) {
        Ok(scale) => Ok(Line::Mixed { scale }),
        Err(flaw) => Err(flaw),
    }
}

/// `weight FLIGHT FLEET W`, and SHIFT before W where the tables have windows.
#[tactic(auto, unfolding(crate::specs::Reading::form_line))]
fn weight(grammar: &Grammar<'_>, words: &[&[u8]]) -> Result<Line, Flaw>
    ensures { result ≡ form_line (naming grammar.now) form.Weight (seen words.now) }
{
    match both(
        pair_at(grammar, words),
        number(word_at(words, pair_end(grammar.tables.windows))),
    ) {
        Ok((pair, weight)) => Ok(Line::Weight {
            leg: pair.leg,
            choice: pair.choice,
            weight,
        }),
        Err(flaw) => Err(flaw),
    }
}
