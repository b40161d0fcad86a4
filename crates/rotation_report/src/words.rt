//! What becomes of a fleet's rotation, in words.
ghost use Rattle.std.specs.Prelude.{◌≡◌, ◌++◌, ◌*◌, IfOk, codes, string_bytes};
ghost use Rattle.std.specs.Fmt.{decimal};
ghost use Rattle.fleet_model.specs.Schedule.{days_in};
ghost use Rattle.rotation_report.specs.RotationWords.{rotation_words, words_of_rotation};

use entries::NoMemory;
use euler_rotation::{FleetRotation, Rotation};
use fleet_model::Tables;
use std::alloc::Global;

/// What becomes of a fleet's rotation: of the one without through pairs where these were given up, and that they were.
#[tactic(auto, unfolding(crate::specs::RotationWords::rotation_words))]
pub fn rotation_words(
    alloc: Global,
    tables: &Tables,
    made: &FleetRotation,
) -> Result<String, NoMemory>
    ensures { IfOk result (λ words. string_bytes words ≡ rotation_words tables.now made.now) }
{
    let days = days_round(tables, made.used);
    match &made.second {
        Some(second) => words_without(alloc, second, days),
        None => words_of(alloc, &made.first, days),
    }
}

/// The days in which an aircraft comes round a tour: those of the period, for each aircraft that flies it.
fn days_round(tables: &Tables, used: u32) -> u64
    ensures { result ≡ used * days_in tables.now }
{
    u64::from(used) * u64::from(tables.day_count())
}

/// A rotation in words, and that its through pairs were given up.
fn words_without(alloc: Global, rotation: &Rotation, days: u64) -> Result<String, NoMemory>
    ensures { IfOk result (λ words. string_bytes words ≡ words_of_rotation days rotation.now ++ codes " without throughs") }
{
    let mut words = words_of(alloc, rotation, days)?;
    words.push_str(" without throughs")?;
    Ok(words)
}

/// A rotation in words, in whose tour an aircraft comes round in so many days.
fn words_of(alloc: Global, rotation: &Rotation, days: u64) -> Result<String, NoMemory>
    ensures { IfOk result (λ words. string_bytes words ≡ words_of_rotation days rotation.now) }
{
    match rotation {
        Rotation::Unused => plain_words(alloc, "unused"),
        Rotation::TooFewNights { have, used } => night_words(alloc, *have, *used),
        Rotation::Apart { legs } => apart_words(alloc, legs.len()),
        Rotation::Tour(tour) => tour_words(alloc, tour.len(), days),
        Rotation::None => plain_words(alloc, "none"),
        Rotation::Spent { .. } => plain_words(alloc, "visits spent"),
    }
}

/// These words.
fn plain_words(alloc: Global, words: &str) -> Result<String, NoMemory>
    ensures { IfOk result (λ text. string_bytes text ≡ words.now) }
{
    Ok(String::from_str(alloc, words)?)
}

/// That a fleet has fewer nights than it needs.
fn night_words(alloc: Global, have: u32, used: u32) -> Result<String, NoMemory>
    ensures { IfOk result (λ words. string_bytes words ≡ codes "too few nights " ++ decimal have ++ codes " of " ++ decimal used) }
{
    Ok(format!(in alloc; "too few nights {} of {}", have, used)?)
}

/// That so many legs are apart from the others.
fn apart_words(alloc: Global, legs: usize) -> Result<String, NoMemory>
    ensures { IfOk result (λ words. string_bytes words ≡ codes "apart " ++ decimal legs ++ codes " legs") }
{
    Ok(format!(in alloc; "apart {} legs", legs)?)
}

/// That an aircraft comes round a tour of so many legs in so many days.
fn tour_words(alloc: Global, legs: usize, days: u64) -> Result<String, NoMemory>
    ensures { IfOk result (λ words. string_bytes words ≡ codes "tour of " ++ decimal legs ++ codes " legs in " ++ decimal days ++ codes " days") }
{
    Ok(format!(in alloc; "tour of {} legs in {} days", legs, days)?)
}
