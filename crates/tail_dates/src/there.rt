//! Which place lacks tails, and at which they are late.
ghost use Rattle.std.specs.Prelude.{◌≡◌, ◌<◌, ◌^◌, IfOk, IfSome, MatchOption, length};
ghost use Rattle.tail_dates.specs.Late.{AreLessThan, at_most};
ghost use Rattle.tail_dates.specs.There.{IsFirstLacking, IsFirstLateThere, NoneIsLate, NoneLacks, count_at, key, keys, those_at};

use crate::late::{at_most, first_late};
use entries::NoMemory;
use std::alloc::Global;

/// At which place tails are late, and what is told of it.
#[derive(Drop)]
pub(crate) struct LateThere {
    pub place: u64,
    pub within: u64,
    pub tails: u64,
    pub starts: u64,
}

/// The first of so many places at which more starts are than tails. Takes no memory.
pub(crate) fn first_lacking(told: &[u64], places: &[u64], all: u64) -> Option<u64>
    ensures first { MatchOption result (NoneLacks told.now places.now all) (IsFirstLacking told.now places.now) }
    ensures known { IfSome result (λ place. place < all) }
{
    for place in 0..all {
        if count_at(told, place) < count_at(places, place) {
            return Some(place);
        }
    }
    None
}

/// How many of some places are this one. Takes no memory.
pub(crate) fn count_at(places: &[u64], place: u64) -> u64
    ensures { result ≡ count_at places.now place }
{
    let mut count: u64 = 0;
    for number in 0..places.len() {
        if places[number] == place {
            count += 1;
        }
    }
    count
}

/// The first of so many places at which more tails have to come to maintenance within some nights than starts do, with the
/// least number of nights there.
pub(crate) fn first_late_there(
    alloc: Global,
    told: &[u64],
    lefts: &[u64],
    places: &[u64],
    reaches: &[u64],
    all: u64,
) -> Result<Option<LateThere>, NoMemory>
    requires few { AreLessThan 256 lefts.now }
    requires told { length told.now ≡ length lefts.now }
    requires places { length places.now ≡ length reaches.now }
    ensures { IfOk result (λ late. MatchOption late (NoneIsLate told.now lefts.now places.now reaches.now all)
        (λ late. (late.place < all) × IsFirstLateThere told.now lefts.now places.now reaches.now late.place late.within
        × (late.tails ≡ at_most (those_at told.now lefts.now late.place) late.within)
        × (late.starts ≡ at_most (those_at places.now reaches.now late.place) late.within))) }
{
    for place in 0..all {
        let tails = those_at(alloc, told, lefts, place)?;
        let starts = those_at(alloc, places, reaches, place)?;
        if let Some(within) = first_late(&tails, &starts) {
            return Ok(Some(LateThere {
                place,
                within,
                tails: at_most(&tails, within),
                starts: at_most(&starts, within),
            }));
        }
    }
    Ok(None)
}

/// Of numbers that belong to places those of one place.
fn those_at(
    alloc: Global,
    places: &[u64],
    numbers: &[u64],
    place: u64,
) -> Result<Vec<u64>, NoMemory>
    requires { length places.now ≡ length numbers.now }
    ensures { IfOk result (λ those. those.items ≡ those_at places.now numbers.now place) }
{
    let mut those = Vec::new(alloc);
    for number in 0..numbers.len() {
        if places[number] == place {
            those.push(numbers[number])?;
        }
    }
    Ok(those)
}

/// One number for each place and its number of nights, by which the first place comes first.
pub(crate) fn keys(alloc: Global, places: &[u64], numbers: &[u64]) -> Result<Vec<u64>, NoMemory>
    requires as_many { length places.now ≡ length numbers.now }
    requires places { AreLessThan (2 ^ 20) places.now }
    requires numbers { AreLessThan (2 ^ 40) numbers.now }
    ensures { IfOk result (λ those. those.items ≡ keys places.now numbers.now) }
{
    let mut keys = Vec::new(alloc);
    for place in 0..numbers.len() {
        keys.push(key(places[place], numbers[place]))?;
    }
    Ok(keys)
}

/// One number for a place and a number of nights.
fn key(place: u64, nights: u64) -> u64
    requires place { place < 2 ^ 20 }
    requires nights { nights < 2 ^ 40 }
    ensures { result ≡ key place nights }
{
    place * PLACE_WORTH + nights
}

/// More than any number of nights.
const PLACE_WORTH: u64 = 1 << 40;
