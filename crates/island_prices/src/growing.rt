//! What rents and prices have grown by when all rounds are over.
ghost use Rattle.std.specs.Prelude.{◌≡◌, ◌<◌, ◌≤◌, ◌*◌, length, pos, ◌≤ℤ◌};
ghost use Rattle.dual_bound.specs.Sizes.{IsUpTo};
ghost use Rattle.island_prices.specs.Rounds.{AreSmall, grown_in, price_grown, rent_grown, round_minute, round_number};

use crate::rounds::Rounds;

/// By how much each rent has grown.
#[tactic(auto, unfolding(crate::specs::Rounds::rent_grown))]
pub(crate) fn rent_grown(rounds: &Rounds) -> i128
    requires { AreSmall rounds.now }
    ensures value { result ≡ rent_grown rounds.now (length rounds.now.numbers) }
    ensures size { IsUpTo (3 * length rounds.now.numbers) result }
{
    let mut sum = 0;
    for round in 0..rounds.numbers.len() {
        sum += number(rounds, round);
    }
    sum
}

/// By how much each price of a station has grown at a minute.
#[tactic(auto, unfolding(crate::specs::Rounds::price_grown))]
pub(crate) fn price_grown(rounds: &Rounds, station: u32, minute: u16) -> i128
    requires rounds { AreSmall rounds.now }
    requires station { station < length rounds.now.moments }
    ensures value { result ≡ price_grown rounds.now station minute (length rounds.now.numbers) }
    ensures size { IsUpTo (3 * length rounds.now.numbers) result }
{
    let mut sum = 0;
    for round in 0..rounds.numbers.len() {
        sum += grown_in(rounds, station, minute, round);
    }
    sum
}

// By how much each price of a station grows at a minute in a round.
fn grown_in(rounds: &Rounds, station: u32, minute: u16, round: usize) -> i128
    requires rounds { AreSmall rounds.now }
    requires station { station < length rounds.now.moments }
    requires round { round < length rounds.now.numbers }
    ensures value { result ≡ grown_in rounds.now station minute round }
    ensures size { IsUpTo 3 result }
{
    if minute <= minute_in(rounds, station, round) {
        return number(rounds, round);
    }
    0
}

// The number of a round.
fn number(rounds: &Rounds, round: usize) -> i128
    requires rounds { AreSmall rounds.now }
    requires round { round < length rounds.now.numbers }
    ensures value { result ≡ round_number rounds.now round }
    ensures size { IsUpTo 3 result }
{
    rounds.numbers.as_slice()[round]
}

// The minute that a round takes of a station.
fn minute_in(rounds: &Rounds, station: u32, round: usize) -> u16
    requires rounds { AreSmall rounds.now }
    requires station { station < length rounds.now.moments }
    ensures { result ≡ round_minute rounds.now station round }
{
    match rounds.moments.as_slice()[station as usize]
        .as_slice()
        .get(round)
    {
        Some(moment) => *moment,
        None => rounds.least.as_slice()[station as usize],
    }
}
