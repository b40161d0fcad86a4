//! The rounds in which rents and prices grow.
ghost use Rattle.std.specs.Prelude.{◌≡◌, ◌<◌, ◌≤◌, ◌++◌, ◌∷◌, [], if◌then◌else◌, length, pos, ◌≤ℤ◌, IfOk, OnOk};
ghost use Rattle.sums.specs.Places.{list_below};
ghost use Rattle.fleet_model.specs.Schedule.{stations_in};
ghost use Rattle.dual_bound.specs.Sizes.{IsUpTo};
ghost use Rattle.island_prices.specs.Rises.{AreRises};
ghost use Rattle.island_prices.specs.Rounds.{has_rise, number_of_round, rise_moments, rise_taken, round_count, rounds_of};

use crate::rises::{Rise, greater, greatest_rise};
use entries::{Entries, NoMemory};
use fleet_model::Tables;
use std::alloc::Global;

/// The rounds of rises: in each every rent grows by its number, and so do the prices at a station up to and with the
/// minute that it takes there.
#[derive(Drop)]
pub struct Rounds {
    /// The numbers of the rounds.
    pub numbers: Entries<i128>,
    /// Of each station the moments to which rises go, rising: a round takes that of its place.
    pub moments: Entries<Entries<u16>>,
    /// Of each station its least idle minute, which is taken where it has no more moments.
    pub least: Entries<u16>,
}

impl Rounds {
    /// The rounds of rises. The least idle minute of each station is given.
    pub(crate) fn new(
        alloc: Global,
        tables: &Tables,
        rises: &[Rise],
        least: Entries<u16>,
    ) -> Result<Rounds, NoMemory>
        requires { AreRises tables.now rises.now }
        ensures { IfOk result (λ rounds. rounds ≡ rounds_of tables.now rises.now least) }
    {
        let moments = station_moments(alloc, tables, rises)?;
        let numbers = numbers(alloc, tables, rises, moments.as_slice())?;
        Ok(Rounds {
            numbers,
            moments,
            least,
        })
    }
}

// Of each station the moments to which rises go.
fn station_moments(
    alloc: Global,
    tables: &Tables,
    rises: &[Rise],
) -> Result<Entries<Entries<u16>>, NoMemory>
    requires { AreRises tables.now rises.now }
    ensures { IfOk result (λ moments. moments ≡ list_below (rise_moments tables.now rises.now) (stations_in tables.now)) }
{
    let mut stations = Vec::new(alloc);
    for station in 0..tables.station_count() {
        stations.push(moments(alloc, tables, rises, station)?)?;
    }
    Ok(Entries::from_vec(stations))
}

// The moments of a station to which rises go, rising.
#[tactic(auto, using(crate::proofs::TakenMoments::no_minute, crate::proofs::TakenMoments::one_minute_more))]
fn moments(
    alloc: Global,
    tables: &Tables,
    rises: &[Rise],
    station: u32,
) -> Result<Entries<u16>, NoMemory>
    requires { AreRises tables.now rises.now }
    ensures { IfOk result (λ moments. moments ≡ rise_moments tables.now rises.now station) }
{
    let mut moments = Vec::new(alloc);
    for minute in 0..tables.period() {
        let rises_there = has_rise(tables, rises, station, minute);
        push_where(&mut moments, minute, rises_there)?;
    }
    Ok(Entries::from_vec(moments))
}

// Whether a rise goes to a moment of a station.
fn has_rise(tables: &Tables, rises: &[Rise], station: u32, minute: u16) -> bool
    requires { AreRises tables.now rises.now }
    ensures { result ≡ has_rise rises.now station minute }
{
    0 < greatest_rise(tables, rises, station, minute)
}

// Puts a minute behind those so far, where it is one.
fn push_where(minutes: &mut Vec<u16>, minute: u16, is_one: bool) -> Result<(), NoMemory>
    ensures { OnOk result (minutes.new.items ≡ minutes.old.items ++ (if is_one then minute ∷ [] else [])) }
{
    if is_one {
        minutes.push(minute)?;
    }
    Ok(())
}

// The numbers of all rounds.
fn numbers(
    alloc: Global,
    tables: &Tables,
    rises: &[Rise],
    moments: &[Entries<u16>],
) -> Result<Entries<i128>, NoMemory>
    requires rises { AreRises tables.now rises.now }
    requires moments { moments.now ≡ list_below (rise_moments tables.now rises.now) (stations_in tables.now) }
    ensures { IfOk result (λ numbers. numbers ≡ list_below (number_of_round rises.now moments.now (stations_in tables.now)) (round_count moments.now (stations_in tables.now))) }
{
    let mut numbers = Vec::new(alloc);
    for round in 0..round_count(tables, moments) {
        numbers.push(number(tables, rises, moments, round))?;
    }
    Ok(Entries::from_vec(numbers))
}

// How many rounds there are: as many as the station with most has moments.
#[tactic(auto, unfolding(crate::specs::Rounds::round_count, sums::specs::Below::max_below))]
fn round_count(tables: &Tables, moments: &[Entries<u16>]) -> usize
    requires { length moments.now ≡ stations_in tables.now }
    ensures { result ≡ round_count moments.now (stations_in tables.now) }
{
    let mut most = 0;
    for station in 0..tables.station_count() {
        let count = moments[station as usize].len();
        if count > most {
            most = count;
        }
    }
    most
}

// The number of a round: the greatest rise that it takes of a station.
#[tactic(auto, using(crate::proofs::Numbers::greater_of), unfolding(crate::specs::Rounds::number_of_round))]
fn number(tables: &Tables, rises: &[Rise], moments: &[Entries<u16>], round: usize) -> i128
    requires rises { AreRises tables.now rises.now }
    requires moments { length moments.now ≡ stations_in tables.now }
    ensures value { result ≡ number_of_round rises.now moments.now (stations_in tables.now) round }
    ensures some { pos 0 ≤ℤ result }
    ensures size { IsUpTo 3 result }
{
    let mut most = 0;
    for station in 0..tables.station_count() {
        let rise = rise_taken(tables, rises, moments, station, round);
        most = greater(&most, &rise);
    }
    most
}

// The rise that a round takes of a station, and 0 where the station has no more moments.
fn rise_taken(
    tables: &Tables,
    rises: &[Rise],
    moments: &[Entries<u16>],
    station: u32,
    round: usize,
) -> i128
    requires rises { AreRises tables.now rises.now }
    requires station { station < length moments.now }
    ensures value { result ≡ rise_taken rises.now moments.now round station }
    ensures some { pos 0 ≤ℤ result }
    ensures size { IsUpTo 3 result }
{
    let own = moments[station as usize].as_slice();
    if round < own.len() {
        return greatest_rise(tables, rises, station, own[round]);
    }
    0
}
