//! Whether a list of legs is a kept tour.
ghost use Rattle.std.specs.Prelude.{◌≡◌, ◌<◌, ◌↔◌, ℕ, IsTrue, true, length, slice_index};
ghost use Rattle.std.specs.List.{list_any};
ghost use Rattle.fleet_model.specs.Schedule.{legs_in};
ghost use Rattle.lines_of_flying.specs.ground_turns.Maps.{HasTurn, Holds, turn_after, turns_round};
ghost use Rattle.lines_of_flying.specs.ground_turns.Nights.{IsKeptFor, can_maintain, nights_of_tour};
ghost use Rattle.euler_rotation.specs.Asked.{AreKnown, AreMet, IsAsked, TellClean, is_met};
ghost use Rattle.euler_rotation.specs.Often.{GoesOn};
ghost use Rattle.euler_rotation.specs.Tours.{IsKeptTour, IsOrder, times_in};

use crate::asked::Asked;
use crate::clean::{CleanTurns, is_clean};
use crate::nights::{has_maintenance, since_after};
use fleet_model::{Connection, Tables};

/// Whether a list of legs is a kept tour that holds the given pairs, whoever made it. Takes no memory.
pub(crate) fn is_kept_tour(clean: &CleanTurns<'_>, legs: &[u32]) -> bool
    requires { TellClean clean.now }
    ensures { IsTrue result ↔ IsKeptTour clean.now.asked.now.tables.now clean.now.asked.now.plan.now clean.now.asked.now.fleet
        clean.now.asked.now.pairs.now clean.now.asked.now.days legs.now }
{
    if legs.is_empty() {
        return false;
    }
    if !are_known(clean.asked.tables, legs) {
        return false;
    }
    if !are_met(clean, legs) {
        return false;
    }
    if !is_often(clean.asked, legs) {
        return false;
    }
    if !hold(legs, clean.asked.pairs) {
        return false;
    }
    is_order(clean.asked, legs)
}

// Whether the legs of a list are legs of the tables.
fn are_known(tables: &Tables, legs: &[u32]) -> bool
    ensures { IsTrue result ↔ AreKnown tables.now legs.now }
{
    for leg in legs {
        if *leg >= tables.leg_count() {
            return false;
        }
    }
    true
}

/// The turn from the leg at a place of a tour to the next, going round. Takes no memory.
pub(crate) fn turn_after(legs: &[u32], place: usize) -> Connection
    requires { place < length legs.now }
    ensures { result ≡ turn_after legs.now place }
{
    Connection {
        arriving: legs[place],
        departing: legs[(place + 1) % legs.len()],
    }
}

// Whether each turn of a tour is a clean one at a station.
fn are_met(clean: &CleanTurns<'_>, legs: &[u32]) -> bool
    requires clean { TellClean clean.now }
    requires known { AreKnown clean.now.asked.now.tables.now legs.now }
    ensures { IsTrue result ↔ AreMet clean.now.asked.now.tables.now clean.now.asked.now.plan.now clean.now.asked.now.fleet legs.now (length legs.now) }
{
    for place in 0..legs.len() {
        if !is_met(clean, turn_after(legs, place)) {
            return false;
        }
    }
    true
}

// Whether a turn is a clean one at a station.
fn is_met(clean: &CleanTurns<'_>, turn: Connection) -> bool
    requires clean { TellClean clean.now }
    requires arriving { turn.arriving < legs_in clean.now.asked.now.tables.now }
    requires departing { turn.departing < legs_in clean.now.asked.now.tables.now }
    ensures { result ≡ is_met clean.now.asked.now.tables.now clean.now.asked.now.plan.now clean.now.asked.now.fleet turn }
{
    let tables = clean.asked.tables;
    tables.leg(turn.arriving).to == tables.leg(turn.departing).from && is_clean(clean, turn)
}

// Whether the nights of a tour are often enough for maintenance: it is gone round twice, so that each night is followed
// by all others.
fn is_often(asked: &Asked<'_>, legs: &[u32]) -> bool
    requires asked { IsAsked asked.now }
    requires known { AreKnown asked.now.tables.now legs.now }
    ensures { IsTrue result ↔ IsKeptFor asked.now.tables.now (nights_of_tour asked.now.tables.now asked.now.fleet legs.now) asked.now.days }
{
    if !has_some(asked, legs) {
        return false;
    }
    match go_round(asked, 0, legs) {
        Some(since) => go_round(asked, since, legs).is_some(),
        None => false,
    }
}

// Whether a night of a tour is for maintenance.
fn has_some(asked: &Asked<'_>, legs: &[u32]) -> bool
    requires asked { IsAsked asked.now }
    requires known { AreKnown asked.now.tables.now legs.now }
    ensures { result ≡ list_any (can_maintain asked.now.tables.now) (nights_of_tour asked.now.tables.now asked.now.fleet legs.now) }
{
    for place in 0..legs.len() {
        if has_maintenance(asked, turn_after(legs, place)) {
            return true;
        }
    }
    false
}

// The nights without maintenance after those of a tour, where so many came before; nothing where they come to the days.
fn go_round(asked: &Asked<'_>, before: u32, legs: &[u32]) -> Option<u32>
    requires asked { IsAsked asked.now }
    requires before { before < asked.now.days }
    requires known { AreKnown asked.now.tables.now legs.now }
    ensures { GoesOn asked.now.tables.now asked.now.days before (nights_of_tour asked.now.tables.now asked.now.fleet legs.now) result }
{
    let mut since = before;
    for place in 0..legs.len() {
        match since_after(asked, since, turn_after(legs, place)) {
            Some(more) => since = more,
            None => return None,
        }
    }
    Some(since)
}

// Whether the turns of a tour hold the given pairs.
fn hold(legs: &[u32], pairs: &[Connection]) -> bool
    ensures { IsTrue result ↔ Holds (turns_round legs.now) pairs.now }
{
    for pair in pairs {
        if !has_turn(legs, *pair) {
            return false;
        }
    }
    true
}

// Whether a turn is one of a tour.
fn has_turn(legs: &[u32], turn: Connection) -> bool
    ensures { IsTrue result ↔ HasTurn (turns_round legs.now) turn }
{
    for place in 0..legs.len() {
        if turn_after(legs, place) == turn {
            return true;
        }
    }
    false
}

// Whether the legs of a list are those of the fleet, each once.
fn is_order(asked: &Asked<'_>, legs: &[u32]) -> bool
    requires asked { IsAsked asked.now }
    requires known { AreKnown asked.now.tables.now legs.now }
    ensures { IsTrue result ↔ IsOrder asked.now.tables.now asked.now.plan.now asked.now.fleet legs.now }
{
    for leg in 0..asked.tables.leg_count() {
        if times_in(legs, leg) != usize::from(asked.plan.choice(leg) == asked.fleet) {
            return false;
        }
    }
    true
}

// How often a leg stands in a list.
fn times_in(legs: &[u32], leg: u32) -> usize
    ensures { result ≡ times_in legs.now leg }
{
    let mut times = 0;
    for other in legs {
        if *other == leg {
            times += 1;
        }
    }
    times
}
