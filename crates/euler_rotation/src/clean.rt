//! Which turns of a fleet are clean.
ghost use Rattle.std.specs.Prelude.{◌≡◌, ◌<◌, IfOk};
ghost use Rattle.std.specs.List.{list_all};
ghost use Rattle.fleet_model.specs.Schedule.{legs_in};
ghost use Rattle.euler_rotation.specs.Asked.{AreAllSegments, AreSegments, IsAsked, TellClean};
ghost use Rattle.euler_rotation.specs.Prefixes.{is_clean, keeps_pair, may_turn};

use crate::asked::Asked;
use entries::NoMemory;
use fleet_model::Connection;
use lines_of_flying::ground_turns::{Segments, flight};
use node_aggregate::island_cut::zero_minutes;
use std::alloc::Global;

/// A fleet's stations, with the segments that tell in constant time whether a turn is clean.
#[derive(Drop)]
pub(crate) struct CleanTurns<'a> {
    pub asked: &'a Asked<'a>,
    /// By station: they end with the minutes at whose end none of the fleet's aircraft stands there.
    pub segments: Vec<Segments>,
}

/// The segments of all stations.
pub(crate) fn clean_turns<'a>(
    alloc: Global,
    asked: &'a Asked<'a>,
) -> Result<CleanTurns<'a>, NoMemory>
    requires { IsAsked asked.now }
    ensures tell { IfOk result TellClean }
    ensures asked { IfOk result (λ clean. clean.asked.now ≡ asked.now) }
{
    let segments = all_segments(alloc, asked)?;
    Ok(CleanTurns { asked, segments })
}

// By station, its segments.
fn all_segments(alloc: Global, asked: &Asked<'_>) -> Result<Vec<Segments>, NoMemory>
    requires { IsAsked asked.now }
    ensures { IfOk result (λ all. AreAllSegments asked.now.tables.now asked.now.plan.now asked.now.fleet all.items) }
{
    let mut all = Vec::new(alloc);
    for station in 0..asked.tables.station_count() {
        all.push(segments_at(alloc, asked, station)?)?;
    }
    Ok(all)
}

// The segments of a station.
fn segments_at(alloc: Global, asked: &Asked<'_>, station: u32) -> Result<Segments, NoMemory>
    requires { IsAsked asked.now }
    ensures { IfOk result (AreSegments asked.now.tables.now asked.now.plan.now asked.now.fleet station) }
{
    let bare = zero_minutes(alloc, asked.tables, asked.plan, asked.fleet, station)?;
    Ok(Segments::new(alloc, asked.tables.period(), bare.as_slice())?)
}

/// Whether a turn is clean. Takes no memory.
pub(crate) fn is_clean(clean: &CleanTurns<'_>, turn: Connection) -> bool
    requires clean { TellClean clean.now }
    requires arriving { turn.arriving < legs_in clean.now.asked.now.tables.now }
    requires departing { turn.departing < legs_in clean.now.asked.now.tables.now }
    ensures { result ≡ is_clean clean.now.asked.now.tables.now clean.now.asked.now.plan.now clean.now.asked.now.fleet turn }
{
    let tables = clean.asked.tables;
    let fleet = clean.asked.fleet;
    let ready = tables.ready(flight(tables, turn.arriving, fleet));
    let departure = tables.departure(flight(tables, turn.departing, fleet));
    let station = tables.leg(turn.arriving).to;
    clean.segments[station as usize].is_clean(ready, departure)
}

/// Whether a leg may follow another: by a clean turn at a station that keeps the given pairs. Takes no memory.
pub(crate) fn may_turn(clean: &CleanTurns<'_>, arriving: u32, departing: u32) -> bool
    requires clean { TellClean clean.now }
    requires arriving { arriving < legs_in clean.now.asked.now.tables.now }
    requires departing { departing < legs_in clean.now.asked.now.tables.now }
    ensures { result ≡ may_turn clean.now.asked.now.tables.now clean.now.asked.now.plan.now clean.now.asked.now.fleet clean.now.asked.now.pairs.now arriving departing }
{
    let asked = clean.asked;
    let turn = Connection {
        arriving,
        departing,
    };
    asked.tables.leg(arriving).to == asked.tables.leg(departing).from
        && is_clean(clean, turn)
        && keeps_pairs(asked.pairs, turn)
}

// Whether a turn keeps all given pairs.
fn keeps_pairs(pairs: &[Connection], turn: Connection) -> bool
    ensures { result ≡ list_all (keeps_pair turn) pairs.now }
{
    for pair in pairs {
        if !keeps_pair(turn, *pair) {
            return false;
        }
    }
    true
}

// Whether a turn has both legs of a given pair in their roles, or neither.
fn keeps_pair(turn: Connection, pair: Connection) -> bool
    ensures { result ≡ keeps_pair turn pair }
{
    if pair.arriving == turn.arriving {
        pair.departing == turn.departing
    } else {
        pair.departing != turn.departing
    }
}
