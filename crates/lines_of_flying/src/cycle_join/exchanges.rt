//! Departures exchanged until no two cycles touch.
ghost use Rattle.std.specs.Prelude.{◌≡◌, ◌≢◌, ◌<◌, ◌≤◌, ◌+◌, true, false, MatchOption, length};
ghost use Rattle.lines_of_flying.specs.ground_turns.Maps.{AreExchanged, turn_at};
ghost use Rattle.lines_of_flying.specs.cycle_join.Labels.{label_of, total_of};
ghost use Rattle.lines_of_flying.specs.cycle_join.Meetings.{AreCycles, AreCyclesApart, IsMeetingGround, Meets, MeetsNone, meet};

use crate::cycle_join::cycles::Cycles;
use crate::cycle_join::ground::Ground;
use crate::cycle_join::labels::relabel;
use crate::cycle_join::touching::meets;
use fleet_model::Connection;

/// Joins cycles until no two touch. Takes no memory.
pub(crate) fn join_all(ground: &Ground<'_>, cycles: &mut Cycles)
    requires ground { IsMeetingGround ground.now }
    requires cycles { AreCycles ground.now cycles.old }
    ensures cycles { AreCycles ground.now cycles.new }
    ensures apart { AreCyclesApart ground.now cycles.new }
{
    // each pass but the last makes labels lower
    for _ in 0..u64::MAX {
        if !join_some(ground, cycles) {
            return;
        }
    }
    unreachable!()
}

// Goes over the turns once, and joins the cycle of each with one of a lower label that it meets. Whether there were any.
fn join_some(ground: &Ground<'_>, cycles: &mut Cycles) -> bool
    requires ground { IsMeetingGround ground.now }
    requires cycles { AreCycles ground.now cycles.old }
    ensures cycles { AreCycles ground.now cycles.new }
    ensures lower { result ≡ true → total_of cycles.new.labels.items < total_of cycles.old.labels.items }
    ensures apart { result ≡ false → AreCyclesApart ground.now cycles.new }
{
    let mut joined = false;
    for place in 0..cycles.turns.len() {
        if let Some(other) = met_by(ground, cycles, place) {
            join_two(ground, cycles, place, other);
            joined = true;
        }
    }
    joined
}

// The place of the first turn that a turn meets.
fn met_by(ground: &Ground<'_>, cycles: &Cycles, place: usize) -> Option<usize>
    requires ground { IsMeetingGround ground.now }
    requires cycles { AreCycles ground.now cycles.now }
    requires place { place < length cycles.now.turns.items }
    ensures { MatchOption result (MeetsNone ground.now cycles.now place) (Meets ground.now cycles.now place) }
{
    for other in 0..cycles.turns.len() {
        if meet(ground, cycles, place, other) {
            return Some(other);
        }
    }
    None
}

// Whether the turn at one place meets that at another.
fn meet(ground: &Ground<'_>, cycles: &Cycles, place: usize, other: usize) -> bool
    requires ground { IsMeetingGround ground.now }
    requires cycles { AreCycles ground.now cycles.now }
    requires place { place < length cycles.now.turns.items }
    requires other { other < length cycles.now.turns.items }
    ensures { result ≡ meet ground.now cycles.now place other }
{
    meets(
        ground,
        &cycles.labels,
        cycles.turns[place],
        cycles.turns[other],
    )
}

// Makes one cycle of those of two turns that meet.
fn join_two(ground: &Ground<'_>, cycles: &mut Cycles, place: usize, other: usize)
    requires ground { IsMeetingGround ground.now }
    requires cycles { AreCycles ground.now cycles.old }
    requires place { place < length cycles.old.turns.items }
    requires meets { Meets ground.now cycles.old place other }
    ensures cycles { AreCycles ground.now cycles.new }
    ensures same_length { length cycles.new.turns.items ≡ length cycles.old.turns.items }
    ensures lower { total_of cycles.new.labels.items < total_of cycles.old.labels.items }
{
    let from = label_at(cycles, place);
    let to = label_at(cycles, other);
    exchange(&mut cycles.turns, place, other);
    relabel(&mut cycles.labels, from, to);
}

// The label of the leg that arrives in a turn.
fn label_at(cycles: &Cycles, place: usize) -> u32
    requires place { place < length cycles.now.turns.items }
    requires known { (turn_at cycles.now.turns.items place).arriving < length cycles.now.labels.items }
    ensures { result ≡ label_of cycles.now.labels.items (turn_at cycles.now.turns.items place).arriving }
{
    cycles.labels[cycles.turns[place].arriving as usize]
}

// Exchanges the departures of two turns.
fn exchange(turns: &mut Vec<Connection>, place: usize, other: usize)
    requires place { place < length turns.old.items }
    requires other { other < length turns.old.items }
    requires differ { place ≢ other }
    ensures { AreExchanged turns.old.items turns.new.items place other }
{
    let departing = turns[place].departing;
    turns[place].departing = turns[other].departing;
    turns[other].departing = departing;
}
