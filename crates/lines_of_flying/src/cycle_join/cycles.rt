//! A fitting map with the labels of its cycles.
ghost use Rattle.std.specs.Prelude.{◌≡◌, IfOk, length};
ghost use Rattle.fleet_model.specs.Schedule.{legs_in};
ghost use Rattle.lines_of_flying.specs.ground_turns.Maps.{Holds, IsFitting};
ghost use Rattle.lines_of_flying.specs.cycle_join.Labels.{AreLabels, AreLinked};
ghost use Rattle.lines_of_flying.specs.cycle_join.Meetings.{AreCycles, IsMeetingGround};

use crate::cycle_join::ground::Ground;
use crate::cycle_join::labels::{own_labels, relabel};
use entries::NoMemory;
use fleet_model::Connection;
use std::alloc::Global;

/// The turns of a fitting map, and by leg the label of its cycle.
#[derive(Drop)]
pub(crate) struct Cycles {
    pub turns: Vec<Connection>,
    pub labels: Vec<u32>,
}

/// The cycles of a fitting map that holds the given pairs.
pub(crate) fn cycles_of(
    alloc: Global,
    ground: &Ground<'_>,
    turns: Vec<Connection>,
) -> Result<Cycles, NoMemory>
    requires ground { IsMeetingGround ground.now }
    requires fitting { IsFitting ground.now.tables.now ground.now.plan.now ground.now.fleet turns.items }
    requires holds { Holds turns.items ground.now.pairs.now }
    ensures { IfOk result (AreCycles ground.now) }
{
    let labels = labels_of(alloc, ground, &turns)?;
    Ok(Cycles { turns, labels })
}

// By leg, a label that the legs of its cycle have, and no others.
fn labels_of(alloc: Global, ground: &Ground<'_>, turns: &[Connection]) -> Result<Vec<u32>, NoMemory>
    requires ground { IsMeetingGround ground.now }
    requires fitting { IsFitting ground.now.tables.now ground.now.plan.now ground.now.fleet turns.now }
    ensures labels { IfOk result (λ labels. AreLabels labels.items (legs_in ground.now.tables.now)) }
    ensures cycles { IfOk result (λ labels. AreLinked turns.now labels.items (length turns.now)) }
{
    let mut labels = own_labels(alloc, ground.tables.leg_count())?;
    for turn in turns {
        let from = labels[turn.arriving as usize];
        let to = labels[turn.departing as usize];
        relabel(&mut labels, from, to);
    }
    Ok(labels)
}
