//! What a search looks up again and again.
ghost use Rattle.std.specs.Prelude.{◌≡◌, ◌<◌, IfOk, length};
ghost use Rattle.std.specs.List.{filter};
ghost use Rattle.sums.specs.Places.{list_below};
ghost use Rattle.fleet_model.specs.Schedule.{legs_in};
ghost use Rattle.euler_rotation.specs.Asked.{AreKnown, TellClean, followers_of};
ghost use Rattle.euler_rotation.specs.Prefixes.{may_turn};
ghost use Rattle.euler_rotation.specs.Tours.{IsOrder};
ghost use Rattle.euler_rotation.specs.Walks.{IsField};

use crate::clean::{CleanTurns, may_turn};
use entries::{Entries, NoMemory};
use std::alloc::Global;

/// The fleet's turns, its legs in the order of the search, and by leg those that may follow it.
#[derive(Drop)]
pub(crate) struct Field<'a> {
    pub clean: &'a CleanTurns<'a>,
    pub order: &'a [u32],
    pub followers: Vec<Entries<u32>>,
}

/// What is looked up in a search under an order.
pub(crate) fn field_of<'a>(
    alloc: Global,
    clean: &'a CleanTurns<'a>,
    order: &'a [u32],
) -> Result<Field<'a>, NoMemory>
    requires clean { TellClean clean.now }
    requires order { IsOrder clean.now.asked.now.tables.now clean.now.asked.now.plan.now clean.now.asked.now.fleet order.now }
    requires some { 0 < length order.now }
    ensures field { IfOk result IsField }
    ensures clean { IfOk result (λ field. field.clean.now ≡ clean.now) }
    ensures order { IfOk result (λ field. field.order.now ≡ order.now) }
{
    let followers = all_followers(alloc, clean, order)?;
    Ok(Field {
        clean,
        order,
        followers,
    })
}

// By leg, those that may follow it, in their order.
fn all_followers(
    alloc: Global,
    clean: &CleanTurns<'_>,
    order: &[u32],
) -> Result<Vec<Entries<u32>>, NoMemory>
    requires clean { TellClean clean.now }
    requires known { AreKnown clean.now.asked.now.tables.now order.now }
    ensures { IfOk result (λ all. all.items ≡ list_below (followers_of clean.now.asked.now.tables.now clean.now.asked.now.plan.now
        clean.now.asked.now.fleet clean.now.asked.now.pairs.now order.now) (legs_in clean.now.asked.now.tables.now)) }
{
    let mut all = Vec::new(alloc);
    for leg in 0..clean.asked.tables.leg_count() {
        all.push(followers(alloc, clean, order, leg)?)?;
    }
    Ok(all)
}

// The legs that may follow a leg, and none where it isn't the fleet's.
fn followers(
    alloc: Global,
    clean: &CleanTurns<'_>,
    order: &[u32],
    leg: u32,
) -> Result<Entries<u32>, NoMemory>
    requires clean { TellClean clean.now }
    requires known { AreKnown clean.now.asked.now.tables.now order.now }
    requires leg { leg < legs_in clean.now.asked.now.tables.now }
    ensures { IfOk result (λ legs. legs ≡ followers_of clean.now.asked.now.tables.now clean.now.asked.now.plan.now
        clean.now.asked.now.fleet clean.now.asked.now.pairs.now order.now leg) }
{
    if clean.asked.plan.choice(leg) != clean.asked.fleet {
        return Ok(Entries::from_vec(Vec::new(alloc)));
    }
    Ok(Entries::from_vec(those_that_may(alloc, clean, order, leg)?))
}

// Of some legs those that may follow a leg.
fn those_that_may(
    alloc: Global,
    clean: &CleanTurns<'_>,
    order: &[u32],
    leg: u32,
) -> Result<Vec<u32>, NoMemory>
    requires clean { TellClean clean.now }
    requires known { AreKnown clean.now.asked.now.tables.now order.now }
    requires leg { leg < legs_in clean.now.asked.now.tables.now }
    ensures { IfOk result (λ legs. legs.items ≡ filter (may_turn clean.now.asked.now.tables.now clean.now.asked.now.plan.now
        clean.now.asked.now.fleet clean.now.asked.now.pairs.now leg) order.now) }
{
    let mut legs = Vec::new(alloc);
    for other in order {
        if may_turn(clean, leg, *other) {
            legs.push(*other)?;
        }
    }
    Ok(legs)
}
