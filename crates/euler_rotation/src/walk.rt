//! A walk over the prefixes of kept tours, each before those that extend it.
ghost use Rattle.std.specs.Prelude.{◌≡◌, ◌∷◌, ◌<◌, false, true, Some, ℕ, IfOk, OnOk, length, slice_index_or, slice_set};
ghost use Rattle.fleet_model.specs.Schedule.{legs_in};
ghost use Rattle.euler_rotation.specs.Walks.{Advances, IsField, IsNextLevel, IsOpening, IsWalk, OpensOrNot, WalkStandsAt, preorder_in, tail_of, top_of};

use crate::field::Field;
use crate::nights::since_after;
use crate::path::{Level, Path};
use entries::NoMemory;
use fleet_model::Connection;
use std::alloc::Global;

/// A prefix, and by leg whether it is one of its legs.
#[derive(Drop)]
pub(crate) struct Walk {
    pub path: Path,
    pub used: Vec<bool>,
}

/// A walk at the first prefix: the order's first leg.
pub(crate) fn begin(alloc: Global, field: &Field<'_>) -> Result<Walk, NoMemory>
    requires { IsField field.now }
    ensures { IfOk result (WalkStandsAt field.now (preorder_in field.now)) }
{
    let used = no_marks(alloc, field.clean.asked.tables.leg_count())?;
    let mut walk = Walk {
        path: Path::new(alloc),
        used,
    };
    let first = Level {
        leg: field.order[0],
        next: 0,
        since: 0,
    };
    enter(&mut walk, first)?;
    Ok(walk)
}

// A mark for each leg, and none is set.
fn no_marks(alloc: Global, legs: u32) -> Result<Vec<bool>, NoMemory>
    ensures each_leg { IfOk result (λ marks. length marks.items ≡ legs) }
    ensures none { IfOk result (λ marks. (k : ℕ) → k < legs → slice_index_or marks.items k false ≡ false) }
{
    Ok(vec![in alloc; false; legs as usize]?)
}

/// Goes to the next prefix; or there is none.
pub(crate) fn advance(field: &Field<'_>, walk: &mut Walk) -> Result<bool, NoMemory>
    requires field { IsField field.now }
    requires walk { IsWalk field.now walk.old }
    ensures { IfOk result (Advances field.now walk.old walk.new) }
{
    let mut from = 0;
    while let Some(top) = walk.path.top() {
        if let Some(level) = next_level(field, walk, top, from) {
            enter(walk, level)?;
            return Ok(true);
        }
        from = top.next;
        leave(walk, top.leg);
    }
    Ok(false)
}

// Puts a leg behind a prefix.
fn enter(walk: &mut Walk, level: Level) -> Result<(), NoMemory>
    requires { level.leg < length walk.old.used.items }
    ensures path { OnOk result (walk.new.path ≡ level ∷ walk.old.path) }
    ensures used { OnOk result (walk.new.used.items ≡ slice_set walk.old.used.items level.leg true) }
{
    walk.path.push(level)?;
    walk.used[level.leg as usize] = true;
    Ok(())
}

// Takes the last leg of a prefix away.
fn leave(walk: &mut Walk, leg: u32)
    requires { leg < length walk.old.used.items }
    ensures path { walk.new.path ≡ tail_of walk.old.path }
    ensures used { walk.new.used.items ≡ slice_set walk.old.used.items leg false }
{
    walk.path.pop();
    walk.used[leg as usize] = false;
}

// The first leg that may follow a prefix, of the followers of its last leg from a place on.
fn next_level(field: &Field<'_>, walk: &Walk, top: Level, from: usize) -> Option<Level>
    requires field { IsField field.now }
    requires walk { IsWalk field.now walk.now }
    requires top { top_of walk.now.path ≡ Some top }
    ensures { IsNextLevel field.now walk.now.path from result }
{
    if walk.path.len() >= field.order.len() {
        return None;
    }
    first_open(field, walk, top, from)
}

// The first of them where the prefix hasn't all legs.
fn first_open(field: &Field<'_>, walk: &Walk, top: Level, from: usize) -> Option<Level>
    requires field { IsField field.now }
    requires walk { IsWalk field.now walk.now }
    requires top { top_of walk.now.path ≡ Some top }
    ensures { IsOpening field.now walk.now.path top from result }
{
    let legs = field.followers[top.leg as usize].as_slice();
    for place in from..legs.len() {
        if let Some(since) = opens(field, walk, top, legs[place]) {
            return Some(Level {
                leg: legs[place],
                next: place + 1,
                since,
            });
        }
    }
    None
}

// Whether a leg may follow a prefix, of whose last leg it is a follower: the nights without maintenance then.
fn opens(field: &Field<'_>, walk: &Walk, top: Level, leg: u32) -> Option<u32>
    requires field { IsField field.now }
    requires walk { IsWalk field.now walk.now }
    requires top { top_of walk.now.path ≡ Some top }
    requires leg { leg < legs_in field.now.clean.now.asked.now.tables.now }
    ensures { OpensOrNot field.now walk.now.path leg result }
{
    if walk.used[leg as usize] {
        return None;
    }
    let turn = Connection {
        arriving: top.leg,
        departing: leg,
    };
    since_after(field.clean.asked, top.since, turn)
}
