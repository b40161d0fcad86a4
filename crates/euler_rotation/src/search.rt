//! The search for a kept tour among all prefixes.
ghost use Rattle.std.specs.Prelude.{◌<◌, IfOk};
ghost use Rattle.euler_rotation.specs.Searches.{EndsOrGoesOn, EndsOrNot, IsFound};
ghost use Rattle.euler_rotation.specs.Walks.{IsField, IsWalk, WalkStandsAt, legs_of_path, preorder_in};

use crate::field::Field;
use crate::kept::is_kept_tour;
use crate::walk::{Walk, advance, begin};
use entries::{Entries, NoMemory};
use std::alloc::Global;

/// What a search came to.
#[derive(Drop)]
pub(crate) enum Found {
    /// A kept tour.
    Tour(Entries<u32>),
    /// All prefixes were visited, and none ends a kept tour.
    Nothing,
    /// So many prefixes were visited in vain, there are more, and this is the last of them.
    Spent(Entries<u32>),
}

/// Visits so many prefixes at most, each before those that extend it, until one ends a kept tour.
pub(crate) fn search(alloc: Global, field: &Field<'_>, visits: u64) -> Result<Found, NoMemory>
    requires { IsField field.now }
    ensures { IfOk result (IsFound field.now visits) }
{
    if visits == 0 {
        return Ok(Found::Spent(Entries::from_vec(Vec::new(alloc))));
    }
    let mut walk = begin(alloc, field)?;
    visited(alloc, field, &mut walk, visits)
}

// The same by a walk that stands at the first of them, where some may be visited.
fn visited(
    alloc: Global,
    field: &Field<'_>,
    walk: &mut Walk,
    visits: u64,
) -> Result<Found, NoMemory>
    requires field { IsField field.now }
    requires walk { WalkStandsAt field.now (preorder_in field.now) walk.old }
    requires some { 0 < visits }
    ensures { IfOk result (IsFound field.now visits) }
{
    for visited in 0..visits - 1 {
        if let Some(found) = visit(alloc, field, walk)? {
            return Ok(found);
        }
    }
    let prefix = walk.path.legs(alloc)?;
    match visit(alloc, field, walk)? {
        Some(found) => Ok(found),
        None => Ok(Found::Spent(prefix)),
    }
}

// Visits the prefix at which a walk stands, and goes to the next: or what the search comes to, where it ends here.
fn visit(alloc: Global, field: &Field<'_>, walk: &mut Walk) -> Result<Option<Found>, NoMemory>
    requires field { IsField field.now }
    requires walk { IsWalk field.now walk.old }
    ensures { IfOk result (EndsOrGoesOn field.now walk.old walk.new) }
{
    if let Some(tour) = ended(alloc, field, walk)? {
        return Ok(Some(Found::Tour(tour)));
    }
    if advance(field, walk)? {
        Ok(None)
    } else {
        Ok(Some(Found::Nothing))
    }
}

// The kept tour that a prefix ends.
fn ended(alloc: Global, field: &Field<'_>, walk: &Walk) -> Result<Option<Entries<u32>>, NoMemory>
    requires { IsField field.now }
    ensures { IfOk result (EndsOrNot field.now (legs_of_path walk.now.path)) }
{
    if walk.path.len() != field.order.len() {
        return Ok(None);
    }
    let legs = walk.path.legs(alloc)?;
    if is_kept_tour(field.clean, legs.as_slice()) {
        Ok(Some(legs))
    } else {
        Ok(None)
    }
}
