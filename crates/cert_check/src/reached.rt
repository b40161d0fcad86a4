//! What a walk over a tree has come to.
ghost use Rattle.std.specs.Prelude.{◌≡◌, ◌+◌};
ghost use Rattle.dual_bound.specs.Bound.{lesser_bound};
ghost use Rattle.dual_bound.specs.Leaves.{held_count};
ghost use Rattle.dual_bound.specs.Worth.{lesser};

use crate::rules::Rule;

/// The node that a walk has come to, and what it has found so far.
#[derive(Clone, Copy)]
pub struct Reached {
    /// The number of the node that comes next, in preorder from 1, or of the one at which the walk has ended. It stays at
    /// 2^64 - 1 once there.
    pub number: u64,
    /// The least bound of the leaves that were passed, in cost units, if one has any.
    pub bound: Option<i128>,
    /// The first rule that the node breaks at which the walk has ended, where it asks for rules.
    pub rule: Option<Rule>,
}

impl Reached {
    /// Passes a node that has this bound without its children, or none.
    pub fn pass(&mut self, own: &Option<i128>)
        ensures number { self.new.number ≡ held_count (self.old.number + 1) }
        ensures bound { self.new.bound ≡ lesser_bound self.old.bound own.now }
        ensures rule { self.new.rule ≡ self.old.rule }
    {
        self.number = self.number.saturating_add(1);
        self.bound = lesser_bound(&self.bound, own);
    }
}

// The lesser of two bounds, of which neither need be there.
fn lesser_bound(first: &Option<i128>, second: &Option<i128>) -> Option<i128>
    ensures { result ≡ lesser_bound first.now second.now }
{
    match second {
        Some(number) => Some(lesser(first, number)),
        None => *first,
    }
}

// The lesser of two numbers, of which the first may not be there.
fn lesser(first: &Option<i128>, second: &i128) -> i128
    ensures { result ≡ lesser first.now second.now }
{
    match first {
        Some(number) if *number <= *second => *number,
        _ => *second,
    }
}
