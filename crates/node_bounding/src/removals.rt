//! The removals of presolve: pairs that are not searched, and the nodes above the tree that show why.
ghost use Rattle.std.specs.Prelude.{◌≡◌, All, IfOk};
ghost use Rattle.fleet_model.specs.Kept.{kept_by};
ghost use Rattle.presolve.specs.Removals.{kept_after};
ghost use Rattle.node_bounding.specs.Trims.{AreBelow, IsBelow, IsRemovalWithin};

use crate::steps::without;
use dual_bound::Tree;
use entries::{Entries, NoMemory};
use fleet_model::Kept;
use presolve::Trim;
use std::alloc::Global;

/// Removes the pairs from the subproblem. Takes no memory.
pub fn remove(kept: &mut Kept, removals: &[Trim])
    requires { All IsRemovalWithin removals.now }
    ensures { kept_by kept.new ≡ kept_after (kept_by kept.old) removals.now }
{
    for removal in removals {
        kept.narrow(without(removal.leg, removal.choice));
    }
}

/// Puts a tree below the removals, the first of them topmost.
pub fn below(alloc: Global, removals: Entries<Trim>, rest: Tree) -> Result<Tree, NoMemory>
    ensures { IfOk result (AreBelow removals rest) }
{
    let mut waiting = removals.into_vec();
    let mut tree = rest;
    while let Some(removal) = waiting.pop() {
        tree = below_one(alloc, removal, tree)?;
    }
    Ok(tree)
}

// Puts a tree below a removal.
fn below_one(alloc: Global, removal: Trim, rest: Tree) -> Result<Tree, NoMemory>
    ensures { IfOk result (IsBelow removal rest) }
{
    Ok(Tree::Trim {
        leg: removal.leg,
        choice: removal.choice,
        yes: Box::new(alloc, Tree::Refuted(removal.reason))?,
        no: Box::new(alloc, rest)?,
    })
}
