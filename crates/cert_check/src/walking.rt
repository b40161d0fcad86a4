//! The walk over a tree. What it asks of the nodes is handed in.
//!
//! A tree may have 20,000 levels and more, so what a level takes of the stack is small: what a walk comes to stands in
//! one place, and whatever needs room of its own is a call that isn't inlined.
ghost use Rattle.std.specs.Prelude.{◌≡◌, All, None, Bool};
ghost use Rattle.fleet_model.specs.Kept.{all_pairs, kept_by, narrowed};
ghost use Rattle.fleet_model.specs.Schedule.{IsPair, leg_on};
ghost use Rattle.fleet_model.specs.declared.tables.Tables.{Tables};
ghost use Rattle.dual_bound.specs.OfTables.{IsOfTables};
ghost use Rattle.cert_check.specs.Nodes.{Node, node_at, nodes_in};
ghost use Rattle.cert_check.specs.Walking.{AreWalked};
ghost use Rattle.cert_check.specs.declared.reached.Reached.{Reached};

use crate::reached::Reached;
use dual_bound::Tree;
use fleet_model::{Kept, Step, Tables};

/// What is asked of the nodes of a tree, one after another.
pub trait Visit {
    // A node may be asked.
    ghost may: { Self → Tables → Node → Type 0 };

    // What is found of a node, on top of what the walk has come to before: whether the walk ends there, and what it has come to
    // then.
    ghost finds: { Self → Tables → Node → Reached → Reached → Bool → Type 0 };

    /// Asks a node, and answers whether the walk ends there. Takes no memory.
    fn enter(&self, tables: &Tables, kept: &Kept, node: &Tree, reached: &mut Reached) -> bool
        requires known { IsOfTables tables.now node.now }
        requires may { may self.now tables.now (node_at kept.now node.now) }
        ensures { finds self.now tables.now (node_at kept.now node.now) reached.old reached.new result };
}

/// A walk over a tree.
#[derive(Drop)]
pub struct Walker {
    /// The pairs that the subproblem keeps in which the walk stands.
    pub kept: Kept,
    /// What the walk has come to.
    pub reached: Reached,
}

impl Walker {
    /// Before the first node of a whole tree.
    pub fn new(tables: &Tables) -> Walker
        ensures kept { kept_by result.kept ≡ all_pairs tables.now }
        ensures number { result.reached.number ≡ 1 }
        ensures bound { result.reached.bound ≡ None }
    {
        Walker {
            kept: Kept::all(tables),
            reached: Reached {
                number: 1,
                bound: None,
                rule: None,
            },
        }
    }
}

/// Walks over a part of a tree, node by node in preorder, up to the first at which the visitor ends the walk, and answers
/// whether there is one. The subproblem is again as it was. Takes no memory.
#[cycle(walk)]
pub fn walk<V: Visit>(tables: &Tables, visitor: &V, walker: &mut Walker, tree: &Tree) -> bool
    requires known { IsOfTables tables.now tree.now }
    requires may { All (V.may visitor.now tables.now) (nodes_in (kept_by walker.old.kept) tree.now) }
    ensures kept { walker.new.kept ≡ walker.old.kept }
    ensures visited { AreWalked (V.finds visitor.now tables.now) (nodes_in (kept_by walker.old.kept) tree.now) walker.old.reached walker.new.reached result }
{
    match tree.parts() {
        None => visitor.enter(tables, &walker.kept, tree, &mut walker.reached),
        Some(parts) => {
            if visitor.enter(tables, &walker.kept, tree, &mut walker.reached) {
                return true;
            }
            let yes = Step {
                leg: parts.pair.leg,
                choice: parts.pair.choice,
                yes: true,
            };
            if walk_part(tables, visitor, walker, yes, parts.yes) {
                return true;
            }
            let no = Step {
                leg: parts.pair.leg,
                choice: parts.pair.choice,
                yes: false,
            };
            walk_part(tables, visitor, walker, no, parts.no)
        }
    }
}

/// Walks over a child in its part of the subproblem.
#[cycle(walk)]
fn walk_part<V: Visit>(
    tables: &Tables,
    visitor: &V,
    walker: &mut Walker,
    step: Step,
    child: &Tree,
) -> bool
    requires pair { IsPair tables.now (leg_on step.leg step.choice) }
    requires known { IsOfTables tables.now child.now }
    requires may { All (V.may visitor.now tables.now) (nodes_in (narrowed (kept_by walker.old.kept) step) child.now) }
    ensures kept { walker.new.kept ≡ walker.old.kept }
    ensures visited { AreWalked (V.finds visitor.now tables.now) (nodes_in (narrowed (kept_by walker.old.kept) step) child.now) walker.old.reached walker.new.reached result }
{
    let undo = walker.kept.narrow(step);
    let ended = walk(tables, visitor, walker, child);
    walker.kept.undo(undo);
    ended
}
