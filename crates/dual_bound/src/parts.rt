//! The parts of a tree.
ghost use Rattle.std.specs.Prelude.{MatchOption};
ghost use Rattle.dual_bound.specs.Dropping.{IsLeaf};
ghost use Rattle.dual_bound.specs.Parts.{ArePartsOf};

use crate::trees::Tree;
use fleet_model::Pair;

/// The pair by which a trim or a split parts its subproblem, and the trees of both parts.
#[derive(Clone, Copy)]
pub struct Parts<'a> {
    /// The pair.
    pub pair: Pair,
    /// The part in which the leg takes the choice.
    pub yes: &'a Tree,
    /// The part in which it doesn't.
    pub no: &'a Tree,
}

impl Tree {
    /// The parts of a trim or a split. A leaf has none. Takes no memory.
    pub fn parts(&self) -> Option<Parts<'_>>
        ensures { MatchOption result (IsLeaf self.now) (λ parts. ArePartsOf self.now parts.pair parts.yes.now parts.no.now) }
    {
        match self {
            Tree::Bare { .. } | Tree::Sole | Tree::Refuted(_) | Tree::Priced(_) | Tree::Open(..) =>
                { None }
            Tree::Trim {
                leg,
                choice,
                yes,
                no,
            }
            | Tree::Split {
                leg,
                choice,
                yes,
                no,
                ..
            } => Some(Parts {
                pair: Pair {
                    leg: *leg,
                    choice: *choice,
                },
                yes,
                no,
            }),
        }
    }
}
