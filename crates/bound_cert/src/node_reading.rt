//! Nodes, read from the lines of a proof.
ghost use Rattle.std.specs.Prelude.{◌≡◌, drop};
ghost use Rattle.proof_lines.specs.Known.{naming};
ghost use Rattle.proof_lines.specs.Words.{seen};
ghost use Rattle.bound_cert.specs.Lines.{Gives};
ghost use Rattle.bound_cert.specs.Reading.{alone_node, body_at, deep_at, head_at, head_of, mixed_node, node_said, priced_node};
ghost use Rattle.bound_cert.specs.Wants.{WantsNone};

use crate::faults::{Stop, TOO_DEEP, WRONG_WORD};
use crate::nodes::{Alone, Fraction, Head, Priced};
use crate::price_reading::{mixed_at, prices_at};
use crate::reading_lines::{Due, behind, line_due, stopped};
use dual_bound::nodes::Node;
use dual_bound::trees::MAX_DEPTH;
use dual_bound::{Cause, Mixed, Prices};
use proof_lines::{Grammar, Line};
use std::alloc::Global;

/// The next node, below so many trims and splits, and what is left behind it.
#[tactic(auto, unfolding(crate::specs::Reading::node_said))]
pub fn node_at<'a, 'b>(
    alloc: Global,
    grammar: &Grammar<'_>,
    above: usize,
    left: &'b [&'a [u8]],
) -> Result<(Node, &'b [&'a [u8]]), Stop>
    ensures { Gives (λ r. (r.0, seen r.1.now)) result (node_said (naming grammar.now) above (seen left.now)) }
{
    let head = head_at(alloc, grammar, above, left)?;
    body_at(alloc, grammar, head, behind(left))
}

/// What the first line of a node says, below so many trims and splits.
#[tactic(auto, unfolding(crate::specs::Reading::head_at))]
fn head_at(alloc: Global, grammar: &Grammar<'_>, above: usize, left: &[&[u8]]) -> Result<Head, Stop>
    ensures { Gives (λ head. head) result (head_at (naming grammar.now) above (seen left.now)) }
{
    let line = line_due(alloc, grammar, Due::Node, left)?;
    let head = head_of(line, left)?;
    deep_at(above, head, left)
}

/// Goes on where a node isn't too deep. Takes no memory.
fn deep_at(above: usize, head: Head, left: &[&[u8]]) -> Result<Head, Stop>
    ensures gives { Gives (λ head. head) result (deep_at above head (seen left.now)) }
    ensures wants_none { WantsNone result }
{
    if above <= MAX_DEPTH {
        Ok(head)
    } else {
        stopped(left, TOO_DEEP)
    }
}

/// What the first line of a node says. Takes no memory.
fn head_of(line: Line, left: &[&[u8]]) -> Result<Head, Stop>
    ensures gives { Gives (λ head. head) result (head_of line (seen left.now)) }
    ensures wants_none { WantsNone result }
{
    match line {
        Line::Bare { leg } => Ok(Head::Alone(Alone::Bare { leg })),
        Line::Sole => Ok(Head::Alone(Alone::Sole)),
        Line::Trim { leg, choice } => Ok(Head::Alone(Alone::Trim { leg, choice })),
        Line::Refuted => Ok(Head::Priced(Priced::Refuted)),
        Line::Priced => Ok(Head::Priced(Priced::Closed)),
        Line::OpenNodes => Ok(Head::Mixed(Fraction::Nodes)),
        Line::OpenPivots { made } => Ok(Head::Priced(Priced::Pivots { made })),
        Line::OpenGrew {
            pivots,
            row,
            column,
        } => Ok(Head::Priced(Priced::Grew {
            pivots,
            row,
            column,
        })),
        Line::OpenLift { step, at } => Ok(Head::Priced(Priced::Lift { step, at })),
        Line::Split { leg, choice } => Ok(Head::Mixed(Fraction::Split { leg, choice })),
        _ => stopped(left, WRONG_WORD),
    }
}

/// A node, from what its first line says and the lines behind it.
#[tactic(auto, unfolding(crate::specs::Reading::body_at))]
fn body_at<'a, 'b>(
    alloc: Global,
    grammar: &Grammar<'_>,
    head: Head,
    rest: &'b [&'a [u8]],
) -> Result<(Node, &'b [&'a [u8]]), Stop>
    ensures { Gives (λ r. (r.0, seen r.1.now)) result (body_at (naming grammar.now) head (seen rest.now)) }
{
    match head {
        Head::Alone(alone) => Ok((alone_node(alone), rest)),
        Head::Priced(priced) => {
            let (prices, rest) = prices_at(alloc, grammar, rest)?;
            Ok((priced_node(priced, prices), rest))
        }
        Head::Mixed(fraction) => {
            let (prices, rest) = prices_at(alloc, grammar, rest)?;
            let (mixed, rest) = mixed_at(alloc, grammar, rest)?;
            Ok((mixed_node(fraction, prices, mixed), rest))
        }
    }
}

/// A node by its one line.
fn alone_node(alone: Alone) -> Node
    ensures { result ≡ alone_node alone }
{
    match alone {
        Alone::Bare { leg } => Node::Bare { leg },
        Alone::Sole => Node::Sole,
        Alone::Trim { leg, choice } => Node::Trim { leg, choice },
    }
}

/// A leaf by its first line and its prices.
fn priced_node(priced: Priced, prices: Prices) -> Node
    ensures { result ≡ priced_node priced prices }
{
    match priced {
        Priced::Refuted => Node::Refuted(prices),
        Priced::Closed => Node::Priced(prices),
        Priced::Pivots { made } => Node::Open(prices, Cause::Pivots { made }),
        Priced::Grew {
            pivots,
            row,
            column,
        } => {
            let cause = Cause::Grew {
                pivots,
                row,
                column,
            };
            Node::Open(prices, cause)
        }
        Priced::Lift { step, at } => Node::Open(prices, Cause::Lift { step, at }),
    }
}

/// A node by its first line, its prices and its fractional assignment.
fn mixed_node(fraction: Fraction, prices: Prices, mixed: Mixed) -> Node
    ensures { result ≡ mixed_node fraction prices mixed }
{
    match fraction {
        Fraction::Nodes => Node::Open(prices, Cause::Nodes(mixed)),
        Fraction::Split { leg, choice } => Node::Split {
            leg,
            choice,
            prices,
            mixed,
        },
    }
}
