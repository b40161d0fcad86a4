//! Trees, read from the lines of a proof. The nodes that wait for children stand in a list, so the depth of a tree
//! takes none of the stack.
ghost use Rattle.std.specs.Prelude.{◌≡◌, ◌++◌, ◌∷◌, [], length, IfOk};
ghost use Rattle.proof_lines.specs.Known.{naming};
ghost use Rattle.proof_lines.specs.Words.{seen};
ghost use Rattle.bound_cert.specs.Lines.{Gives};
ghost use Rattle.bound_cert.specs.Nodes.{inner_node, nodes_from};
ghost use Rattle.dual_bound.specs.Nodes.{nodes_of};
ghost use Rattle.bound_cert.specs.ReadTree.{IsClosed, IsGrownByNode, IsNodePlaced};

use crate::faults::{Stop, TEXT_ENDS};
use crate::node_reading::node_at;
use crate::nodes::{Inner, Parent, Place};
use crate::reading_lines::stopped;
use dual_bound::Tree;
use dual_bound::nodes::Node;
use entries::NoMemory;
use proof_lines::Grammar;
use std::alloc::Global;

/// The next tree, and what is left behind its lines.
pub fn tree_from<'a, 'b>(
    alloc: Global,
    grammar: &Grammar<'_>,
    left: &'b [&'a [u8]],
) -> Result<(Tree, &'b [&'a [u8]]), Stop>
    ensures { Gives (λ r. (nodes_of r.0, seen r.1.now)) result (nodes_from (naming grammar.now) (length left.now) [] [] (seen left.now)) }
{
    let mut waiting = Vec::new(alloc);
    read_nodes(alloc, grammar, &mut waiting, left)
}

/// The same, where no node waits yet.
fn read_nodes<'a, 'b>(
    alloc: Global,
    grammar: &Grammar<'_>,
    waiting: &mut Vec<Parent>,
    left: &'b [&'a [u8]],
) -> Result<(Tree, &'b [&'a [u8]]), Stop>
    requires { waiting.now.items ≡ [] }
    ensures { Gives (λ r. (nodes_of r.0, seen r.1.now)) result (nodes_from (naming grammar.now) (length left.now) [] [] (seen left.now)) }
{
    let mut rest = left;
    let mut most = left.len();
    while most > 0 {
        let (node, behind) = match node_at(alloc, grammar, waiting.len(), rest) {
            Ok(read) => read,
            Err(stop) => return Err(stop),
        };
        match with_node(alloc, waiting, node) {
            Ok(None) => {}
            Ok(Some(tree)) => return Ok((tree, behind)),
            Err(_) => return Err(Stop::NoMemory),
        }
        rest = same(behind);
        most -= 1;
    }
    stopped(rest, TEXT_ENDS)
}

/// The same lines. The borrow checker wants a call where a loop goes on with a reference out of a pair.
fn same<'a, 'b>(left: &'b [&'a [u8]]) -> &'b [&'a [u8]]
    ensures { result.now ≡ left.now }
{
    left
}

/// Puts a node into its place: the tree, where that is complete now, else one more waits or has its first child.
fn with_node(alloc: Global, waiting: &mut Vec<Parent>, node: Node) -> Result<Option<Tree>, NoMemory>
    ensures { IfOk result (IsGrownByNode waiting.old.items node waiting.new.items) }
{
    match place_of(node) {
        Place::Leaf(tree) => with_tree(alloc, waiting, tree),
        Place::Inner(inner) => {
            waiting.push(Parent { inner, yes: None })?;
            Ok(None)
        }
    }
}

/// A node as a leaf or as one that waits for children.
fn place_of(node: Node) -> Place
    ensures { IsNodePlaced node result }
{
    match node {
        Node::Bare { leg } => Place::Leaf(Tree::Bare { leg }),
        Node::Sole => Place::Leaf(Tree::Sole),
        Node::Refuted(prices) => Place::Leaf(Tree::Refuted(prices)),
        Node::Priced(prices) => Place::Leaf(Tree::Priced(prices)),
        Node::Open(prices, cause) => Place::Leaf(Tree::Open(prices, cause)),
        Node::Trim { leg, choice } => Place::Inner(Inner::Trim { leg, choice }),
        Node::Split {
            leg,
            choice,
            prices,
            mixed,
        } => Place::Inner(Inner::Split {
            leg,
            choice,
            prices,
            mixed,
        }),
    }
}

/// Puts a complete tree into its place: it is the first child of the nearest that waits, or its second, which
/// completes that too.
fn with_tree(alloc: Global, waiting: &mut Vec<Parent>, tree: Tree) -> Result<Option<Tree>, NoMemory>
    ensures { IfOk result (IsClosed waiting.old.items tree waiting.new.items) }
{
    let mut whole = tree;
    while let Some(parent) = waiting.pop() {
        let Parent { inner, yes } = parent;
        match yes {
            None => {
                waiting.push(Parent {
                    inner,
                    yes: Some(whole),
                })?;
                return Ok(None);
            }
            Some(first) => whole = joined(alloc, inner, first, whole)?,
        }
    }
    Ok(Some(whole))
}

/// A trim or a split with its children.
fn joined(alloc: Global, inner: Inner, yes: Tree, no: Tree) -> Result<Tree, NoMemory>
    ensures { IfOk result (λ tree. nodes_of tree ≡ inner_node inner ∷ (nodes_of yes ++ nodes_of no)) }
{
    let yes = Box::new(alloc, yes)?;
    with_first(alloc, inner, yes, no)
}

/// The same, where the first child is kept already.
fn with_first(alloc: Global, inner: Inner, yes: Box<Tree>, no: Tree) -> Result<Tree, NoMemory>
    ensures { IfOk result (λ tree. nodes_of tree ≡ inner_node inner ∷ (nodes_of yes.value ++ nodes_of no)) }
{
    let no = Box::new(alloc, no)?;
    Ok(with_both(inner, yes, no))
}

/// The same, where both children are kept already.
fn with_both(inner: Inner, yes: Box<Tree>, no: Box<Tree>) -> Tree
    ensures { nodes_of result ≡ inner_node inner ∷ (nodes_of yes.value ++ nodes_of no.value) }
{
    match inner {
        Inner::Trim { leg, choice } => Tree::Trim {
            leg,
            choice,
            yes,
            no,
        },
        Inner::Split {
            leg,
            choice,
            prices,
            mixed,
        } => Tree::Split {
            leg,
            choice,
            prices,
            mixed,
            yes,
            no,
        },
    }
}
