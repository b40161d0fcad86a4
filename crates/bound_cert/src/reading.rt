//! The text of a proof, read.
ghost use Rattle.std.specs.Prelude.{◌≡◌, Bool, drop, length, IfOk, MatchResult};
ghost use Rattle.proof_lines.specs.Known.{names_in, naming};
ghost use Rattle.proof_lines.specs.Words.{seen};
ghost use Rattle.bound_cert.specs.Lines.{Gives, left_of};
ghost use Rattle.bound_cert.specs.Nodes.{end_at, head_is, nothing, plan_at, plan_in_line, proof_at, rest_at, tree_at, version_of};
ghost use Rattle.dual_bound.specs.Nodes.{nodes_of};
ghost use Rattle.dual_bound.specs.OfTables.{IsOfTables};
ghost use Rattle.bound_cert.specs.Wants.{WantsNone};
ghost use Rattle.bound_cert.specs.ReadProof.{AnswersProof, FaultIn, FaultOf, IsTextOf, LinesRead, ReadsAs, proof_answer};
ghost use Rattle.dual_bound.specs.declared.trees.Tree.{Tree};

use crate::faults::{BAD_LINE, CertError, CertFault, Stop, WRONG_HEAD, WRONG_WORD};
use crate::reading_lines::{Due, behind, left_of, line_due, stopped};
use crate::tree_reading::tree_from;
use dual_bound::Tree;
use fleet_model::Tables;
use proof_lines::words::{is_plain, is_same};
use proof_lines::{Grammar, Line, Version};
use std::alloc::Global;

/// A proof of a bound.
#[derive(Drop)]
pub struct Proof {
    /// Whether a plan comes with it.
    pub planned: bool,
    /// The tree of subproblems.
    pub tree: Tree,
}

/// The proof that a text says, else the first fault of the text: its first bad line, and there the least kind. So it
/// answers a proof just where the text is that of a proof, in a version of the tables, whose tree is in written order and no
/// deeper than `MAX_DEPTH`, and that proof. Tables with windows have version 3, which tells shifts, and others versions 1 and 2.
pub fn read_proof(alloc: Global, tables: &Tables, bytes: &[u8]) -> Result<Proof, CertError>
    ensures reads { MatchResult result (ReadsAs tables.now bytes.now) (FaultOf tables.now bytes.now) }
    ensures of_tables { IfOk result (λ proof. IsOfTables tables.now proof.tree) }
    ensures exactly { IfOk result (λ proof. IsTextOf tables.now bytes.now proof.planned proof.tree) }
    ensures complete { (planned : Bool) (tree : Tree) → IsTextOf tables.now bytes.now planned tree → AnswersProof planned tree result }
{
    read(alloc, tables, bytes)
}

/// The same, line by line.
fn read(alloc: Global, tables: &Tables, bytes: &[u8]) -> Result<Proof, CertError>
    ensures { MatchResult result (ReadsAs tables.now bytes.now) (FaultOf tables.now bytes.now) }
{
    let lines = left_of(alloc, bytes)?;
    of_lines(alloc, tables, lines.as_slice())
}

/// The proof that the lines of a text say, else their first fault.
fn of_lines(alloc: Global, tables: &Tables, lines: &[&[u8]]) -> Result<Proof, CertError>
    ensures { MatchResult result (LinesRead tables.now (seen lines.now)) (FaultIn tables.now (seen lines.now)) }
{
    answer(lines, proof_at(alloc, tables, lines))
}

/// What was read of a text's lines, with the number of the line at which it stopped.
fn answer(lines: &[&[u8]], read: Result<Proof, Stop>) -> Result<Proof, CertError>
    ensures { result ≡ proof_answer (length lines.now) read }
{
    match read {
        Ok(proof) => Ok(proof),
        Err(Stop::NoMemory) => Err(CertError::NoMemory),
        Err(Stop::Fault { left, kind }) => {
            let before = (lines.len() as u64).saturating_sub(left as u64);
            Err(CertError::Fault(CertFault {
                line: before + 1,
                kind,
            }))
        }
    }
}

/// What all of a text reads as.
#[tactic(auto, unfolding(crate::specs::Nodes::proof_at))]
fn proof_at(alloc: Global, tables: &Tables, left: &[&[u8]]) -> Result<Proof, Stop>
    ensures { Gives (λ proof. (proof.planned, nodes_of proof.tree)) result (proof_at tables.now (seen left.now)) }
{
    let version = head_is(tables.windows, left)?;
    of_version(alloc, tables, version, behind(left))
}

/// The version that the head says, where that is the first line, and the tables have windows or haven't. Takes no memory.
#[tactic(auto, unfolding(crate::specs::Nodes::head_is))]
fn head_is(windows: bool, left: &[&[u8]]) -> Result<Version, Stop>
    ensures gives { Gives (λ version. version) result (head_is windows (seen left.now)) }
    ensures wants_none { WantsNone result }
{
    let Some((line, rest)) = left.split_first() else {
        return stopped(left, WRONG_HEAD);
    };
    if rest.is_empty() {
        return stopped(left, WRONG_HEAD);
    }
    match version_of(windows, line) {
        Some(version) => Ok(version),
        None => stopped(left, WRONG_HEAD),
    }
}

/// The version that the head of a text says: where the tables have windows one with shifts, and else one without.
fn version_of(windows: bool, line: &[u8]) -> Option<Version>
    ensures { result ≡ version_of windows line.now }
{
    if windows {
        return if is_same(line, b"fleet proof 3") {
            Some(Version::Three)
        } else {
            None
        };
    }
    if is_same(line, b"fleet proof 1") {
        Some(Version::One)
    } else if is_same(line, b"fleet proof 2") {
        Some(Version::Two)
    } else {
        None
    }
}

/// Whether a plan comes, and the tree, in a text of this version.
fn of_version(
    alloc: Global,
    tables: &Tables,
    version: Version,
    left: &[&[u8]],
) -> Result<Proof, Stop>
    ensures { Gives (λ proof. (proof.planned, nodes_of proof.tree)) result (rest_at (names_in version tables.now) (seen left.now)) }
{
    match Grammar::new(alloc, version, tables) {
        Ok(grammar) => {
            let read = rest_at(alloc, &grammar, left);
            grammar.let_go();
            read
        }
        Err(_) => Err(Stop::NoMemory),
    }
}

/// Whether a plan comes, and the tree.
#[tactic(auto, unfolding(crate::specs::Nodes::rest_at))]
fn rest_at(alloc: Global, grammar: &Grammar<'_>, left: &[&[u8]]) -> Result<Proof, Stop>
    ensures { Gives (λ proof. (proof.planned, nodes_of proof.tree)) result (rest_at (naming grammar.now) (seen left.now)) }
{
    let planned = plan_at(alloc, grammar, left)?;
    let tree = tree_at(alloc, grammar, behind(left))?;
    Ok(Proof { planned, tree })
}

/// Whether a plan comes with the proof.
#[tactic(auto, unfolding(crate::specs::Reading::said_at))]
fn plan_at(alloc: Global, grammar: &Grammar<'_>, left: &[&[u8]]) -> Result<bool, Stop>
    ensures { Gives (λ planned. planned) result (plan_at (naming grammar.now) (seen left.now)) }
{
    let line = line_due(alloc, grammar, Due::Plan, left)?;
    plan_of(line, left)
}

/// Whether a line says that a plan comes with the proof. Takes no memory.
fn plan_of(line: Line, left: &[&[u8]]) -> Result<bool, Stop>
    ensures gives { Gives (λ planned. planned) result (plan_in_line line (seen left.now)) }
    ensures wants_none { WantsNone result }
{
    match line {
        Line::Plan { planned } => Ok(planned),
        _ => stopped(left, WRONG_WORD),
    }
}

/// The tree, and the end behind it.
#[tactic(auto, unfolding(crate::specs::Nodes::tree_at))]
fn tree_at(alloc: Global, grammar: &Grammar<'_>, left: &[&[u8]]) -> Result<Tree, Stop>
    ensures { Gives (λ tree. nodes_of tree) result (tree_at (naming grammar.now) (seen left.now)) }
{
    let (tree, rest) = tree_from(alloc, grammar, left)?;
    end_at(alloc, grammar, rest)?;
    Ok(tree)
}

/// Goes on where the first line is the end and nothing stands behind it.
#[tactic(auto, unfolding(crate::specs::Nodes::end_at))]
fn end_at(alloc: Global, grammar: &Grammar<'_>, left: &[&[u8]]) -> Result<(), Stop>
    ensures { Gives (λ _. tt) result (end_at (naming grammar.now) (seen left.now)) }
{
    line_due(alloc, grammar, Due::End, left)?;
    nothing(behind(left))
}

/// Goes on where nothing is left. Takes no memory.
#[tactic(auto, unfolding(crate::specs::Nodes::nothing))]
fn nothing(left: &[&[u8]]) -> Result<(), Stop>
    ensures gives { Gives (λ _. tt) result (nothing (seen left.now)) }
    ensures wants_none { WantsNone result }
{
    let Some((line, rest)) = left.split_first() else {
        return Ok(());
    };
    if rest.is_empty() {
        return if line.is_empty() {
            Ok(())
        } else {
            stopped(left, BAD_LINE)
        };
    }
    stopped(left, if is_plain(line) { WRONG_WORD } else { BAD_LINE })
}
