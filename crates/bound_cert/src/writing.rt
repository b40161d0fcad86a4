//! The text of a proof, written.
ghost use Rattle.std.specs.Prelude.{◌≡◌, ◌++◌, ◌<◌, All, IfOk, OnOk, drop, map};
ghost use Rattle.fleet_model.specs.Schedule.{fleets_in};
ghost use Rattle.dual_bound.specs.OfTables.{ArePricesOf, IsCauseOf, IsMixedOf, IsOfTables};
ghost use Rattle.proof_lines.specs.LineText.{IsNamed};
ghost use Rattle.proof_lines.specs.declared.line.Line.{Line};
ghost use Rattle.bound_cert.specs.ProofText.{at_line, cause_lines, charge_line, first_line, mixed_lines, node_lines, open_line, price_lines, proof_text, rent_lines, rent_lines_at, root_of, text_of_lines, tree_lines, weight_line, written_version};

use dual_bound::{Cause, Charge, Mixed, PriceStep, Prices, Tree, Weight};
use entries::NoMemory;
use fleet_model::Tables;
use proof_lines::{Line, Version, push_line};
use std::alloc::Global;

/// The text of a proof, as `proof.txt` holds it: the head, whether a plan comes with it, the tree, and the end; in version 3
/// where the tables have windows, else in version 2. Its one error is want of memory.
pub fn write_proof(
    alloc: Global,
    tables: &Tables,
    planned: bool,
    tree: &Tree,
) -> Result<Vec<u8>, NoMemory>
    requires { IsOfTables tables.now tree.now }
    ensures { IfOk result (λ text. text.items ≡ proof_text tables.now planned tree.now) }
{
    let mut text = Vec::new(alloc);
    push_proof(alloc, &mut text, tables, planned, tree)?;
    Ok(text)
}

/// Appends the text of a proof.
fn push_proof(
    alloc: Global,
    text: &mut Vec<u8>,
    tables: &Tables,
    planned: bool,
    tree: &Tree,
) -> Result<(), NoMemory>
    requires { IsOfTables tables.now tree.now }
    ensures { OnOk result (text.new.items ≡ text.old.items ++ proof_text tables.now planned tree.now) }
{
    let version = written_version(tables.windows);
    push_line(alloc, text, tables, &Line::Head(version))?;
    push_line(alloc, text, tables, &Line::Plan { planned })?;
    push_tree(alloc, text, tables, tree)?;
    push_line(alloc, text, tables, &Line::End)
}

/// The version that is written: where the tables have windows that with shifts.
fn written_version(windows: bool) -> Version
    ensures { result ≡ written_version windows }
{
    if windows {
        Version::Three
    } else {
        Version::Two
    }
}

/// Appends the lines of a tree. What it takes of the stack for a level is small, since a tree may be deep.
fn push_tree(
    alloc: Global,
    text: &mut Vec<u8>,
    tables: &Tables,
    tree: &Tree,
) -> Result<(), NoMemory>
    requires { IsOfTables tables.now tree.now }
    ensures { OnOk result (text.new.items ≡ text.old.items ++ text_of_lines tables.now (tree_lines tables.now tree.now)) }
{
    push_node(alloc, text, tables, tree)?;
    match tree {
        Tree::Trim { yes, no, .. } | Tree::Split { yes, no, .. } => {
            push_tree(alloc, text, tables, yes)?;
            push_tree(alloc, text, tables, no)
        }
        _ => Ok(()),
    }
}

/// Appends the lines of a node itself, without those of its children. It stays a call of its own, so that what it takes
/// of the stack isn't taken once for each level of a tree.
#[inline(never)]
fn push_node(
    alloc: Global,
    text: &mut Vec<u8>,
    tables: &Tables,
    tree: &Tree,
) -> Result<(), NoMemory>
    requires { IsOfTables tables.now tree.now }
    ensures { OnOk result (text.new.items ≡ text.old.items ++ text_of_lines tables.now (node_lines tables.now (root_of tree.now))) }
{
    let line = first_line(tree);
    push_line(alloc, text, tables, &line)?;
    push_more(alloc, text, tables, tree)
}

/// The first line of the node at the top of a tree.
fn first_line(tree: &Tree) -> Line
    ensures { result ≡ first_line (root_of tree.now) }
{
    match tree {
        Tree::Bare { leg } => Line::Bare { leg: *leg },
        Tree::Sole => Line::Sole,
        Tree::Refuted(_) => Line::Refuted,
        Tree::Priced(_) => Line::Priced,
        Tree::Open(_, cause) => open_line(cause),
        Tree::Trim { leg, choice, .. } => Line::Trim {
            leg: *leg,
            choice: *choice,
        },
        Tree::Split { leg, choice, .. } => Line::Split {
            leg: *leg,
            choice: *choice,
        },
    }
}

/// The first line of an open leaf.
fn open_line(cause: &Cause) -> Line
    ensures { result ≡ open_line cause.now }
{
    match cause {
        Cause::Nodes(_) => Line::OpenNodes,
        Cause::Pivots { made } => Line::OpenPivots { made: *made },
        Cause::Grew {
            pivots,
            row,
            column,
        } => Line::OpenGrew {
            pivots: *pivots,
            row: *row,
            column: *column,
        },
        Cause::Lift { step, at } => Line::OpenLift {
            step: *step,
            at: *at,
        },
    }
}

/// Appends the lines of the node at the top of a tree behind its first.
fn push_more(
    alloc: Global,
    text: &mut Vec<u8>,
    tables: &Tables,
    tree: &Tree,
) -> Result<(), NoMemory>
    requires { IsOfTables tables.now tree.now }
    ensures { OnOk result (text.new.items ≡ text.old.items ++ text_of_lines tables.now (drop 1 (node_lines tables.now (root_of tree.now)))) }
{
    match tree {
        Tree::Refuted(prices) | Tree::Priced(prices) => push_prices(alloc, text, tables, prices),
        Tree::Open(prices, cause) => {
            push_prices(alloc, text, tables, prices)?;
            push_cause(alloc, text, tables, cause)
        }
        Tree::Split { prices, mixed, .. } => {
            push_prices(alloc, text, tables, prices)?;
            push_mixed(alloc, text, tables, mixed)
        }
        Tree::Bare { .. } | Tree::Sole | Tree::Trim { .. } => Ok(()),
    }
}

/// Appends the lines of a cause behind the prices of its leaf.
fn push_cause(
    alloc: Global,
    text: &mut Vec<u8>,
    tables: &Tables,
    cause: &Cause,
) -> Result<(), NoMemory>
    requires { IsCauseOf tables.now cause.now }
    ensures { OnOk result (text.new.items ≡ text.old.items ++ text_of_lines tables.now (cause_lines cause.now)) }
{
    match cause {
        Cause::Nodes(mixed) => push_mixed(alloc, text, tables, mixed),
        Cause::Pivots { .. } | Cause::Grew { .. } | Cause::Lift { .. } => Ok(()),
    }
}

/// Appends the lines of a fractional assignment.
fn push_mixed(
    alloc: Global,
    text: &mut Vec<u8>,
    tables: &Tables,
    mixed: &Mixed,
) -> Result<(), NoMemory>
    requires { IsMixedOf tables.now mixed.now }
    ensures { OnOk result (text.new.items ≡ text.old.items ++ text_of_lines tables.now (mixed_lines mixed.now)) }
{
    push_line(alloc, text, tables, &Line::Mixed { scale: mixed.scale })?;
    push_entries(alloc, text, tables, mixed.weights.as_slice())
}

/// An entry of prices or of a fractional assignment, which is written as a line of its own.
trait Written {
    // The line of an entry.
    ghost written: { Self → Line };

    /// The line of this entry.
    fn line(&self) -> Line
        ensures { result ≡ written self.now };
}

/// Appends the lines of entries.
fn push_entries<T: Written>(
    alloc: Global,
    text: &mut Vec<u8>,
    tables: &Tables,
    entries: &[T],
) -> Result<(), NoMemory>
    requires { All (λ entry. IsNamed tables.now (T.written entry)) entries.now }
    ensures { OnOk result (text.new.items ≡ text.old.items ++ text_of_lines tables.now (map T.written entries.now)) }
{
    for entry in entries {
        push_line(alloc, text, tables, &entry.line())?;
    }
    Ok(())
}

impl Written for Weight {
    ghost written = { weight_line };

    fn line(&self) -> Line {
        Line::Weight {
            leg: self.leg,
            choice: self.choice,
            weight: self.weight,
        }
    }
}

/// Appends the lines of prices.
fn push_prices(
    alloc: Global,
    text: &mut Vec<u8>,
    tables: &Tables,
    prices: &Prices,
) -> Result<(), NoMemory>
    requires { ArePricesOf tables.now prices.now }
    ensures { OnOk result (text.new.items ≡ text.old.items ++ text_of_lines tables.now (price_lines tables.now prices.now)) }
{
    push_line(
        alloc,
        text,
        tables,
        &Line::Scale {
            scale: prices.scale,
        },
    )?;
    push_rents(alloc, text, tables, prices)?;
    push_entries(alloc, text, tables, prices.charges.as_slice())?;
    push_entries(alloc, text, tables, prices.steps.as_slice())
}

/// Appends the lines of the rents that aren't 0.
fn push_rents(
    alloc: Global,
    text: &mut Vec<u8>,
    tables: &Tables,
    prices: &Prices,
) -> Result<(), NoMemory>
    ensures { OnOk result (text.new.items ≡ text.old.items ++ text_of_lines tables.now (rent_lines prices.now (fleets_in tables.now))) }
{
    for fleet in 0..tables.fleet_count() {
        push_rent(alloc, text, tables, prices, fleet)?;
    }
    Ok(())
}

/// Appends the line of a rent, unless the rent is 0.
fn push_rent(
    alloc: Global,
    text: &mut Vec<u8>,
    tables: &Tables,
    prices: &Prices,
    fleet: u32,
) -> Result<(), NoMemory>
    requires { fleet < fleets_in tables.now }
    ensures { OnOk result (text.new.items ≡ text.old.items ++ text_of_lines tables.now (rent_lines_at prices.now fleet)) }
{
    let rent = prices.rent(fleet);
    if rent == 0 {
        return Ok(());
    }
    push_line(alloc, text, tables, &Line::Rent { fleet, rent })
}

impl Written for Charge {
    ghost written = { charge_line };

    fn line(&self) -> Line {
        Line::Charge {
            station: self.station,
            day: self.day,
            charge: self.charge,
        }
    }
}

impl Written for PriceStep {
    ghost written = { at_line };

    fn line(&self) -> Line {
        Line::At {
            fleet: self.fleet,
            station: self.station,
            minute: self.minute,
            value: self.value,
        }
    }
}
