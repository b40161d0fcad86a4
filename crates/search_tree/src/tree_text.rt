//! The texts of a tree that was found.
use crate::box_prices::text_lines::{push_bare, push_trim};
use crate::box_prices::texts::push_prices;
use crate::problem::Problem;
use crate::subproblems::{State, Subproblems};
use basis_factors::fixed_numbers::NONE;
use entries::{Entries, NoMemory};
use fleet_model::{Pair, Tables};
use presolve::Trim;
use proof_lines::{Line, Version, push_line};
use std::alloc::Global;

/// The texts of a tree that proves a plan cheapest, or that there is none: that of the plan, which is read where the proof says that one
/// comes with it, and that of the proof.
#[derive(Drop)]
pub struct TreeTexts {
    pub plan: Entries<u8>,
    pub proof: Entries<u8>,
}

/// The texts of tables in which a leg keeps no pair.
pub fn bare_texts(
    alloc: Global,
    tables: &Tables,
    removals: &[Trim],
    leg: u32,
) -> Result<Option<TreeTexts>, NoMemory> {
    let mut proof = Vec::new(alloc);
    push_bare_proof(alloc, &mut proof, tables, removals, leg)?;
    Ok(Some(TreeTexts {
        plan: Entries::from_vec(Vec::new(alloc)),
        proof: Entries::from_vec(proof),
    }))
}

fn push_bare_proof(
    alloc: Global,
    proof: &mut Vec<u8>,
    tables: &Tables,
    removals: &[Trim],
    leg: u32,
) -> Result<(), NoMemory> {
    push_head(alloc, proof, tables, false, removals)?;
    push_bare(alloc, proof, tables, leg)?;
    push_end(alloc, proof, tables)
}

/// The texts of subproblems, and of the pairs of the plan that they prove cheapest, by their columns, where there is one.
pub fn tree_texts(
    alloc: Global,
    tables: &Tables,
    removals: &[Trim],
    problem: &Problem,
    subproblems: &Subproblems,
    columns: Option<&[u32]>,
) -> Result<Option<TreeTexts>, NoMemory> {
    let mut proof = Vec::new(alloc);
    let planned = columns.is_some();
    push_proof(alloc, &mut proof, tables, planned, removals, subproblems)?;
    let mut plan = Vec::new(alloc);
    if let Some(columns) = columns {
        push_plan(alloc, &mut plan, tables, problem, columns)?;
    }
    Ok(Some(TreeTexts {
        plan: Entries::from_vec(plan),
        proof: Entries::from_vec(proof),
    }))
}

fn push_proof(
    alloc: Global,
    proof: &mut Vec<u8>,
    tables: &Tables,
    planned: bool,
    removals: &[Trim],
    subproblems: &Subproblems,
) -> Result<(), NoMemory> {
    push_head(alloc, proof, tables, planned, removals)?;
    push_tree(alloc, proof, subproblems)?;
    push_end(alloc, proof, tables)
}

// Appends the head of a proof, and the pairs that are set aside above the tree, each with what refutes it.
fn push_head(
    alloc: Global,
    text: &mut Vec<u8>,
    tables: &Tables,
    planned: bool,
    removals: &[Trim],
) -> Result<(), NoMemory> {
    let version = if tables.windows {
        Version::Three
    } else {
        Version::Two
    };
    push_line(alloc, text, tables, &Line::Head(version))?;
    push_line(alloc, text, tables, &Line::Plan { planned })?;
    for removal in removals {
        let pair = Pair {
            leg: removal.leg,
            choice: removal.choice,
        };
        push_trim(alloc, text, tables, pair)?;
        push_line(alloc, text, tables, &Line::Refuted)?;
        push_prices(alloc, text, tables, &removal.reason)?;
    }
    Ok(())
}

// Appends the tree: of each subproblem its own lines, then its parts.
fn push_tree(alloc: Global, text: &mut Vec<u8>, subproblems: &Subproblems) -> Result<(), NoMemory> {
    let mut waiting = Vec::new(alloc);
    waiting.push(0u32)?;
    for _turn in 0..subproblems.all.len() {
        let Some(number) = waiting.pop() else {
            return Ok(());
        };
        let made = subproblems.at(number);
        push_own(text, subproblems, made.text, made.text_end)?;
        if matches!(made.state, State::Split) && made.yes != NONE && made.no != NONE {
            waiting.push(made.no)?;
            waiting.push(made.yes)?;
        }
    }
    Ok(())
}

// Appends the lines between two places.
fn push_own(
    text: &mut Vec<u8>,
    subproblems: &Subproblems,
    begun: usize,
    end: usize,
) -> Result<(), NoMemory> {
    if begun <= end && end <= subproblems.text.len() {
        text.extend_from_slice(&subproblems.text[begun..end])?;
    }
    Ok(())
}

// Appends the last line of a proof.
fn push_end(alloc: Global, text: &mut Vec<u8>, tables: &Tables) -> Result<(), NoMemory> {
    push_line(alloc, text, tables, &Line::End)
}

// Appends a plan: a header, and of each leg its pair. Names are of letters and digits, so nothing is quoted.
fn push_plan(
    alloc: Global,
    text: &mut Vec<u8>,
    tables: &Tables,
    problem: &Problem,
    columns: &[u32],
) -> Result<(), NoMemory> {
    text.extend_from_slice(b"flight,fleet")?;
    if tables.windows {
        text.extend_from_slice(b",shift")?;
    }
    text.extend_from_slice(b"\n")?;
    for column in columns {
        push_pair(alloc, text, tables, problem.priced.pair(*column))?;
    }
    Ok(())
}

// Appends the record of a leg.
fn push_pair(
    alloc: Global,
    text: &mut Vec<u8>,
    tables: &Tables,
    pair: Pair,
) -> Result<(), NoMemory> {
    if pair.leg >= tables.leg_count() || pair.choice >= tables.choice_count(pair.leg) {
        return Ok(());
    }
    text.extend_from_slice(tables.leg(pair.leg).flight.as_slice())?;
    text.extend_from_slice(b",")?;
    let fleet = tables.fleet_by(pair);
    let mut minutes = 0i16;
    if fleet < tables.fleet_count() {
        text.extend_from_slice(tables.fleet(fleet).name.as_slice())?;
        minutes = tables.shift_by(pair).minutes;
    } else {
        text.extend_from_slice(b"-")?;
    }
    if tables.windows {
        let digits = minutes.to_string(alloc)?;
        text.extend_from_slice(b",")?;
        text.extend_from_slice(digits.as_bytes())?;
    }
    text.extend_from_slice(b"\n")?;
    Ok(())
}
