//! The summary of a solution and its rotations as JSON.
ghost use Rattle.std.specs.Prelude.{◌≡◌, ◌<◌, IfOk, IsOkAnd, OnOk, length, map};
ghost use Rattle.dual_bound.specs.Solved.{PlanFits, plan_cost};
ghost use Rattle.fleet_model.specs.Legal.{IsAssignment};
ghost use Rattle.fleet_model.specs.Schedule.{fleet_of, fleets_in};
ghost use Rattle.plan_report.specs.Json.{count_data, fleet_data, fleets_data, json_text, number_data, open_data, rotation_data, rotations_data, summary_data};
ghost use Rattle.euler_rotation.specs.FleetRotations.{AreRotations};
ghost use Rattle.plan_report.specs.Summary.{outcome_word, printed_bound};
ghost use Rattle.serde_json.specs.Data.{array, no_members, object, put as put_member, string};
ghost use Rattle.serde_json.specs.View.{items_of, members_view, view};
ghost use Rattle.sums.specs.Places.{list_below};

use crate::summary_lines::{bound_of, cost_of, outcome};
use dual_bound::{Solved, TreeCounts};
use entries::NoMemory;
use euler_rotation::FleetRotation;
use fleet_model::{Assignment, Tables};
use plan_judge::used;
use rotation_report::rotation_words;
use serde_json::{Map, Value, put};
use std::alloc::Global;

/// The summary of a solution and its rotations as JSON: one object in one line. Cost and bound are texts, since they may be
/// larger than readers take numbers, and null where there is none.
#[tactic(auto, unfolding(crate::specs::Json::json_text))]
pub fn summary_json(
    alloc: Global,
    tables: &Tables,
    solved: &Solved,
    rotations: &[FleetRotation],
) -> Result<Vec<u8>, NoMemory>
    requires plan { PlanFits tables.now solved.now }
    requires rotations { AreRotations tables.now rotations.now }
    ensures { IfOk result (λ text. text.items ≡ json_text tables.now solved.now rotations.now) }
{
    let value = summary_value(alloc, tables, solved, rotations)?;
    let mut text = value.to_string(alloc)?.into_bytes();
    text.push(b'\n')?;
    Ok(text)
}

/// The object of a summary.
fn summary_value(
    alloc: Global,
    tables: &Tables,
    solved: &Solved,
    rotations: &[FleetRotation],
) -> Result<Value, NoMemory>
    requires plan { PlanFits tables.now solved.now }
    requires rotations { AreRotations tables.now rotations.now }
    ensures { IfOk result (λ value. view value ≡ summary_data tables.now solved.now rotations.now) }
{
    let mut object = Map::new(alloc);
    put_members(alloc, &mut object, tables, solved, rotations)?;
    Ok(Value::Object(object))
}

/// Puts the members of a summary into an object that has none.
fn put_members(
    alloc: Global,
    members: &mut Map<String, Value>,
    tables: &Tables,
    solved: &Solved,
    rotations: &[FleetRotation],
) -> Result<(), NoMemory>
    requires plan { PlanFits tables.now solved.now }
    requires rotations { AreRotations tables.now rotations.now }
    requires none { members_view members.old.entries ≡ no_members }
    ensures { OnOk result (object (members_view members.new.entries) ≡ summary_data tables.now solved.now rotations.now) }
{
    let counts = solved.tree().counts();
    put_made(
        alloc,
        members,
        "bound",
        number_value(alloc, bound_of(solved)),
    )?;
    put_made(alloc, members, "cost", number_value(alloc, cost_of(solved)))?;
    put_made(
        alloc,
        members,
        "fleets",
        fleets_value(alloc, tables, solved),
    )?;
    put_made(alloc, members, "open", open_value(alloc, &counts))?;
    put_made(alloc, members, "outcome", outcome_value(alloc, solved))?;
    put_made(
        alloc,
        members,
        "rotations",
        rotations_value(alloc, tables, solved, rotations),
    )?;
    put_count(alloc, members, "splits", counts.splits)
}

/// Puts what was made under a key.
fn put_made(
    alloc: Global,
    members: &mut Map<String, Value>,
    key: &str,
    made: Result<Value, NoMemory>,
) -> Result<(), NoMemory>
    ensures { OnOk result (IsOkAnd made (λ value. members_view members.new.entries ≡ put_member key.now (view value) (members_view members.old.entries))) }
{
    put(members, alloc, key, made?)?;
    Ok(())
}

/// Puts a count under a key.
fn put_count(
    alloc: Global,
    members: &mut Map<String, Value>,
    key: &str,
    count: u64,
) -> Result<(), NoMemory>
    ensures { OnOk result (members_view members.new.entries ≡ put_member key.now (count_data count) (members_view members.old.entries)) }
{
    put(members, alloc, key, Value::from(count))?;
    Ok(())
}

/// How the search ended, as text.
fn outcome_value(alloc: Global, solved: &Solved) -> Result<Value, NoMemory>
    ensures { IfOk result (λ value. view value ≡ string (outcome_word solved.now)) }
{
    Ok(Value::String(String::from_str(alloc, outcome(solved))?))
}

/// A number as text, or null.
fn number_value(alloc: Global, number: Option<i128>) -> Result<Value, NoMemory>
    ensures { IfOk result (λ value. view value ≡ number_data number) }
{
    match number {
        Some(number) => Ok(Value::String(number.to_string(alloc)?)),
        None => Ok(Value::Null),
    }
}

/// The open leaves by cause.
fn open_value(alloc: Global, counts: &TreeCounts) -> Result<Value, NoMemory>
    ensures { IfOk result (λ value. view value ≡ open_data counts.now) }
{
    let mut object = Map::new(alloc);
    put_open(alloc, &mut object, counts)?;
    Ok(Value::Object(object))
}

/// Puts the open leaves by cause into an object that has no members.
fn put_open(
    alloc: Global,
    members: &mut Map<String, Value>,
    counts: &TreeCounts,
) -> Result<(), NoMemory>
    requires { members_view members.old.entries ≡ no_members }
    ensures { OnOk result (object (members_view members.new.entries) ≡ open_data counts.now) }
{
    put_count(alloc, members, "grew", counts.open_grew)?;
    put_count(alloc, members, "nodes", counts.open_nodes)?;
    put_count(alloc, members, "pivots", counts.open_pivots)
}

/// The fleets, where there is a plan.
fn fleets_value(alloc: Global, tables: &Tables, solved: &Solved) -> Result<Value, NoMemory>
    requires { PlanFits tables.now solved.now }
    ensures { IfOk result (λ value. view value ≡ array (items_of (fleets_data tables.now solved.now))) }
{
    match solved {
        Solved::Planned { assignment, .. } => {
            Ok(Value::Array(planned_fleets(alloc, tables, assignment)?))
        }
        Solved::Infeasible { .. } | Solved::Unsettled { .. } => Ok(Value::Array(Vec::new(alloc))),
    }
}

/// The fleets by a plan.
fn planned_fleets(alloc: Global, tables: &Tables, plan: &Assignment) -> Result<Vec<Value>, NoMemory>
    requires { IsAssignment tables.now plan.now }
    ensures { IfOk result (λ values. map view values.items ≡ list_below (fleet_data tables.now plan.now) (fleets_in tables.now)) }
{
    let mut values = Vec::new(alloc);
    for fleet in 0..tables.fleet_count() {
        values.push(fleet_value(alloc, tables, plan, fleet)?)?;
    }
    Ok(values)
}

/// A fleet's aircraft, there and used.
fn fleet_value(
    alloc: Global,
    tables: &Tables,
    plan: &Assignment,
    fleet: u32,
) -> Result<Value, NoMemory>
    requires plan { IsAssignment tables.now plan.now }
    requires fleet { fleet < fleets_in tables.now }
    ensures { IfOk result (λ value. view value ≡ fleet_data tables.now plan.now fleet) }
{
    let mut object = Map::new(alloc);
    put_fleet(alloc, &mut object, tables, plan, fleet)?;
    Ok(Value::Object(object))
}

/// Puts a fleet's aircraft into an object that has no members.
fn put_fleet(
    alloc: Global,
    members: &mut Map<String, Value>,
    tables: &Tables,
    plan: &Assignment,
    fleet: u32,
) -> Result<(), NoMemory>
    requires plan { IsAssignment tables.now plan.now }
    requires fleet { fleet < fleets_in tables.now }
    requires none { members_view members.old.entries ≡ no_members }
    ensures { OnOk result (object (members_view members.new.entries) ≡ fleet_data tables.now plan.now fleet) }
{
    put_count(
        alloc,
        members,
        "has",
        u64::from(tables.fleet(fleet).aircraft),
    )?;
    put_made(alloc, members, "name", name_value(alloc, tables, fleet))?;
    put_count(alloc, members, "used", u64::from(used(tables, plan, fleet)))
}

/// The name of a fleet as a value.
fn name_value(alloc: Global, tables: &Tables, fleet: u32) -> Result<Value, NoMemory>
    requires { fleet < fleets_in tables.now }
    ensures { IfOk result (λ value. view value ≡ string (fleet_of tables.now fleet).name) }
{
    Ok(Value::String(String::from_str(alloc, fleet_name(tables, fleet))?))
}

/// The name of a fleet as text.
fn fleet_name(tables: &Tables, fleet: u32) -> &str
    requires { fleet < fleets_in tables.now }
    ensures { result.now ≡ (fleet_of tables.now fleet).name }
{
    match str::from_utf8(tables.fleet(fleet).name.as_slice()) {
        Ok(name) => name,
        Err(_) => unreachable!(),
    }
}

/// What becomes of each fleet's rotation, where there is a plan.
fn rotations_value(
    alloc: Global,
    tables: &Tables,
    solved: &Solved,
    rotations: &[FleetRotation],
) -> Result<Value, NoMemory>
    requires plan { PlanFits tables.now solved.now }
    requires rotations { AreRotations tables.now rotations.now }
    ensures { IfOk result (λ value. view value ≡ array (items_of (rotations_data tables.now solved.now rotations.now))) }
{
    match solved {
        Solved::Planned { .. } => Ok(Value::Array(made_rotations(alloc, tables, rotations)?)),
        Solved::Infeasible { .. } | Solved::Unsettled { .. } => Ok(Value::Array(Vec::new(alloc))),
    }
}

/// What becomes of each rotation.
fn made_rotations(
    alloc: Global,
    tables: &Tables,
    rotations: &[FleetRotation],
) -> Result<Vec<Value>, NoMemory>
    requires { AreRotations tables.now rotations.now }
    ensures { IfOk result (λ values. map view values.items ≡ list_below (rotation_data tables.now rotations.now) (length rotations.now)) }
{
    let mut values = Vec::new(alloc);
    for fleet in 0..rotations.len() as u32 {
        values.push(rotation_value(alloc, tables, rotations, fleet)?)?;
    }
    Ok(values)
}

/// What becomes of a fleet's rotation.
fn rotation_value(
    alloc: Global,
    tables: &Tables,
    rotations: &[FleetRotation],
    fleet: u32,
) -> Result<Value, NoMemory>
    requires { fleet < length rotations.now }
    ensures { IfOk result (λ value. view value ≡ rotation_data tables.now rotations.now fleet) }
{
    Ok(Value::String(rotation_words(alloc, tables, &rotations[fleet as usize])?))
}
