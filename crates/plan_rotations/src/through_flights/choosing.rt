//! The choice of through pairs.
ghost use Rattle.std.specs.Prelude.{◌≡◌, ◌<◌, ◌≤◌, ◌+◌, ℕ, length, slice_index, slice_index_or, [], pos, ◌+ℤ◌, IfOk};
ghost use Rattle.sums.specs.Below.{sum_below};
ghost use Rattle.sums.specs.Places.{list_below};
ghost use Rattle.plan_rotations.specs.best_matching.Worths.{worth_at};
ghost use Rattle.fleet_model.specs.declared.limits.TheConstants.{MAX_LEGS};
ghost use Rattle.fleet_model.specs.Legal.{IsLegal};
ghost use Rattle.fleet_model.specs.Schedule.{fleets_in, legs_in};
ghost use Rattle.fleet_model.specs.Plain.{IsPlain};
ghost use Rattle.lines_of_flying.specs.ground_turns.Throughs.{IsThroughSet, value_of_set};
ghost use Rattle.plan_rotations.specs.through_flights.Choice.{AreThroughsListed, IsChoice, ReachTurns, sum_of, turns_below};
ghost use Rattle.plan_rotations.specs.through_flights.Chosen.{IsBestMatching, chosen_value, is_chosen, own_number};
ghost use Rattle.plan_rotations.specs.through_flights.Worths.{AreTurnWorths};
ghost use Rattle.plan_rotations.specs.declared.through_flights.worths.TheConstants.{CLEAN_WORTH, MAX_VALUE};

use crate::best_matching::{Matching, best_matching};
use crate::through_flights::waits::longest_waits;
use crate::through_flights::worths::{CLEAN_WORTH, FleetTurns, turn_worths};
use entries::{Entries, NoMemory};
use fleet_model::{Assignment, Connection, Tables};
use std::alloc::Global;

/// The through pairs of a fleet, with numbers which show that no choice is worth more.
#[derive(Drop)]
pub struct Throughs {
    /// The pairs, by the leg that arrives.
    pub pairs: Entries<Connection>,
    /// What they are worth, in cost units.
    pub value: i128,
    /// A number of each leg as one that arrives, and 0 for the legs of other fleets.
    pub u: Entries<i128>,
    /// A number of each leg as one that departs.
    pub v: Entries<i128>,
}

/// Through pairs of a fleet of greatest value in sum, with no leg twice in one role, such that some fitting map of the
/// fleet holds them all, on plain tables. Pairs of value 0 are left out. At each clean turn `u` of the leg that arrives and `v` of the
/// one that departs sum to at least the pair's value, and both lists together to what the chosen pairs are worth.
pub fn choose(
    alloc: Global,
    tables: &Tables,
    plan: &Assignment,
    fleet: u32,
) -> Result<Throughs, NoMemory>
    requires plain { IsPlain tables.now }
    requires plan { IsLegal tables.now plan.now }
    requires fleet { fleet < fleets_in tables.now }
    ensures through_set { IfOk result (λ chosen. IsThroughSet tables.now plan.now fleet chosen.pairs) }
    ensures listed { IfOk result (λ chosen. AreThroughsListed tables.now chosen.pairs) }
    ensures value { IfOk result (λ chosen. chosen.value ≡ value_of_set tables.now chosen.pairs) }
    ensures reach { IfOk result (λ chosen. ReachTurns tables.now plan.now fleet chosen.u chosen.v) }
    ensures sums { IfOk result (λ chosen. sum_of chosen.u (legs_in tables.now) +ℤ sum_of chosen.v (legs_in tables.now) ≡ chosen.value) }
{
    let turns = FleetTurns {
        tables,
        plan,
        fleet,
        longest: longest_waits(alloc, tables, plan, fleet)?,
    };
    let table = turn_worths(alloc, &turns)?;
    matched(alloc, &turns, table.as_slice())
}

/// The through pairs of the matching that is worth most, with numbers of its duals.
fn matched(
    alloc: Global,
    turns: &FleetTurns<'_>,
    worths: &[Entries<u64>],
) -> Result<Throughs, NoMemory>
    requires plain { IsPlain turns.now.tables.now }
    requires plan { IsLegal turns.now.tables.now turns.now.plan.now }
    requires fleet { turns.now.fleet < fleets_in turns.now.tables.now }
    requires worths { AreTurnWorths turns.now.tables.now turns.now.plan.now turns.now.fleet worths.now }
    ensures { IfOk result (IsChoice turns.now.tables.now turns.now.plan.now turns.now.fleet) }
{
    let matching = best_matching(alloc, worths)?;
    choice_of(alloc, turns, worths, &matching)
}

/// The through pairs of a matching, with numbers of its duals.
fn choice_of(
    alloc: Global,
    turns: &FleetTurns<'_>,
    worths: &[Entries<u64>],
    matching: &Matching,
) -> Result<Throughs, NoMemory>
    requires plain { IsPlain turns.now.tables.now }
    requires plan { IsLegal turns.now.tables.now turns.now.plan.now }
    requires fleet { turns.now.fleet < fleets_in turns.now.tables.now }
    requires worths { AreTurnWorths turns.now.tables.now turns.now.plan.now turns.now.fleet worths.now }
    requires matching { IsBestMatching worths.now matching.now }
    ensures { IfOk result (IsChoice turns.now.tables.now turns.now.plan.now turns.now.fleet) }
{
    let columns = &matching.columns;
    Ok(Throughs {
        pairs: chosen_pairs(alloc, worths, columns)?,
        value: chosen_value(worths, columns),
        u: own_numbers(
            alloc,
            turns.plan,
            turns.fleet,
            &matching.row_duals,
            CLEAN_WORTH,
        )?,
        v: own_numbers(alloc, turns.plan, turns.fleet, &matching.column_duals, 0)?,
    })
}

/// The turns of a matching that are through pairs of some value.
fn chosen_pairs(
    alloc: Global,
    worths: &[Entries<u64>],
    columns: &Entries<usize>,
) -> Result<Entries<Connection>, NoMemory>
    requires few { length worths.now ≤ MAX_LEGS }
    requires square { (leg : ℕ) → leg < length worths.now → length (slice_index_or worths.now leg []) ≡ length worths.now }
    requires size { length columns.now ≡ length worths.now }
    requires columns { (leg : ℕ) → leg < length worths.now → slice_index columns.now leg < length worths.now }
    ensures { IfOk result (λ pairs. pairs ≡ turns_below (is_chosen worths.now columns.now) (slice_index columns.now) (length worths.now)) }
{
    let mut pairs = Vec::new(alloc);
    for leg in 0..worths.len() {
        let next = columns.as_slice()[leg];
        if worths[leg].as_slice()[next] > CLEAN_WORTH {
            pairs.push(Connection {
                arriving: leg as u32,
                departing: next as u32,
            })?;
        }
    }
    Ok(Entries::from_vec(pairs))
}

/// What the turns of a matching are worth as through pairs.
fn chosen_value(worths: &[Entries<u64>], columns: &Entries<usize>) -> i128
    requires few { length worths.now ≤ MAX_LEGS }
    requires square { (leg : ℕ) → leg < length worths.now → length (slice_index_or worths.now leg []) ≡ length worths.now }
    requires size { length columns.now ≡ length worths.now }
    requires columns { (leg : ℕ) → leg < length worths.now → slice_index columns.now leg < length worths.now }
    requires small { (leg : ℕ) → leg < length worths.now → worth_at worths.now leg (slice_index columns.now leg) ≤ CLEAN_WORTH + MAX_VALUE }
    ensures { result ≡ pos (sum_below (chosen_value worths.now columns.now) (length worths.now)) }
{
    let mut value = 0;
    for leg in 0..worths.len() {
        let worth = worths[leg].as_slice()[columns.as_slice()[leg]];
        value += worth.saturating_sub(CLEAN_WORTH);
    }
    i128::from(value)
}

/// The duals of the fleet's legs, each less a number, and 0 for the legs of other fleets.
fn own_numbers(
    alloc: Global,
    plan: &Assignment,
    fleet: u32,
    duals: &Entries<u64>,
    less: u64,
) -> Result<Entries<i128>, NoMemory>
    requires { length duals.now ≡ length plan.now }
    ensures { IfOk result (λ numbers. numbers ≡ list_below (own_number plan.now fleet duals.now less) (length plan.now)) }
{
    let mut numbers = Vec::new(alloc);
    for leg in 0..plan.len() {
        numbers.push(own_number(plan, fleet, duals, less, leg))?;
    }
    Ok(Entries::from_vec(numbers))
}

/// The number of one leg.
fn own_number(plan: &Assignment, fleet: u32, duals: &Entries<u64>, less: u64, leg: u32) -> i128
    requires leg { leg < length plan.now }
    requires dual { leg < length duals.now }
    ensures { result ≡ own_number plan.now fleet duals.now less leg }
{
    if plan.choice(leg) == fleet {
        i128::from(duals.as_slice()[leg as usize]) - i128::from(less)
    } else {
        0
    }
}
