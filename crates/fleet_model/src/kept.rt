ghost use Rattle.std.specs.Prelude.{◌≡◌, ◌<◌, ℕ, ◌==◌, ◌&&◌, ◌||◌, false, slice_index_or, is_some};
ghost use Rattle.fleet_model.specs.declared.limits.TheConstants.{MAX_CHOICES, MAX_LEGS};
ghost use Rattle.fleet_model.specs.declared.parts.Pair.{Pair};
ghost use Rattle.fleet_model.specs.Costs.{cost_in, is_of};
ghost use Rattle.fleet_model.specs.Kept.{all_pairs, kept_by, leaves, narrowed, put_back};
ghost use Rattle.fleet_model.specs.Schedule.{fleet_by, fleets_in, left_out, leg_of, leg_on, legs_in};

use crate::limits::{MAX_CHOICES, MAX_LEGS};
use crate::parts::{Pair, PairCost};
use crate::saved::SavedRow;
use crate::tables::Tables;
use crate::undoing::Undo;
use std::marker::Model;

/// A step from a subproblem into a part of it: `yes` leaves only this pair on the leg, and no (`yes` is false)
/// removes it.
#[derive(Clone, Copy)]
pub struct Step {
    pub leg: u32,
    pub choice: u32,
    pub yes: bool,
}

/// The pairs that a subproblem keeps. Contracts see which (`kept_by`), and no more of it.
///
/// It lies in rows of fixed size, so that no call on it takes memory.
#[derive(Clone, Copy)]
pub struct Kept {
    rows: [[bool; MAX_CHOICES]; MAX_LEGS],
}

impl Model for Kept {
    ghost use Rattle.std.specs.Prelude.{Bool, List};

    ghost Value = { List (List Bool) };

    ghost view = { λ kept. kept.rows };

    ghost inverse = { λ rows. record { rows = rows } };
}

impl Kept {
    /// All pairs of the tables that may be taken: by which legs may be flown or left out. Takes no memory.
    pub fn all(tables: &Tables) -> Self
        ensures { kept_by result ≡ all_pairs tables.now }
    {
        let mut kept = Kept::flown(tables);
        for leg in 0..tables.leg_count() {
            kept.keep_left_out(tables, leg);
        }
        kept
    }

    // All pairs by which legs may be flown.
    fn flown(tables: &Tables) -> Self
        ensures { (p : Pair) → kept_by result p ≡ is_some (cost_in tables.now.costs p.leg (fleet_by tables.now p)) }
    {
        let mut kept = Kept::none();
        for entry in tables.costs.as_slice() {
            kept.keep_times(tables, entry);
        }
        kept
    }

    // Keeps the pair by which a leg is left out, where it may be.
    fn keep_left_out(&mut self, tables: &Tables, leg: u32)
        requires { leg < legs_in tables.now }
        ensures { (p : Pair) → kept_by self.new p ≡ (kept_by self.old p || ((p.leg == leg) && ((p.choice == left_out tables.now leg) && is_some (leg_of tables.now leg).skip))) }
    {
        if tables.leg(leg).skip.is_some() {
            self.keep(Pair {
                leg,
                choice: tables.left_out(leg),
            });
        }
    }

    // Keeps a leg's pairs with a fleet, at each of its times.
    fn keep_times(&mut self, tables: &Tables, entry: &PairCost)
        requires leg { entry.now.leg < legs_in tables.now }
        requires fleet { entry.now.fleet < fleets_in tables.now }
        ensures { (p : Pair) → kept_by self.new p ≡ (kept_by self.old p || is_of p.leg (fleet_by tables.now p) entry.now) }
    {
        let times = tables.shift_count(entry.leg);
        for slot in 0..times {
            self.keep(Pair {
                leg: entry.leg,
                choice: entry.fleet * times + slot,
            });
        }
    }

    /// Whether a pair is kept. Takes constant time and no memory.
    pub fn kept(&self, leg: u32, fleet: u32) -> bool
        requires leg { leg < MAX_LEGS }
        requires fleet { fleet < MAX_CHOICES }
        ensures { result ≡ kept_by self.now (leg_on leg fleet) }
    {
        self.rows[leg as usize][fleet as usize]
    }

    /// Takes a step into a part of the subproblem, and answers how to take it back. Takes no memory.
    pub fn narrow(&mut self, step: Step) -> Undo
        requires leg { step.leg < MAX_LEGS }
        requires fleet { step.choice < MAX_CHOICES }
        ensures kept { kept_by self.new ≡ narrowed (kept_by self.old) step }
        ensures leg { result.leg ≡ step.leg }
        ensures way_back { put_back self.new result ≡ self.old }
    {
        let leg = step.leg;
        let row = SavedRow::of(&self.rows[leg as usize]);
        take(&mut self.rows[leg as usize], step);
        Undo { leg, row }
    }

    /// Takes a step back: the pairs of its leg are again as `narrow` found them. Takes no memory.
    #[tactic(auto, unfolding(crate::specs::Kept::put_back))]
    pub fn undo(&mut self, undo: Undo)
        ensures { self.new ≡ put_back self.old undo }
    {
        self.rows[undo.leg as usize] = undo.row.row();
    }

    // No pair.
    fn none() -> Self
        ensures { (p : Pair) → kept_by result p ≡ false }
    {
        Kept {
            rows: [[false; MAX_CHOICES]; MAX_LEGS],
        }
    }

    // Keeps one more pair.
    fn keep(&mut self, pair: Pair)
        requires leg { pair.leg < MAX_LEGS }
        requires fleet { pair.choice < MAX_CHOICES }
        ensures { (p : Pair) → kept_by self.new p ≡ (kept_by self.old p || (p.leg == pair.leg) && (p.choice == pair.choice)) }
    {
        self.rows[pair.leg as usize] = with_fleet(self.rows[pair.leg as usize], pair.choice);
    }
}

// The row of no choice.
fn no_fleets() -> [bool; MAX_CHOICES]
    ensures { (f : ℕ) → slice_index_or result f false ≡ false }
{
    [false; MAX_CHOICES]
}

// The row with one more choice.
fn with_fleet(row: [bool; MAX_CHOICES], fleet: u32) -> [bool; MAX_CHOICES]
    requires { fleet < MAX_CHOICES }
    ensures { (f : ℕ) → slice_index_or result f false ≡ (slice_index_or row f false || (f == fleet)) }
{
    let mut more = row;
    more[fleet as usize] = true;
    more
}

// Takes a step on the row of its leg. It works in place: a copy of a row would count at each level of a deep walk.
fn take(row: &mut [bool; MAX_CHOICES], step: Step)
    requires { step.choice < MAX_CHOICES }
    ensures { (f : ℕ) → slice_index_or row.new f false ≡ (slice_index_or row.old f false && leaves step (leg_on step.leg f)) }
{
    let choice = step.choice as usize;
    if step.yes {
        let is_kept = row[choice];
        *row = no_fleets();
        row[choice] = is_kept;
    } else {
        row[choice] = false;
    }
}
