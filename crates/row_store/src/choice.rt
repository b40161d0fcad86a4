ghost use Rattle.std.specs.Prelude.{◌≡◌, pos, ◌<ℤ◌, Some, option_map};
ghost use Rattle.row_store.specs.declared.choice.Candidate.{Candidate};
ghost use Rattle.row_store.specs.Choice.{improves, goes_first, better};

use frac_row::compare_ratio;
use std::cmp::Ordering;

/// What decides whether a line leaves the basis.
#[derive(Clone, Copy)]
pub struct Candidate {
    pub row: u32,
    /// The line's basic column.
    pub basic: u32,
    /// Its number in the entering column.
    pub entry: i128,
    pub right_side: i128,
}

/// Whether a column with these numbers in the phase row and the cost row may enter.
#[tactic(auto, unfolding(crate::specs::Choice::improves))]
pub fn improves(phase: &i128, cost: &i128) -> bool
    ensures { result ≡ improves phase.now cost.now }
{
    *phase < 0 || *phase == 0 && *cost < 0
}

/// The one of the best line so far and the next that leaves first.
pub fn better(best: Option<Candidate>, next: Candidate) -> Option<Candidate>
    requires { (other : Candidate) → best ≡ Some other → pos 0 <ℤ other.entry }
    ensures { result ≡ better best next }
{
    if next.entry <= 0 {
        return best;
    }
    let Some(other) = best else {
        return Some(next);
    };
    if goes_first(&next, &other) {
        Some(next)
    } else {
        Some(other)
    }
}

/// The row of the best line, where there is one.
pub fn row_of(best: Option<Candidate>) -> Option<u32>
    ensures { result ≡ option_map (λ best. best.row) best }
{
    Some(best?.row)
}

/// Whether one line leaves before another.
fn goes_first(one: &Candidate, other: &Candidate) -> bool
    requires one { pos 0 <ℤ one.now.entry }
    requires other { pos 0 <ℤ other.now.entry }
    ensures { result ≡ goes_first one.now other.now }
{
    match compare_ratio(one.right_side, one.entry, other.right_side, other.entry) {
        Ordering::Less => true,
        Ordering::Equal => one.basic < other.basic,
        Ordering::Greater => false,
    }
}
