//! Which pair a subproblem is split by: the one whose parts rise most, as some pivots show or is known of it (strong branching, then
//! pseudo costs: Achterberg, Koch and Martin 2005).
use crate::parts::gain_of;
use crate::search::Search;
use basis_factors::fixed_numbers::{PART_BITS, place_of};
use dual_pivots::{Ended, Limits};
use entries::NoMemory;
use search_tree::{GAIN_BITS, Problem, score};

// So many pairs are looked at, and none behind so many in a row that did no better.
const MOST_TRIED: u32 = 24;

const MOST_WORSE: u32 = 4;

// How many pivots show what a pair does.
const PROBE_PIVOTS: u64 = 25;

// What counts as far where there is no plan, in units.
const FAR: i128 = 100_000;

/// A pair that is flown in part, in parts of 2^30, and how well it would do by what is known.
#[derive(Clone, Copy)]
pub struct InPart {
    pub column: u32,
    pub part: i64,
    guess: i128,
    is_tried: bool,
}

/// The pairs that are flown in part, by weights over a scale.
pub fn push_in_part(
    pairs: &mut Vec<InPart>,
    weights: &[i128],
    scale: i128,
) -> Result<(), NoMemory> {
    for column in 0..weights.len() {
        let weight = weights[column];
        if weight > 0 && weight < scale {
            let parts = weight.wrapping_shl(PART_BITS).checked_div(scale);
            pairs.push(InPart {
                column: place_of(column),
                part: i64::try_from(parts.unwrap_or(0)).unwrap_or(0),
                guess: 0,
                is_tried: false,
            })?;
        }
    }
    Ok(())
}

impl Search {
    /// The pair to split a subproblem by, whose basis is saved, of those that are flown in part there; none where there is none.
    pub fn choose(
        &mut self,
        problem: &Problem,
        number: u32,
        pairs: &mut [InPart],
    ) -> Result<Option<InPart>, NoMemory> {
        let value = self.basis.value(&problem.lines);
        let far = self.far(value);
        for pair in pairs.iter_mut() {
            pair.guess = self.gains.guess(pair.column, pair.part, far);
        }
        let mut best = None;
        let mut most = 0i128;
        let mut worse = 0u32;
        for _turn in 0..MOST_TRIED {
            let Some(pair) = take_likeliest(pairs) else {
                break;
            };
            let score = self.score_of(problem, number, pair, value, far)?;
            worse = worse.wrapping_add(1);
            if score > most {
                most = score;
                best = Some(pair);
                worse = 0;
            }
            if worse >= MOST_WORSE {
                break;
            }
        }
        Ok(best)
    }

    // From which gain on a part is surely done with.
    fn far(&self, value: i128) -> i128 {
        let least = 1i128.wrapping_shl(GAIN_BITS);
        match self.cutoff() {
            Some(cutoff) => gain_of(value, cutoff).max(least),
            None => FAR.wrapping_shl(GAIN_BITS),
        }
    }

    // How well a pair does: by what is known of it, or else by trying both parts.
    fn score_of(
        &mut self,
        problem: &Problem,
        number: u32,
        pair: InPart,
        value: i128,
        far: i128,
    ) -> Result<i128, NoMemory> {
        if self.gains.is_known(pair.column) {
            return Ok(pair.guess);
        }
        let yes = self.probe(problem, number, pair, true, value, far)?;
        let no = self.probe(problem, number, pair, false, value, far)?;
        Ok(score(yes, no, far))
    }

    // By how much some pivots raise a part of the subproblem.
    fn probe(
        &mut self,
        problem: &Problem,
        number: u32,
        pair: InPart,
        is_yes: bool,
        value: i128,
        far: i128,
    ) -> Result<i128, NoMemory> {
        self.hold_for(problem, number);
        self.hold_step(problem, pair.column, is_yes);
        self.basis.restore(&problem.lines, &self.saved)?;
        let limits = Limits {
            steps: PROBE_PIVOTS,
            cutoff: self.cutoff(),
            may_renew: false,
        };
        let ended = self.basis.dual(&problem.lines, &mut self.space, limits)?;
        self.note_work();
        let gain = match ended {
            Ended::Refused { .. } | Ended::Cut => far,
            _ => gain_of(value, self.basis.value(&problem.lines)),
        };
        self.gains.note(pair.column, is_yes, gain, pair.part);
        Ok(gain)
    }
}

// The pair with the best guess that wasn't tried, at a tie the first. It counts as tried from then on.
fn take_likeliest(pairs: &mut [InPart]) -> Option<InPart> {
    let mut best = None;
    let mut found = 0usize;
    let mut most = 0i128;
    for place in 0..pairs.len() {
        let pair = pairs[place];
        if !pair.is_tried && (best.is_none() || pair.guess > most) {
            most = pair.guess;
            found = place;
            best = Some(pair);
        }
    }
    if found < pairs.len() {
        pairs[found].is_tried = true;
    }
    best
}
