use crate::basis::Basis;
use crate::changing::Pivot;
use crate::leaving::Leaving;
use crate::limits::{Ended, Limits};
use crate::lines::Lines;
use crate::workspace::Workspace;
use basis_factors::fixed_numbers::{Fixed, NONE, at};
use entries::NoMemory;

// So many unstable pivots may be met.
const MOST_FAILS: u32 = 20;

// How much work may be done: about a minute's.
pub(crate) const MOST_WORK: u64 = 6_000_000_000;

/// What a turn came to.
#[derive(Clone, Copy)]
pub(crate) enum Turn {
    Pivoted,
    Renewed,
    Ended(Ended),
}

impl Basis {
    /// Pivots from a basis in which no column that may enter costs less than it weighs, until there is an end or a limit is met.
    pub fn dual(
        &mut self,
        lines: &Lines,
        space: &mut Workspace,
        limits: Limits,
    ) -> Result<Ended, NoMemory> {
        let last = self.made.saturating_add(limits.steps);
        let mut turns = 0u64;
        // Each pivot is followed by two turns without one at most.
        for _turn in 0..limits.steps.saturating_mul(3).saturating_add(64) {
            let may_pivot = self.made < last && self.work < MOST_WORK;
            match self.dual_turn(lines, space, limits, may_pivot, turns)? {
                Turn::Pivoted => turns = turns.wrapping_add(1),
                Turn::Renewed => {}
                Turn::Ended(ended) => return Ok(ended),
            }
        }
        Ok(Ended::Spent)
    }

    // One turn behind so many pivots.
    fn dual_turn(
        &mut self,
        lines: &Lines,
        space: &mut Workspace,
        limits: Limits,
        may_pivot: bool,
        pivots: u64,
    ) -> Result<Turn, NoMemory> {
        if limits.may_renew && self.is_renewal_due() && !self.renew(lines)? {
            return Ok(Turn::Ended(Ended::Failed));
        }
        let leaving = self.leaving();
        if (pivots & 3 == 0 || leaving.is_none()) && self.is_cut(lines, limits) {
            return Ok(Turn::Ended(Ended::Cut));
        }
        match leaving {
            None => self.believed(lines, limits, Ended::Best),
            Some(leaving) => self.leave(lines, space, limits, leaving, may_pivot),
        }
    }

    // An end, where the factors are new or may not be renewed.
    pub(crate) fn believed(
        &mut self,
        lines: &Lines,
        limits: Limits,
        ended: Ended,
    ) -> Result<Turn, NoMemory> {
        if self.is_fresh || !limits.may_renew {
            return Ok(Turn::Ended(ended));
        }
        self.again(lines)
    }

    // Factors anew.
    pub(crate) fn again(&mut self, lines: &Lines) -> Result<Turn, NoMemory> {
        let renewed = self.renew(lines)?;
        Ok(if renewed {
            Turn::Renewed
        } else {
            Turn::Ended(Ended::Failed)
        })
    }

    // A pivot in the row of what leaves, where there is one and it may be made.
    fn leave(
        &mut self,
        lines: &Lines,
        space: &mut Workspace,
        limits: Limits,
        leaving: Leaving,
        may_pivot: bool,
    ) -> Result<Turn, NoMemory> {
        space.take_row(lines, self, leaving.line);
        let column = self.entering(space, leaving.up);
        if column == NONE {
            let ended = Ended::Refused {
                column: at(&self.head, leaving.line as usize, NONE),
                up: leaving.up,
            };
            return self.believed(lines, limits, ended);
        }
        if !may_pivot {
            return Ok(Turn::Ended(Ended::Spent));
        }
        space.take_column(lines, self, column);
        let number = at(&space.column, leaving.line as usize, Fixed::ZERO);
        let pivot = Pivot {
            line: leaving.line,
            column,
            number,
        };
        if !space.is_stable(pivot) {
            return self.unstable(lines, limits);
        }
        let own = space.take_crosses(self);
        self.change_costs(space, pivot)?;
        self.change_rows(space, pivot, own);
        self.let_in(space, pivot)?;
        Ok(Turn::Pivoted)
    }

    // Factors anew after an unstable pivot, where that may be done yet.
    pub(crate) fn unstable(&mut self, lines: &Lines, limits: Limits) -> Result<Turn, NoMemory> {
        self.fails = self.fails.wrapping_add(1);
        if self.fails > MOST_FAILS {
            return Ok(Turn::Ended(Ended::Failed));
        }
        if !limits.may_renew {
            return Ok(Turn::Ended(Ended::Spent));
        }
        self.again(lines)
    }
}
