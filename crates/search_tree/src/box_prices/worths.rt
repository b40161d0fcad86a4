use crate::box_prices::priced_lines::PricedLines;
use basis_factors::fixed_numbers::at;
use dual_pivots::Lines;

/// What proper prices over a scale are worth in the subproblem of the pairs that aren't held: in parts of the scale, no plan in it costs
/// less. With the scale 0 costs don't count, and no plan is in it where the worth is above 0.
///
/// Prices have 79 bits and fewer, numbers of columns two, and the scale times a cost 82, so the sum has fewer than 96.
pub fn worth(
    priced: &PricedLines,
    lines: &Lines,
    held: &[bool],
    duals: &[i128],
    scale: i128,
) -> i128 {
    let mut total = 0i128;
    for line in 0..lines.right.len() {
        let right = i128::from(at(&lines.right, line, 0));
        total = total.wrapping_add(right.wrapping_mul(at(duals, line, 0)));
    }
    for leg in 0..priced.legs {
        let least = least_of_leg(priced, lines, held, duals, scale, leg);
        total = total.wrapping_add(least.unwrap_or(0));
    }
    total
}

// The least that a pair of a leg costs above what it weighs.
fn least_of_leg(
    priced: &PricedLines,
    lines: &Lines,
    held: &[bool],
    duals: &[i128],
    scale: i128,
    leg: usize,
) -> Option<i128> {
    let (first, end) = priced.pairs_of(leg);
    let mut least = None;
    for column in first..end {
        if !at(held, column, true) {
            let above = above(lines, duals, scale, column);
            least = match least {
                Some(other) if other <= above => least,
                _ => Some(above),
            };
        }
    }
    least
}

/// What a column costs above what it weighs, in parts of the scale.
pub fn above(lines: &Lines, duals: &[i128], scale: i128, column: usize) -> i128 {
    let mut above = scale.wrapping_mul(at(&lines.costs, column, 0));
    for unit in lines.columns.of((column & 0xffff_ffff) as u32) {
        let dual = at(duals, unit.place as usize, 0);
        above = above.wrapping_sub(dual.wrapping_mul(i128::from(unit.number)));
    }
    above
}
