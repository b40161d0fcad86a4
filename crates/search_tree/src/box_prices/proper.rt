use crate::box_prices::priced_lines::{Place, PricedLines};
use basis_factors::fixed_numbers::{at, put};

/// Makes proper prices of dual values, by lines, in place: no charge and no rent is below 0, and on no arc an aircraft gains. The
/// values of cover lines become 0.
pub fn make_proper(priced: &PricedLines, duals: &mut [i128]) {
    for line in 0..priced.first_node() {
        put(duals, line, 0);
    }
    for line in priced.first_count()..duals.len() {
        put(duals, line, at(duals, line, 0).min(0));
    }
    let mut last = 0i128;
    for number in (0..priced.places.len()).rev() {
        let place = priced.places[number];
        let line = priced.first_node().wrapping_add(number);
        if place.is_last {
            last = at(duals, line, 0).wrapping_sub(at(duals, place.night as usize, 0));
        } else {
            raise(duals, line, place);
        }
        if place.is_first {
            lower_count(priced, duals, line, place, last);
        }
    }
}

// Raises the price of a node to that of the next one less the charge of the night between.
fn raise(duals: &mut [i128], line: usize, place: Place) {
    let next = at(duals, line.wrapping_add(1), 0);
    let least = next.wrapping_add(at(duals, place.night as usize, 0));
    put(duals, line, at(duals, line, 0).max(least));
}

// Raises the rent of a fleet to what an aircraft gains that waits from the last node of a station to the first: `last` is the price of
// the last one, with the charge of its night.
fn lower_count(priced: &PricedLines, duals: &mut [i128], line: usize, place: Place, last: i128) {
    let count = priced.first_count().wrapping_add(place.fleet as usize);
    let most = last.wrapping_sub(at(duals, line, 0));
    put(duals, count, at(duals, count, 0).min(most));
}
