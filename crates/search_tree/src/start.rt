use crate::box_prices::PricedLines;
use crate::problem::Problem;
use basis_factors::fixed_numbers::{Fixed, NONE, PART_BITS, at, place_of, put, reset};
use entries::NoMemory;

/// The basis to start from where nothing is known, by lines, with the weights of its rows.
///
/// Basic are: of each leg the cheapest pair that isn't held, each ground arc but a station's last one, in the line of the node that it
/// leads to, each fleet's slack, and each night's room. A station's first line keeps its artificial column. No column that isn't held
/// weighs more than it costs. The weights are the sums of the squares of the inverse's rows.
pub fn lay_start(
    problem: &Problem,
    held: &[bool],
    head: &mut Vec<u32>,
    weights: &mut Vec<Fixed>,
) -> Result<(), NoMemory> {
    let count = problem.lines.count();
    reset(head, count, NONE)?;
    reset(weights, count, Fixed::ONE)?;
    let head = head.as_mut_slice();
    lay_pairs(problem, held, head);
    lay_arcs(problem, head);
    lay_rest(problem, head);
    lay_weights(problem, head, weights.as_mut_slice());
    Ok(())
}

// Lays of each leg the cheapest pair, at a tie the first.
fn lay_pairs(problem: &Problem, held: &[bool], head: &mut [u32]) {
    for leg in 0..problem.priced.legs {
        let (first, end) = problem.priced.pairs_of(leg);
        let mut best = NONE;
        for column in first..end {
            if !at(held, column, true)
                && (best == NONE || cost(problem, column) < cost(problem, best as usize))
            {
                best = place_of(column);
            }
        }
        put(head, leg, best);
    }
}

fn cost(problem: &Problem, column: usize) -> i128 {
    at(&problem.lines.costs, column, 0)
}

// Lays the arc into each node but a station's first one.
fn lay_arcs(problem: &Problem, head: &mut [u32]) {
    for number in 1..problem.priced.places.len() {
        if !problem.priced.places[number].is_first {
            let line = problem.priced.first_node().wrapping_add(number);
            put(head, line, at(&problem.arcs, number.wrapping_sub(1), NONE));
        }
    }
}

// Lays slacks, rooms, and artificial columns where none stands.
fn lay_rest(problem: &Problem, head: &mut [u32]) {
    let count = problem.priced.first_count();
    for fleet in 0..problem.priced.fleets {
        let column = place_of(problem.slacks.wrapping_add(fleet));
        put(head, count.wrapping_add(fleet), column);
    }
    let night = problem.priced.first_night();
    for park in 0..problem.priced.parks.len() {
        let column = place_of(problem.rooms.wrapping_add(park));
        put(head, night.wrapping_add(park), column);
    }
    for line in 0..head.len() {
        if head[line] == NONE {
            head[line] = problem.lines.artificial(line);
        }
    }
}

// Lays the weights: first of each line the squares of what the legs' pairs have there.
fn lay_weights(problem: &Problem, head: &[u32], weights: &mut [Fixed]) {
    for leg in 0..problem.priced.legs {
        for unit in problem.lines.columns.of(at(head, leg, NONE)) {
            if unit.place as usize != leg {
                let square = i64::from(unit.number).wrapping_mul(i64::from(unit.number));
                add(weights, unit.place as usize, square << PART_BITS);
            }
        }
    }
    for number in (0..problem.priced.places.len()).rev() {
        add_next(&problem.priced, weights, number);
    }
}

// Adds the weight of the next node's line to that of a node, and to that of the night between.
fn add_next(priced: &PricedLines, weights: &mut [Fixed], number: usize) {
    if number >= priced.places.len() {
        return;
    }
    let place = priced.places[number];
    if !place.is_last {
        let line = priced.first_node().wrapping_add(number);
        let next = at(weights, line.wrapping_add(1), Fixed::ZERO).parts;
        add(weights, line, next);
        add(weights, place.night as usize, next);
    }
}

fn add(weights: &mut [Fixed], line: usize, more: i64) {
    let weight = at(weights, line, Fixed::ZERO).parts;
    let parts = weight.wrapping_add(more);
    put(weights, line, Fixed { parts });
}
