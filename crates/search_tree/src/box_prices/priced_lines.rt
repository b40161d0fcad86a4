use basis_factors::fixed_numbers::{NONE, at, filled, place_of, put};
use dual_pivots::Lines;
use entries::NoMemory;
use fleet_model::{Kept, Pair, Tables};
use lp_rows::{Outline, Park};
use node_aggregate::timeline_net::events;
use node_aggregate::{days_at, nodes};
use std::alloc::Global;

/// A node of the time-line network, as its price is written.
#[derive(Clone, Copy)]
pub struct Place {
    pub fleet: u32,
    pub station: u32,
    /// The minute at which it starts.
    pub minute: u16,
    /// Whether it is the first of its fleet at its station.
    pub is_first: bool,
    /// Whether it is the last one.
    pub is_last: bool,
    /// The parking line of the night in which its arc ends, or `NONE`.
    pub night: u32,
}

/// What the lines of a linear program are of whose dual values are prices: the cover lines, behind them those of the nodes, then
/// those that count fleets, then those of nights with a limit.
#[derive(Drop)]
pub struct PricedLines {
    pub legs: usize,
    pub places: Vec<Place>,
    pub fleets: usize,
    pub parks: Vec<Park>,
    /// The pairs of the first columns, by leg, then choice.
    pub pairs: Vec<Pair>,
    /// Of each leg its first pair, and behind the last leg how many pairs there are.
    pub firsts: Vec<u32>,
}

impl PricedLines {
    /// That of the kept pairs, by their outline and the lines that were made of it.
    pub fn new(
        alloc: Global,
        tables: &Tables,
        kept: &Kept,
        outline: &Outline,
        lines: &Lines,
    ) -> Result<PricedLines, NoMemory> {
        let mut priced = PricedLines {
            legs: outline.legs as usize,
            places: Vec::new(alloc),
            fleets: outline.fleets as usize,
            parks: Vec::new(alloc),
            pairs: Vec::new(alloc),
            firsts: Vec::new(alloc),
        };
        priced.lay(alloc, tables, kept, outline)?;
        priced.lay_nights(outline, lines);
        Ok(priced)
    }

    // Lays nights, pairs and nodes.
    fn lay(
        &mut self,
        alloc: Global,
        tables: &Tables,
        kept: &Kept,
        outline: &Outline,
    ) -> Result<(), NoMemory> {
        self.parks.extend_from_slice(outline.parks.as_slice())?;
        self.pairs.extend_from_slice(outline.pairs.as_slice())?;
        self.lay_firsts(alloc)?;
        self.lay_places(alloc, tables, kept)
    }

    /// The first line of a node.
    pub fn first_node(&self) -> usize {
        self.legs
    }

    /// The first line that counts a fleet.
    pub fn first_count(&self) -> usize {
        self.legs.wrapping_add(self.places.len())
    }

    /// The first line of a night.
    pub fn first_night(&self) -> usize {
        self.first_count().wrapping_add(self.fleets)
    }

    /// The pair of a column.
    pub fn pair(&self, column: u32) -> Pair {
        let none = Pair {
            leg: NONE,
            choice: NONE,
        };
        at(&self.pairs, column as usize, none)
    }

    /// The first pair of a leg, and the one behind its last.
    pub fn pairs_of(&self, leg: usize) -> (usize, usize) {
        let first = at(&self.firsts, leg, 0) as usize;
        (first, at(&self.firsts, leg.wrapping_add(1), 0) as usize)
    }

    // Lays of each leg its first pair.
    fn lay_firsts(&mut self, alloc: Global) -> Result<(), NoMemory> {
        let mut firsts = filled(alloc, 0u32, self.legs.wrapping_add(1))?;
        for pair in &self.pairs {
            let next = (pair.leg as usize).wrapping_add(1);
            let count = at(&firsts, next, 0);
            put(firsts.as_mut_slice(), next, count.wrapping_add(1));
        }
        let mut sum = 0u32;
        for first in firsts.iter_mut() {
            sum = sum.wrapping_add(*first);
            *first = sum;
        }
        self.firsts = firsts;
        Ok(())
    }

    // Lays the nodes of each fleet at each station.
    fn lay_places(&mut self, alloc: Global, tables: &Tables, kept: &Kept) -> Result<(), NoMemory> {
        for fleet in 0..tables.fleet_count() {
            for station in 0..tables.station_count() {
                let happening = events(alloc, tables, kept, fleet, station)?;
                let starts = nodes(alloc, &happening, days_at(tables, station))?;
                self.push_places(fleet, station, &starts)?;
            }
        }
        Ok(())
    }

    fn push_places(&mut self, fleet: u32, station: u32, starts: &[u16]) -> Result<(), NoMemory> {
        for place in 0..starts.len() {
            self.places.push(Place {
                fleet,
                station,
                minute: starts[place],
                is_first: place == 0,
                is_last: place.wrapping_add(1) == starts.len(),
                night: NONE,
            })?;
        }
        Ok(())
    }

    // Lays of each node the night in which its arc ends.
    fn lay_nights(&mut self, outline: &Outline, lines: &Lines) {
        let first = self.first_night();
        for number in 0..self.places.len() {
            if let Some(column) = arc_from(outline, number) {
                let night = night_of(lines, column, first);
                if number < self.places.len() {
                    self.places[number].night = night;
                }
            }
        }
    }
}

/// The column of the ground arc from a node, where it stays.
pub fn arc_from(outline: &Outline, number: usize) -> Option<u32> {
    let place = place_of(number);
    if (place as usize) < outline.nodes.len() {
        outline.ground_column(place)
    } else {
        None
    }
}

// The line of a column from the first line of a night on.
fn night_of(lines: &Lines, column: u32, first: usize) -> u32 {
    let mut night = NONE;
    for unit in lines.columns.of(column) {
        if unit.place as usize >= first {
            night = unit.place;
        }
    }
    night
}
