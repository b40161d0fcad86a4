use entries::Entries;

/// What becomes of the rotation of a fleet (Gopalan and Talluri 1998): one tour of all its legs that comes to maintenance
/// often enough, or the cause why there is none. Legs go by their numbers.
#[derive(Drop)]
pub enum Rotation {
    /// The fleet has no leg.
    Unused,
    /// The nights at maintenance stations are too few, whatever the tour.
    TooFewNights {
        /// The nights at maintenance stations, of each fitting map.
        have: u32,
        /// The nights of each tour: the aircraft that the fleet uses.
        used: u32,
    },
    /// No tour holds the given pairs: these legs, some but not all of the fleet's, are followed by one another alone.
    Apart {
        /// By their numbers, the fleet's first leg among them.
        legs: Entries<u32>,
    },
    /// A kept tour, from the least leg that has a night before it.
    Tour(Entries<u32>),
    /// No kept tour holds the given pairs.
    None,
    /// The search was given up.
    Spent {
        /// The order of the fleet's legs in which prefixes are visited.
        order: Entries<u32>,
        /// The last prefix that was visited, and empty where none was.
        prefix: Entries<u32>,
    },
}
