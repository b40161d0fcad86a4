/// Where an aircraft is at the start of a day.
#[derive(Clone, Copy)]
pub enum Night {
    /// In a flight or in its turn.
    Aloft,
    /// On the ground, where it waits to depart.
    At {
        /// The station, by its number.
        station: u32,
    },
    /// On the ground, where it waits to depart, but for less time than maintenance takes.
    Short {
        /// The station, by its number.
        station: u32,
    },
}
