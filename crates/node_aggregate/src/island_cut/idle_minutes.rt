/// A minute at whose end no aircraft of any fleet stands at a station, in any legal assignment.
#[derive(Clone, Copy, Debug, PartialEq, Eq)]
pub struct Idle {
    /// The station, by its number.
    pub station: u32,
    /// The minute, counted from the day start.
    pub minute: u16,
}
