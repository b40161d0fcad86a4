use dual_bound::Prices;

/// A pair that presolve removes (variable fixing), and why.
#[derive(Drop)]
pub struct Trim {
    /// The leg, by its number.
    pub leg: u32,
    /// The choice, by its number.
    pub choice: u32,
    /// Prices which show that nothing legal is left where the pair is flown, among the pairs kept before.
    pub reason: Prices,
}
