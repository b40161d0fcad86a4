ghost use Rattle.std.specs.Prelude.{◌≡◌, ◌<◌, ◌^◌};
ghost use Rattle.table_maker.specs.Draws.{next_state, number_below};

use std::marker::Model;

/// The draws of a number: a linear congruential generator, that of the sample `rand` in the C standard. Contracts see
/// its state.
#[derive(Drop)]
pub struct Draws {
    state: u32,
}

impl Model for Draws {
    ghost use Rattle.std.specs.Prelude.{ℕ};

    ghost Value = { ℕ };

    ghost view = { λ draws. draws.state };
}

impl Draws {
    /// The draws of this number, none of which is taken yet.
    pub fn new(number: u32) -> Draws
        ensures { result ≡ number }
    {
        Draws { state: number }
    }

    /// The next draw, of the numbers below a bound.
    pub fn below(&mut self, bound: u32) -> u32
        requires { 0 < bound }
        ensures state { self.new ≡ next_state self.old }
        ensures drawn { result ≡ number_below self.new bound }
        ensures within { result < bound }
    {
        let next = (u64::from(self.state) * 1_103_515_245 + 12_345) % 2_147_483_648;
        self.state = next as u32;
        self.state / 65_536 % bound
    }
}
