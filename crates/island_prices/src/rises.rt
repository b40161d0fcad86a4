//! Rises of prices, and what they do to a price where they go to another minute.
ghost use Rattle.std.specs.Prelude.{◌≡◌, ◌<◌, ◌*◌, length, ℕ, pos, ◌≤ℤ◌};
ghost use Rattle.std.specs.Int.{int_max};
ghost use Rattle.dual_bound.specs.Sizes.{IsUpTo};
ghost use Rattle.island_prices.specs.Rises.{AreRises, IsAmount, IsRise, is_rise_of, rise_in, rise_shift, rise_shift_by, shift_at};
ghost use Rattle.island_prices.specs.Rounds.{greatest_rise, rise_where};

use fleet_model::Tables;
use fleet_model::limits::MAX_DAY_ARCS;

/// The most rises that there are: one of each fleet at each station at each minute of the day. Arcs go where the period is one day
/// alone.
pub const MAX_RISES: usize = MAX_DAY_ARCS;

/// Which minutes take another price where a rise goes to its moment.
#[derive(Clone, Copy)]
pub enum Shift {
    /// Those after the moment up to this one, at whose end the price rose: they take the price that comes.
    Raised { last: u16 },
    /// Those from the day start up to the moment: they keep the price that was, with the rent.
    Lowered,
}

/// A rise of a fleet's price at a station over an arc that went, and the moment to whose end it goes.
#[derive(Clone, Copy)]
pub struct Rise {
    /// The fleet, by its number.
    pub fleet: u32,
    /// The station, by its number.
    pub station: u32,
    /// The minute to whose end the rise goes, counted from the day start.
    pub moment: u16,
    pub shift: Shift,
    /// By how much the price rises, above 0, in cost units over the scale.
    pub amount: i128,
}

/// By how much rises change the price of a fleet at a station at a minute where they go to their moments.
#[tactic(auto, unfolding(crate::specs::Rises::rise_shift_by))]
pub(crate) fn shift_by(
    tables: &Tables,
    rises: &[Rise],
    fleet: u32,
    station: u32,
    minute: u16,
) -> i128
    requires { AreRises tables.now rises.now }
    ensures value { result ≡ rise_shift_by rises.now fleet station minute }
    ensures size { IsUpTo (3 * length rises.now) result }
{
    let mut sum = 0;
    for place in 0..rises.len() {
        sum += shift_at(tables, rises, fleet, station, minute, place);
    }
    sum
}

// What one of the rises does to a price.
fn shift_at(
    tables: &Tables,
    rises: &[Rise],
    fleet: u32,
    station: u32,
    minute: u16,
    place: usize,
) -> i128
    requires rises { AreRises tables.now rises.now }
    requires place { place < length rises.now }
    ensures value { result ≡ shift_at rises.now fleet station minute place }
    ensures size { IsUpTo 3 result }
{
    let rise = rise_at(rises, place);
    if rise.fleet == fleet && rise.station == station {
        return shift_of(&rise, minute);
    }
    0
}

// A rise by its place.
fn rise_at(rises: &[Rise], place: usize) -> Rise
    requires { place < length rises.now }
    ensures { result ≡ rise_in rises.now place }
{
    rises[place]
}

// What a rise does to the price of a minute.
fn shift_of(rise: &Rise, minute: u16) -> i128
    requires { IsAmount rise.now.amount }
    ensures value { result ≡ rise_shift rise.now minute }
    ensures size { IsUpTo 3 result }
{
    match rise.shift {
        Shift::Raised { last } if rise.moment < minute && minute <= last => rise.amount,
        Shift::Lowered if minute <= rise.moment => -rise.amount,
        _ => 0,
    }
}

/// The greatest rise of any fleet that goes to a moment of a station, and 0 where there is none.
#[tactic(auto, using(crate::proofs::Numbers::greater_of), unfolding(crate::specs::Rounds::greatest_rise))]
pub(crate) fn greatest_rise(tables: &Tables, rises: &[Rise], station: u32, moment: u16) -> i128
    requires { AreRises tables.now rises.now }
    ensures value { result ≡ greatest_rise rises.now station moment }
    ensures some { pos 0 ≤ℤ result }
    ensures size { IsUpTo 3 result }
{
    let mut most = 0;
    for place in 0..rises.len() {
        let amount = rise_where(tables, rises, station, moment, place);
        most = greater(&most, &amount);
    }
    most
}

// The amount of one of the rises, where it goes to a moment of a station.
fn rise_where(tables: &Tables, rises: &[Rise], station: u32, moment: u16, place: usize) -> i128
    requires rises { AreRises tables.now rises.now }
    requires place { place < length rises.now }
    ensures value { result ≡ rise_where rises.now station moment place }
    ensures some { pos 0 ≤ℤ result }
    ensures size { IsUpTo 3 result }
{
    let rise = rise_at(rises, place);
    if rise.station == station && rise.moment == moment {
        return rise.amount;
    }
    0
}

/// The greater of two numbers.
pub(crate) fn greater(one: &i128, other: &i128) -> i128
    ensures { result ≡ int_max one.now other.now }
{
    if *other < *one { *one } else { *other }
}
