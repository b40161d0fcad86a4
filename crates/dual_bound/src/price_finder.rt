//! Prices that are asked for often.
ghost use Rattle.std.specs.Prelude.{◌≡◌, ◌<◌, IsTrue, length};
ghost use Rattle.dual_bound.specs.Prices.{charge_of, price_of, rent_of};
ghost use Rattle.dual_bound.specs.Rising.{IsUnpricedFleet, StepsRise, price_at, price_before, step_at};

use crate::price_at::last_come;
use crate::prices::{PriceStep, Prices};
use crate::rising::{bisect, earlier_price, lack, own_price, rise, step_at};
use std::marker::Model;

/// Prices, of which it is known whether their steps rise by fleet, station and minute. Where they do, as in all that
/// is written, a price is found by bisection; else each step is looked at. Contracts see the prices.
#[derive(Drop)]
pub struct PriceFinder<'a> {
    prices: &'a Prices,
    rising: bool,
}

impl<'a> Model for PriceFinder<'a> {
    ghost use Rattle.std.specs.Prelude.{IsTrue};
    ghost use Rattle.dual_bound.specs.declared.prices.Prices.{Prices};

    ghost Value = { Prices };

    ghost use Rattle.dual_bound.specs.Rising.{StepsRise};

    ghost view = { λ it. it.prices.now };

    ghost invariant = { λ it. IsTrue it.rising → StepsRise it.prices.now.steps };
}

impl<'a> PriceFinder<'a> {
    /// It looks at each step once, and takes no memory.
    pub fn new(prices: &'a Prices) -> PriceFinder<'a>
        ensures { result ≡ prices.now }
    {
        let rising = rise(prices.steps.as_slice());
        PriceFinder { prices, rising }
    }

    /// What all numbers here are over.
    pub fn scale(&self) -> &i128
        ensures { result.now ≡ self.now.scale }
    {
        &self.prices.scale
    }

    /// How many steps there are.
    pub fn step_count(&self) -> usize
        ensures { result ≡ length self.now.steps }
    {
        self.prices.steps.len()
    }

    /// The step at a place of the list.
    pub fn step(&self, place: usize) -> &PriceStep
        requires { place < length self.now.steps }
        ensures { result.now ≡ step_at self.now place }
    {
        step_at(self.prices.steps.as_slice(), place)
    }

    /// The rent of an aircraft of a fleet, in cost units over the scale; 0 where the list is shorter. Takes no memory.
    pub fn rent(&self, fleet: u32) -> i128
        ensures { result ≡ rent_of self.now fleet }
    {
        self.prices.rent(fleet)
    }

    /// The charge at a station at the end of a day, in cost units over the scale. Takes no memory.
    pub fn charge(&self, station: u32, day: u32) -> i128
        ensures { result ≡ charge_of self.now station day }
    {
        self.prices.charge(station, day)
    }

    /// The price of a fleet at a station at a minute, in cost units over the scale. Takes no memory.
    pub fn price(&self, fleet: u32, station: u32, minute: u16) -> i128
        ensures { result ≡ price_of self.now fleet station minute }
    {
        let steps = self.prices.steps.as_slice();
        if self.rising {
            bisect(steps, fleet, station, minute)
        } else {
            last_come(steps, fleet, station, minute)
        }
    }
    /// The price where a step stands, of its fleet at its station. Takes no memory.
    pub fn price_at(&self, place: usize) -> i128
        requires { place < length self.now.steps }
        ensures { result ≡ price_at self.now place }
    {
        let steps = self.prices.steps.as_slice();
        if self.rising {
            return own_price(steps, place);
        }
        let step = step_at(steps, place);
        last_come(steps, step.fleet, step.station, step.minute)
    }

    /// The price a minute before a step stands, of its fleet at its station. Takes no memory.
    pub fn price_before(&self, place: usize) -> i128
        requires place { place < length self.now.steps }
        requires minute { 0 < (step_at self.now place).minute }
        ensures { result ≡ price_before self.now place }
    {
        let steps = self.prices.steps.as_slice();
        if self.rising {
            return earlier_price(steps, place);
        }
        let step = step_at(steps, place);
        last_come(steps, step.fleet, step.station, step.minute - 1)
    }

    // Whether it is known at once that rent and prices of a fleet are all 0.
    pub(crate) fn is_idle(&self, fleet: u32) -> bool
        ensures { IsTrue result → IsUnpricedFleet self.now fleet }
    {
        self.rising && is_idle(self.prices, fleet)
    }
}

// Whether a fleet has no rent, and no step among those that rise.
fn is_idle(prices: &Prices, fleet: u32) -> bool
    requires { StepsRise prices.now.steps }
    ensures { IsTrue result → IsUnpricedFleet prices.now fleet }
{
    if prices.rent(fleet) != 0 {
        return false;
    }
    lack(prices.steps.as_slice(), fleet)
}
