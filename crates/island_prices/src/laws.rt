//! The law of the limit of rises: a function that does nothing, whose contract is the law.
ghost use Rattle.std.specs.Prelude.{◌≡◌};
ghost use Rattle.island_prices.specs.declared.rises.TheConstants.{MAX_RISES};

/// The most rises that there are, in numbers.
pub fn limits_in_numbers()
    ensures { MAX_RISES ≡ 5760000 }
{}
