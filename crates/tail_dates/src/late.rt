//! Whether more tails than starts come to maintenance within some nights.
ghost use Rattle.std.specs.Prelude.{◌≡◌, MatchOption};
ghost use Rattle.tail_dates.specs.Late.{AreLessThan, IsFirstLate, IsNeverLate, at_most};

/// One more than the most nights that a tail may have left.
const PAST_ALL: u64 = 256;

/// The least number of nights within which more tails have to come to maintenance than starts do. Takes no memory.
pub(crate) fn first_late(lefts: &[u64], reaches: &[u64]) -> Option<u64>
    requires { AreLessThan 256 lefts.now }
    ensures { MatchOption result (IsNeverLate lefts.now reaches.now) (IsFirstLate lefts.now reaches.now) }
{
    for within in 0..PAST_ALL {
        if at_most(reaches, within) < at_most(lefts, within) {
            return Some(within);
        }
    }
    None
}

/// How many of some numbers are at most a number. Takes no memory.
pub(crate) fn at_most(numbers: &[u64], most: u64) -> u64
    ensures { result ≡ at_most numbers.now most }
{
    let mut count: u64 = 0;
    for place in 0..numbers.len() {
        if numbers[place] <= most {
            count += 1;
        }
    }
    count
}
