ghost use Rattle.std.specs.Prelude.{◌≡◌, ◌+◌, ◌-◌, ◌^◌, ◌<◌, ◌≤◌, MatchOption, IfSome};
ghost use Rattle.sums.specs.Ways.{ways_to_choose};
ghost use Rattle.simplex_frac.specs.Bases.{bases_of};

/// The greatest count that is told.
const MOST_BASES: u128 = (1 << 127) - 1;

/// How many bases there are: in how many ways a column for each line can be chosen, of so many real ones and the
/// identity block. None exactly where that is past 2^127 - 1.
pub fn bases(lines: u32, columns: u32) -> Option<u128>
    ensures count { MatchOption result (2 ^ 127 - 1 < bases_of columns lines) (λ count. count ≡ bases_of columns lines) }
    ensures within { IfSome result (λ count. count ≤ 2 ^ 127 - 1) }
{
    let others = lines.max(columns);
    let mut count = 1;
    for chosen in 0..lines.min(columns) {
        count = one_more(count, others, chosen)?;
    }
    Some(count)
}

/// In how many ways one more can be chosen beside so many others. The product is divided before it is added up, so
/// that nothing past the result is computed.
fn one_more(count: u128, others: u32, chosen: u32) -> Option<u128>
    requires { count ≡ ways_to_choose (others + chosen) chosen }
    ensures { MatchOption result (2 ^ 127 - 1 < ways_to_choose (others + chosen + 1) (chosen + 1))
        (λ more. (more ≡ ways_to_choose (others + chosen + 1) (chosen + 1)) × (more ≤ 2 ^ 127 - 1)) }
{
    let divisor = u128::from(chosen) + 1;
    let factor = u128::from(others) + divisor;
    let whole = (count / divisor).checked_mul(factor)?;
    let part = count % divisor * factor / divisor;
    let more = whole.checked_add(part)?;
    if more <= MOST_BASES { Some(more) } else { None }
}
