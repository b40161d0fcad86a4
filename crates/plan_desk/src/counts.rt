ghost use Rattle.std.specs.Prelude.{◌≡◌, ◌≤◌};
ghost use Rattle.plan_desk.specs.Counts.{counted};

/// Raises a count by n. It stays at 2^64 - 1 once there.
pub fn count_up(count: &mut u64, n: u64)
    ensures counted { count.new ≡ counted count.old n }
    ensures never_falls { count.old ≤ count.new }
{
    *count = count.saturating_add(n);
}
