// METHOD 8.3 and 8.4: the scratch that is lent to decomposing.
#![tactic(auto)]

ghost use Rattle.std.specs.Prelude.{◌≡◌, ◌≤◌, leb, length};
ghost use Rattle.refusals.specs.Limits.{most_months};
ghost use Rattle.scratch.specs.Scratch.{scratch_for, zeroed};

// Entries for each month.
pub const FOR_EACH_MONTH: usize = 5;

// Row 4 (METHOD 8.3): whether a scratch of so many entries is long enough for n months.
pub fn long_enough(n: usize, entries: usize) -> bool
    requires { n ≤ most_months }
    ensures { result ≡ leb (scratch_for n) entries }
{
    FOR_EACH_MONTH * n <= entries
}

// METHOD 8.4: the first 5n entries become 0, the rest stays.
pub fn clear(scratch: &mut [i64], n: usize)
    requires { (n ≤ most_months) × (scratch_for n ≤ length scratch.old) }
    ensures { scratch.new ≡ zeroed n scratch.old }
{
    series::zero_front(scratch, FOR_EACH_MONTH * n);
}
