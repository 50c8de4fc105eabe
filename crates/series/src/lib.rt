// Series by month: their differences and changes, and slices whose front becomes 0.
#![tactic(auto)]

ghost use Rattle.std.specs.Prelude.{◌≡◌, ◌++◌, ◌-◌, ◌^◌, ◌<◌, ◌≤◌, length, drop, pos};
ghost use Rattle.integers.specs.Lists.{tab};
ghost use Rattle.series.specs.Operations.{minus, changes};
ghost use Rattle.series.specs.Promises.{most_change, distance, Minusable, Changing};

// x less y, at every place.
pub fn minus(x: &[i64], y: &[i64], out: &mut [i64])
    requires { Minusable x.now y.now × (length out.old ≡ length x.now) }
    ensures { out.new ≡ minus x.now y.now }
{
    for t in 0..x.len() {
        out[t] = x[t] - y[t];
    }
}

// The sum of the sizes of the differences of two slices.
fn distance(x: &[i64], y: &[i64]) -> u64
    requires { distance x.now y.now < 2 ^ 64 }
    ensures { result ≡ distance x.now y.now }
{
    x.iter().zip(y).map(|(a, b)| a.abs_diff(*b)).sum()
}

// METHOD 4.5 and 4.6: the sum of the changes of x over `span` months into each month from `first` to below `hi`, without their signs.
pub fn changes(x: &[i64], span: usize, first: usize, hi: usize) -> u64
    requires { Changing x.now span first hi }
    ensures { (result ≡ changes x.now span first (hi - first)) × (result ≤ most_change) }
{
    distance(&x[first..hi], &x[first - span..hi - span])
}

// The first n entries become 0, the rest stays.
pub fn zero_front(s: &mut [i64], n: usize)
    requires { n ≤ length s.old }
    ensures { s.new ≡ tab n (λ _. pos 0) ++ drop n s.old }
{
    s[..n].fill(0);
}
