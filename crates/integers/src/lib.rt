// Functions of whole numbers: roundings, size, root.
#![tactic(auto)]

ghost use Rattle.std.specs.Prelude.{◌≡◌, cond, ◌+◌, ◌*◌, ◌≤◌, ◌<◌, leb, pos, nat_abs};
ghost use Rattle.integers.specs.Rounding.{half_up, away_from_zero, to_grain};
ghost use Rattle.integers.specs.Root.{root};
ghost use Rattle.integers.specs.Promises.{largest_numerator, largest_candidate, Rounds, farther};

// The largest quotient that is rounded, in pairs of grains.
const PAIRS: i64 = 2_000_000_000_000;

// Twice x and d more, away from zero. (The numerator and the denominator stay two numbers, here and below: a type for both would be made anew for
// each call.)
#[tactic(auto, unfolding(crate::specs::Promises::farther))]
fn farther(x: i64, d: i64) -> i64
    requires { Rounds x d }
    ensures { result ≡ farther x d }
{
    if x < 0 { 2 * x - d } else { 2 * x + d }
}

// n / d to the nearest whole number, a half up: for the quotient of a weight, and for whole units, whose sizes are rounded (METHOD 1.4).
#[tactic(auto, unfolding(crate::specs::Rounding::half_up))]
pub fn half_up(n: u64, d: u64) -> u64
    requires { (0 < d) × (n ≤ largest_numerator) × (d ≤ largest_numerator) }
    ensures { result ≡ half_up n d }
{
    (2 * n + d) / (2 * d)
}

// x / d to the nearest whole number, a half away from zero (METHOD 1.4). Nothing calls it now: of whole units the sizes are rounded, by
// `half_up`, and the millionths are stored.
pub fn away_from_zero(x: i64, d: i64) -> i64
    requires { Rounds x d }
    ensures { result ≡ away_from_zero x (nat_abs d) }
{
    farther(x, d) / (2 * d)
}

// Half of n, cut to a whole number.
fn half(n: u64) -> u64
    ensures { (2 * result ≤ n) × (n ≤ 2 * result + 1) }
{
    n / 2
}

// 1 where a rest is among the first of its pair, those of the odd grain; else 0. (As a number: of a test the compiler makes a branch.)
fn odd(rest: u64, last: u64) -> i64
    ensures { result ≡ cond (leb rest last) (pos 1) (pos 0) }
{
    i64::from(rest <= last)
}

// x / d to the nearest grain, a half to the even one (METHOD 1.3), by pairs of grains: an odd one and the even one after it. The odd grain has the
// numerators from `before` before it to `after` after it, on both sides the most that are fewer than half of d; the even one has the others, halves
// among them. A pair begins with the first numerator of its odd grain. x is raised by PAIRS pairs to zero or above, where division cuts downward. (The
// quotient stands before `odd`: else the compiler makes a branch here too. `as` stays: no number here is below zero, and `try_from` would make of
// that a test and an error for nothing.)
pub fn to_grain(x: i64, d: i64) -> i64
    requires { Rounds x d }
    ensures { result ≡ to_grain x (nat_abs d) }
{
    let n = d as u64;
    let pair = 2 * n;
    let before = half(n - 1);
    let after = half(n - 1);
    let y = (x + PAIRS * (2 * d)) as u64 + (n + before);
    let even = 2 * ((y / pair) as i64 - PAIRS);
    even - odd(y % pair, before + after)
}

// The size of a number.
pub fn size(x: i64) -> u64
    ensures { result ≡ nat_abs x }
{
    x.unsigned_abs()
}

// A power of two whose square is above x: its exponent is half the number of x's bits, rounded up.
fn above(x: u64) -> u64
    ensures { (x < result * result) × (1 ≤ result) × (result ≤ largest_candidate) }
{
    1 << ((65 - x.leading_zeros()) / 2)
}

// The root of x (METHOD 5.5). The candidate is above it, and the mean of the candidate and its quotient, never below the root, narrows it until
// its square is not above x. (This loop is a form that the project's rules name, and takes fewer steps than std's `isqrt`.)
pub fn root(x: u64) -> u64
    ensures { result ≡ root x }
{
    let mut r = above(x);
    let found = loop {
        let next = (r + x / r) / 2;
        if next * next <= x {
            break next;
        }
        r = next;
    };
    found
}
