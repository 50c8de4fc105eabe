// METHOD 5.4: both spreads of a group: the first over all its months, the second over those that dropping leaves.
ghost use Rattle.std.specs.Prelude.{◌≡◌, ◌+◌, ◌≤◌, ◌<◌, length};
ghost use Rattle.extremes.specs.Years.{years, months, group};
ghost use Rattle.extremes.specs.Spreads.{squares, spread, keep, second_spread};
ghost use Rattle.extremes.specs.Promises.{largest_size, running_squares, AllBelow, NextAbove};

use super::calendar::Years;
use super::sizes::Held;

// The months that are weighed: their years, their sizes, and the running sums of the squares of these.
#[derive(Drop)]
pub struct MonthSizes<'a> {
    pub years: Years,
    pub sizes: Held<'a>,
    pub sums: Held<'a>,
    ghost all: { length sizes ≡ years.months },
    ghost small: { AllBelow largest_size sizes },
    ghost summed: { sums ≡ running_squares sizes },
}

impl<'a> MonthSizes<'a> {
    // The first month from t to below hi with twice its size above the limit, or hi where there is none. (An Option, or std's `position`, takes 19 %
    // more instructions and more; dropping in a plain loop over the months 35 %.)
    // Twice a size is above the limit where the size is above half of it.
    fn next_above(&self, t: usize, hi: usize, limit: u64) -> usize
        requires { (t ≤ hi) × (hi ≤ length self.now.sizes) }
        ensures { NextAbove limit t hi self.now.sizes result }
    {
        let half_limit = limit / 2;
        for k in t..hi {
            if half_limit < self.sizes.at(k) {
                return k;
            }
        }
        hi
    }

    // The spread of the months from lo to below hi, whose squares sum to the total, but for those with twice their size above the limit. Some stay.
    fn spread_of(&self, lo: usize, hi: usize, total: u64, limit: u64) -> u64
        requires { (lo ≤ hi) × (hi ≤ length self.now.sizes) × (total ≡ squares (months lo hi self.now.sizes))
            × (0 < length (keep limit (months lo hi self.now.sizes))) }
        ensures { result ≡ spread (keep limit (months lo hi self.now.sizes)) }
    {
        let mut sum = total;
        let mut count = (hi - lo) as u64;
        let mut t = self.next_above(lo, hi, limit);
        while t < hi {
            let a = self.sizes.at(t);
            sum -= a * a;
            count -= 1;
            t = self.next_above(t + 1, hi, limit);
        }
        integers::root(sum / count)
    }

    // The sum of the squares of the sizes before month t.
    fn sum_before(&self, t: usize) -> u64
        requires { t ≤ length self.now.sizes }
        ensures { result ≡ squares (months 0 t self.now.sizes) }
    {
        if t == 0 { 0 } else { self.sums.at(t - 1) }
    }

    // The second spread of the group of year c. Not every month of it is dropped (METHOD 5.8).
    pub fn group_spread(&self, c: usize) -> u64
        requires { (2 ≤ c) × (c + 3 ≤ years self.now.years.start self.now.years.period self.now.years.months) }
        ensures { result ≡ second_spread (group self.now.years.start self.now.years.period self.now.sizes c) }
    {
        let lo = self.years.first_month(c - 2);
        let hi = self.years.first_month(c + 3);
        let total = self.sum_before(hi) - self.sum_before(lo);
        let first = integers::root(total / ((hi - lo) as u64));
        self.spread_of(lo, hi, total, 5 * first)
    }
}
