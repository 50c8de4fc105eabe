// METHOD 3.9: extreme values replaced by means of their neighbours in the month's run. Runs are read at stride twelve, and none is copied.
#![tactic(auto)]

ghost use Rattle.std.specs.Prelude.{◌≡◌, ◌+◌, ◌*◌, ◌≤◌, ◌<◌, length, IfSome, SomeIff, pos, ◌+ℤ◌, ◌*ℤ◌};
ghost use Rattle.integers.specs.Sizes.{◌within◌};
ghost use Rattle.integers.specs.Rounding.{to_grain};
ghost use Rattle.refusals.specs.Limits.{months_of_year, full_weight};
ghost use Rattle.filters.specs.Promises.{largest, Filterable};
ghost use Rattle.replacing.specs.Neighbours.{full_before, full_after, nearest, neighbours};
ghost use Rattle.replacing.specs.Replaced.{replaced_at, replaced_by};
ghost use Rattle.replacing.specs.Promises.{TableWeighed, is_full, Back, Ahead, nearer, SumAndCountOf};

use refusals::{FULL_WEIGHT, MONTHS_OF_YEAR};

// The sum and the number of some values.
#[derive(Clone, Copy)]
struct SumAndCount {
    sum: i64,
    count: usize,
}

impl SumAndCount {
    // METHOD 3.9: what a mean is over: the weight of the value, and 1,000 more for each neighbour.
    fn counted(self, own: u16) -> usize
        requires { (own < full_weight) × (self.count ≤ 4) }
        ensures { result ≡ own + full_weight * self.count }
    {
        (own as usize) + (FULL_WEIGHT as usize) * self.count
    }

    // METHOD 3.9: the mean of a value, counted by its weight, and its neighbours, counted 1,000 times each; rounded once.
    fn mean_with(self, own: u16, value: i64) -> i64
        requires { (own < full_weight) × (value within largest) × (self.sum within self.count * largest) × (0 < self.count) × (self.count ≤ 4) }
        ensures { result ≡ to_grain (pos own *ℤ value +ℤ pos full_weight *ℤ self.sum) (own + full_weight * self.count) }
    {
        let total = (own as i64) * value + (FULL_WEIGHT as i64) * self.sum;
        integers::to_grain(total, self.counted(own) as i64)
    }
}

// Of an earlier place a and a later place b the nearer to t, and the earlier if they are equally near; the other if there is but one.
fn nearer(t: usize, a: Option<usize>, b: Option<usize>) -> Option<usize>
    requires { IfSome a (λ a. a < t) × IfSome b (λ b. t < b) }
    ensures { result ≡ nearer t a b }
{
    match (a, b) {
        (Some(a), Some(b)) => Some(if t - a <= b - t { a } else { b }),
        _ => a.or(b),
    }
}

// The values of a table, and the weight of each.
#[derive(Clone, Copy)]
struct Weighed<'a> {
    x: &'a [i64],
    w: &'a [u16],
    ghost fits: { TableWeighed x.now w.now },
}

impl Weighed<'_> {
    // Whether place p has weight 1,000.
    fn is_full(&self, p: usize) -> bool
        requires { p < length self.now.w.now }
        ensures { result ≡ is_full self.now.w.now p }
    {
        self.w[p] == FULL_WEIGHT
    }

    // The place a year after p, if the table goes so far.
    fn year_after(&self, p: usize) -> Option<usize>
        requires { p < length self.now.w.now }
        ensures { SomeIff result (p + months_of_year < length self.now.w.now) (p + months_of_year) }
    {
        let q = p + MONTHS_OF_YEAR;
        (q < self.w.len()).then_some(q)
    }

    // The nearest place of weight 1,000 before p in its run. (The walks are loops: by `find` over a range or by `step_by` all took up to 4 % more.)
    fn back(&self, p: usize) -> Option<usize>
        requires { p < length self.now.w.now }
        ensures { Back months_of_year self.now.w.now p result }
    {
        let mut at = p;
        while let Some(q) = at.checked_sub(MONTHS_OF_YEAR) {
            if self.is_full(q) {
                return Some(q);
            }
            at = q;
        }
        None
    }

    // The nearest one after p.
    fn ahead(&self, p: usize) -> Option<usize>
        requires { p < length self.now.w.now }
        ensures { Ahead months_of_year self.now.w.now p result }
    {
        let mut at = p;
        while let Some(q) = self.year_after(at) {
            if self.is_full(q) {
                return Some(q);
            }
            at = q;
        }
        None
    }

    // METHOD 3.9: the three values of weight 1,000 nearest to place t, or all there are. `preceding` and `following` are the first on each side.
    fn nearest_three(
        &self,
        t: usize,
        preceding: Option<usize>,
        following: Option<usize>,
    ) -> SumAndCount
        requires { (t < length self.now.w.now) × Back months_of_year self.now.w.now t preceding × Ahead months_of_year self.now.w.now t following }
        ensures { SumAndCountOf self.now.x.now (nearest 3 t (full_before months_of_year self.now.w.now t) (full_after months_of_year self.now.w.now t))
            result.sum result.count }
    {
        let mut a = preceding;
        let mut b = following;
        let mut sum = 0;
        for count in 0..3 {
            let Some(p) = nearer(t, a, b) else {
                return SumAndCount { sum, count };
            };
            sum += self.x[p];
            if p < t {
                a = self.back(p);
            } else {
                b = self.ahead(p);
            }
        }
        SumAndCount { sum, count: 3 }
    }

    // METHOD 3.9: the neighbours of place t, two on each side; or the three nearest, if one side has fewer than two.
    fn neighbours(&self, t: usize) -> SumAndCount
        requires { t < length self.now.w.now }
        ensures { SumAndCountOf self.now.x.now (neighbours months_of_year self.now.w.now t) result.sum result.count }
    {
        let preceding = self.back(t);
        let following = self.ahead(t);
        if let (Some(a), Some(b)) = (preceding, following)
            && let Some(c) = self.back(a)
            && let Some(d) = self.ahead(b)
        {
            return SumAndCount {
                sum: self.x[a] + self.x[c] + self.x[b] + self.x[d],
                count: 4,
            };
        }
        self.nearest_three(t, preceding, following)
    }

    // METHOD 3.9: the value of place t, replaced if its weight is below 1,000 and it has a neighbour.
    fn replaced_at(&self, t: usize) -> i64
        requires { t < length self.now.w.now }
        ensures { result ≡ replaced_at months_of_year self.now.w.now self.now.x.now t }
    {
        let own = self.w[t];
        let value = self.x[t];
        if FULL_WEIGHT <= own {
            return value;
        }
        let near = self.neighbours(t);
        if near.count == 0 {
            return value;
        }
        near.mean_with(own, value)
    }
}

// METHOD 3.9: each value replaced by the weights w, all from the values as they stand in x.
pub fn replace(x: &[i64], w: &[u16], out: &mut [i64])
    requires { Filterable x.now × (length w.now ≡ length x.now) × (length out.old ≡ length x.now) }
    ensures { out.new ≡ replaced_by months_of_year w.now x.now }
{
    let table = Weighed { x, w };
    for t in 0..x.len() {
        out[t] = table.replaced_at(t);
    }
}
