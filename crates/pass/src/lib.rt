// METHOD 3: steps 1 to 7 on one series, in lent slices: the stages that every pass has, and a pass that replaces no value.
#![tactic(auto)]

ghost use Rattle.std.specs.Prelude.{◌≡◌, ◌+◌, ◌-◌, ◌≤◌, ◌<◌, length, pos, ◌-ℤ◌};
ghost use Rattle.integers.specs.Sizes.{◌within◌};
ghost use Rattle.integers.specs.Filling.{Filled};
ghost use Rattle.integers.specs.Lists.{◌‼◌};
ghost use Rattle.refusals.specs.Limits.{most_months};
ghost use Rattle.series.specs.Operations.{minus};
ghost use Rattle.rows.specs.declared.SeasonalFilter.TheVariants.{ThreeByThree};
ghost use Rattle.rows.specs.FilterTables.{table2x12, table_seasonal, table_henderson};
ghost use Rattle.filters.specs.Filter.{filter};
ghost use Rattle.filters.specs.Promises.{largest, FilterableMonths};
ghost use Rattle.steps.specs.Choices.{plain_by, plain_monthly};
ghost use Rattle.steps.specs.Steps.{T1, SI1, S1, T2, S2};
ghost use Rattle.steps.specs.Places.{inner, at_month, nearest_month, widened};
ghost use Rattle.pass.specs.Promises.{PassSeries, Work, along, LessAlong, Levels, without_level_at, without_level, OfSI1, OfSI2, Adjustable, PassDone};

use rows::{SeasonalFilter, Terms};

// r at month t less m at month i.
fn less_at(r: &[i64], m: &[i64], t: usize, i: usize) -> i64
    requires { (t < length r.now) × (i < length m.now) × ((r.now ‼ t) within largest) × ((m.now ‼ i) within largest) }
    ensures { result ≡ (r.now ‼ t) -ℤ (m.now ‼ i) }
{
    r[t] - m[i]
}

// r less m, at the months from lo to below hi: m at month i for the first, and `step` months on for each further one. (The stride is 1, or 0 at an
// end: for two functions the loop would stand twice.)
fn less_from(r: &[i64], m: &[i64], i: usize, step: usize, lo: usize, hi: usize, out: &mut [i64])
    requires { LessAlong i step lo hi r.now m.now × (length out.old ≡ length r.now) }
    ensures { Filled (pos 0) (λ t. (r.now ‼ t) -ℤ (m.now ‼ along i step lo t)) lo hi
        out.old out.new }
{
    for t in lo..hi {
        out[t] = less_at(r, m, t, i + step * (t - lo));
    }
}

// r, which has the months from `first` to below `past`, less its 2x12 values m, the nearest of them repeated at both ends.
fn less_level(first: usize, past: usize, r: &[i64], m: &[i64], out: &mut [i64])
    requires { Levels 6 first past r.now m.now × (length out.old ≡ length r.now) }
    ensures { Filled (pos 0) (λ t. (r.now ‼ t) -ℤ (m.now ‼ nearest_month 6 first past t)) first past
        out.old out.new }
{
    less_from(r, m, first + 6, 0, first, first + 6, out);
    less_from(r, m, first + 6, 1, first + 6, past - 6, out);
    less_from(r, m, past - 7, 0, past - 6, past, out);
}

// All months from the inner ones: the first six copy those of a year later, the last six those of a year earlier.
fn widen(out: &mut [i64])
    requires { (24 ≤ length out.old) × (length out.old ≤ most_months) }
    ensures { out.new ≡ widened 6 (inner 6 out.old) }
{
    let n = out.len();
    out.copy_within(12..18, 0);
    out.copy_within(n - 18..n - 12, n - 6);
}

// r, which has the months from `first` to below `past`, less its level, its 2x12 with the ends repeated, in out; m is work space.
pub fn without_level(first: usize, past: usize, r: &[i64], m: &mut [i64], out: &mut [i64])
    requires { FilterableMonths first past r.now × (first + 13 ≤ past) × (length m.old ≡ length r.now) × (length out.old ≡ length r.now) }
    ensures { Filled (pos 0) (without_level_at 6 table2x12 first past r.now) first past out.old out.new }
{
    filters::two_by_twelve(first, past, r, m);
    less_level(first, past, r, m, out);
}

// Steps 1 and 2: T1 and SI1 of x, at their own months from 6 to n - 7; the six months at each end are none of theirs, and stay as they were. (x stays a
// slice, here and below: a type for what a pass asks of it would be put round it in each call. So do the work slices, for the reason that pass B gives.)
pub fn first_si(x: &[i64], t1: &mut [i64], si: &mut [i64])
    requires { PassSeries 6 x.now × (length t1.old ≡ length x.now) × (length si.old ≡ length x.now) }
    ensures { Filled (pos 0) (at_month 6 (T1 plain_monthly x.now)) 6 (length x.now - 6) t1.old t1.new
        × Filled (pos 0) (at_month 6 (SI1 plain_monthly x.now)) 6 (length x.now - 6) si.old si.new }
{
    let n = x.len();
    filters::two_by_twelve(0, n, x, t1);
    less_from(x, t1, 6, 1, 6, n - 6, si);
}

// Steps 3 and 4: the first seasonal of all months in out, from SI1 as it is filtered, at its own months in si; r and m are work space.
pub fn seasonal_of_si1(si: &[i64], r: &mut [i64], m: &mut [i64], out: &mut [i64])
    requires { OfSI1 6 si.now r.old m.old out.old }
    ensures { out.new ≡ widened 6 (without_level 6 table2x12 (filter (table_seasonal ThreeByThree) (inner 6 si.now))) }
{
    let past = si.len() - 6;
    filters::three_by_three(6, past, si, r);
    without_level(6, past, r, m, out);
    widen(out);
}

// Steps 6 and 7: the seasonal in out, by a filter, from SI2 as it is filtered; si and r are then work space.
pub fn seasonal_of_si2(chosen: SeasonalFilter, si: &mut [i64], r: &mut [i64], out: &mut [i64])
    requires { OfSI2 6 si.old r.old out.old }
    ensures { out.new ≡ without_level 6 table2x12 (filter (table_seasonal chosen) si.old) }
{
    let n = si.len();
    filters::seasonal(chosen, 0, n, si, r);
    without_level(0, n, r, si, out);
}

// Steps 1 to 4: S1 of x in out; p, q and r are work space.
fn first_seasonal(x: &[i64], p: &mut [i64], q: &mut [i64], r: &mut [i64], out: &mut [i64])
    requires { PassSeries 6 x.now × Work x.now p.old q.old out.old × (length r.old ≡ length x.now) }
    ensures { out.new ≡ S1 plain_monthly x.now }
{
    first_si(x, p, q);
    seasonal_of_si1(q, p, r, out);
}

// Step 5: Henderson's filter of so many terms of x less a seasonal s, in out; a is work space. The final trend is worked in the same way.
pub fn trend(terms: Terms, x: &[i64], s: &[i64], a: &mut [i64], out: &mut [i64])
    requires { Adjustable x.now s.now × (length a.old ≡ length x.now) × (length out.old ≡ length x.now) }
    ensures { out.new ≡ filter (table_henderson terms) (minus x.now s.now) }
{
    series::minus(x, s, a);
    filters::henderson(terms, a, out);
}

// Steps 6 and 7: S2 of x in out, by a filter, from its T2 in t; a and b are work space.
fn second_seasonal(
    chosen: SeasonalFilter,
    x: &[i64],
    t: &[i64],
    a: &mut [i64],
    b: &mut [i64],
    out: &mut [i64],
)
    requires { PassSeries 6 x.now × (t.now ≡ T2 (plain_by chosen) x.now) × Work x.now a.old b.old out.old }
    ensures { out.new ≡ S2 (plain_by chosen) x.now }
{
    series::minus(x, t, a);
    seasonal_of_si2(chosen, a, b, out);
}

// Steps 1 to 7 as passes C and D take them, with a filter in step 6: T2 and S2 of x; a and b are work space.
pub fn one_pass(
    chosen: SeasonalFilter,
    x: &[i64],
    a: &mut [i64],
    b: &mut [i64],
    t: &mut [i64],
    s: &mut [i64],
)
    requires { PassSeries 6 x.now × Work x.now a.old b.old s.old × (length t.old ≡ length x.now) }
    ensures { PassDone chosen x.now t.new s.new }
{
    first_seasonal(x, a, b, t, s);
    trend(Terms::Thirteen, x, s, a, t);
    second_seasonal(chosen, x, t, a, b, s);
}
