// METHOD 3.8 and 4.1: pass B on one series, in lent slices: steps 1 to 7, with extreme values of SI1 and SI2 replaced.
#![tactic(auto)]

ghost use Rattle.std.specs.Prelude.{◌≡◌, ◌-◌, length, pos};
ghost use Rattle.integers.specs.Filling.{Filled};
ghost use Rattle.refusals.specs.Limits.{months_of_year};
ghost use Rattle.series.specs.Operations.{minus};
ghost use Rattle.rows.specs.FilterTables.{table2x12};
ghost use Rattle.replacing.specs.Replaced.{replaced_by};
ghost use Rattle.steps.specs.Choices.{plain_monthly};
ghost use Rattle.steps.specs.Places.{at_month};
ghost use Rattle.steps.specs.Steps.{SI1, S1, T2};
ghost use Rattle.extremes.specs.Weighing.{weights_of};
ghost use Rattle.tables.specs.PassB.{weights_b4, choices_b4};
ghost use Rattle.pass.specs.Promises.{without_level};
ghost use Rattle.pass_b.specs.Promises.{PassBSeries, PassBSlices, Weighs, SI2Replaced, PassBDone};

use rows::{SeasonalFilter, Terms};

// A series that pass B takes, from its start month. (The work slices stay parameters: two fields of a lent struct can't be lent to one call, and each
// function would take all five out by a line of their own, and promise that they are still the same.)
#[derive(Clone, Copy)]
struct Series<'a> {
    x: &'a [i64],
    start: u8,
    ghost fits: { PassBSeries start x.now },
}

// The weights of what the preliminary seasonal of si leaves of it, from the calendar month of its first value; r holds 3x3 or 3x5 of si. r, t and s
// are then work space.
fn weigh(si: &[i64], start: u8, r: &mut [i64], t: &mut [i64], s: &mut [i64], w: &mut [u16])
    requires { Weighs start si.now r.old t.old s.old w.old }
    ensures { w.new ≡ weights_of start months_of_year (minus si.now (without_level 6 table2x12 r.old)) }
{
    pass::without_level(0, si.len(), r, t, s);
    series::minus(si, s, r);
    extremes::weights(r, start, refusals::MONTHS_OF_YEAR as u8, t, s, w);
}

// Steps 1 and 2: SI1 of x, replaced, in a, at its own months from 6 to n - 7; the six months at each end are none of its own, and stay as they were.
// The weighing and the replacing are lent the months of SI1 alone, and count from the first of them.
fn replaced_si1(
    given: &Series,
    a: &mut [i64],
    b: &mut [i64],
    t: &mut [i64],
    s: &mut [i64],
    w: &mut [u16],
)
    requires { PassBSlices (length given.now.x.now) a.old b.old t.old s.old w.old }
    ensures { Filled (pos 0) (at_month 6 (replaced_by months_of_year (weights_b4 given.now.start given.now.x.now) (SI1 plain_monthly given.now.x.now)))
        6 (length given.now.x.now - 6) a.old a.new }
{
    let past = given.x.len() - 6;
    pass::first_si(given.x, a, b);
    filters::three_by_three(6, past, b, a);
    let start_b4 = extremes::month_of(given.start, refusals::MONTHS_OF_YEAR as u8, 6);
    weigh(
        &b[6..past],
        start_b4,
        &mut a[6..past],
        &mut t[6..past],
        &mut s[6..past],
        &mut w[6..past],
    );
    replacing::replace(&b[6..past], &w[6..past], &mut a[6..past]);
}

// Steps 1 to 4: S1 of x in s.
fn first_seasonal(
    given: &Series,
    a: &mut [i64],
    b: &mut [i64],
    t: &mut [i64],
    s: &mut [i64],
    w: &mut [u16],
)
    requires { PassBSlices (length given.now.x.now) a.old b.old t.old s.old w.old }
    ensures { s.new ≡ S1 (choices_b4 given.now.start given.now.x.now) given.now.x.now }
{
    replaced_si1(given, a, b, t, s, w);
    pass::seasonal_of_si1(a, b, t, s);
}

// Step 6: SI2 of x from its T2, replaced, in b. t makes way for the weighing, and is T2 again at the end: x less SI2.
fn replaced_si2(
    given: &Series,
    a: &mut [i64],
    b: &mut [i64],
    t: &mut [i64],
    s: &mut [i64],
    w: &mut [u16],
)
    requires { (t.old ≡ T2 (choices_b4 given.now.start given.now.x.now) given.now.x.now)
        × PassBSlices (length given.now.x.now) a.old b.old t.old s.old w.old }
    ensures { SI2Replaced given.now.start given.now.x.now b.new t.new }
{
    series::minus(given.x, t, a);
    filters::three_by_five(0, given.x.len(), a, b);
    weigh(a, given.start, b, t, s, w);
    replacing::replace(a, w, b);
    series::minus(given.x, a, t);
}

// Steps 1 to 7: T2 and S2 of x; a, b and w are work space.
pub fn pass_b(
    x: &[i64],
    start: u8,
    a: &mut [i64],
    b: &mut [i64],
    t: &mut [i64],
    s: &mut [i64],
    w: &mut [u16],
)
    requires { PassBSeries start x.now × PassBSlices (length x.now) a.old b.old t.old s.old w.old }
    ensures { PassBDone start x.now t.new s.new }
{
    let given = Series { x, start };
    first_seasonal(&given, a, b, t, s, w);
    pass::trend(Terms::Thirteen, x, s, a, t);
    replaced_si2(&given, a, b, t, s, w);
    pass::seasonal_of_si2(SeasonalFilter::ThreeByFive, b, a, s);
}
