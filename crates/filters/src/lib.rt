// METHOD 2: every moving average, by one filter over constant rows.
#![tactic(auto)]

ghost use Rattle.std.specs.Prelude.{◌≡◌, ◌+◌, ◌*◌, ◌-◌, ◌≤◌, ◌<◌, [], length, pos};
ghost use Rattle.integers.specs.Sizes.{◌within◌};
ghost use Rattle.integers.specs.Lists.{◌‼◌};
ghost use Rattle.integers.specs.Rounding.{to_grain};
ghost use Rattle.integers.specs.Filling.{Filled};
ghost use Rattle.integers.specs.Promises.{largest_quotient};
ghost use Rattle.refusals.specs.Limits.{most_months};
ghost use Rattle.rows.specs.Table.{denominator};
ghost use Rattle.rows.specs.Stored.{largest_over};
ghost use Rattle.rows.specs.declared.SeasonalFilter.TheVariants.{ThreeByThree, ThreeByFive, ThreeByNine};
ghost use Rattle.rows.specs.FilterTables.{table2x12, table_seasonal, table_henderson};
ghost use Rattle.filters.specs.Filter.{dot, by_row, value_at, filter};
ghost use Rattle.filters.specs.Promises.{table_of, Dots, Filterable, FilterableMonths, Served, Serves, CanFilter, FilteredMonths};

use rows::henderson_9::HENDERSON_9;
use rows::henderson_13::HENDERSON_13;
use rows::henderson_23::HENDERSON_23;
use rows::mean_rows::{THREE_BY_FIVE, THREE_BY_THREE, TWO_BY_TWELVE};
use rows::three_by_nine::THREE_BY_NINE;
use rows::{SeasonalFilter, StoredTable, Terms};

// The sum of weights[k] * x[from + k * step] over the weights.
fn dot(weights: &[i64], x: &[i64], from: usize, step: usize) -> i64
    requires { Dots weights.now x.now from step }
    ensures { result ≡ dot (length weights.now) (λ k. weights.now ‼ k) x.now from step }
{
    let mut sum: i64 = 0;
    for (k, weight) in weights.iter().enumerate() {
        sum += *weight * x[from + k * step];
    }
    sum
}

// A weighted sum over its row's denominator, rounded once: the middle row has its own. (What takes a table goes into its callers, down to the constant, so
// that the compiler knows the numbers: docs/DECISIONS.md, 24.)
#[inline(always)]
fn rounded(f: StoredTable, row: usize, sum: i64) -> i64
    requires { sum within largest_quotient * denominator (table_of f) row }
    ensures { result ≡ to_grain sum (denominator (table_of f) row) }
{
    if row == f.side * f.row_step {
        integers::to_grain(sum, f.middle as i64)
    } else {
        integers::to_grain(sum, f.ends as i64)
    }
}

// The filter's value at place t by the row for so many values before and after it.
#[inline(always)]
fn by_row(f: StoredTable, x: &[i64], earlier: usize, later: usize, t: usize) -> i64
    requires { Served (table_of f) earlier later t x.now × (length x.now ≤ most_months) }
    ensures { result ≡ by_row (table_of f) earlier later x.now t }
{
    let row = earlier * f.row_step + (f.side - later);
    let at = row * f.width;
    let weights = &f.rows[at..at + earlier + 1 + later];
    let sum = dot(weights, x, t - earlier * f.step, f.step);
    rounded(f, row, sum)
}

// The filter at the places from lo to below hi, which one row serves: no place asks for its row.
#[inline(always)]
fn fill_row(
    f: StoredTable,
    x: &[i64],
    earlier: usize,
    later: usize,
    lo: usize,
    hi: usize,
    out: &mut [i64],
)
    requires { Serves (table_of f) earlier later lo hi x.now × (length x.now ≤ most_months) × (length out.old ≡ length x.now) }
    ensures { Filled (pos 0) (by_row (table_of f) earlier later x.now) lo hi out.old out.new }
{
    for t in lo..hi {
        out[t] = by_row(f, x, earlier, later, t);
    }
}

// METHOD 2.1: the months before which fewer than `side` values stand, `step` of them for each number of values before, by the rows for the start. (The
// months and the slices stay parameters, here and below: a struct of them would be made anew for each call.)
#[inline(always)]
fn fill_start(f: StoredTable, first: usize, past: usize, x: &[i64], out: &mut [i64])
    requires { CanFilter (table_of f) first past x.now × (length out.old ≡ length x.now) }
    ensures { Filled (pos 0) (value_at (table_of f) first past x.now) first (first + f.side * f.step) out.old out.new }
{
    for earlier in 0..f.side {
        let lo = first + earlier * f.step;
        fill_row(f, x, earlier, f.side, lo, lo + f.step, out);
    }
}

// METHOD 2.1: the months after which fewer than `side` values stand, by the rows for the end.
#[inline(always)]
fn fill_end(f: StoredTable, first: usize, past: usize, x: &[i64], out: &mut [i64])
    requires { CanFilter (table_of f) first past x.now × (length out.old ≡ length x.now) }
    ensures { Filled (pos 0) (value_at (table_of f) first past x.now) (past - f.side * f.step) past out.old out.new }
{
    for later in (0..f.side).rev() {
        let hi = past - later * f.step;
        fill_row(f, x, f.side, later, hi - f.step, hi, out);
    }
}

// METHOD 2.1: the months with `side` values on each side, by the middle row.
#[inline(always)]
fn fill_inside(f: StoredTable, first: usize, past: usize, x: &[i64], out: &mut [i64])
    requires { CanFilter (table_of f) first past x.now × (length out.old ≡ length x.now) }
    ensures { Filled (pos 0) (value_at (table_of f) first past x.now) (first + f.side * f.step) (past - f.side * f.step) out.old out.new }
{
    let reach = f.side * f.step;
    fill_row(f, x, f.side, f.side, first + reach, past - reach, out);
}

// METHOD 2.1: the filter at each month t from `first` to below `past`, where the values in x stand. The rest of out stays. Of a filter whose values stand
// twelve months apart this is the month-run step (METHOD 2.3): the weighted mean of the value at t and those whole years before and after it within these
// months, at most `side` on each side, by the row for so many before and after.
#[inline(always)]
fn fill_months(f: StoredTable, first: usize, past: usize, x: &[i64], out: &mut [i64])
    requires { CanFilter (table_of f) first past x.now × (length out.old ≡ length x.now) }
    ensures { FilteredMonths (table_of f) first past x.now out.old out.new }
{
    fill_start(f, first, past, x, out);
    fill_inside(f, first, past, x, out);
    fill_end(f, first, past, x, out);
}

// The same month by month, each by the row for its own counts, where the months are too few for rows in turn: a place may be short on both sides.
fn fill_short(f: StoredTable, first: usize, past: usize, x: &[i64], out: &mut [i64])
    requires { FilterableMonths first past x.now × (first ≤ past) × (length out.old ≡ length x.now) }
    ensures { FilteredMonths (table_of f) first past x.now out.old out.new }
{
    for t in first..past {
        let earlier = ((t - first) / f.step).min(f.side);
        let later = ((past - 1 - t) / f.step).min(f.side);
        out[t] = by_row(f, x, earlier, later, t);
    }
}

// METHOD 2.2: 2x12 of values at the months from `first` to below `past`, where six of them stand on each side.
pub fn two_by_twelve(first: usize, past: usize, x: &[i64], out: &mut [i64])
    requires { FilterableMonths first past x.now × (first + 13 ≤ past) × (length out.old ≡ length x.now) }
    ensures { Filled (pos 0) (value_at table2x12 first past x.now) (first + 6) (past - 6) out.old out.new }
{
    fill_inside(TWO_BY_TWELVE, first, past, x, out);
}

// METHOD 2.3: 3x3 of each month's run. (It takes runs of four years, which `seasonal` does not.)
pub fn three_by_three(first: usize, past: usize, x: &[i64], out: &mut [i64])
    requires { FilterableMonths first past x.now × (first + 48 ≤ past) × (length out.old ≡ length x.now) }
    ensures { FilteredMonths (table_seasonal ThreeByThree) first past x.now out.old out.new }
{
    fill_months(THREE_BY_THREE, first, past, x, out);
}

// METHOD 2.4: 3x5 of each month's run.
pub fn three_by_five(first: usize, past: usize, x: &[i64], out: &mut [i64])
    requires { FilterableMonths first past x.now × (first + 72 ≤ past) × (length out.old ≡ length x.now) }
    ensures { FilteredMonths (table_seasonal ThreeByFive) first past x.now out.old out.new }
{
    fill_months(THREE_BY_FIVE, first, past, x, out);
}

// METHOD 2.8: 3x9 of each month's run, with a row for each pair of counts. Of fewer than ten years a place may be short on both sides.
fn three_by_nine(first: usize, past: usize, x: &[i64], out: &mut [i64])
    requires { FilterableMonths first past x.now × (first ≤ past) × (length out.old ≡ length x.now) }
    ensures { FilteredMonths (table_seasonal ThreeByNine) first past x.now out.old out.new }
{
    if past - first < 120 {
        fill_short(THREE_BY_NINE, first, past, x, out);
    } else {
        fill_months(THREE_BY_NINE, first, past, x, out);
    }
}

// METHOD 2.3, 2.4 and 2.8: a seasonal filter of each month's run. (An arm for each, as in `henderson` and for its reason.)
pub fn seasonal(chosen: SeasonalFilter, first: usize, past: usize, x: &[i64], out: &mut [i64])
    requires { FilterableMonths first past x.now × (first + 72 ≤ past) × (length out.old ≡ length x.now) }
    ensures { FilteredMonths (table_seasonal chosen) first past x.now out.old out.new }
{
    match chosen {
        SeasonalFilter::ThreeByThree => three_by_three(first, past, x, out),
        SeasonalFilter::ThreeByFive => three_by_five(first, past, x, out),
        SeasonalFilter::ThreeByNine => three_by_nine(first, past, x, out),
    }
}

// METHOD 2.5 and 2.6: Henderson's filter of so many terms, with Musgrave's ends. (A table that is chosen first and passed on has numbers that the compiler
// doesn't know: tried, 2.3 times the instructions.)
pub fn henderson(terms: Terms, x: &[i64], out: &mut [i64])
    requires { Filterable x.now × (22 ≤ length x.now) × (length out.old ≡ length x.now) }
    ensures { out.new ≡ filter (table_henderson terms) x.now }
{
    match terms {
        Terms::Nine => fill_months(HENDERSON_9, 0, x.len(), x, out),
        Terms::Thirteen => fill_months(HENDERSON_13, 0, x.len(), x, out),
        Terms::TwentyThree => fill_months(HENDERSON_23, 0, x.len(), x, out),
    }
}
