// METHOD 5: spreads, weights and corrections. This file has what other crates call. `as` stands where a number is known to fit: std has no `From` between
// u64, i64 and usize, nor to a smaller type, and `try_from` would have a failure to take apart that cannot come.
#![tactic(auto)]

ghost use Rattle.std.specs.Prelude.{◌≡◌, ◌≤◌};
ghost use Rattle.integers.specs.Sizes.{◌within◌};
ghost use Rattle.refusals.specs.Limits.{most_months, full_weight};
ghost use Rattle.extremes.specs.Years.{month_of};
ghost use Rattle.extremes.specs.Weighing.{correction_of};
ghost use Rattle.extremes.specs.Promises.{largest_irregular, Weighable, Outcome};

mod calendar; // years, and the months that a group serves
mod sizes; // sizes in whole units, and running sums of their squares
mod spreads; // both spreads of a group
mod weighing; // a month's weight, and those of all groups

use calendar::Years;
use sizes::{Held, fill_sizes, fill_sums};
use spreads::MonthSizes;

// METHOD 3.8: the calendar month of month t, where a year has so many months.
pub fn month_of(start: u8, period: u8, t: usize) -> u8
    requires { (1 ≤ start) × (start ≤ period) × (t ≤ most_months) }
    ensures { (result ≡ month_of start period t) × (1 ≤ result) × (result ≤ period) }
{
    ((usize::from(start) - 1 + t) % usize::from(period) + 1) as u8
}

// The weights of an irregular whose years have so many months, with two slices to work in. (They stay parameters: each caller lends other ones.)
pub fn weights(
    irregular: &[i64],
    start: u8,
    period: u8,
    sizes: &mut [i64],
    sums: &mut [i64],
    out: &mut [u16],
)
    requires { Weighable start period irregular.now sizes.old sums.old out.old }
    ensures { Outcome start period irregular.now sizes.new sums.new out.new }
{
    fill_sizes(irregular, sizes);
    let sizes = Held { signed: sizes };
    fill_sums(&sizes, sums);
    let sums = Held { signed: sums };
    let years = Years {
        start: usize::from(start),
        period: usize::from(period),
        months: irregular.len(),
    };
    let months = MonthSizes { years, sizes, sums };
    months.weigh(out);
}

// METHOD 5.7: the correction of a month, by its irregular and its weight.
pub fn correction(irregular: i64, weight: u16) -> i64
    requires { (irregular within largest_irregular) × (weight ≤ full_weight) }
    ensures { result ≡ correction_of irregular weight }
{
    integers::to_grain(
        irregular * i64::from(refusals::FULL_WEIGHT - weight),
        i64::from(refusals::FULL_WEIGHT),
    )
}
