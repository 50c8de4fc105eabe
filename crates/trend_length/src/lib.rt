// METHOD 4.5: the length of the final trend's filter, by noise.
#![tactic(auto)]

ghost use Rattle.std.specs.Prelude.{◌≡◌, ◌≤◌};
ghost use Rattle.series.specs.Promises.{most_change};
ghost use Rattle.trend_length.specs.TrendLength.{month_changes, terms_for, trend_length};
ghost use Rattle.trend_length.specs.Promises.{Measurable};

use rows::Terms;

// The sum of the sizes of the changes of a table from one month to the next, into t from 7 to n - 7.
#[tactic(auto, unfolding(crate::specs::TrendLength::month_changes))]
fn month_changes(x: &[i64]) -> u64
    requires { Measurable 6 x.now }
    ensures { (result ≡ month_changes 6 x.now) × (result ≤ most_change) }
{
    series::changes(x, 1, 7, x.len() - 6)
}

// The terms for the sums I and C. Their sum is 0 where both are.
#[tactic(auto, using(std::proofs::lemmas::Bool::Decides::nat_tests), unfolding(crate::specs::TrendLength::terms_for))]
fn terms_for(i: u64, c: u64) -> Terms
    requires { (i ≤ most_change) × (c ≤ most_change) }
    ensures { result ≡ terms_for i c }
{
    if i + c == 0 {
        Terms::Thirteen
    } else if i < c {
        Terms::Nine
    } else if 2 * i < 7 * c {
        Terms::Thirteen
    } else {
        Terms::TwentyThree
    }
}

// The length by an irregular and a trend, C13 and C7.
#[tactic(auto, unfolding(crate::specs::TrendLength::trend_length))]
pub fn trend_length(irregular: &[i64], trend: &[i64]) -> Terms
    requires { Measurable 6 irregular.now × Measurable 6 trend.now }
    ensures { result ≡ trend_length 6 irregular.now trend.now }
{
    terms_for(month_changes(irregular), month_changes(trend))
}
