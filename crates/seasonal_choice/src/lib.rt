// METHOD 4.6: the seasonal filter of pass D, chosen by noise.
#![tactic(auto)]

ghost use Rattle.std.specs.Prelude.{◌≡◌, ◌-◌, ◌≤◌, length};
ghost use Rattle.refusals.specs.Limits.{months_of_year};
ghost use Rattle.series.specs.Operations.{changes};
ghost use Rattle.series.specs.Promises.{most_change, Changing};
ghost use Rattle.seasonal_choice.specs.SeasonalChoice.{decide, ask, chosen_filter};
ghost use Rattle.seasonal_choice.specs.Promises.{Choosable, MonthsKept};

use rows::SeasonalFilter;

// One question, to the sums I and S: the filter, or none where it stays undecided. Both are 0 just where their sum is.
#[tactic(auto, using(std::proofs::lemmas::Bool::Decides::nat_tests), unfolding(crate::specs::SeasonalChoice::decide))]
fn decide(i: u64, s: u64) -> Option<SeasonalFilter>
    requires { (i ≤ most_change) × (s ≤ most_change) }
    ensures { result ≡ decide i s }
{
    if i + s == 0 {
        Some(SeasonalFilter::ThreeByFive)
    } else if 2 * i < 5 * s {
        Some(SeasonalFilter::ThreeByThree)
    } else if 2 * i <= 7 * s {
        None
    } else if 2 * i < 11 * s {
        Some(SeasonalFilter::ThreeByFive)
    } else if 2 * i < 13 * s {
        None
    } else {
        Some(SeasonalFilter::ThreeByNine)
    }
}

// The sum of the changes of a table over a year, into each month from `first` on.
fn year_changes(x: &[i64], first: usize) -> u64
    requires { Changing x.now months_of_year first (length x.now) }
    ensures { (result ≡ changes x.now months_of_year first (length x.now - first)) × (result ≤ most_change) }
{
    series::changes(x, refusals::MONTHS_OF_YEAR, first, x.len())
}

// The question asked of the months kept, whose changes sum to i and s; then, so many times more at most, with the last year set aside: what its
// changes bring is taken from both sums.
fn ask(irregular: &[i64], seasonal: &[i64], i: u64, s: u64, tries: usize) -> SeasonalFilter
    requires { MonthsKept months_of_year irregular.now seasonal.now i s tries }
    ensures { result ≡ ask months_of_year tries irregular.now seasonal.now }
{
    if let Some(filter) = decide(i, s) {
        return filter;
    }
    if tries == 0 {
        return SeasonalFilter::ThreeByFive;
    }
    let kept = irregular.len() - refusals::MONTHS_OF_YEAR;
    let last_i = year_changes(irregular, kept);
    let last_s = year_changes(seasonal, kept);
    ask(
        &irregular[..kept],
        &seasonal[..kept],
        i - last_i,
        s - last_s,
        tries - 1,
    )
}

// The filter by an irregular and a seasonal, C13 and C10: one question, and five more at most.
pub fn chosen_filter(irregular: &[i64], seasonal: &[i64]) -> SeasonalFilter
    requires { Choosable months_of_year irregular.now seasonal.now }
    ensures { result ≡ chosen_filter months_of_year irregular.now seasonal.now }
{
    let i = year_changes(irregular, refusals::MONTHS_OF_YEAR);
    let s = year_changes(seasonal, refusals::MONTHS_OF_YEAR);
    ask(irregular, seasonal, i, s, 5)
}
