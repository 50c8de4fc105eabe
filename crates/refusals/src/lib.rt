// METHOD 8.1, the refusal sheet, and the limits that it speaks of (METHOD 1 and 7.5).
#![tactic(auto)]

ghost use Rattle.std.specs.Prelude.{not, ◌≡◌, ◌≤◌};
ghost use Rattle.refusals.specs.First.{first_above, first_outside};
ghost use Rattle.refusals.specs.Inside.{figure_inside, start_inside, weight_inside, years_inside};
ghost use Rattle.refusals.specs.Sheet.{row};
ghost use Rattle.refusals.specs.Limits.{most_months};
ghost use Rattle.refusals.specs.Promises.{Spans};

// Grains in a unit.
pub const UNIT: i64 = 1000;

// Months in a series.
pub const LEAST_MONTHS: usize = 72;

pub const MOST_MONTHS: usize = 600;

// Months in a year: the last start month, and the period of a desk file.
pub const MONTHS_OF_YEAR: usize = 12;

// A figure's size, in units.
pub const LARGEST_FIGURE: i32 = 200000;

// A month that counts in full, in thousandths.
pub const FULL_WEIGHT: u16 = 1000;

// The years of a series.
pub const EARLIEST_YEAR: usize = 1;

pub const LATEST_YEAR: usize = 9999;

// The rows of the sheet, in its order; a row with a place carries it. The number 6 is retired.
#[derive(Clone, Copy, PartialEq, Eq, Debug)]
pub enum Refusal {
    TooShort,
    TooLong,
    BadStart,
    WrongLength,
    FigureOutside(usize),
    NoHeader,
    BadPeriod,
    BadFileLength,
    WeightAbove(usize),
    BadYears,
    MalformedCell(usize),
    Gap(usize),
    BadDouble(usize),
}

// A row of the refusal sheet: its number, and the place that the refusal tells, 0 for those without one. Numbers, since the sheet and C have them
// (METHOD 8.1 and 8.5).
#[derive(Clone, Copy)]
struct Row(u8, usize);

fn row_of(r: Refusal) -> Row
    ensures { (result.0 ≡ (row r).number) × (result.1 ≡ (row r).place) }
{
    match r {
        Refusal::TooShort => Row(1, 0),
        Refusal::TooLong => Row(2, 0),
        Refusal::BadStart => Row(3, 0),
        Refusal::WrongLength => Row(4, 0),
        Refusal::FigureOutside(t) => Row(5, t),
        Refusal::NoHeader => Row(7, 0),
        Refusal::BadPeriod => Row(8, 0),
        Refusal::BadFileLength => Row(9, 0),
        Refusal::WeightAbove(t) => Row(10, t),
        Refusal::BadYears => Row(11, 0),
        Refusal::MalformedCell(t) => Row(12, t),
        Refusal::Gap(t) => Row(13, t),
        Refusal::BadDouble(t) => Row(14, t),
    }
}

// The refusal's number, and its place.
pub fn number(r: Refusal) -> u8
    ensures { result ≡ (row r).number }
{
    row_of(r).0
}

pub fn place(r: Refusal) -> usize
    ensures { result ≡ (row r).place }
{
    row_of(r).1
}

// Row 3: a start month that is not 1 to 12.
fn start_outside(start: u8) -> bool
    ensures { result ≡ not (start_inside start) }
{
    start < 1 || MONTHS_OF_YEAR < start as usize
}

// Rows 1 to 3: n months from a start month.
pub fn span(n: usize, start: u8) -> Result<(), Refusal>
    ensures { Spans result n start }
{
    if n < LEAST_MONTHS {
        return Err(Refusal::TooShort);
    }
    if MOST_MONTHS < n {
        return Err(Refusal::TooLong);
    }
    if start_outside(start) {
        return Err(Refusal::BadStart);
    }
    Ok(())
}

// Row 11: the first year, or the year of the last of n months, outside 1 to 9999.
pub fn years_outside(year: u16, start: u8, n: usize) -> bool
    requires { (1 ≤ start) × (1 ≤ n) × (n ≤ most_months) }
    ensures { result ≡ not (years_inside year start n) }
{
    (year as usize) < EARLIEST_YEAR
        || LATEST_YEAR < year as usize + (start as usize - 1 + n - 1) / MONTHS_OF_YEAR
}

// Row 5: a figure below -200,000 or above 200,000.
pub fn figure_outside(figure: i32) -> bool
    ensures { result ≡ not (figure_inside figure) }
{
    figure < -LARGEST_FIGURE || LARGEST_FIGURE < figure
}

// Row 10: a weight above 1,000.
pub fn weight_above(weight: u16) -> bool
    ensures { result ≡ not (weight_inside weight) }
{
    FULL_WEIGHT < weight
}

// Row 5: the place of the first figure outside its limits, if there is one.
pub fn first_outside(figures: &[i32]) -> Option<usize>
    ensures { result ≡ first_outside figures.now }
{
    figures.iter().position(|figure| figure_outside(*figure))
}

// Row 10: the place of the first weight above 1,000, if there is one.
pub fn first_above(weights: &[u16]) -> Option<usize>
    ensures { result ≡ first_above weights.now }
{
    weights.iter().position(|weight| weight_above(*weight))
}
