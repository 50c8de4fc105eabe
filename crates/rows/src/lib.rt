// METHOD 2: the stored rows of the filters, in constant tables; a row and a column find a weight.
#![tactic(auto)]

ghost use Rattle.rows.specs.Stored.{Readable};

pub mod henderson_13;
pub mod henderson_23;
pub mod henderson_9;
pub mod mean_rows;
pub mod three_by_nine;

// METHOD 2.1: a filter's table as it is stored. Its rows stand one after the other, each `width` places long, for values `step` months apart and at most
// `side` of them on each side; the rows for one value more before stand `row_step` rows on. `middle` is the denominator of the middle row, `ends` that of
// the others. That each row is there, and how large its weights are, is a fact of the type.
#[derive(Clone, Copy)]
pub struct StoredTable {
    pub side: usize,
    pub row_step: usize,
    pub step: usize,
    pub width: usize,
    pub rows: &'static [i64],
    pub middle: usize,
    pub ends: usize,
    ghost readable: { Readable (record { side = side; row_step = row_step; step = step; width = width; rows = rows.now; middle = middle; ends = ends }) },
}

// METHOD 2.6: the denominator of the rows for the ends of Henderson's filters.
pub const ENDS_HENDERSON: usize = 1000000;

// METHOD 2.3, 2.4 and 2.8: which filter of a month's run.
#[derive(Clone, Copy)]
pub enum SeasonalFilter {
    ThreeByThree,
    ThreeByFive,
    ThreeByNine,
}

// METHOD 2.5: how many terms Henderson's filter has.
#[derive(Clone, Copy)]
pub enum Terms {
    Nine,
    Thirteen,
    TwentyThree,
}
