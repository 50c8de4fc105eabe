// METHOD 7.6, the wall chart: a row for each year, a column for each month of a year, and a series that fills it row by row from its start month on.
#![tactic(auto)]

ghost use Rattle.std.specs.Prelude.{◌≡◌, ◌<◌};
ghost use Rattle.integers.specs.Sums.{sum_n};
ghost use Rattle.chart.specs.Chart.{column_of, first_in, in_column, place};
ghost use Rattle.chart.specs.Promises.{Charted, Follows};

mod months;

pub use months::Months;

// The months in a year, the start month of a series, from 1, and how many months it has.
#[derive(Clone, Copy)]
pub struct Chart {
    pub period: usize,
    pub start: usize,
    pub count: usize,
    ghost charted: { Charted period start count },
}

impl Chart {
    // The column of month t.
    fn column_of(self, t: usize) -> usize
        requires { t < self.count }
        ensures { (result ≡ column_of self.period self.start t) × (result < self.period) }
    {
        (self.start - 1 + t) % self.period
    }

    // The first month of column c. The first row of the chart is blank before the start month; where it is so in column c, the month stands in the second.
    // (By a test: with a remainder, writing 72 months by calendar month takes some 15 % longer.)
    pub fn first_in(self, c: usize) -> usize
        requires { c < self.period }
        ensures { (result ≡ first_in self.period self.start c) × (result < self.period) }
    {
        let blank = self.start - 1;
        if blank <= c {
            c - blank
        } else {
            c + self.period - blank
        }
    }

    // How many months stand in the columns before column c: c in each whole row of the chart, in the last row as many of them as it has, and in the
    // first row none before the start month.
    fn before(self, c: usize) -> usize
        requires { c < self.period }
        ensures { result ≡ sum_n c (in_column self.period self.start self.count) }
    {
        let end = self.start - 1 + self.count;
        c * (end / self.period) + c.min(end % self.period) - c.min(self.start - 1)
    }

    // The place of month t in month order.
    pub fn place(self, t: usize) -> usize
        requires { t < self.count }
        ensures { (result ≡ place self.period self.start self.count t) × (result < self.count) }
    {
        self.before(self.column_of(t)) + t / self.period
    }

    // The month that stands after month t: the next of its column, or where it is the last one there, the first of the next column; after December's
    // column January's comes again.
    pub fn next(self, t: usize) -> usize
        requires { t < self.count }
        ensures { Follows self.period self.start self.count t result }
    {
        if t + self.period < self.count {
            return t + self.period;
        }
        self.first_in((self.column_of(t) + 1) % self.period)
    }

    // The months in month order, each behind its place.
    pub fn months(self) -> Months
        ensures { (result.chart ≡ self) × (result.place ≡ 0) }
    {
        Months {
            chart: self,
            place: 0,
            month: self.first_in(0),
        }
    }
}
