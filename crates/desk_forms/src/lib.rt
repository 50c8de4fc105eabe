// METHOD 7, the two forms of a desk file: what differs between them, and their parts read, written and moved.
#![tactic(auto)]

ghost use Rattle.std.specs.Prelude.{◌≡◌, ◌≤◌, length};
ghost use Rattle.refusals.specs.Promises.{SpanFits};
ghost use Rattle.desk_forms.specs.Header.{length_for, weights_start};
ghost use Rattle.desk_forms.specs.Forms.{front_of, months_in, start_of, year_of};

mod dated;
mod sized;

use chart::Chart;
pub use dated::DatedSeries;
use desk_arrays::Entry;
pub use sized::SizedFile;

// In order of t, or by calendar month with the first year.
#[derive(Clone, Copy, PartialEq, Eq, Debug)]
pub enum Form {
    Plain,
    Columns,
}

// The header: bytes of the count, then the places of the start month and of the period, and where it ends.
pub const COUNT: usize = 2;

pub const START: usize = 2;

pub const PERIOD: usize = 3;

const HEADER: usize = 4;

// Bytes of the first year, of all before the figures by calendar month, of a figure and of a month in both arrays.
const YEAR: usize = 2;

const COLUMNS_FRONT: usize = HEADER + YEAR;

const FIGURE: usize = <i32 as Entry>::BYTES;

const MONTH: usize = FIGURE + <u16 as Entry>::BYTES;

// The period of a desk file.
pub const MONTHLY: u8 = refusals::MONTHS_OF_YEAR as u8;

// What differs is data, so each of these is a match of two arms; a closure for each form would only stand further from it.
impl Form {
    // The bytes before the figures.
    pub fn front(self) -> usize
        ensures { (result ≡ front_of self) × (4 ≤ result) × (result ≤ 6) }
    {
        match self {
            Form::Plain => HEADER,
            Form::Columns => COLUMNS_FRONT,
        }
    }

    // Where the weights of n months start: the figures end there.
    pub fn weights(self, n: usize) -> usize
        requires { n ≤ 65535 }
        ensures { result ≡ weights_start (front_of self) n }
    {
        self.front() + FIGURE * n
    }

    // The length of a file of n months.
    pub fn length(self, n: usize) -> usize
        requires { n ≤ 65535 }
        ensures { result ≡ length_for (front_of self) n }
    {
        self.front() + MONTH * n
    }

    // The order of its arrays, as a month order: the months in a year, and the start month. With one month in a year it is the order of t.
    pub fn months_in(self) -> usize
        ensures { result ≡ months_in self }
    {
        match self {
            Form::Plain => 1,
            Form::Columns => refusals::MONTHS_OF_YEAR,
        }
    }

    pub fn start_of(self, start: u8) -> usize
        ensures { result ≡ start_of self start }
    {
        match self {
            Form::Plain => 1,
            Form::Columns => usize::from(start),
        }
    }

    // That order of n months.
    pub fn chart(self, n: usize, start: u8) -> Chart
        requires { SpanFits n start }
        ensures { (result.period ≡ months_in self) × (result.start ≡ start_of self start) × (result.count ≡ n) }
    {
        Chart {
            period: self.months_in(),
            start: self.start_of(start),
            count: n,
        }
    }

    // The first year of a file: the one that is given, where the form has none.
    pub fn year(self, file: &[u8], given: u16) -> u16
        requires { front_of self ≤ length file.now }
        ensures { result ≡ year_of self given file.now }
    {
        match self {
            Form::Plain => given,
            Form::Columns => little_endian::number_at(file, HEADER, YEAR) as u16,
        }
    }
}
