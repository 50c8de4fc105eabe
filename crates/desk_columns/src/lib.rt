// METHOD 7.7 and 7.8, the desk file by calendar month: reading and writing it, and moving a file from one form to the other.
#![tactic(auto)]

ghost use Rattle.desk_forms.specs.Header.{series};
ghost use Rattle.desk_columns.specs.ReadColumns.{ReadColumnsDone};
ghost use Rattle.desk_columns.specs.WriteColumns.{WriteColumnsDone};
ghost use Rattle.desk_columns.specs.Moving.{MovedBack, MovedForward};

use desk_forms::{DatedSeries, Form};
use refusals::Refusal;

// What reading answers: the months, the start month and the first year of the series.
#[derive(Clone, Copy, PartialEq, Eq, Debug)]
pub struct ColumnsSeries {
    pub count: usize,
    pub start: u8,
    pub year: u16,
}

// What moving back answers: the length of the plain file and the first year.
#[derive(Clone, Copy, PartialEq, Eq, Debug)]
pub struct PlainSize {
    pub size: usize,
    pub year: u16,
}

// Given as the first year where a file has its own, and not looked at. (A number, as in `desk_file`.)
const ITS_OWN: u16 = 0;

// Reads a desk file by calendar month: the first n places of both slices are filled, in order of t, the rest stays.
pub fn read_columns(
    file: &[u8],
    figures: &mut [i32],
    weights: &mut [u16],
) -> Result<ColumnsSeries, Refusal>
    ensures { ReadColumnsDone file.now figures.old weights.old result figures.new weights.new }
{
    let sized = desk_either::read(file, Form::Columns, ITS_OWN, figures, weights)?;
    Ok(ColumnsSeries {
        count: sized.count,
        start: sized.start,
        year: sized.year,
    })
}

// Writes a desk file by calendar month: the first 6+6n bytes of the output are filled, the rest stays. The answer is its length.
pub fn write_columns(
    figures: &[i32],
    start: u8,
    year: u16,
    weights: &[u16],
    out: &mut [u8],
) -> Result<usize, Refusal>
    ensures { WriteColumnsDone year (series start figures.now weights.now) out.old result out.new }
{
    let series = DatedSeries {
        figures,
        start,
        year,
        weights,
    };
    desk_either::write(series, Form::Columns, out)?;
    Ok(Form::Columns.length(figures.len()))
}

// Moves a plain file forward: the first 6+6n bytes of the output are filled with the file by calendar month, the rest stays. The answer is its length.
pub fn to_columns(file: &[u8], year: u16, out: &mut [u8]) -> Result<usize, Refusal>
    ensures { MovedForward file.now year out.old result out.new }
{
    let moved = desk_either::move_file(file, Form::Plain, year, Form::Columns, out)?;
    Ok(Form::Columns.length(moved.count))
}

// Moves a file by calendar month back: the first 4+6n bytes of the output are filled with the plain file, the rest stays.
pub fn from_columns(file: &[u8], out: &mut [u8]) -> Result<PlainSize, Refusal>
    ensures { MovedBack file.now out.old result out.new }
{
    let moved = desk_either::move_file(file, Form::Columns, ITS_OWN, Form::Plain, out)?;
    Ok(PlainSize {
        size: Form::Plain.length(moved.count),
        year: moved.year,
    })
}
