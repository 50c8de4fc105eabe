// METHOD 7.2 and 7.3, the plain desk file: reading and writing a series with its weights.
#![tactic(auto)]

ghost use Rattle.desk_forms.specs.Header.{series};
ghost use Rattle.desk_file.specs.ReadFile.{ReadDone};
ghost use Rattle.desk_file.specs.WriteFile.{WriteDone};

use desk_forms::{DatedSeries, Form};
use refusals::Refusal;

// What reading answers: the months and the start month of the series.
#[derive(Clone, Copy, PartialEq, Eq, Debug)]
pub struct Series {
    pub count: usize,
    pub start: u8,
}

// This form has no year: it is as if its series started in the earliest one, from which none runs past the latest. (A number and no Option, since the
// definitions of both forms take a year.)
const ANY_YEAR: u16 = refusals::EARLIEST_YEAR as u16;

// Reads a desk file: the first n places of both slices are filled, the rest stays.
pub fn read(file: &[u8], figures: &mut [i32], weights: &mut [u16]) -> Result<Series, Refusal>
    ensures { ReadDone file.now figures.old weights.old result figures.new weights.new }
{
    let sized = desk_either::read(file, Form::Plain, ANY_YEAR, figures, weights)?;
    Ok(Series {
        count: sized.count,
        start: sized.start,
    })
}

// Writes a desk file: the first 4+6n bytes of the output are filled, the rest stays. The answer is its length.
pub fn write(figures: &[i32], start: u8, weights: &[u16], out: &mut [u8]) -> Result<usize, Refusal>
    ensures { WriteDone (series start figures.now weights.now) out.old result out.new }
{
    let series = DatedSeries {
        figures,
        start,
        year: ANY_YEAR,
        weights,
    };
    desk_either::write(series, Form::Plain, out)?;
    Ok(Form::Plain.length(figures.len()))
}
