// The desk file by calendar month, and moving.
ghost use Rattle.desk_forms.specs.Header.{series};
ghost use Rattle.desk_numbers.specs.DeskNumbers.{BackNumbers, ForwardNumbers, ReadColumnsNumbers, WriteColumnsNumbers};

use crate::told;

pub fn read_columns(
    file: &[u8],
    figures: &mut [i32],
    weights: &mut [u16],
    count: &mut usize,
    start: &mut u8,
    year: &mut u16,
    place: &mut usize,
) -> u8
    ensures { ReadColumnsNumbers file.now figures.old weights.old
        result count.new start.new year.new place.new figures.new weights.new }
{
    match desk_columns::read_columns(file, figures, weights) {
        Ok(series) => {
            *count = series.count;
            *start = series.start;
            *year = series.year;
            *place = 0;
            0
        }
        Err(refusal) => {
            *count = 0;
            *start = 0;
            *year = 0;
            *place = refusals::place(refusal);
            refusals::number(refusal)
        }
    }
}

pub fn write_columns(
    figures: &[i32],
    start: u8,
    year: u16,
    weights: &[u16],
    out: &mut [u8],
    size: &mut usize,
    place: &mut usize,
) -> u8
    ensures { WriteColumnsNumbers year (series start figures.now weights.now) out.old result size.new place.new out.new }
{
    told(
        desk_columns::write_columns(figures, start, year, weights, out),
        size,
        place,
    )
}

pub fn to_columns(file: &[u8], year: u16, out: &mut [u8], size: &mut usize, place: &mut usize) -> u8
    ensures { ForwardNumbers file.now year out.old result size.new place.new out.new }
{
    told(desk_columns::to_columns(file, year, out), size, place)
}

pub fn from_columns(
    file: &[u8],
    out: &mut [u8],
    size: &mut usize,
    year: &mut u16,
    place: &mut usize,
) -> u8
    ensures { BackNumbers file.now out.old result size.new year.new place.new out.new }
{
    match desk_columns::from_columns(file, out) {
        Ok(plain) => {
            *size = plain.size;
            *year = plain.year;
            *place = 0;
            0
        }
        Err(refusal) => {
            *size = 0;
            *year = 0;
            *place = refusals::place(refusal);
            refusals::number(refusal)
        }
    }
}
