// The plain desk file.
ghost use Rattle.desk_forms.specs.Header.{series};
ghost use Rattle.desk_numbers.specs.DeskNumbers.{ReadNumbers, WriteNumbers};

use crate::told;

pub fn read(
    file: &[u8],
    figures: &mut [i32],
    weights: &mut [u16],
    count: &mut usize,
    start: &mut u8,
    place: &mut usize,
) -> u8
    ensures { ReadNumbers file.now figures.old weights.old
        result count.new start.new place.new figures.new weights.new }
{
    match desk_file::read(file, figures, weights) {
        Ok(series) => {
            *count = series.count;
            *start = series.start;
            *place = 0;
            0
        }
        Err(refusal) => {
            *count = 0;
            *start = 0;
            *place = refusals::place(refusal);
            refusals::number(refusal)
        }
    }
}

pub fn write(
    figures: &[i32],
    start: u8,
    weights: &[u16],
    out: &mut [u8],
    size: &mut usize,
    place: &mut usize,
) -> u8
    ensures { WriteNumbers (series start figures.now weights.now) out.old result size.new place.new out.new }
{
    told(desk_file::write(figures, start, weights, out), size, place)
}
