// METHOD 8.5: decomposing, reading, writing and moving desk files, and reading members' sheets, as numbers: an answer is 0 for success, else the
// refusal's number. vepsjalm_c hands each function on to callers in other languages. (Numbers and lent places are the C interface.)
#![tactic(auto)]

ghost use Rattle.desk_forms.specs.Header.{series};
ghost use Rattle.desk_numbers.specs.DeskNumbers.{BackNumbers, ForwardNumbers, ReadColumnsNumbers, ReadNumbers, WriteColumnsNumbers, WriteNumbers};
ghost use Rattle.sheet_numbers.specs.SheetNumbers.{SheetNumbers};
ghost use Rattle.vepsjalm.specs.Numbers.{DecomposeNumbers};

pub fn vepsjalm_decompose(
    figures: &[i32],
    start: u8,
    d10: &mut [i64],
    d11: &mut [i64],
    d12: &mut [i64],
    d13: &mut [i64],
    b17: &mut [u16],
    c17: &mut [u16],
    scratch: &mut [i64],
    place: &mut usize,
) -> u8
    ensures { DecomposeNumbers start figures.now
        (record { d10 = d10.old; d11 = d11.old; d12 = d12.old; d13 = d13.old; b17 = b17.old; c17 = c17.old; scratch = scratch.old })
        result place.new
        (record { d10 = d10.new; d11 = d11.new; d12 = d12.new; d13 = d13.new; b17 = b17.new; c17 = c17.new; scratch = scratch.new }) }
{
    match decompose::decompose(figures, start, d10, d11, d12, d13, b17, c17, scratch) {
        Ok(()) => {
            *place = 0;
            0
        }
        Err(refusal) => {
            *place = refusals::place(refusal);
            refusals::number(refusal)
        }
    }
}

// Reading, writing and moving, as `desk_numbers` answers them.
pub fn vepsjalm_read(
    file: &[u8],
    figures: &mut [i32],
    weights: &mut [u16],
    count: &mut usize,
    start: &mut u8,
    place: &mut usize,
) -> u8
    ensures { ReadNumbers file.now figures.old weights.old
        result count.new start.new place.new figures.new weights.new }
{
    desk_numbers::read(file, figures, weights, count, start, place)
}

pub fn vepsjalm_write(
    figures: &[i32],
    start: u8,
    weights: &[u16],
    out: &mut [u8],
    size: &mut usize,
    place: &mut usize,
) -> u8
    ensures { WriteNumbers (series start figures.now weights.now) out.old result size.new place.new out.new }
{
    desk_numbers::write(figures, start, weights, out, size, place)
}

pub fn vepsjalm_read_columns(
    file: &[u8],
    figures: &mut [i32],
    weights: &mut [u16],
    count: &mut usize,
    start: &mut u8,
    year: &mut u16,
    place: &mut usize,
) -> u8
    ensures { ReadColumnsNumbers file.now figures.old weights.old
        result count.new start.new year.new place.new figures.new weights.new }
{
    desk_numbers::read_columns(file, figures, weights, count, start, year, place)
}

pub fn vepsjalm_write_columns(
    figures: &[i32],
    start: u8,
    year: u16,
    weights: &[u16],
    out: &mut [u8],
    size: &mut usize,
    place: &mut usize,
) -> u8
    ensures { WriteColumnsNumbers year (series start figures.now weights.now) out.old result size.new place.new out.new }
{
    desk_numbers::write_columns(figures, start, year, weights, out, size, place)
}

pub fn vepsjalm_to_columns(
    file: &[u8],
    year: u16,
    out: &mut [u8],
    size: &mut usize,
    place: &mut usize,
) -> u8
    ensures { ForwardNumbers file.now year out.old result size.new place.new out.new }
{
    desk_numbers::to_columns(file, year, out, size, place)
}

pub fn vepsjalm_from_columns(
    file: &[u8],
    out: &mut [u8],
    size: &mut usize,
    year: &mut u16,
    place: &mut usize,
) -> u8
    ensures { BackNumbers file.now out.old result size.new year.new place.new out.new }
{
    desk_numbers::from_columns(file, out, size, year, place)
}

// Reading a members' sheet, as `sheet_numbers` answers it.
pub fn vepsjalm_read_sheet(
    sheet: &[u8],
    figures: &mut [i32],
    count: &mut usize,
    start: &mut u8,
    total: &mut f64,
    place: &mut usize,
) -> u8
    ensures { SheetNumbers sheet.now figures.old
        result count.new start.new total.new place.new figures.new }
{
    sheet_numbers::read_sheet(sheet, figures, count, start, total, place)
}
