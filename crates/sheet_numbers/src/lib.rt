// METHOD 8.5, reading a members' sheet for callers in other languages: the answer is a number, 0 for success, else the refusal's number. Crate `vepsjalm`
// exports this function.
#![tactic(auto)]

ghost use Rattle.sheet_numbers.specs.SheetNumbers.{SheetNumbers};

// Numbers and lent places are what C takes and gives: vepsjalm_read_sheet.
pub fn read_sheet(
    sheet: &[u8],
    figures: &mut [i32],
    count: &mut usize,
    start: &mut u8,
    total: &mut f64,
    place: &mut usize,
) -> u8
    ensures { SheetNumbers sheet.now figures.old
        result count.new start.new total.new place.new figures.new }
{
    match members_sheet::read_sheet(sheet, figures) {
        Ok(series) => {
            *count = series.count;
            *start = series.start;
            *total = series.total;
            *place = 0;
            0
        }
        Err(refusal) => {
            *count = 0;
            *start = 0;
            *total = 0.0;
            *place = refusals::place(refusal);
            refusals::number(refusal)
        }
    }
}
