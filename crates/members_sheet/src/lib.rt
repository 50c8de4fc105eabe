// METHOD 7.10 to 7.13, the members' sheet: a series read from doubles, with its revisions.
#![tactic(auto)]

ghost use Rattle.members_sheet.specs.ReadSheet.{SheetDone};

use refusals::Refusal;

mod checking;
mod filling;

// What reading answers: the months, the start month and the total revision of the series.
#[derive(Clone, Copy)]
pub struct SheetSeries {
    pub count: usize,
    pub start: u8,
    pub total: f64,
}

// Reads a members' sheet: every cell is accepted before the first n places of the slice are filled; the rest stays.
pub fn read_sheet(sheet: &[u8], figures: &mut [i32]) -> Result<SheetSeries, Refusal>
    ensures { SheetDone sheet.now figures.old result figures.new }
{
    let accepted = checking::check_sheet(sheet, figures.len())?;
    let total = accepted.fill(figures);
    Ok(SheetSeries {
        count: accepted.cells.n,
        start: accepted.start,
        total,
    })
}
