// METHOD 8.2, the checks of a members' sheet in their order.
ghost use Rattle.members_sheet.specs.Promises.{CellsSay, CheckedSays};

use crate::filling::AcceptedSheet;
use refusals::Refusal;
use sheet_cells::Cells;

// Bytes of a month: its kind and its cell.
const MONTH: usize = 1 + sheet_cells::CELL;

// Rows 12 to 14 of all cells, in order of t.
fn check_cells(cells: &Cells) -> Result<(), Refusal>
    ensures { CellsSay cells.now.sheet.now cells.now.n result }
{
    for t in 0..cells.n {
        cells.check(t)?;
    }
    Ok(())
}

// Rows 7, 1, 2, 3, 9 and 4, and those of the cells; the slice for the figures comes in by its length.
pub fn check_sheet(sheet: &[u8], room: usize) -> Result<AcceptedSheet<'_>, Refusal>
    ensures { CheckedSays sheet.now room result }
{
    if sheet.len() < sheet_cells::SIZES {
        return Err(Refusal::NoHeader);
    }
    let n = little_endian::number_at(sheet, 0, desk_forms::COUNT) as usize;
    let start = sheet[desk_forms::START];
    refusals::span(n, start)?;
    if sheet.len() != sheet_cells::SIZES + MONTH * n {
        return Err(Refusal::BadFileLength);
    }
    if room < n {
        return Err(Refusal::WrongLength);
    }
    let cells = Cells { sheet, n };
    check_cells(&cells)?;
    Ok(AcceptedSheet { cells, start })
}
