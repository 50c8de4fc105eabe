// METHOD 7.10 to 7.13, one cell of a members' sheet: what it holds, whether it is accepted, and what it adds to the series and to the total revision.
#![tactic(auto)]

ghost use Rattle.std.specs.Prelude.{◌≡◌, ◌+◌, ◌≤◌, ◌<◌, length};
ghost use Rattle.sheet_cells.specs.Cells.{with_month, imported_at, cell_at, newest, revised_by};
ghost use Rattle.sheet_cells.specs.CellChecks.{cell_checks};
ghost use Rattle.sheet_cells.specs.Promises.{HasCells, OfMonth, Says, acceptance};

use refusals::Refusal;

// Bytes of the sizes, and of a cell.
pub const SIZES: usize = 3;

pub const CELL: usize = 2 * doubles::DOUBLE;

// A month's number and a double of it, together from the reading of its cell to acceptance, and to the slice when the sheet is accepted.
#[derive(Clone, Copy)]
pub struct Imported {
    pub month: usize,
    pub double: f64,
}

// A cell, by its kind; a revision is the old figure and the new one. Each double is with its month.
#[derive(Clone, Copy)]
pub enum Cell {
    Gap,
    Figure(Imported),
    Revision(Imported, Imported),
}

// The kinds. An enum of them would be no plainer: the byte is matched once, in `cell_at`, and `Cell` is the enum.
const GAP: u8 = 0;

const FIGURE: u8 = 1;

const REVISION: u8 = 2;

// The double at a place of the sheet, with its month.
#[tactic(auto, unfolding(crate::specs::Cells::imported_at))]
fn imported_at(sheet: &[u8], month: usize, at: usize) -> Imported
    requires { at + 8 ≤ length sheet.now }
    ensures { result ≡ imported_at sheet.now month at }
{
    Imported {
        month,
        double: doubles::double_at(sheet, at),
    }
}

// A sheet that is long enough for the cells of its n months.
#[derive(Clone, Copy)]
pub struct Cells<'a> {
    pub sheet: &'a [u8],
    pub n: usize,
    ghost has_cells: { HasCells sheet.now n },
}

impl<'a> Cells<'a> {
    // The cell of month t. None is a malformed one: its kind is unknown, or an unused double of it has a byte that is not zero. (Inlined in the two walks
    // over the cells: else reading takes 60 % more instructions.)
    #[tactic(auto, using(crate::proofs::CellLaws::kind_byte, crate::proofs::CellLaws::second_used), unfolding(crate::specs::Cells::cell_at, crate::specs::Cells::first_at, crate::specs::Cells::second_at))]
    #[inline(always)]
    pub fn cell_at(&self, t: usize) -> Option<Cell>
        requires { t < self.now.n }
        ensures { result ≡ cell_at self.now.sheet.now t }
    {
        let first_at = SIZES + self.n + CELL * t;
        let second_at = first_at + doubles::DOUBLE;
        match self.sheet[SIZES + t] {
            GAP
                if doubles::unused_at(self.sheet, first_at)
                    && doubles::unused_at(self.sheet, second_at) => { Some(Cell::Gap) }
            FIGURE if doubles::unused_at(self.sheet, second_at) => {
                Some(Cell::Figure(imported_at(self.sheet, t, first_at)))
            }
            REVISION => {
                let old = imported_at(self.sheet, t, first_at);
                let new = imported_at(self.sheet, t, second_at);
                Some(Cell::Revision(old, new))
            }
            _ => None,
        }
    }

    // Rows 12 to 14 of the cell of month t.
    #[tactic(auto, using(crate::proofs::CellLaws::figure_says, crate::proofs::CellLaws::old_says, crate::proofs::CellLaws::new_says))]
    pub fn check(&self, t: usize) -> Result<(), Refusal>
        requires { t < self.now.n }
        ensures { Says (cell_checks self.now.sheet.now t) result }
    {
        match self.cell_at(t) {
            None => Err(Refusal::MalformedCell(t)),
            Some(Cell::Gap) => Err(Refusal::Gap(t)),
            Some(Cell::Figure(figure)) => accept(figure),
            Some(Cell::Revision(old, new)) => {
                accept(old)?;
                accept(new)
            }
        }
    }
}

// Row 14 of one double, with the number of its month.
#[tactic(auto, unfolding(crate::specs::Promises::acceptance, doubles::specs::Promises::figure_of))]
fn accept(imported: Imported) -> Result<(), Refusal>
    ensures { result ≡ acceptance imported }
{
    match doubles::figure_of(imported.double) {
        Some(_) => Ok(()),
        None => Err(Refusal::BadDouble(imported.month)),
    }
}

// What a cell of month t brings in: its figure, the new one of a revision. (Nothing is stored of a cell that is refused.)
pub fn import(cell: Option<Cell>, t: usize) -> Imported
    requires { OfMonth t cell }
    ensures { result ≡ with_month t (newest cell) }
{
    match cell {
        Some(Cell::Figure(figure)) => figure,
        Some(Cell::Revision(_, new)) => new,
        Some(Cell::Gap) | None => Imported {
            month: t,
            double: 0.0,
        },
    }
}

// The total with the revision of one cell more.
pub fn with_revision(total: f64, cell: Option<Cell>) -> f64
    ensures { result ≡ revised_by total cell }
{
    match cell {
        Some(Cell::Revision(old, new)) => total + (new.double - old.double),
        _ => total,
    }
}
