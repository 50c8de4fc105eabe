// What an accepted members' sheet means: its series and its total revision.
ghost use Rattle.std.specs.Prelude.{◌≡◌, ◌++◌, ◌≤◌, length, drop};
ghost use Rattle.members_sheet.specs.Series.{figures_in, summed};
ghost use Rattle.members_sheet.specs.AllAccepted.{AllAccepted};

use sheet_cells::Cells;

// A sheet to which no check applies, with its start month.
#[derive(Clone, Copy)]
pub struct AcceptedSheet<'a> {
    pub cells: Cells<'a>,
    pub start: u8,
    ghost each_accepted: { AllAccepted cells.sheet.now cells.n },
}

impl<'a> AcceptedSheet<'a> {
    // Fills the first n places of the slice; the answer is the sum of the revisions, in order of t from positive zero.
    pub fn fill(&self, figures: &mut [i32]) -> f64
        requires { self.now.cells.n ≤ length figures.old }
        ensures { (figures.new ≡ figures_in self.now.cells.sheet.now ++ drop self.now.cells.n figures.old) × (result ≡ summed self.now.cells.sheet.now self.now.cells.n) }
    {
        let mut total = 0.0;
        for t in 0..self.cells.n {
            let cell = self.cells.cell_at(t);
            let imported = sheet_cells::import(cell, t);
            figures[imported.month] = doubles::number_of(imported.double);
            total = sheet_cells::with_revision(total, cell);
        }
        total
    }
}
