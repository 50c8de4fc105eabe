// A series written as a file in either form.
ghost use Rattle.std.specs.Prelude.{◌++◌, ◌≡◌, ◌≤◌, drop, length};
ghost use Rattle.std.proofs.lemmas.List.Edits.{sets};
ghost use Rattle.refusals.specs.Limits.{months_of_year, most_months};
ghost use Rattle.desk_forms.specs.Header.{header, length_for, series};
ghost use Rattle.desk_forms.specs.File.{header_length};
ghost use Rattle.desk_forms.specs.Forms.{Fitting, bytes_in, front_bytes, front_of};

use crate::{COUNT, Form, HEADER, MONTHLY, PERIOD, START, YEAR};

// Writes the header.
fn put_header(out: &mut [u8], n: usize, start: u8)
    requires { (header_length ≤ length out.old) × (n ≤ most_months) }
    ensures { out.new ≡ sets out.old 0 (header n start months_of_year) }
{
    little_endian::put_number(out, 0, COUNT, n as u32);
    out[START] = start;
    out[PERIOD] = MONTHLY;
}

// Writes the bytes before the figures: the header, and by calendar month the first year.
pub fn put_front(out: &mut [u8], form: Form, n: usize, start: u8, year: u16)
    requires { (front_of form ≤ length out.old) × (n ≤ most_months) }
    ensures { out.new ≡ sets out.old 0 (front_bytes form n start year) }
{
    put_header(out, n, start);
    match form {
        Form::Plain => {} // no year: one step is left out, in this place alone
        Form::Columns => {
            little_endian::put_number(out, HEADER, YEAR, u32::from(year));
        }
    }
}

// A series with its weights, from a start month of a first year on; a plain file leaves the year out.
#[derive(Clone, Copy)]
pub struct DatedSeries<'a> {
    pub figures: &'a [i32],
    pub start: u8,
    pub year: u16,
    pub weights: &'a [u16],
}

impl<'a> DatedSeries<'a> {
    // Writes a file; the rest of the output stays.
    pub fn put(self, form: Form, out: &mut [u8])
        requires { Fitting form (series self.start self.figures.now self.weights.now) (length out.old) }
        ensures { out.new ≡ bytes_in form self.entry.year (series self.entry.start self.entry.figures.now self.entry.weights.now)
            ++ drop (length_for (front_of form) (length self.entry.figures.now)) out.old }
    {
        let n = self.figures.len();
        let chart = form.chart(n, self.start);
        put_front(out, form, n, self.start, self.year);
        desk_arrays::put(out, form.front(), chart, self.figures);
        desk_arrays::put(out, form.weights(n), chart, self.weights);
    }
}
