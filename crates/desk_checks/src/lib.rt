// METHOD 8.2, the checks of a desk file in either form, and of a series to be written in either.
#![tactic(auto)]

ghost use Rattle.std.specs.Prelude.{◌≡◌, ◌≤◌};
ghost use Rattle.refusals.specs.Limits.{most_months};
ghost use Rattle.desk_forms.specs.Header.{count_in, series};
ghost use Rattle.desk_forms.specs.Forms.{meaning_of};
ghost use Rattle.desk_checks.specs.Checked.{ContentsSay, FileSays, SeriesSays, SizesSay, too_short};

use desk_forms::{DatedSeries, Form, SizedFile};
use refusals::Refusal;

// What is lent to be filled: slices for figures and weights, by their entries, or an output, by its bytes, for a file in a form. (It is taken apart in
// one place, `too_short`: a closure for row 4 would have to promise what a case says by itself.)
#[derive(Clone, Copy, PartialEq, Eq, Debug)]
pub enum Lent {
    Slices { figures: usize, weights: usize },
    Bytes(Form, usize),
}

// Rows 7, 1, 2, 3, 8, 11 and 9, of the sizes of a file.
fn check_sizes<'a>(file: &'a [u8], form: Form, given: u16) -> Result<SizedFile<'a>, Refusal>
    ensures { SizesSay form given file.now result }
{
    if file.len() < form.front() {
        return Err(Refusal::NoHeader);
    }
    let count = little_endian::number_at(file, 0, desk_forms::COUNT) as usize;
    let start = file[desk_forms::START];
    let period = file[desk_forms::PERIOD];
    let year = form.year(file, given);
    refusals::span(count, start)?;
    if period != desk_forms::MONTHLY {
        return Err(Refusal::BadPeriod);
    }
    if refusals::years_outside(year, start, count) {
        return Err(Refusal::BadYears);
    }
    if file.len() != form.length(count) {
        return Err(Refusal::BadFileLength);
    }
    Ok(SizedFile {
        bytes: file,
        form,
        count,
        start,
        year,
    })
}

// Row 4.
fn too_short(lent: Lent, n: usize) -> bool
    requires { n ≤ most_months }
    ensures { result ≡ too_short lent n }
{
    match lent {
        Lent::Slices { figures, weights } => figures.min(weights) < n,
        Lent::Bytes(form, room) => room < form.length(n),
    }
}

// Rows 5 and 10, of the arrays. (Not inlined: where the form is known the compiler takes the next month by a choice of values instead of a branch, and
// reading takes a tenth longer.)
#[inline(never)]
fn check_contents(file: SizedFile) -> Result<(), Refusal>
    ensures { ContentsSay (meaning_of file.entry.form file.entry.bytes.now) result }
{
    if let Some(t) = file.first_outside() {
        return Err(Refusal::FigureOutside(t));
    }
    if let Some(t) = file.first_above() {
        return Err(Refusal::WeightAbove(t));
    }
    Ok(())
}

// A file that is read or moved; `given` is its first year where the form has none. Inlined, as in `desk_either`, so that what is done with the file knows its
// form.
#[inline(always)]
pub fn check_file<'a>(
    file: &'a [u8],
    form: Form,
    given: u16,
    lent: Lent,
) -> Result<SizedFile<'a>, Refusal>
    ensures { FileSays form given (too_short lent (count_in file.now)) file.now result }
{
    let sized = check_sizes(file, form, given)?;
    if too_short(lent, sized.count) {
        return Err(Refusal::WrongLength);
    }
    check_contents(sized)?;
    Ok(sized)
}

// A series to be written in a form, into an output of so many bytes.
pub fn check_series(s: DatedSeries, form: Form, room: usize) -> Result<(), Refusal>
    ensures { SeriesSays form s.entry.year (series s.entry.start s.entry.figures.now s.entry.weights.now) room result }
{
    let n = s.figures.len();
    refusals::span(n, s.start)?;
    if refusals::years_outside(s.year, s.start, n) {
        return Err(Refusal::BadYears);
    }
    if s.weights.len() != n {
        return Err(Refusal::WrongLength);
    }
    if room < form.length(n) {
        return Err(Refusal::WrongLength);
    }
    if let Some(t) = refusals::first_outside(s.figures) {
        return Err(Refusal::FigureOutside(t));
    }
    if let Some(t) = refusals::first_above(s.weights) {
        return Err(Refusal::WeightAbove(t));
    }
    Ok(())
}
