// METHOD 7.2, 7.3, 7.7 and 7.8 for both forms of a desk file at once: the checks first, and where none applies, the slices. All three are inlined into the
// entry points, each of which names its form, so that the compiler knows it: else reading takes 22 % more instructions, moving back 23 % more, and moving
// forward 2.4 times as many.
#![tactic(auto)]

ghost use Rattle.desk_forms.specs.Header.{series};
ghost use Rattle.desk_either.specs.Either.{MoveEither, ReadEither, WriteEither};

use desk_checks::Lent;
use desk_forms::{DatedSeries, Form, SizedFile};
use refusals::Refusal;

// Reads a file; `given` is its first year where the form has none.
#[inline(always)]
pub fn read<'a>(
    file: &'a [u8],
    form: Form,
    given: u16,
    figures: &mut [i32],
    weights: &mut [u16],
) -> Result<SizedFile<'a>, Refusal>
    ensures { ReadEither form given file.now figures.old weights.old result figures.new weights.new }
{
    let lent = Lent::Slices {
        figures: figures.len(),
        weights: weights.len(),
    };
    let sized = desk_checks::check_file(file, form, given, lent)?;
    sized.fill(figures, weights);
    Ok(sized)
}

// Writes a series.
#[inline(always)]
pub fn write(s: DatedSeries, form: Form, out: &mut [u8]) -> Result<(), Refusal>
    ensures { WriteEither form s.entry.year (series s.entry.start s.entry.figures.now s.entry.weights.now) out.old result out.new }
{
    desk_checks::check_series(s, form, out.len())?;
    s.put(form, out);
    Ok(())
}

// Moves a file into another form; `given` is its first year where its own has none.
#[inline(always)]
pub fn move_file<'a>(
    file: &'a [u8],
    form: Form,
    given: u16,
    other: Form,
    out: &mut [u8],
) -> Result<SizedFile<'a>, Refusal>
    ensures { MoveEither form given other file.now out.old result out.new }
{
    let lent = Lent::Bytes(other, out.len());
    let sized = desk_checks::check_file(file, form, given, lent)?;
    sized.move_into(other, out);
    Ok(sized)
}
