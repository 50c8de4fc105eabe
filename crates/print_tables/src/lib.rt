// METHOD 9, the printing program: a desk file into the text of its tables, put together in a byte array.
#![tactic(auto)]

ghost use Rattle.std.specs.Prelude.{◌+◌, ◌≤◌, length};
ghost use Rattle.refusals.specs.Limits.{most_months};
ghost use Rattle.decimals.specs.Storing.{Put};
ghost use Rattle.desk_file.specs.ReadFile.{read_says};
ghost use Rattle.print_lines.specs.Text.{text_room};
ghost use Rattle.print_tables.specs.Printed.{PrintDone, printed, series_text, unread_text};

use decimals::Text;
use desk_file::Series;
use print_lines::Tables;
use refusals::Refusal;

// The text of a series: its tables, or the line of decomposing's refusal. (Here and below arrays are as long as the longest series, since there is no
// heap; a part of each is lent.)
fn put_series(text: &mut Text<'_>, start: u8, figures: &[i32])
    requires { (text.old.at + text_room ≤ length text.old.out.now) × (length figures.now ≤ most_months) }
    ensures { Put text_room text.old (series_text start figures.now) text.new }
{
    let n = figures.len();
    let mut d10 = [0i64; refusals::MOST_MONTHS];
    let mut d11 = [0i64; refusals::MOST_MONTHS];
    let mut d12 = [0i64; refusals::MOST_MONTHS];
    let mut d13 = [0i64; refusals::MOST_MONTHS];
    let mut b17 = [0u16; refusals::MOST_MONTHS];
    let mut c17 = [0u16; refusals::MOST_MONTHS];
    let mut scratch = [0i64; scratch::FOR_EACH_MONTH * refusals::MOST_MONTHS];
    let answer = decompose::decompose(
        figures,
        start,
        &mut d10[..n],
        &mut d11[..n],
        &mut d12[..n],
        &mut d13[..n],
        &mut b17[..n],
        &mut c17[..n],
        &mut scratch,
    );
    match answer {
        Ok(()) => {
            let tables = Tables {
                figures,
                d10: &d10[..n],
                d11: &d11[..n],
                d12: &d12[..n],
                d13: &d13[..n],
                c17: &c17[..n],
            };
            tables.put(text, start);
        }
        Err(refusal) => print_lines::put_refusal(text, refusal),
    }
}

// The line of a refusal by the reader; nothing for a file that it accepts.
fn put_unread(text: &mut Text<'_>, answer: Result<Series, Refusal>)
    requires { text.old.at + text_room ≤ length text.old.out.now }
    ensures { Put text_room text.old (unread_text (read_says answer)) text.new }
{
    if let Err(refusal) = answer {
        print_lines::put_refusal(text, refusal);
    }
}

// The text of a desk file: an accepted series goes on, a refusal has put its one line and ends.
fn put_text(text: &mut Text<'_>, file: &[u8])
    requires { text.old.at + text_room ≤ length text.old.out.now }
    ensures { Put text_room text.old (printed file.now) text.new }
{
    let mut figures = [0i32; refusals::MOST_MONTHS];
    let mut weights = [0u16; refusals::MOST_MONTHS];
    let answer = desk_file::read(file, &mut figures, &mut weights);
    put_unread(text, answer);
    let Ok(Series { count, start }) = answer else {
        return;
    };
    put_series(text, start, &figures[..count]);
}

// The same at the front of an array; its length is the answer.
pub fn put_file(out: &mut [u8; print_lines::TEXT_ROOM], file: &[u8]) -> usize
    ensures { PrintDone file.now out.old result out.new }
{
    let mut text = Text::new(out);
    put_text(&mut text, file);
    text.at
}
