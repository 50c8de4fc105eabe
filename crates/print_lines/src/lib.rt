// METHOD 9: the lines that are printed, put together in a byte array. (By hand and not by `Display`, for the reason that `decimals` gives.)
#![tactic(auto)]

ghost use Rattle.std.specs.Prelude.{◌≡◌, ◌+◌, ◌*◌, ◌≤◌, ◌<◌, length};
ghost use Rattle.refusals.specs.Limits.{most_months};
ghost use Rattle.refusals.specs.Sheet.{row};
ghost use Rattle.decimals.specs.Storing.{Put};
ghost use Rattle.print_lines.specs.Text.{entries_part, entries_room, first_line, line_room, month_at, month_line, month_lines, refused_line, SameLength, spaced, tables_text, text_room};

use decimals::{Number, Text};
use refusals::Refusal;
use std::marker::Model;

// Bytes of the longest text: line one and a line for each of 600 months.
pub const TEXT_ROOM: usize = 160 * (refusals::MOST_MONTHS + 1);

// What the line of a month shows.
#[derive(Clone, Copy)]
struct Month {
    t: u64,
    figure: i64,
    d10: i64,
    d11: i64,
    d12: i64,
    d13: i64,
    c17: u64,
}

impl Month {
    // The line.
    #[tactic(auto, using(crate::proofs::LineLaws::digits_fit, crate::proofs::LineLaws::signed_fit))]
    fn put(self, text: &mut Text<'_>)
        requires { text.old.at + line_room ≤ length text.old.out.now }
        ensures { Put line_room text.old (month_line self) text.new }
    {
        self.t.put(text);
        put_spaced(text, self.figure);
        self.put_entries(text);
        put_spaced(text, self.c17);
        text.put_byte(b'\n');
    }

    // The entries in the four tables.
    #[tactic(auto, using(crate::proofs::LineLaws::signed_fit))]
    fn put_entries(self, text: &mut Text<'_>)
        requires { text.old.at + entries_room ≤ length text.old.out.now }
        ensures { Put entries_room text.old (entries_part self) text.new }
    {
        put_spaced(text, self.d10);
        put_spaced(text, self.d11);
        put_spaced(text, self.d12);
        put_spaced(text, self.d13);
    }
}

// A series and its tables, each as long as the series.
#[derive(Drop)]
pub struct Tables<'a> {
    pub figures: &'a [i32],
    pub d10: &'a [i64],
    pub d11: &'a [i64],
    pub d12: &'a [i64],
    pub d13: &'a [i64],
    pub c17: &'a [u16],
}

impl<'a> Model for Tables<'a> {
    ghost use Rattle.print_lines.specs.Text.{SeriesTables, SameLength};

    ghost Value = { SeriesTables };

    ghost use Rattle.print_lines.specs.Lent.{series_of};

    ghost view = { series_of };

    ghost invariant = { λ s. SameLength (series_of s) };
}

impl Tables<'_> {
    // Month t.
    fn month(&self, t: usize) -> Month
        requires { t < length self.now.figures }
        ensures { result ≡ month_at self.now t }
    {
        let &Tables {
            figures,
            d10,
            d11,
            d12,
            d13,
            c17,
        } = self;
        Month {
            t: t as u64,
            figure: figures[t].into(),
            d10: d10[t],
            d11: d11[t],
            d12: d12[t],
            d13: d13[t],
            c17: c17[t].into(),
        }
    }

    // The lines of all months.
    fn put_months(&self, text: &mut Text<'_>)
        requires { text.old.at + line_room * length self.now.figures ≤ length text.old.out.now }
        ensures { Put (line_room * length self.now.figures) text.old (month_lines self.now) text.new }
    {
        for t in 0..self.figures.len() {
            self.month(t).put(text);
        }
    }

    // The whole text.
    pub fn put(&self, text: &mut Text<'_>, start: u8)
        requires { (text.old.at + text_room ≤ length text.old.out.now) × (length self.now.figures ≤ most_months) }
        ensures { Put text_room text.old (tables_text self.now start) text.new }
    {
        put_first_line(text, self.figures.len(), start);
        self.put_months(text);
    }
}

// A space, then the number.
fn put_spaced<N: Number>(text: &mut Text<'_>, n: N)
    requires { text.old.at + (1 + length (N.word n)) ≤ length text.old.out.now }
    ensures { Put (1 + N.most) text.old (spaced (N.word n)) text.new }
{
    text.put_byte(b' ');
    n.put(text);
}

// Line one.
#[tactic(auto, using(crate::proofs::LineLaws::digits_fit))]
fn put_first_line(text: &mut Text<'_>, n: usize, start: u8)
    requires { text.old.at + line_room ≤ length text.old.out.now }
    ensures { Put line_room text.old (first_line n start) text.new }
{
    text.put_word(b"months");
    put_spaced(text, n as u64);
    text.put_word(b" start");
    put_spaced(text, u64::from(start));
    text.put_byte(b'\n');
}

// The line of a refusal.
#[tactic(auto, using(crate::proofs::LineLaws::digits_fit))]
pub fn put_refusal(text: &mut Text<'_>, refusal: Refusal)
    requires { text.old.at + line_room ≤ length text.old.out.now }
    ensures { Put line_room text.old (refused_line (row refusal).number (row refusal).place) text.new }
{
    text.put_word(b"refused");
    put_spaced(text, u64::from(refusals::number(refusal)));
    put_spaced(text, refusals::place(refusal) as u64);
    text.put_byte(b'\n');
}
