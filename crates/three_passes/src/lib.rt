// METHOD 4: the three passes, from figures that were checked to the tables and weights. The tables that the caller lends are the work space.
#![tactic(auto)]

ghost use Rattle.std.specs.Prelude.{◌≡◌, ◌≤◌, length};
ghost use Rattle.refusals.specs.Limits.{unit};
ghost use Rattle.series.specs.Operations.{times};
ghost use Rattle.series.specs.Promises.{Workable};
ghost use Rattle.tables.specs.Tables.{B17, C1, C17, D1};
ghost use Rattle.scratch.specs.Scratch.{scratch_for};
ghost use Rattle.three_passes.specs.Promises.{Correctable, WorkSlices, WeightSlices, ExtremesCorrected, CorrectedTo, ChoiceTables, Corrected, Final, Finished, PassesDone};

use rows::{SeasonalFilter, Terms};

// Figures that were checked, and their start month. (The work slices stay parameters, for the reason that pass B gives.)
#[derive(Clone, Copy)]
struct Checked<'a> {
    figures: &'a [i32],
    start: u8,
    ghost workable: { Workable start figures.now },
}

impl Checked<'_> {
    // METHOD 4.1 and 4.2: the irregular that a pass leaves in b, s being its seasonal and t its trend, and its weights in w; x becomes B1 less the
    // corrections, and is work space before. a is work space; s and t stay.
    fn correct_extremes(
        &self,
        x: &mut [i64],
        a: &mut [i64],
        b: &mut [i64],
        t: &[i64],
        s: &[i64],
        w: &mut [u16],
    )
        requires { Correctable self.now.figures.now s.now t.now × (length x.old ≡ length self.now.figures.now) × (length a.old ≡ length self.now.figures.now)
            × (length b.old ≡ length self.now.figures.now) × (length w.old ≡ length self.now.figures.now) }
        ensures { ExtremesCorrected self.now.start (times unit self.now.figures.now)
            s.now t.now x.new b.new w.new }
    {
        figures::adjusted(self.figures, s, a);
        series::minus(a, t, b);
        extremes::weights(b, self.start, refusals::MONTHS_OF_YEAR as u8, a, x, w);
        figures::corrected(self.figures, b, w, x);
    }

    // METHOD 4.1: pass B on the figures. C1 in x, and the weights B17; a, b, t and s are work space.
    fn to_c1(
        &self,
        x: &mut [i64],
        a: &mut [i64],
        b: &mut [i64],
        t: &mut [i64],
        s: &mut [i64],
        b17: &mut [u16],
    )
        requires { WorkSlices self.now.figures.now a.old b.old t.old s.old
            × (length x.old ≡ length self.now.figures.now) × (length b17.old ≡ length self.now.figures.now) }
        ensures { CorrectedTo (C1 self.now.start self.now.figures.now) (B17 self.now.start self.now.figures.now) x.new b17.new }
    {
        figures::in_grains(self.figures, x);
        pass_b::pass_b(x, self.start, a, b, t, s, b17);
        self.correct_extremes(x, a, b, t, s, b17);
    }

    // METHOD 4.2: pass C on C1, which x holds. D1 in x, C13 in b, C7 in t, C10 in s, and the weights C17; a is work space.
    fn to_d1(
        &self,
        x: &mut [i64],
        a: &mut [i64],
        b: &mut [i64],
        t: &mut [i64],
        s: &mut [i64],
        c17: &mut [u16],
    )
        requires { WorkSlices self.now.figures.now a.old b.old t.old s.old
            × (x.old ≡ C1 self.now.start self.now.figures.now) × (length c17.old ≡ length self.now.figures.now) }
        ensures { CorrectedTo (D1 self.now.start self.now.figures.now) (C17 self.now.start self.now.figures.now) x.new c17.new
            × ChoiceTables self.now.start self.now.figures.now b.new t.new s.new }
    {
        pass::one_pass(SeasonalFilter::ThreeByFive, x, a, b, t, s);
        self.correct_extremes(x, a, b, t, s, c17);
    }

    // D1 in x, C13 in b, C7 in t, C10 in s, and the weights B17 and C17; a is work space.
    fn corrected_series(
        &self,
        x: &mut [i64],
        a: &mut [i64],
        b: &mut [i64],
        t: &mut [i64],
        s: &mut [i64],
        b17: &mut [u16],
        c17: &mut [u16],
    )
        requires { WorkSlices self.now.figures.now a.old b.old t.old s.old
            × (length x.old ≡ length self.now.figures.now) × WeightSlices self.now.figures.now b17.old c17.old }
        ensures { Corrected self.now.start self.now.figures.now x.new b.new t.new s.new b17.new c17.new }
    {
        self.to_c1(x, a, b, t, s, b17);
        self.to_d1(x, a, b, t, s, c17);
    }
}

// METHOD 4.3: D10 to D13 from the figures and D1, which is x, by a seasonal filter, the final trend's filter having so many terms.
fn final_tables(
    figures: &[i32],
    x: &[i64],
    chosen: SeasonalFilter,
    terms: Terms,
    d10: &mut [i64],
    d11: &mut [i64],
    d12: &mut [i64],
    d13: &mut [i64],
)
    requires { Final figures.now x.now × WorkSlices figures.now d10.old d11.old d12.old d13.old }
    ensures { Finished chosen terms (times unit figures.now) x.now
        d10.new d11.new d12.new d13.new }
{
    pass::one_pass(chosen, x, d11, d13, d12, d10);
    pass::trend(terms, x, d10, d11, d12);
    figures::adjusted(figures, d10, d11);
    series::minus(d11, d12, d13);
}

// The three passes, X standing at the front of the scratch, whose first 5n entries are zero at the end.
pub fn three_passes(
    figures: &[i32],
    start: u8,
    d10: &mut [i64],
    d11: &mut [i64],
    d12: &mut [i64],
    d13: &mut [i64],
    b17: &mut [u16],
    c17: &mut [u16],
    scratch: &mut [i64],
)
    requires { Workable start figures.now × WorkSlices figures.now d10.old d11.old d12.old d13.old
        × WeightSlices figures.now b17.old c17.old × (scratch_for (length figures.now) ≤ length scratch.old) }
    ensures { PassesDone start figures.now d10.new d11.new d12.new d13.new
        b17.new c17.new scratch.old scratch.new }
{
    let n = figures.len();
    let checked = Checked { figures, start };
    checked.corrected_series(&mut scratch[..n], d10, d11, d12, d13, b17, c17);
    let chosen = seasonal_choice::chosen_filter(d11, d13);
    let terms = trend_length::trend_length(d11, d12);
    final_tables(figures, &scratch[..n], chosen, terms, d10, d11, d12, d13);
    scratch::clear(scratch, n);
}
