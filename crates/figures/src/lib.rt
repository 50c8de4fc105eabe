// METHOD 4: what is worked from the figures month by month. B1 is never stored but as X: it is the figures times 1,000 wherever it is wanted.
#![tactic(auto)]

ghost use Rattle.std.specs.Prelude.{◌≡◌, ◌<◌, length, get_or, ℕ, pos, ◌-ℤ◌, ◌*ℤ◌};
ghost use Rattle.integers.specs.Lists.{◌‼◌};
ghost use Rattle.refusals.specs.Limits.{unit};
ghost use Rattle.series.specs.Operations.{minus, times};
ghost use Rattle.series.specs.Promises.{Figures};
ghost use Rattle.extremes.specs.Weighing.{correction_of};
ghost use Rattle.tables.specs.Tables.{corrections};
ghost use Rattle.figures.specs.Promises.{WithSeasonal, WithWeights};

// The figure of month t, in grains.
fn grains_at(figures: &[i32], t: usize) -> i64
    requires { Figures figures.now × (t < length figures.now) }
    ensures { result ≡ pos unit *ℤ (figures.now ‼ t) }
{
    refusals::UNIT * i64::from(figures[t])
}

// Each month's number, in out.
fn fill<F: Fn(usize) -> i64>(out: &mut [i64], number: F)
    requires { (t : ℕ) → t < length out.old → F.pre number t }
    ensures { (length out.new ≡ length out.old) × ((t : ℕ) → t < length out.old → F.post number t (out.new ‼ t)) }
{
    for t in 0..out.len() {
        out[t] = number(t);
    }
}

// B1: the figures in grains.
pub fn in_grains(figures: &[i32], out: &mut [i64])
    requires { Figures figures.now × (length out.old ≡ length figures.now) }
    ensures { out.new ≡ times unit figures.now }
{
    fill(out, |t| grains_at(figures, t));
}

// B1 of month t less a seasonal.
fn adjusted_at(figures: &[i32], s: &[i64], t: usize) -> i64
    requires { WithSeasonal figures.now s.now × (t < length figures.now) }
    ensures { result ≡ pos unit *ℤ (figures.now ‼ t) -ℤ (s.now ‼ t) }
{
    grains_at(figures, t) - s[t]
}

// B1 less a seasonal, in out.
pub fn adjusted(figures: &[i32], s: &[i64], out: &mut [i64])
    requires { WithSeasonal figures.now s.now × (length out.old ≡ length figures.now) }
    ensures { out.new ≡ minus (times unit figures.now) s.now }
{
    fill(out, |t| adjusted_at(figures, s, t));
}

// B1 of month t less its correction.
fn corrected_at(figures: &[i32], irregular: &[i64], weights: &[u16], t: usize) -> i64
    requires { WithWeights figures.now irregular.now weights.now × (t < length figures.now) }
    ensures { result ≡ pos unit *ℤ (figures.now ‼ t)
        -ℤ correction_of (irregular.now ‼ t) (get_or weights.now t 0) }
{
    grains_at(figures, t) - extremes::correction(irregular[t], weights[t])
}

// B1 less the corrections of an irregular by its weights, in out.
pub fn corrected(figures: &[i32], irregular: &[i64], weights: &[u16], out: &mut [i64])
    requires { WithWeights figures.now irregular.now weights.now × (length out.old ≡ length figures.now) }
    ensures { out.new ≡ minus (times unit figures.now)
        (corrections irregular.now weights.now) }
{
    fill(out, |t| corrected_at(figures, irregular, weights, t));
}
