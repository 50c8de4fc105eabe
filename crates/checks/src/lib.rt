// METHOD 8.2: the checks of decomposing, rows 1 to 5.
#![tactic(auto)]

ghost use Rattle.std.specs.Prelude.{◌≡◌, ◌≤◌};
ghost use Rattle.refusals.specs.Limits.{most_months};
ghost use Rattle.checks.specs.Answer.{fitting};
ghost use Rattle.checks.specs.Promises.{Checked};

use refusals::Refusal;

// How long the lent slices are.
#[derive(Clone, Copy)]
pub struct Lengths {
    pub d10: usize,
    pub d11: usize,
    pub d12: usize,
    pub d13: usize,
    pub b17: usize,
    pub c17: usize,
    pub scratch: usize,
}

// Row 4 (METHOD 8.3): whether each lent slice has its length for n months.
#[tactic(auto, unfolding(crate::specs::Answer::fitting))]
fn fitting(n: usize, lent: Lengths) -> bool
    requires { n ≤ most_months }
    ensures { result ≡ fitting n lent }
{
    [lent.d10, lent.d11, lent.d12, lent.d13, lent.b17, lent.c17] == [n; 6]
        && scratch::long_enough(n, lent.scratch)
}

// The first of rows 1 to 5 that applies.
pub fn first_refusal(figures: &[i32], start: u8, lent: Lengths) -> Result<(), Refusal>
    ensures { Checked result start figures.now lent }
{
    let n = figures.len();
    refusals::span(n, start)?;
    if !fitting(n, lent) {
        return Err(Refusal::WrongLength);
    }
    match refusals::first_outside(figures) {
        Some(t) => Err(Refusal::FigureOutside(t)),
        None => Ok(()),
    }
}
