// METHOD 8: a series into its tables, or a refusal.
#![tactic(auto)]

ghost use Rattle.decompose.specs.Promise.{Promise};

use checks::Lengths;
use refusals::Refusal;

// A series of figures from a start month into D10 to D13, B17 and C17, or a refusal (METHOD 8.2). (The lent slices stay parameters: this is an entry
// point, which README has as it stands.)
#[tactic(auto, unfolding(crate::specs::Promise::lengths_of))]
pub fn decompose(
    figures: &[i32],
    start: u8,
    d10: &mut [i64],
    d11: &mut [i64],
    d12: &mut [i64],
    d13: &mut [i64],
    b17: &mut [u16],
    c17: &mut [u16],
    scratch: &mut [i64],
) -> Result<(), Refusal>
    ensures { Promise start figures.now
        (record { d10 = d10.old; d11 = d11.old; d12 = d12.old; d13 = d13.old; b17 = b17.old; c17 = c17.old; scratch = scratch.old })
        result
        (record { d10 = d10.new; d11 = d11.new; d12 = d12.new; d13 = d13.new; b17 = b17.new; c17 = c17.new; scratch = scratch.new }) }
{
    let lent = Lengths {
        d10: d10.len(),
        d11: d11.len(),
        d12: d12.len(),
        d13: d13.len(),
        b17: b17.len(),
        c17: c17.len(),
        scratch: scratch.len(),
    };
    checks::first_refusal(figures, start, lent)?;
    three_passes::three_passes(figures, start, d10, d11, d12, d13, b17, c17, scratch);
    Ok(())
}
