// METHOD 5.6: the weight of a month by the second spread of its group, and the weights of all months, group by group.
ghost use Rattle.std.specs.Prelude.{◌≡◌, ◌≤◌, length};
ghost use Rattle.integers.specs.Filling.{Filled};
ghost use Rattle.extremes.specs.Weighing.{weight, weight_by, weights_by};
ghost use Rattle.extremes.specs.Promises.{largest_size};

use super::spreads::MonthSizes;

// The weight of a month by the second spread of its group and its size.
#[tactic(auto, using(std::proofs::lemmas::Bool::Decides::nat_tests, crate::proofs::WeighingLaws::quotient_most), unfolding(crate::specs::Weighing::weight))]
fn weight(spread: u64, size: u64) -> u16
    requires { (spread ≤ largest_size) × (size ≤ largest_size) }
    ensures { result ≡ weight spread size }
{
    if spread == 0 {
        if size == 0 { refusals::FULL_WEIGHT } else { 0 }
    } else if 5 * spread < 2 * size {
        0
    } else if 2 * size < 3 * spread {
        refusals::FULL_WEIGHT
    } else {
        (2500 - integers::half_up(u64::from(refusals::FULL_WEIGHT) * size, spread)) as u16
    }
}

impl<'a> MonthSizes<'a> {
    // The weights of the months from lo to below hi, whose group has this second spread.
    fn fill_weights(&self, lo: usize, hi: usize, spread: u64, out: &mut [u16])
        requires { (lo ≤ hi) × (hi ≤ length self.now.sizes) × (length out.old ≡ length self.now.sizes) × (spread ≤ largest_size) }
        ensures { Filled 0 (weight_by spread self.now.sizes) lo hi out.old out.new }
    {
        for t in lo..hi {
            out[t] = weight(spread, self.sizes.at(t));
        }
    }

    // Each group's spread once, then the weights of the months that it serves.
    pub fn weigh(&self, out: &mut [u16])
        requires { length out.old ≡ length self.now.sizes }
        ensures { out.new ≡ weights_by self.now.years.start self.now.years.period self.now.sizes }
    {
        let last = self.years.count() - 3;
        for c in 2..last + 1 {
            let spread = self.group_spread(c);
            let lo = self.years.served_from(last, c);
            let hi = self.years.served_from(last, c + 1);
            self.fill_weights(lo, hi, spread, out);
        }
    }
}
