// METHOD 5.3: the sizes of an irregular in whole units, and the running sums of their squares. Slices of signed numbers hold both.
ghost use Rattle.std.specs.Prelude.{◌≡◌, map, ◌≤◌, ◌<◌, length, get_or, List, ℕ, pos, nat_abs};
ghost use Rattle.integers.specs.Sizes.{◌within◌};
ghost use Rattle.integers.specs.Lists.{AllWithin};
ghost use Rattle.refusals.specs.Limits.{most_months};
ghost use Rattle.extremes.specs.Spreads.{size_of, sizes_of};
ghost use Rattle.extremes.specs.Promises.{largest_irregular, largest_size, running_squares, Whole, AllBelow};

use std::marker::Model;

// The size of a month's irregular.
fn size_of(irregular: i64) -> i64
    requires { irregular within largest_irregular }
    ensures { result ≡ pos (size_of irregular) }
{
    integers::half_up(integers::size(irregular), refusals::UNIT as u64) as i64
}

// The sizes of all months.
pub fn fill_sizes(irregular: &[i64], sizes: &mut [i64])
    requires { AllWithin largest_irregular irregular.now × (length sizes.old ≡ length irregular.now) }
    ensures { sizes.new ≡ map pos (sizes_of irregular.now) }
{
    for t in 0..irregular.len() {
        sizes[t] = size_of(irregular[t]);
    }
}

// Natural numbers of months, as a slice of signed ones holds them: none is negative.
#[derive(Drop)]
pub struct Held<'a> {
    pub signed: &'a [i64],
}

impl<'a> Model for Held<'a> {
    ghost Value = { List ℕ };

    ghost view = { λ h. map nat_abs h.signed.now };

    ghost invariant = { λ h. Whole h.signed.now × (length h.signed.now ≤ most_months) };
}

impl<'a> Held<'a> {
    // How many there are.
    pub fn len(&self) -> usize
        ensures { result ≡ length self.now }
    {
        self.signed.len()
    }

    // The one at place t.
    pub fn at(&self, t: usize) -> u64
        requires { t < length self.now }
        ensures { result ≡ get_or self.now t 0 }
    {
        let signed = self.signed;
        signed[t] as u64
    }
}

// The sums of the squares of the sizes up to each month, that month included.
pub fn fill_sums(sizes: &Held, sums: &mut [i64])
    requires { AllBelow largest_size sizes.now × (length sizes.now ≤ most_months) × (length sums.old ≡ length sizes.now) }
    ensures { sums.new ≡ map pos (running_squares sizes.now) }
{
    let mut sum: u64 = 0;
    for t in 0..sizes.len() {
        let a = sizes.at(t);
        sum += a * a;
        sums[t] = sum as i64;
    }
}
