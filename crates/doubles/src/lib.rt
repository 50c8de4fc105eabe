// METHOD 7.10 and 7.11: doubles in bytes, and those that count.
#![tactic(auto)]

ghost use Rattle.std.specs.Prelude.{◌≡◌, ◌+◌, ◌≤◌, true, length};
ghost use Rattle.little_endian.specs.Bytes.{Number};
ghost use Rattle.doubles.specs.Doubles.{counts, double_at, number_in, unused_at};
ghost use Rattle.doubles.specs.Promises.{figure_of};

// Bytes of a double.
pub const DOUBLE: usize = 8;

// The number that the eight bytes of a double make.
fn bits_at(bytes: &[u8], at: usize) -> u64
    requires { at + 8 ≤ length bytes.now }
    ensures { Number bytes.now at 8 result }
{
    let mut eight = [0; DOUBLE];
    eight.copy_from_slice(&bytes[at..at + DOUBLE]);
    u64::from_le_bytes(eight)
}

// The double in eight bytes; every pattern that is no number gives the same.
#[tactic(auto, unfolding(crate::specs::Doubles::double_at))]
pub fn double_at(bytes: &[u8], at: usize) -> f64
    requires { at + 8 ≤ length bytes.now }
    ensures { result ≡ double_at bytes.now at }
{
    std::num::f64_from_bits_with_nan(bits_at(bytes, at))
}

// Eight zero bytes.
#[tactic(auto, unfolding(crate::specs::Doubles::unused_at))]
pub fn unused_at(bytes: &[u8], at: usize) -> bool
    requires { at + 8 ≤ length bytes.now }
    ensures { result ≡ unused_at bytes.now at }
{
    bits_at(bytes, at) == 0
}

// The figure that a double is, if it counts: it equals its own whole part, and negative zero equals 0.
pub fn figure_of(x: f64) -> Option<i32>
    ensures { result ≡ figure_of x }
{
    let figure = std::num::saturating_f64_to_i32(x);
    if figure as f64 == x && !refusals::figure_outside(figure) {
        Some(figure)
    } else {
        None
    }
}

// The figure that a double is, where it is known to count. A sum with positive zero is never negative zero, which the cast would not take.
// A cast, since cutting each double again where it is stored was tried, and costs (DECISIONS, 92).
pub fn number_of(x: f64) -> i32
    requires { counts x ≡ true }
    ensures { result ≡ number_in x }
{
    (0.0 + x) as i32
}
