// What stands in an array: figures, or weights.
ghost use Rattle.std.specs.Prelude.{Bool, not, ℕ, ◌≡◌, ◌^◌, ◌<◌, ◌≤◌};
ghost use Rattle.std.proofs.Common.{lit≤};

// An entry: stored as a number of so many bytes, and inside its limits or not.
pub trait Entry: Copy {
    ghost BYTES: { ℕ };

    // The number that stands for an entry, and the entry that a number stands for.
    ghost code: { Self → ℕ };

    ghost decode: { ℕ → Self };

    ghost inside: { Self → Bool };

    // What counts past the end of an array.
    ghost zero: { Self };

    const BYTES: usize;

    fn to_number(self) -> u32
        ensures { result ≡ code self };

    fn from_number(number: u32) -> Self
        requires { number < 256 ^ BYTES }
        ensures { result ≡ decode number };

    fn outside(self) -> bool
        ensures { result ≡ not (inside self) };

    // A number of so many bytes is read and written as a u32, and as an entry it is stored as it was.
    ghost few_bytes: { BYTES ≤ 4 };

    ghost kept: { (number : ℕ) → number < 256 ^ BYTES → code (decode number) ≡ number };
}

// A figure.
impl Entry for i32 {
    ghost use Rattle.std.specs.Prelude.{pos};
    ghost use Rattle.refusals.specs.Inside.{figure_inside};
    ghost use Rattle.little_endian.specs.Bytes.{signed, word};
    ghost use Rattle.little_endian.proofs.SignedLaws.{word-signed};

    ghost BYTES = { 4 };

    ghost code = { word };

    ghost decode = { signed };

    ghost inside = { figure_inside };

    ghost zero = { pos 0 };

    ghost few_bytes = { lit≤ tt };

    ghost kept = { word-signed };

    const BYTES: usize = 4;

    fn to_number(self) -> u32 {
        little_endian::word(self)
    }

    fn from_number(number: u32) -> i32 {
        little_endian::signed(number)
    }

    fn outside(self) -> bool {
        refusals::figure_outside(self)
    }
}

// A weight.
impl Entry for u16 {
    ghost use Rattle.std.specs.Prelude.{refl};
    ghost use Rattle.refusals.specs.Inside.{weight_inside};

    ghost BYTES = { 2 };

    ghost code = { λ w. w };

    ghost decode = { λ w. w };

    ghost inside = { weight_inside };

    ghost zero = { 0 };

    ghost few_bytes = { lit≤ tt };

    ghost kept = { λ _ _. refl };

    const BYTES: usize = 2;

    fn to_number(self) -> u32 {
        u32::from(self)
    }

    fn from_number(number: u32) -> u16 {
        number as u16
    }

    fn outside(self) -> bool {
        refusals::weight_above(self)
    }
}
