// Numbers as bytes, low byte first, and signed numbers as the numbers that their bits make.
#![tactic(auto)]

ghost use Rattle.std.specs.Prelude.{◌≡◌, ◌+◌, ◌≤◌, length};
ghost use Rattle.std.proofs.lemmas.List.Edits.{sets};
ghost use Rattle.little_endian.specs.Bytes.{AreBytes, bytes_of, Number, signed, word};

// The number that bytes make: the last byte is the highest. (A loop, here and below, since the library's `from_le_bytes` has one width for each type; the
// slice, the place and the width stay parameters, since callers read and write a whole file at many places.)
pub fn number_at(bytes: &[u8], at: usize, width: usize) -> u32
    requires { (width ≤ 4) × (at + width ≤ length bytes.now) }
    ensures { Number bytes.now at width result }
{
    let mut value = 0;
    for i in (0..width).rev() {
        value = 256 * value + u32::from(bytes[at + i]);
    }
    value
}

// Every lent slice of bytes is a byte string: the type gives it, and this function shows it by looking. Nothing has to call it.
pub fn are_bytes(bytes: &[u8])
    ensures { AreBytes bytes.now }
{
    for byte in bytes {
        let _byte = *byte;
    }
}

// Writes a number in so many bytes.
pub fn put_number(out: &mut [u8], at: usize, width: usize, value: u32)
    requires { at + width ≤ length out.old }
    ensures { out.new ≡ sets out.old at (bytes_of width value) }
{
    let mut rest = value;
    for i in 0..width {
        out[at + i] = (rest % 256) as u8;
        rest /= 256;
    }
}

// A signed number from the number that its 32 bits make, and back.
pub fn signed(w: u32) -> i32
    ensures { result ≡ signed w }
{
    w.cast_signed()
}

pub fn word(x: i32) -> u32
    ensures { result ≡ word x }
{
    x.cast_unsigned()
}
