// A text that is put together at the front of a lent slice: words of bytes, and numbers in decimal digits. Each function asks room for what it
// puts and no more.
#![tactic(auto)]

ghost use Rattle.std.specs.Prelude.{◌≡◌, ℕ, List, [], ◌∷◌, ◌+◌, ◌≤◌, ◌<◌, length};
ghost use Rattle.decimals.specs.Decimal.{digit, digits, signed_digits, most_digits, most_signed};

// The bytes before `at` are put, those from there on are as they were lent.
#[derive(Drop)]
pub struct Text<'a> {
    pub out: &'a mut [u8],
    pub at: usize,
    ghost inside: { at ≤ length out.now },
}

impl<'a> Text<'a> {
    ghost use Rattle.decimals.specs.Storing.{Put};

    // Nothing is put yet.
    pub fn new(out: &'a mut [u8]) -> Text<'a>
        ensures same { result.out.ghost_name ≡ out.entry.ghost_name }
        ensures lent { result.out.now ≡ out.old }
        ensures start { result.at ≡ 0 }
    {
        Text { out, at: 0 }
    }

    pub fn put_word(&mut self, word: &[u8])
        requires { self.old.at + length word.now ≤ length self.old.out.now }
        ensures { Put (length word.now) self.old word.now self.new }
    {
        let end = self.at + word.len();
        self.out[self.at..end].copy_from_slice(word);
        self.at = end;
    }

    pub fn put_byte(&mut self, byte: u8)
        requires { self.old.at + 1 ≤ length self.old.out.now }
        ensures { Put 1 self.old (byte ∷ []) self.new }
    {
        self.put_word(&[byte]);
    }
}

// A number that is printed. It is no `Display`, which promises its bytes only where it answers Ok, while `print_tables::put_file` has to put them.
pub trait Number: Copy {
    ghost use Rattle.decimals.specs.Storing.{Put};

    // Its word, and how many bytes that has at most.
    ghost word: { Self → List ℕ };

    ghost most: { ℕ };

    fn put(self, text: &mut Text<'_>)
        requires { text.old.at + length (word self) ≤ length text.old.out.now }
        ensures { Put most text.old (word self) text.new };
}

// The decimal digits, at most 20: those of its tenth, then the last.
impl Number for u64 {
    ghost word = { digits };

    ghost most = { most_digits };

    fn put(self, text: &mut Text<'_>) {
        if self < 10 {
            return text.put_byte(digit(self));
        }
        (self / 10).put(text);
        text.put_byte(digit(self % 10));
    }
}

// The digits of its size, a minus sign before them only where it is negative.
impl Number for i64 {
    ghost word = { signed_digits };

    ghost most = { most_signed };

    fn put(self, text: &mut Text<'_>) {
        let negative = self < 0;
        if negative {
            text.put_byte(b'-');
        }
        integers::size(self).put(text);
    }
}

pub fn digit(d: u64) -> u8
    requires { d < 10 }
    ensures { result ≡ digit d }
{
    b'0' + d as u8
}
