// What bytes that are handed out look like: numbers in decimal, and bytes over the first of those that are lent; and the pen that writes them.
#![tactic(auto)]

ghost use Rattle.std.specs.Prelude.{◌≡◌, [], ◌∷◌};
ghost use Rattle.output.specs.Decimals.{decimal};
ghost use Rattle.output.specs.code.Tapes.{append};
ghost use Rattle.output.specs.code.Pens.{writes};

// Lent bytes, and how many of them are written.
#[derive(Drop)]
pub struct Pen<'a, const N: usize> {
    pub bytes: &'a mut [u8; N],
    pub end: usize,
}

impl<'a, const N: usize> Pen<'a, N> {
    // Before the first byte.
    pub fn new(bytes: &'a mut [u8; N]) -> Pen<'a, N>
        ensures { result ≡ record { bytes = bytes.entry; end = 0 } }
    {
        Pen { bytes, end: 0 }
    }

    // One more byte; full bytes stay as they are.
    pub fn push(&mut self, byte: u8)
        ensures { self.new ≡ writes (append N (byte ∷ [])) self.old }
    {
        if self.end < N {
            self.bytes[self.end] = byte;
            self.end += 1;
        }
    }

    pub fn push_word(&mut self, word: &[u8])
        ensures { self.new ≡ writes (append N word.now) self.old }
    {
        for byte in word {
            self.push(*byte);
        }
    }

    // A number in decimal: what stands before its last digit, and that digit. It is by recursion, as `decimal` is: the library's formatting goes
    // through a `Formatter`, and its digits are defined otherwise.
    pub fn push_number(&mut self, n: usize)
        ensures { self.new ≡ writes (append N (decimal n)) self.old }
    {
        if n >= 10 {
            self.push_number(n / 10);
        }
        self.push(b'0' + (n % 10) as u8);
    }
}
