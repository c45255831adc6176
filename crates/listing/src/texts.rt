// Text written into a lent buffer, word after word.
ghost use Rattle.std.specs.Prelude.{◌≡◌, [], ◌∷◌, ◌++◌, ◌+◌, ◌≤◌, ◌<◌, length};
ghost use Rattle.listing.specs.Decimal.{digit, decimal};
ghost use Rattle.listing.specs.Puts.{Puts};

// A lent buffer, and the index behind what is written.
#[derive(Drop)]
pub struct Text<'a> {
    pub out: &'a mut [u8; 8192],
    pub at: usize,
}

impl Text<'_> {
    // A word.
    pub fn put(&mut self, word: &[u8])
        requires { self.old.at + length word.now ≤ 8192 }
        ensures { Puts (length word.now) self.old self.new word.now }
    {
        let at = self.at;
        addresses::copy(self.out, at, word, 0, word.len());
        self.at += word.len();
    }

    // One digit.
    pub(crate) fn put_digit(&mut self, n: usize)
        requires { (self.old.at < 8192) × (n < 10) }
        ensures { Puts 1 self.old self.new (digit n ∷ []) }
    {
        self.out[self.at] = b'0' + n as u8;
        self.at += 1;
    }

    // A number in decimal digits.
    pub fn put_decimal(&mut self, n: usize)
        requires { self.old.at + length (decimal n) ≤ 8192 }
        ensures { Puts (length (decimal n)) self.old self.new (decimal n) }
    {
        if n < 10 {
            self.put_digit(n);
        } else {
            self.put_decimal(n / 10);
            self.put_digit(n % 10);
        }
    }

    // A word, and behind it a number of at most five digits.
    pub(crate) fn put_number(&mut self, word: &[u8], n: usize)
        requires { (self.old.at + length word.now + 5 ≤ 8192) × (n < 100000) }
        ensures { Puts (length word.now + 5) self.old self.new (word.now ++ decimal n) }
    {
        self.put(word);
        self.put_decimal(n);
    }
}
