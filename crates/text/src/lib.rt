// Text written into a lent row of bytes. What would lie past its end is dropped.
#![tactic(auto)]

ghost use Rattle.std.specs.Prelude.{◌≡◌, [], ◌∷◌, ◌<◌};
ghost use Rattle.classes.specs.Lists.{part};
ghost use Rattle.io.specs.Digits.{hex_digit_ascii};
ghost use Rattle.text.specs.Text.{Added, each, hex_byte, decimal, spaced};

// A lent row of bytes and the place in it where the next byte is written: behind what is written, or its end.
#[derive(Drop)]
pub struct Page<'a> {
    pub out: &'a mut [u8],
    pub at: usize,
}

impl<'a> Page<'a> {
    // A page with nothing on it.
    pub fn new(out: &'a mut [u8]) -> Page<'a>
        ensures same { result.out.ghost_name ≡ out.entry.ghost_name }
        ensures old { result.out.now ≡ out.entry.now }
        ensures place { result.at ≡ 0 }
    {
        Page { out, at: 0 }
    }

    // What is written so far, if writing began at the first byte.
    pub fn written(&self) -> &[u8]
        ensures { result.now ≡ part self.now.out.now 0 self.now.at }
    {
        classes::part(self.out, 0, self.at)
    }

    // The same, for as long as the row is lent.
    pub fn into_written(self) -> &'a [u8]
        ensures { result.now ≡ part self.entry.out.now 0 self.entry.at }
    {
        let Page { out, at } = self;
        classes::part(out, 0, at)
    }

    // Writes a byte.
    pub fn byte(&mut self, b: u8)
        ensures { Added (b ∷ []) self.old self.new }
    {
        if self.at < self.out.len() {
            self.out[self.at] = b;
            self.at += 1;
        }
    }

    // Bytes as they are.
    pub fn text(&mut self, text: &[u8])
        ensures { Added text.now self.old self.new }
    {
        for b in text {
            self.byte(*b);
        }
    }

    // A number in as many decimal digits as it takes.
    pub fn decimal(&mut self, n: u64)
        ensures { Added (decimal n) self.old self.new }
    {
        let mut digits = [0u8; 20];
        let k = io::decimal(n, &mut digits);
        self.text(&digits[..k]);
    }

    // A byte as two hex digits.
    pub fn hex_byte(&mut self, b: u8)
        ensures { Added (hex_byte b) self.old self.new }
    {
        self.byte(digit(b / 16));
        self.byte(digit(b % 16));
    }

    // Bytes as hex digits, two each.
    pub fn hex(&mut self, bytes: &[u8])
        ensures { Added (each hex_byte bytes.now) self.old self.new }
    {
        for b in bytes {
            self.hex_byte(*b);
        }
    }

    // A space and the number.
    pub fn number(&mut self, n: u64)
        ensures { Added (spaced n) self.old self.new }
    {
        self.byte(b' ');
        self.decimal(n);
    }
}

// The lowercase hex digit of a number below 16.
pub fn digit(n: u8) -> u8
    requires { n < 16 }
    ensures { result ≡ hex_digit_ascii n }
{
    if n < 10 { 48 + n } else { 87 + n }
}
