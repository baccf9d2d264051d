// The tokens of a message, read by a cursor over its bytes, and number 22.
#![tactic(auto)]

ghost use Rattle.std.specs.Prelude.{◌≡◌, ℕ, ◌+◌, ◌-◌, ◌*◌, ◌/◌, ◌^◌, ◌<◌, ◌≤◌, true, false, length, bit_xor, slice_index};
ghost use Rattle.numbers.specs.Limits.{open_limit};
ghost use Rattle.classes.specs.Bytes.{is_blank, is_word_byte, is_plain, is_string_byte};
ghost use Rattle.message_rules.specs.Scan.{cut, scan_fault};
ghost use Rattle.message_tokens.specs.Cursor.{row_end, cut_at, rest_at, Reads};
ghost use Rattle.message_tokens.specs.Head.{HeadAt, mark_head, LacksComma};
ghost use Rattle.message_tokens.specs.Scanned.{fault_of};
ghost use Rattle.message_tokens.specs.Digits.{Led, DigitsEnd, DigitsAt, joined, zeros, Nines};
ghost use Rattle.message_tokens.specs.Turn.{Plains, PlainEnd};

// A place in a message or in a part of one.
#[derive(Clone, Copy)]
pub struct Cursor {
    pub at: usize,
}

// What may stand next.
#[derive(Clone, Copy, Debug, PartialEq, Eq)]
pub enum TokenKind {
    Nothing,
    Word,
    String,
    Equals,
    Comma,
    Opening,
    Closing,
}

// What stands next, where it starts, and the cursor past it. Without a token it starts at the end.
#[derive(Clone, Copy)]
pub struct Head {
    pub kind: TokenKind,
    pub start: usize,
    pub past: Cursor,
}

impl Head {
    // A mark, which is a token of one byte.
    fn mark(kind: TokenKind, at: usize) -> Head
        requires { at < 18446744073709551615 }
        ensures { result ≡ mark_head kind at }
    {
        Head {
            kind,
            start: at,
            past: Cursor { at: at + 1 },
        }
    }
}

// The string that a quote at from opens; from itself where no quote closes it.
fn string(s: &[u8], from: usize) -> Result<Head, usize>
    requires { (from < length s.now) × (slice_index s.now from ≡ 34) }
    ensures { (base : ℕ) → Reads (rest_at base s.now from) base s.now from result }
{
    let to = classes::run_end(s, from + 1, classes::is_string_byte);
    if to < s.len() && s[to] == b'"' {
        return Ok(Head {
            kind: TokenKind::String,
            start: from,
            past: Cursor { at: to + 1 },
        });
    }
    Err(from)
}

// What stands at from, where no blank is, or where a byte stands that no token has.
fn token(s: &[u8], from: usize) -> Result<Head, usize>
    ensures { (base : ℕ) → Reads (rest_at base s.now from) base s.now from result }
{
    if s.len() <= from {
        return Ok(Head {
            kind: TokenKind::Nothing,
            start: s.len(),
            past: Cursor { at: from },
        });
    }
    let b = s[from];
    if classes::is_word_byte(b) {
        let to = classes::run_end(s, from + 1, classes::is_word_byte);
        return Ok(Head {
            kind: TokenKind::Word,
            start: from,
            past: Cursor { at: to },
        });
    }
    match b {
        b'=' => Ok(Head::mark(TokenKind::Equals, from)),
        b',' => Ok(Head::mark(TokenKind::Comma, from)),
        b'{' => Ok(Head::mark(TokenKind::Opening, from)),
        b'}' => Ok(Head::mark(TokenKind::Closing, from)),
        b'"' => string(s, from),
        _ => Err(from),
    }
}

impl Cursor {
    // The token that stands next, or the place of a byte that no token has. A word is the longest row.
    pub fn next(self, s: &[u8]) -> Result<Head, usize>
        ensures { (base : ℕ) → Reads (cut_at base s.now self.at) base s.now self.at result }
    {
        let from = classes::run_end(s, self.at, classes::is_blank);
        token(s, from)
    }

    // The same. A brace that stands here is read at once, and no other mark: a scan passes over these before.
    fn brace_or_next(self, s: &[u8]) -> Result<Head, usize>
        ensures { (base : ℕ) → Reads (cut_at base s.now self.at) base s.now self.at result }
    {
        let at = self.at;
        if at < s.len() {
            match s[at] {
                b'{' => return Ok(Head::mark(TokenKind::Opening, at)),
                b'}' => return Ok(Head::mark(TokenKind::Closing, at)),
                _ => {}
            }
        }
        self.next(s)
    }

    // The token that stands next, nothing where no token does. A mark that stands here is read at once.
    pub fn head(self, s: &[u8]) -> Head
        ensures { (base : ℕ) → HeadAt base s.now self.at result }
    {
        let at = self.at;
        if at < s.len() {
            match s[at] {
                b'=' => return Head::mark(TokenKind::Equals, at),
                b',' => return Head::mark(TokenKind::Comma, at),
                b'{' => return Head::mark(TokenKind::Opening, at),
                b'}' => return Head::mark(TokenKind::Closing, at),
                _ => {}
            }
        }
        self.next(s).unwrap_or(Head {
            kind: TokenKind::Nothing,
            start: s.len(),
            past: self,
        })
    }
}

impl Cursor {
    // No comma stands next.
    pub fn lacks_comma(self, s: &[u8]) -> bool
        ensures { result ≡ true → LacksComma s.now self.at }
    {
        let from = classes::run_end(s, self.at, classes::is_blank);
        numbers::get_or(s, from, 0) != b','
    }
}

// A word of digits without leading zero, its end and its digits packed: Before where a comma stands at the end. An enum of its own,
// since an Option would have a flag for the comma beside the numbers.
#[derive(Clone, Copy)]
pub enum Digits {
    Other,
    Before(usize, u64),
    Number(usize, u64),
}

// The digits from at to i are some, without leading zero.
fn is_led(s: &[u8], at: usize, i: usize) -> bool
    requires { at < i → i ≤ length s.now }
    ensures { result ≡ true → Led s.now at i }
{
    at < i && (i - at == 1 || s[at] != b'0')
}

// The word of digits from at to i, packed in sum, before the byte b.
fn digits_before(s: &[u8], at: usize, i: usize, sum: u64, b: u8) -> Digits
    requires { at < i → i ≤ length s.now }
    ensures { DigitsEnd s.now at i sum b result }
{
    if !is_led(s, at, i) {
        return Digits::Other;
    }
    if b == b',' {
        return Digits::Before(i, sum);
    }
    if classes::is_word_byte(b) {
        return Digits::Other;
    }
    Digits::Number(i, sum)
}

// The digits that stand at a place, byte by byte. Other where the word has other bytes, or more than eight digits.
// The index is counted by hand: the loop stops at a ninth digit, and the place and the byte after the last digit are handed on,
// which a chain would have to find again.
fn digits_by_byte(s: &[u8], at: usize) -> Digits
    ensures { DigitsAt s.now at result }
{
    let mut sum: u64 = 0;
    let mut i = at;
    while i < s.len() {
        let b = s[i];
        if classes::is_digit(b) {
            if 0x00FF_FFFF_FFFF_FFFF < sum {
                return Digits::Other;
            }
            sum = sum * 256 + u64::from(b - 48);
            i += 1;
        } else {
            return digits_before(s, at, i, sum, b);
        }
    }
    digits_before(s, at, i, sum, 0)
}

// In each of eight bytes: the digit 0, the bit 4 that every digit has, the high half, and 6.
const ZEROS: u64 = 0x3030_3030_3030_3030;

const BITS: u64 = 0x1010_1010_1010_1010;

const HIGH_HALVES: u64 = 0xF0F0_F0F0_F0F0_F0F0;

const SIXES: u64 = 0x0606_0606_0606_0606;

// A guess at how many of eight bytes are digits: those before the first without the bit 4.
fn digit_guess(s: &[u8], at: usize) -> usize
    requires { at + 8 ≤ length s.now }
{
    let w = u64::from_le_bytes([
        s[at],
        s[at + 1],
        s[at + 2],
        s[at + 3],
        s[at + 4],
        s[at + 5],
        s[at + 6],
        s[at + 7],
    ]);
    ((!w & BITS).trailing_zeros() / 8) as usize
}

// Eight bytes as one number, the first highest.
fn eight_at(s: &[u8], at: usize) -> u64
    requires { at + 8 ≤ length s.now }
    ensures { result ≡ joined 8 s.now at }
{
    u64::from_be_bytes([
        s[at],
        s[at + 1],
        s[at + 2],
        s[at + 3],
        s[at + 4],
        s[at + 5],
        s[at + 6],
        s[at + 7],
    ])
}

// No byte of eight is more than 9.
fn are_digits(d: u64) -> bool
    ensures { result ≡ true → Nines d }
{
    (d & HIGH_HALVES == 0) & (d.wrapping_add(SIXES) & HIGH_HALVES == 0)
}

// The first c of eight bytes, their digits packed where they are digits.
fn first_digits(s: &[u8], at: usize, c: usize) -> u64
    requires { (at + 8 ≤ length s.now) × (0 < c) × (c < 8) }
    ensures { result ≡ bit_xor (joined 8 s.now at) zeros / 2 ^ (64 - 8 * c) }
{
    (eight_at(s, at) ^ ZEROS) >> (64 - 8 * c)
}

// The digits at a place by eight bytes at once, so that no branch depends on how many there are. Other where these bytes
// aren't there, and for eight digits and more.
fn digits_by_eight(s: &[u8], at: usize) -> Digits
    ensures { DigitsAt s.now at result }
{
    if s.len() < 8 || s.len() - 8 < at {
        return Digits::Other;
    }
    let c = digit_guess(s, at);
    if c == 0 || 8 <= c {
        return Digits::Other;
    }
    let d = first_digits(s, at, c);
    if are_digits(d) {
        return digits_before(s, at, at + c, d, s[at + c]);
    }
    Digits::Other
}

// The digits that stand at a place. Other where the word has other bytes, or more than eight digits.
pub fn digits_at(s: &[u8], at: usize) -> Digits
    ensures { DigitsAt s.now at result }
{
    match digits_by_eight(s, at) {
        Digits::Other => digits_by_byte(s, at),
        found => found,
    }
}

// Most bytes of words and lists, by a test that needs no branch.
fn is_common(b: u8) -> bool
    ensures { result ≡ true → is_plain b ≡ true }
{
    ((b'*' <= b) & (b <= b'z') & (b != b'?')) | (b == b' ')
}

// The next sixteen bytes are there and change nothing. One test for all: no branch on a byte, as `all` would have.
fn sixteen(s: &[u8], i: usize) -> bool
    ensures { result ≡ true → Plains s.now i 16 }
{
    if s.len() < 16 || s.len() - 16 < i {
        return false;
    }
    let mut ok = true;
    for b in &s[i..i + 16] {
        ok &= is_common(*b);
    }
    ok
}

// Past the bytes from at on that change nothing for number 22. The index goes by sixteen or by one, so no range and no chain has it.
fn plain_end(s: &[u8], at: usize) -> usize
    ensures { PlainEnd s.now at result }
{
    let mut i = at;
    while i < s.len() {
        if sixteen(s, i) {
            i += 16;
        } else {
            let b = s[i];
            if classes::is_plain(b) {
                i += 1;
            } else {
                return i;
            }
        }
    }
    i
}

// Where number 22 is due, if it is: a byte in no token and no blank, or a brace that opens with 16 open, whichever is first.
pub fn scan_fault(message: &[u8]) -> Option<usize>
    ensures { fault_of result ≡ scan_fault (cut message.now) }
{
    let mut u = Cursor { at: 0 };
    let mut deep: usize = 0;
    loop {
        let from = Cursor {
            at: plain_end(message, u.at),
        };
        let h = match from.brace_or_next(message) {
            Ok(h) => h,
            Err(at) => return Some(at),
        };
        match h.kind {
            TokenKind::Nothing => return None,
            TokenKind::Opening => {
                let is_full = numbers::OPEN_LIMIT <= deep;
                if is_full {
                    return Some(h.start);
                }
                deep += 1;
            }
            TokenKind::Closing => deep = deep.saturating_sub(1),
            _ => {}
        }
        u = h.past;
    }
}
