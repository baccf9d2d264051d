// Lines and columns of a place in a text. A place in it, or its end, is asked for: another has no line.
#![tactic(auto)]

ghost use Rattle.std.specs.Prelude.{◌≡◌, ◌≤◌, length};
ghost use Rattle.cli_places.specs.Lines.{InText, line_of, line_start, line_end, column_of, text_end};

// The line of a place, counted from 1.
pub fn line_of(s: &[u8], place: usize) -> usize
    requires { InText s.now place }
    ensures { result ≡ line_of s.now place }
{
    1 + s[..place].iter().filter(|b| **b == b'\n').count()
}

// Where the line of a place begins.
pub fn line_start(s: &[u8], place: usize) -> usize
    requires { place ≤ length s.now }
    ensures { (result ≡ line_start s.now place) × (result ≤ place) }
{
    match s[..place].iter().rposition(|b| *b == b'\n') {
        Some(i) => i + 1,
        None => 0,
    }
}

// Where the line of a place ends, before its line feed.
pub fn line_end(s: &[u8], place: usize) -> usize
    requires { place ≤ length s.now }
    ensures { (result ≡ line_end s.now place) × (result ≤ length s.now) }
{
    match s[place..].iter().position(|b| *b == b'\n') {
        Some(i) => place + i,
        None => s.len(),
    }
}

// The column of a place, in bytes, counted from 1.
pub fn column_of(s: &[u8], place: usize) -> usize
    requires { InText s.now place }
    ensures { result ≡ column_of s.now place }
{
    place - line_start(s, place) + 1
}

// Where a text ends without the blanks at its end.
pub fn text_end(s: &[u8]) -> usize
    ensures { (result ≡ text_end s.now) × (result ≤ length s.now) }
{
    match s.iter().rposition(|b| !classes::is_blank(*b)) {
        Some(i) => i + 1,
        None => 0,
    }
}
