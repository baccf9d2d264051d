// The message up to a place, read again.
use cli_report::{Row, Rows};
use message_tokens::{Cursor, TokenKind};
use text::Page;

// The braces open behind a token.
fn open_after(kind: TokenKind, open: usize) -> usize {
    match kind {
        TokenKind::Opening => open.saturating_add(1),
        TokenKind::Closing => open.saturating_sub(1),
        _ => open,
    }
}

// How many braces are open at the end. There are no more tokens than bytes.
fn open_at_end(s: &[u8]) -> usize {
    let mut u = Cursor { at: 0 };
    let mut open = 0;
    for _ in 0..s.len() {
        let h = u.head(s);
        if h.kind == TokenKind::Nothing {
            return open;
        }
        open = open_after(h.kind, open);
        u = h.past;
    }
    open
}

// The message up to a place, a value, and all that is open closed.
fn put_cut(page: &mut Page, message: &[u8], place: usize, value: &[u8]) {
    let before = classes::part(message, 0, place);
    page.text(before);
    page.text(value);
    for _ in 0..open_at_end(before) {
        page.byte(b'}');
    }
}

// The rows of the cut message; none where it is not read.
pub fn read_cut<'a>(
    relaxed: &[u8],
    message: &[u8],
    place: usize,
    value: &[u8],
    numbers: &'a mut [u32],
) -> Rows<'a> {
    let mut buf = io::large_buffer();
    let mut cut = Page::new(&mut buf);
    put_cut(&mut cut, message, place, value);
    let count = message::read(relaxed, cut.written(), numbers).unwrap_or(0);
    Rows { numbers, count }
}

// The last row of which something is so.
fn last_row<F: Fn(Row) -> bool>(rows: &Rows, is_it: F) -> Option<usize>
    requires { F.IsAlwaysCallable is_it }
{
    for i in (0..rows.count).rev() {
        if is_it(rows.row(i)) {
            return Some(i);
        }
    }
    None
}

// The row of the body that is closed at a place: the root's at the message's end.
pub fn body_row(rows: &Rows, message: &[u8], place: usize) -> Option<usize> {
    if message.len() <= place {
        return (0 < rows.count).then_some(0);
    }
    last_row(rows, |row| row.end as usize == place.saturating_add(1))
}

// The parameter that takes this value at a place. The value has a blank before it.
fn taker(
    relaxed: &[u8],
    message: &[u8],
    place: usize,
    value: &[u8],
    numbers: &mut [u32],
) -> Option<usize> {
    let rows = read_cut(relaxed, message, place, value, numbers);
    let i = last_row(&rows, |row| row.start as usize == place.saturating_add(1))?;
    Some(rows.row(i).parameter as usize)
}

// The parameter whose value is due at a place, tried by a word, a string and a struct. A union that takes no int takes
// none of them, and has no name here.
pub fn due_at(relaxed: &[u8], message: &[u8], place: usize, numbers: &mut [u32]) -> Option<usize> {
    for value in [b" 0".as_slice(), b" \"\"", b" {}"] {
        let p = taker(relaxed, message, place, value, numbers);
        if p.is_some() {
            return p;
        }
    }
    None
}
