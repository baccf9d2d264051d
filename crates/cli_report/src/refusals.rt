// The lines of a refusal.
ghost use Rattle.std.specs.Prelude.{◌≡◌, true, ◌<◌, ◌^◌, length};
ghost use Rattle.text.specs.Text.{Added};
ghost use Rattle.cli_places.specs.Lines.{InText, text_end};
ghost use Rattle.cli_report.specs.Shown.{shown_byte, blank_for, shown_text, blanks_for, mark_text, view_text, where_text, in_text, in_table, needed_text, refusal_text, unknown_line};

use cli_places::{column_of, line_end, line_of, line_start, text_end};
use cli_wording::put_refused;
use text::Page;

// Of a long line as much is shown before the place, and as much in all.
const BEFORE: usize = 60;

const WIDTH: usize = 78;

// What a file is called, and its bytes.
#[derive(Clone, Copy)]
pub struct Source<'a> {
    pub path: &'a [u8],
    pub bytes: &'a [u8],
}

// A byte as it is shown: a tab as it is, an end of a line as a space, what is no character as a question mark.
#[tactic(auto, unfolding(crate::specs::Shown::shown_byte))]
fn shown(b: u8) -> u8
    ensures { result ≡ shown_byte b }
{
    match b {
        b'\t' => b,
        b'\n' | b'\r' => b' ',
        32..=126 => b,
        _ => b'?',
    }
}

// The bytes as they are shown.
pub fn put_shown(page: &mut Page, bytes: &[u8])
    ensures { Added (shown_text bytes.now) page.old page.new }
{
    for b in bytes {
        page.byte(shown(*b));
    }
}

// A blank as wide as a byte is shown.
#[tactic(auto, unfolding(crate::specs::Shown::blank_for))]
fn blank(b: u8) -> u8
    ensures { result ≡ blank_for b }
{
    if b == b'\t' { b } else { b' ' }
}

// As many blanks, as wide as the bytes are shown.
fn put_blanks(page: &mut Page, bytes: &[u8])
    ensures { Added (blanks_for bytes.now) page.old page.new }
{
    for b in bytes {
        page.byte(blank(*b));
    }
}

// The place's mark, with a word where the text ends.
fn put_mark(page: &mut Page, last: bool)
    ensures { Added (mark_text last) page.old page.new }
{
    if last {
        page.text(b"^ the end\n");
    } else {
        page.text(b"^\n");
    }
}

// The line of a place, and under it a mark at the place.
fn put_view(page: &mut Page, s: &[u8], place: usize, last: bool)
    requires { InText s.now place }
    ensures { Added (view_text s.now place last) page.old page.new }
{
    let from = line_start(s, place).max(place.saturating_sub(BEFORE));
    let to = line_end(s, place).min(from + WIDTH);
    put_shown(page, classes::part(s, from, to));
    page.byte(b'\n');
    put_blanks(page, classes::part(s, from, place));
    put_mark(page, last);
}

// "FILE:LINE:COLUMN: ".
fn put_where(page: &mut Page, source: &Source, place: usize)
    requires { InText source.now.bytes.now place }
    ensures { Added (where_text source.now.path.now source.now.bytes.now place) page.old page.new }
{
    page.text(source.path);
    page.byte(b':');
    page.decimal(line_of(source.bytes, place) as u64);
    page.byte(b':');
    page.decimal(column_of(source.bytes, place) as u64);
    page.text(b": ");
}

// A refusal at a place of a text: where, what, and the line.
fn put_in_text(page: &mut Page, source: &Source, number: u32, place: usize, last: bool)
    requires { InText source.now.bytes.now place }
    ensures { Added (in_text source.now.path.now source.now.bytes.now number place last) page.old page.new }
{
    put_where(page, source, place);
    put_refused(page, number);
    put_view(page, source.bytes, place, last);
}

// A refusal at the end of a text, shown behind its last byte that is no blank.
fn put_at_end(page: &mut Page, source: &Source, number: u32)
    requires { length source.now.bytes.now < 2 ^ 32 }
    ensures { Added (in_text source.now.path.now source.now.bytes.now number (text_end source.now.bytes.now) true) page.old page.new }
{
    put_in_text(page, source, number, text_end(source.bytes), true);
}

// A refusal at a byte of a table.
fn put_in_table(page: &mut Page, path: &[u8], number: u32, place: usize)
    ensures { Added (in_table path.now number place) page.old page.new }
{
    page.text(path);
    page.text(b": byte ");
    page.decimal(place as u64);
    page.text(b": ");
    put_refused(page, number);
}

// A refusal that has no place, but says what is needed.
fn put_needed(page: &mut Page, path: &[u8], number: u32, needed: usize)
    ensures { Added (needed_text path.now number needed) page.old page.new }
{
    page.text(path);
    page.text(b": ");
    page.decimal(needed as u64);
    page.text(b" needed: ");
    put_refused(page, number);
}

// The lines of a refusal. The number is no `Rule`: the contract, which docs/PROMISES.md names, holds of any. The text is
// shorter than 2^32 bytes, so that line and column are numbers that can be written.
#[tactic(auto, unfolding(crate::specs::Shown::refusal_text))]
pub fn put_refusal(page: &mut Page, source: &Source, number: u32, place: usize)
    requires { length source.now.bytes.now < 2 ^ 32 }
    ensures { Added (refusal_text source.now.path.now source.now.bytes.now number place) page.old page.new }
{
    match number {
        11 | 29 => put_needed(page, source.path, number, place),
        20 => put_in_table(page, source.path, number, place),
        _ if place < source.bytes.len() => put_in_text(page, source, number, place, false),
        _ => put_at_end(page, source, number),
    }
}

// The line that says of an unknown item where it is; the word is its tag.
pub fn put_unknown(page: &mut Page, source: &Source, place: usize, word: &[u8])
    requires { InText source.now.bytes.now place }
    ensures { Added (unknown_line source.now.path.now source.now.bytes.now place word.now) page.old page.new }
{
    put_where(page, source, place);
    page.text(b"unknown, passed over: ");
    page.text(word);
    page.byte(b'\n');
}
