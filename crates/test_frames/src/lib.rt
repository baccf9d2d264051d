// Frames of the test program's input, and the lines that answer them.
//
// A frame, all numbers little-endian: kind u8, room u32, a u32, b u32, then a bytes and b bytes.
#![tactic(auto)]

ghost use Rattle.std.specs.Prelude.{◌≡◌, ◌+◌, ◌*◌, min, max, length, drop};
ghost use Rattle.std.proofs.lemmas.List.Edits.{sets};
ghost use Rattle.test_frames.specs.Frame.{frame_head, length_of, front_by};
ghost use Rattle.test_frames.specs.Lent.{kept_from, Words};
ghost use Rattle.classes.specs.Lists.{part};
ghost use Rattle.numbers.specs.Limits.{row_width};
ghost use Rattle.text.specs.Text.{Added, each, spaced};
ghost use Rattle.test_frames.specs.Lines.{kept_text, refused_text, table_line, rows_line, refused_line, yes_line, bytes_line};

use text::Page;

// The bytes of a frame's head.
const HEAD_BYTES: usize = 13;
// The most that room, a and b may be.
pub const LIMIT: usize = 100_000;
// What a lent byte, and a lent number, holds before.
pub const LENT: u8 = 0xA5;

pub const LENT_NUMBER: u32 = 0xA5A5_A5A5;

// ---- frames

#[derive(Clone, Copy)]
pub struct Head {
    pub kind: u8,
    pub room: u32,
    pub a: u32,
    pub b: u32,
}

// What stands at the front of the input.
#[derive(Clone, Copy)]
pub enum Front {
    // Not the whole frame.
    Part,
    // A frame over the limit; as many bytes belong to it.
    Long(usize),
    // A whole frame.
    Whole(Head),
}

fn head_of(s: &[u8]) -> Head
    ensures { result ≡ frame_head s.now }
{
    Head {
        kind: numbers::get_or(s, 0, 0),
        room: numbers::u32_at(s, 1),
        a: numbers::u32_at(s, 5),
        b: numbers::u32_at(s, 9),
    }
}

// The bytes of the frame, its head included.
pub fn length_of(h: Head) -> usize
    ensures { result ≡ length_of h }
{
    HEAD_BYTES + h.a as usize + h.b as usize
}

fn largest(h: Head) -> usize
    ensures { result ≡ max h.room (max h.a h.b) }
{
    h.room.max(h.a).max(h.b) as usize
}

pub fn next(s: &[u8]) -> Front
    ensures { result ≡ front_by s.now (frame_head s.now) }
{
    let h = head_of(s);
    let length = length_of(h);
    if s.len() < HEAD_BYTES {
        return Front::Part;
    }
    if LIMIT < largest(h) {
        return Front::Long(length);
    }
    if s.len() < length {
        return Front::Part;
    }
    Front::Whole(h)
}

// Moves the bytes from a place to a place to the front; answers how many they are.
pub fn to_front(d: &mut [u8], from: usize, to: usize) -> usize
    ensures value { result ≡ length (part d.old from to) }
    ensures d_after { d.new ≡ sets d.old 0 (part d.old from to) }
{
    let n = classes::part(d, from, to).len();
    for i in 0..n {
        d[i] = d[from + i];
    }
    n
}

// A frame's a bytes.
pub fn first_of(s: &[u8], h: Head) -> &[u8]
    ensures { result.now ≡ part s.now 13 (13 + h.a) }
{
    classes::part(s, HEAD_BYTES, HEAD_BYTES + h.a as usize)
}

// A frame's b bytes.
pub fn second_of(s: &[u8], h: Head) -> &[u8]
    ensures { result.now ≡ part s.now (13 + h.a) (length_of h) }
{
    classes::part(s, HEAD_BYTES + h.a as usize, length_of(h))
}

// ---- what is lent

// Is each byte from a place on as it was lent? It differs from the next in type and constant; one generic function would
// take both from its caller and be no shorter than either.
fn bytes_kept(d: &[u8], from: usize) -> bool
    ensures { result ≡ kept_from 0xA5 d.now from }
{
    classes::rest(d, from).iter().all(|b| *b == LENT)
}

// The numbers from a place on, none past the end.
fn numbers_from(d: &[u32], from: usize) -> &[u32]
    ensures { result.now ≡ drop from d.now }
{
    d.get(from..).unwrap_or(&[])
}

fn numbers_kept(d: &[u32], from: usize) -> bool
    ensures { result ≡ kept_from 0xA5A5A5A5 d.now from }
{
    numbers_from(d, from).iter().all(|n| *n == LENT_NUMBER)
}

// The u32s of a row of bytes, as many as are whole and fit; answers how many.
pub fn words(s: &[u8], d: &mut [u32]) -> usize
    ensures { Words s.now d.new result }
{
    let n = (s.len() / 4).min(d.len());
    for i in 0..n {
        d[i] = numbers::u32_at(s, 4 * i);
    }
    n
}

// ---- pieces of lines

fn put_numbers(page: &mut Page, numbers: &[u32])
    ensures { Added (each spaced numbers.now) page.old page.new }
{
    for n in numbers {
        page.number(*n as u64);
    }
}

fn put_kept(page: &mut Page, kept: bool)
    ensures { Added (kept_text kept) page.old page.new }
{
    if kept {
        page.text(b" kept\n");
    } else {
        page.text(b" touched\n");
    }
}

fn put_refused(page: &mut Page, number: u32, place: usize)
    ensures { Added (refused_text number place) page.old page.new }
{
    page.text(b"refused");
    page.number(number as u64);
    page.number(place as u64);
}

// ---- lines

// The line of a table of some length in the lent bytes.
pub fn put_table(page: &mut Page, length: usize, lent: &[u8])
    ensures { Added (table_line length lent.now) page.old page.new }
{
    page.text(b"ok");
    page.number(length as u64);
    page.byte(b' ');
    page.hex(classes::part(lent, 0, length));
    put_kept(page, bytes_kept(lent, length));
}

// The line of a definition that is refused. docs/PROMISES.md names it, and the one of a message.
pub fn put_no_table(page: &mut Page, number: u32, place: usize, lent: &[u8])
    ensures { Added (refused_line 0xA5 number place lent.now) page.old page.new }
{
    put_refused(page, number, place);
    put_kept(page, bytes_kept(lent, 0));
}

// How many numbers some rows have, as far as they lie within some numbers.
fn cells(count: usize, within: usize) -> usize
    ensures { result ≡ min (row_width * count) within }
{
    count.saturating_mul(numbers::ROW_WIDTH).min(within)
}

// The line of some rows in the lent numbers.
pub fn put_rows(page: &mut Page, count: usize, lent: &[u32])
    ensures { Added (rows_line count lent.now) page.old page.new }
{
    let n = cells(count, lent.len());
    page.text(b"ok");
    page.number(count as u64);
    put_numbers(page, &lent[..n]);
    put_kept(page, numbers_kept(lent, n));
}

// The line of a message that is refused.
pub fn put_no_rows(page: &mut Page, number: u32, place: usize, lent: &[u32])
    ensures { Added (refused_line 0xA5A5A5A5 number place lent.now) page.old page.new }
{
    put_refused(page, number, place);
    put_kept(page, numbers_kept(lent, 0));
}

// The line of a judgement.
pub fn put_yes(page: &mut Page, yes: bool)
    ensures { Added (yes_line yes) page.old page.new }
{
    if yes {
        page.text(b"yes\n");
    } else {
        page.text(b"no\n");
    }
}

// The line of a row's bytes.
pub fn put_bytes(page: &mut Page, bytes: &[u8])
    ensures { Added (bytes_line bytes.now) page.old page.new }
{
    if bytes.is_empty() {
        page.text(b"bytes\n");
        return;
    }
    page.text(b"bytes ");
    page.hex(bytes);
    page.byte(b'\n');
}
