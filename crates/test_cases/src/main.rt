// Answers the frames of standard input, a line for each on standard output.
#![tactic(auto)]

ghost use Rattle.std.specs.Prelude.{◌≤◌, length};

use std::io::Read;
use test_frames::{Front, Head};
use text::Page;

// Lines are written out once they have as many bytes. The longest line, of 20,000 rows, has at most
// 1,100,017 bytes and fits behind them.
const MANY: usize = 65_536;

// The rooms of the input, in which the longest frame fits, and of the lines.
const INPUT: usize = 400_000;

const OUTPUT: usize = 1_200_000;

// The input's bytes that are there and not answered yet.
#[derive(Clone, Copy)]
struct Waiting {
    from: usize,
    to: usize,
}

fn compile_line(page: &mut Page, text: &[u8], lent: &mut [u8]) {
    lent.fill(test_frames::LENT);
    match definition::compile(text, lent) {
        Ok(length) => test_frames::put_table(page, length, lent),
        Err(refusal) => {
            test_frames::put_no_table(page, refusal.rule.number(), refusal.place, lent)
        }
    }
}

fn read_line(page: &mut Page, table: &[u8], message: &[u8], lent: &mut [u32]) {
    lent.fill(test_frames::LENT_NUMBER);
    match message::read(table, message, lent) {
        Ok(count) => test_frames::put_rows(page, count, lent),
        Err(refusal) => {
            test_frames::put_no_rows(page, refusal.rule.number(), refusal.place, lent)
        }
    }
}

fn row_line(page: &mut Page, rows: &[u8], message: &[u8], row: usize, numbers: &mut [u32]) {
    let n = test_frames::words(rows, numbers);
    test_frames::put_bytes(page, message::row_bytes(message, &numbers[..n], row));
}

// The answer to a whole frame.
fn line(page: &mut Page, frame: &[u8], head: Head, table: &mut [u8], numbers: &mut [u32]) {
    let room = head.room as usize;
    let a = test_frames::first_of(frame, head);
    let b = test_frames::second_of(frame, head);
    match head.kind {
        1 => {
            let n = room.min(table.len());
            compile_line(page, a, &mut table[..n]);
        }
        2 => {
            let n = room.min(numbers.len());
            read_line(page, a, b, &mut numbers[..n]);
        }
        3 => test_frames::put_yes(page, table::table_ok(a)),
        4 => row_line(page, a, b, room, numbers),
        _ => page.text(b"unknown\n"),
    }
}

// The input ends, inside a frame or between two.
fn ended(page: &mut Page, is_short: bool) -> Option<Waiting> {
    if is_short {
        page.text(b"short\n");
    }
    None
}

// Reads once, and answers how many bytes came: none at the end of the input.
fn read_some(rt: HostRuntime, space: &mut [u8]) -> usize
    ensures { result ≤ length space.old }
{
    match rt.stdin().read(space) {
        Ok(n) => n,
        Err(_) => 0,
    }
}

// Reads more behind what is left of the input.
fn refill(rt: HostRuntime, page: &mut Page, input: &mut [u8], w: Waiting) -> Option<Waiting> {
    let n = test_frames::to_front(input, w.from, w.to);
    let more = read_some(rt, &mut input[n..]);
    if more == 0 {
        return ended(page, 0 < n);
    }
    Some(Waiting {
        from: 0,
        to: n.saturating_add(more),
    })
}

// Reads past some bytes; false where the input ends before. A `while`, as each turn passes as many as came.
fn pass(rt: HostRuntime, input: &mut [u8], count: usize) -> bool {
    let mut left = count;
    while 0 < left {
        let n = left.min(input.len());
        let passed = read_some(rt, &mut input[..n]);
        if passed == 0 {
            return false;
        }
        left -= passed;
    }
    true
}

// Passes over a frame that is too long.
fn pass_frame(
    rt: HostRuntime,
    page: &mut Page,
    input: &mut [u8],
    w: Waiting,
    length: usize,
) -> Option<Waiting> {
    let there = classes::part(input, w.from, w.to).len();
    if there < length && !pass(rt, input, length - there) {
        return ended(page, true);
    }
    page.text(b"too long\n");
    if there < length {
        return Some(Waiting { from: 0, to: 0 });
    }
    Some(Waiting {
        from: w.from.saturating_add(length),
        to: w.to,
    })
}

// One frame, or one reading of more input; none where the input ends.
fn turn(
    rt: HostRuntime,
    page: &mut Page,
    input: &mut [u8],
    table: &mut [u8],
    numbers: &mut [u32],
    w: Waiting,
) -> Option<Waiting> {
    let frame = classes::part(input, w.from, w.to);
    match test_frames::next(frame) {
        Front::Part => refill(rt, page, input, w),
        Front::Long(length) => pass_frame(rt, page, input, w, length),
        Front::Whole(head) => {
            line(page, frame, head, table, numbers);
            Some(Waiting {
                from: w.from.saturating_add(test_frames::length_of(head)),
                to: w.to,
            })
        }
    }
}

// Writes the lines out; false where that fails.
fn flush(rt: HostRuntime, page: &mut Page) -> bool {
    let is_written = rt.write_all(page.written()).is_ok();
    page.at = 0;
    is_written
}

// A proved loop has to end, and nothing says that the input does. So the loop counts its turns, up to a number that no
// run reaches.
fn run(
    rt: HostRuntime,
    input: &mut [u8; INPUT],
    table: &mut [u8; test_frames::LIMIT],
    numbers: &mut [u32; test_frames::LIMIT],
    out: &mut [u8; OUTPUT],
) {
    let mut page = Page::new(out);
    let mut waiting = Waiting { from: 0, to: 0 };
    for _ in 0..u64::MAX {
        let Some(more) = turn(rt, &mut page, input, table, numbers, waiting) else {
            break;
        };
        if MANY <= page.at && !flush(rt, &mut page) {
            return;
        }
        waiting = more;
    }
    flush(rt, &mut page);
}

fn main(rt: HostRuntime) {
    let mut input = [0u8; INPUT];
    let mut table = [0u8; test_frames::LIMIT];
    let mut numbers = [0u32; test_frames::LIMIT];
    let mut out = [0u8; OUTPUT];
    run(rt, &mut input, &mut table, &mut numbers, &mut out);
}
