// The unknown items of a message that was accepted, found by its rows. A word of a known part is a field's tag before `=` and
// a value, or begins a row's span: a value, a void's tag, a union's choice. No row but the root's begins in an unknown item.
#![tactic(auto)]

use cli_report::Rows;
use message_tokens::{Cursor, TokenKind};
use std::ops::ControlFlow;

// Where the search goes on: the next token, and the next row that may begin there.
#[derive(Clone, Copy)]
pub struct Reached {
    pub at: Cursor,
    pub row: usize,
}

// An unknown item: where its word starts and ends, and what is behind the item.
#[derive(Clone, Copy)]
pub struct Item {
    pub start: usize,
    pub end: usize,
    pub past: Reached,
}

// The root's row begins at 0 whatever stands there.
pub fn begin() -> Reached {
    Reached {
        at: Cursor { at: 0 },
        row: 1,
    }
}

// The first row from one on that begins at a place or behind it.
fn row_at(rows: &Rows, from: usize, place: usize) -> usize {
    for i in from..rows.count {
        if place <= rows.row(i).start as usize {
            return i;
        }
    }
    rows.count
}

fn begins(rows: &Rows, i: usize, place: usize) -> bool {
    i < rows.count && rows.row(i).start as usize == place
}

// Past the list of an unknown item, or at its start where there is none.
fn past_list(message: &[u8], first: Cursor) -> Cursor {
    if numbers::MESSAGE_LIMIT < message.len() {
        return first;
    }
    message_unknown::list(message, 0, first).unwrap_or(first)
}

// A step of the search: it goes on, or ends with an item, or without one.
type Step = ControlFlow<Option<Item>, Reached>;

// A word in an item's place, from start to end.
fn item_step(message: &[u8], rows: &Rows, row: usize, start: usize, word: Cursor) -> Step {
    let h = word.head(message);
    if h.kind != TokenKind::Equals {
        return ControlFlow::Break(Some(Item {
            start,
            end: word.at,
            past: Reached { at: word, row },
        }));
    }
    let value = h.past.head(message).start;
    let next = row_at(rows, row, value);
    if begins(rows, next, value) {
        return ControlFlow::Continue(Reached {
            at: Cursor { at: value },
            row: next,
        });
    }
    ControlFlow::Break(Some(Item {
        start,
        end: word.at,
        past: Reached {
            at: past_list(message, h.past),
            row,
        },
    }))
}

fn token_step(message: &[u8], rows: &Rows, from: Reached) -> Step {
    let h = from.at.head(message);
    match h.kind {
        TokenKind::Nothing => ControlFlow::Break(None),
        TokenKind::Word => {
            let row = row_at(rows, from.row, h.start);
            if begins(rows, row, h.start) {
                return ControlFlow::Continue(Reached { at: h.past, row });
            }
            item_step(message, rows, row, h.start, h.past)
        }
        _ => ControlFlow::Continue(Reached {
            at: h.past,
            row: from.row,
        }),
    }
}

// The next unknown item. There are no more tokens than bytes.
pub fn next(message: &[u8], rows: &Rows, from: Reached) -> Option<Item> {
    let mut reached = from;
    for _ in 0..message.len() {
        match token_step(message, rows, reached) {
            ControlFlow::Continue(more) => reached = more,
            ControlFlow::Break(found) => return found,
        }
    }
    None
}
