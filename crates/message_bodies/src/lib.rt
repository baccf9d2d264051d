// What a reader decides where a field or an item of a body may stand: what starts there, or whether the body ends.
// s is the message from base on. It is short, as `Room` asks, so that no sum of places overflows.
#![tactic(auto)]

ghost use Rattle.std.specs.Prelude.{◌≡◌, ◌+◌, ◌≤◌, length};
ghost use Rattle.numbers.specs.Limits.{message_limit};
ghost use Rattle.table_tags.specs.Search.{Searchable};
ghost use Rattle.message_lookup.specs.Questions.{schema_of_records};
ghost use Rattle.message_bodies.specs.Bodies.{end_of_body, end_answer, StartAt, ItemAt, KnownAt, UnknownAt};

use message_frame::Frame;
use message_tokens::{Cursor, TokenKind};
use numbers::{Refusal, Rule};
use table_records::Records;

// Where no token or a `}` stands at a place where a body may end: whether it ends, else what is broken. None at another token.
#[tactic(auto, unfolding(crate::specs::Bodies::end_answer))]
fn end_at(kind: TokenKind, inside: bool, complete: bool) -> Option<Result<(), Rule>>
    ensures { result ≡ end_answer kind inside complete }
{
    match kind {
        TokenKind::Nothing => Some(end(inside, complete)),
        TokenKind::Closing => Some(end(!inside, complete)),
        _ => None,
    }
}

// The body ends here, unless it is barred from that, whether complete or not.
#[tactic(auto, unfolding(crate::specs::Bodies::end_of_body))]
fn end(barred: bool, complete: bool) -> Result<(), Rule>
    ensures { result ≡ end_of_body barred complete }
{
    match (barred, complete) {
        (true, _) => Err(Rule::MessageForms),
        (false, true) => Ok(()),
        (false, false) => Err(Rule::FieldMissing),
    }
}

#[derive(Clone, Copy, Debug, PartialEq, Eq)]
pub enum Start {
    List,
    End,
}

// Whether the list of the untagged field f.parameter starts here.
pub fn field_at(records: &Records, s: &[u8], f: Frame, inside: bool) -> Result<Start, Refusal>
    requires { f.base + length s.now ≤ message_limit }
    ensures { StartAt (schema_of_records records.now) s.now f inside result }
{
    let c = Cursor { at: f.at };
    let h = c.head(s);
    let is_complete = message_lookup::lo(records, f.parameter) == 0;
    let Some(end) = end_at(h.kind, inside, is_complete) else {
        return Ok(Start::List);
    };
    match end {
        Ok(()) => Ok(Start::End),
        Err(rule) => Err(Refusal {
            rule,
            place: f.base + h.start,
        }),
    }
}

// An item: a void's tag from a place on; a field whose list is due; an unknown one, passed over.
#[derive(Clone, Copy)]
pub enum Item {
    End,
    Void(usize, usize, Cursor),
    List(usize, Cursor),
    Unknown(Cursor),
}

// Passes over an item whose tag, which ends at past, isn't in the body.
fn unknown_item(s: &[u8], base: usize, past: Cursor) -> Result<Cursor, Refusal>
    requires { base + length s.now ≤ message_limit }
    ensures { UnknownAt s.now base past.at result }
{
    let h = past.head(s);
    match h.kind {
        TokenKind::Equals => message_unknown::list(s, base, h.past),
        _ => Ok(past),
    }
}

// The item of the known field q, whose tag stands from a on.
fn known_item(
    records: &Records,
    s: &[u8],
    base: usize,
    seen: &[bool; numbers::PARAMETER_LIMIT],
    q: usize,
    a: usize,
    past: Cursor,
) -> Result<Item, Refusal>
    requires { (base + length s.now ≤ message_limit) × (a ≤ length s.now) }
    ensures { KnownAt (schema_of_records records.now) s.now base seen.now q a past.at result }
{
    if numbers::get_or(seen, q, false) {
        return Err(Refusal {
            rule: Rule::TagTwice,
            place: base + a,
        });
    }
    if message_lookup::is_void(records, q) {
        return Ok(Item::Void(q, a, past));
    }
    let h = past.head(s);
    match h.kind {
        TokenKind::Equals => Ok(Item::List(q, h.past)),
        _ => Err(Refusal {
            rule: Rule::MessageForms,
            place: base + h.start,
        }),
    }
}

// What stands at an item's place in the body of f.parameter. Its tag is looked for from a record on and round.
pub fn item_at(
    records: &Records,
    s: &[u8],
    f: Frame,
    inside: bool,
    seen: &[bool; numbers::PARAMETER_LIMIT],
    from: usize,
) -> Result<Item, Refusal>
    requires s_bound { f.base + length s.now ≤ message_limit }
    requires searchable { Searchable records.now.table.now records.now.unpacked.now records.now.count }
    ensures { ItemAt records.now s.now f inside seen.now result }
{
    let c = Cursor { at: f.at };
    let h = c.head(s);
    let a = h.start;
    let past = h.past;
    if let TokenKind::Word = h.kind {
        return match message_lookup::find(records, f.parameter, &s[a..past.at], from) {
            Some(q) => known_item(records, s, f.base, seen, q, a, past),
            None => Ok(Item::Unknown(unknown_item(s, f.base, past)?)),
        };
    }
    let is_complete = message_lookup::complete(records, f.parameter, seen);
    let Some(end) = end_at(h.kind, inside, is_complete) else {
        return Err(Refusal {
            rule: Rule::MessageForms,
            place: f.base + a,
        });
    };
    match end {
        Ok(()) => Ok(Item::End),
        Err(rule) => Err(Refusal {
            rule,
            place: f.base + a,
        }),
    }
}
