// What a reader decides where a union's value starts: which alternative it is, and whether a value of it is due.
// s is the message from base on. It is short, as `Room` asks, so that no sum of places overflows.
#![tactic(auto)]

ghost use Rattle.std.specs.Prelude.{◌≡◌, ◌+◌, ◌≤◌, length};
ghost use Rattle.numbers.specs.Limits.{message_limit};
ghost use Rattle.table_tags.specs.Search.{Searchable};
ghost use Rattle.message_choices.specs.Choices.{ChoiceAt, ChosenAt, bare_at, start_of};

use message_frame::Frame;
use message_tokens::{Cursor, TokenKind};
use numbers::{Refusal, Rule};
use table_records::Records;

// A step down a chain of choices, with the alternative and its word's start: its value is due past the cursor, or it is whole.
#[derive(Clone, Copy)]
pub enum Choice {
    Deeper(usize, usize, Cursor),
    Last(usize, usize, Cursor),
}

// The record that a tag of the union u is looked for from: the alternative p that was chosen last, where it is one of u's,
// so that a chain of the same choices finds each at once; else the union's own.
#[tactic(auto, unfolding(classes::specs::Lists::pick))]
fn start_of(records: &Records, p: usize, u: usize) -> usize
    ensures { result ≡ start_of records.now.table.now records.now.unpacked.now p u }
{
    if records.is_under(p, u) { p } else { u }
}

// The alternative of the union u with the word from a on as its tag.
fn alternative(
    records: &Records,
    s: &[u8],
    f: Frame,
    u: usize,
    a: usize,
    past: Cursor,
) -> Result<Choice, Refusal>
    requires s_bound { (f.base + length s.now ≤ message_limit) × (a ≤ past.at) × (past.at ≤ length s.now) }
    requires searchable { Searchable records.now.table.now records.now.unpacked.now records.now.count }
    ensures { ChosenAt records.now s.now f u a past.at result }
{
    let e = past.at;
    let from = start_of(records, f.parameter, u);
    let Some(q) = message_lookup::find(records, u, &s[a..e], from) else {
        return Err(Refusal {
            rule: Rule::Alternative,
            place: f.base + a,
        });
    };
    if message_lookup::is_void(records, q) {
        return Ok(Choice::Last(q, a, past));
    }
    let h = past.head(s);
    match h.kind {
        TokenKind::Equals => Ok(Choice::Deeper(q, a, h.past)),
        _ => Err(Refusal {
            rule: Rule::MessageForms,
            place: f.base + h.start,
        }),
    }
}

// The untagged int of the union u that the word is judged as.
fn bare_for(records: &Records, u: usize, word: &[u8]) -> Option<usize>
    ensures { bare_at records.now u word.now result }
{
    if numbers::is_int_like(word) {
        return message_lookup::bare(records, u);
    }
    None
}

// What a union's value begins with.
pub fn choose(records: &Records, s: &[u8], f: Frame, u: usize) -> Result<Choice, Refusal>
    requires s_bound { f.base + length s.now ≤ message_limit }
    requires searchable { Searchable records.now.table.now records.now.unpacked.now records.now.count }
    ensures { ChoiceAt records.now s.now f u result }
{
    let c = Cursor { at: f.at };
    let h = c.head(s);
    let a = h.start;
    let past = h.past;
    match h.kind {
        TokenKind::Word => {
            let word = &s[a..past.at];
            match bare_for(records, u, word) {
                Some(q) => match message_lookup::judge(records, q, word, false) {
                    Ok(()) => Ok(Choice::Last(q, a, past)),
                    Err(rule) => Err(Refusal {
                        rule,
                        place: f.base + a,
                    }),
                },
                None => alternative(records, s, f, u, a, past),
            }
        }
        _ => Err(Refusal {
            rule: message_frame::unfit(h.kind),
            place: f.base + a,
        }),
    }
}
