// Unknown parts of a message, passed over: braces, a value, a list.
// s is the message from base on. It is short, so that no sum of places overflows.
#![tactic(auto)]

ghost use Rattle.std.specs.Prelude.{ℕ, ◌+◌, ◌≤◌, length};
ghost use Rattle.numbers.specs.Limits.{message_limit};
ghost use Rattle.message_unknown.specs.Passing.{braces_from, unknown_from, unknowns_from, PassesTo};

use message_tokens::{Cursor, TokenKind};
use numbers::{Refusal, Rule};

// Past the closing brace of unknown braces: s starts after the opening one.
pub fn braces(s: &[u8], base: usize) -> Result<Cursor, Refusal>
    requires { base + length s.now ≤ message_limit }
    ensures { PassesTo (braces_from base s.now 0 0) base s.now 0 result }
{
    let mut u = Cursor { at: 0 };
    let mut open: usize = 0;
    loop {
        let h = u.head(s);
        match h.kind {
            TokenKind::Nothing => {
                return Err(Refusal {
                    rule: Rule::MessageForms,
                    place: base + h.start,
                });
            }
            TokenKind::Opening => open += 1,
            TokenKind::Closing => {
                let is_last = open == 0;
                if is_last {
                    return Ok(h.past);
                }
                open -= 1;
            }
            _ => {}
        }
        u = h.past;
    }
}

// The same from a brace that ends at past: the part after it is handed on.
fn braces_at(s: &[u8], base: usize, past: Cursor) -> Result<Cursor, Refusal>
    requires { (base + length s.now ≤ message_limit) × (past.at ≤ length s.now) }
    ensures { PassesTo (braces_from base s.now past.at 0) base s.now past.at result }
{
    let e = past.at;
    let v = braces(&s[e..], base + e)?;
    Ok(Cursor { at: e + v.at })
}

// Past an unknown value: a loop down a row of words with `=` between.
fn value(s: &[u8], base: usize, first: Cursor) -> Result<Cursor, Refusal>
    requires { base + length s.now ≤ message_limit }
    ensures { PassesTo (unknown_from base s.now first.at) base s.now first.at result }
{
    let mut u = first;
    loop {
        let h = u.head(s);
        match h.kind {
            TokenKind::Word => {}
            TokenKind::String => return Ok(h.past),
            TokenKind::Opening => return braces_at(s, base, h.past),
            _ => {
                return Err(Refusal {
                    rule: Rule::MessageForms,
                    place: base + h.start,
                });
            }
        }
        let next = h.past.head(s);
        match next.kind {
            TokenKind::Equals => u = next.past,
            _ => return Ok(h.past),
        }
    }
}

// Past a list of unknown values.
pub fn list(s: &[u8], base: usize, first: Cursor) -> Result<Cursor, Refusal>
    requires { base + length s.now ≤ message_limit }
    ensures { PassesTo (unknowns_from base s.now first.at) base s.now first.at result }
{
    let mut u = first;
    loop {
        let past = value(s, base, u)?;
        let h = past.head(s);
        match h.kind {
            TokenKind::Comma => u = h.past,
            _ => return Ok(past),
        }
    }
}
