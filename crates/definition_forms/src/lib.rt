// The forms of a definition: refusals 3 and 4, and the declarations noted in a lent row of numbers.
#![tactic(auto)]

ghost use Rattle.std.specs.Prelude.{◌≡◌, true, [], ◌*◌, ◌≤◌, length};
ghost use Rattle.classes.specs.Bytes.{is_mark};
ghost use Rattle.definition_cells.specs.Cells.{cell_width};
ghost use Rattle.numbers.specs.Limits.{text_limit, parameter_limit};
ghost use Rattle.definition_rules.specs.Scan.{items_of};
ghost use Rattle.definition_rules.specs.Compile.{faults2};
ghost use Rattle.definition_automaton.specs.Acts.{type_kind, run_kind};
ghost use Rattle.definition_automaton.specs.Codes.{token_number, stand_of};
ghost use Rattle.definition_forms.specs.Sees.{Sees, sight_of, finish_of};
ghost use Rattle.definition_forms.specs.Formed.{stuck_refusal, FormedAs};

use definition_automaton::{Mode, Span, State, Token};
use definition_scanner::{Cursor, Lexeme};
use numbers::{Refusal, Rule};

// The token that stands next, and where it starts and ends.
#[derive(Clone, Copy)]
pub struct Seen {
    pub kind: Token,
    pub start: usize,
    pub end: usize,
}

// The token that a mark is.
#[tactic(auto, unfolding(classes::specs::Bytes::is_mark))]
fn mark_token(b: u8) -> Token
    requires { is_mark b ≡ true }
    ensures { token_number result ≡ b }
{
    match b {
        b'<' => Token::RangeOpens,
        b'>' => Token::RangeCloses,
        b'[' => Token::BracketOpens,
        b']' => Token::BracketCloses,
        b'{' => Token::BraceOpens,
        b'}' => Token::BraceCloses,
        b';' => Token::Semicolon,
        _ => Token::Question,
    }
}

// The token that a run is which names a type of a kind.
#[tactic(auto, unfolding(definition_automaton::specs::Acts::type_kind, classes::specs::Lists::pick))]
fn type_token(kind: u32) -> Token
    ensures { token_number result ≡ type_kind kind }
{
    match kind {
        numbers::REFERENCE => Token::Reference,
        numbers::INT..=numbers::UNQUOTED => Token::RangedType,
        numbers::STRUCT.. => Token::CompoundType,
        _ => Token::SimpleType,
    }
}

// The token that a run is.
#[tactic(auto, unfolding(definition_automaton::specs::Acts::run_kind, classes::specs::Lists::pick))]
fn run_token(w: &[u8]) -> Token
    ensures { token_number result ≡ run_kind w.now }
{
    if definition_words::is_as(w) {
        return Token::As;
    }
    if definition_words::is_plugin(w) {
        return Token::Plugin;
    }
    type_token(definition_words::kind_of_run(w))
}

fn seen_from(c: Cursor, text: &[u8]) -> Seen
    ensures { Sees text.now c.at (sight_of result) }
{
    match c.next(text) {
        Lexeme::Run(start, past) => Seen {
            kind: run_token(classes::part(text, start, past.at)),
            start,
            end: past.at,
        },
        Lexeme::Mark(b, start, past) => Seen {
            kind: mark_token(b),
            start,
            end: past.at,
        },
        Lexeme::Bad(start) => Seen {
            kind: Token::Bad,
            start,
            end: start + 1,
        },
        Lexeme::End => Seen {
            kind: Token::End,
            start: text.len(),
            end: text.len(),
        },
    }
}

// The tokens don't fit the forms, from a place on.
fn stuck(place: usize) -> Refusal
    ensures { result ≡ stuck_refusal place }
{
    Refusal {
        rule: Rule::DefinitionForms,
        place,
    }
}

#[tactic(auto, unfolding(crate::specs::Sees::finish_of, classes::specs::Lists::pick))]
fn finish(st: State, len: usize) -> Result<usize, Refusal>
    ensures { result ≡ finish_of (stand_of st) len }
{
    if st.mode != Mode::AtStart || st.depth != 0 || st.count == 0 {
        return Err(stuck(len));
    }
    if numbers::PARAMETER_LIMIT < st.count {
        return Err(Refusal {
            rule: Rule::ParameterCount,
            place: st.over,
        });
    }
    Ok(st.count)
}

// Reads the forms of a text without a fault of number 2 and notes the first 256 declarations: how many there are.
// Refused where a token can't go on (number 3), or at the 257th name (4).
// A text has at most 65,535 bytes (number 1), so that its places fit the row's numbers, and the row has 16 for each declaration.
// It fills the cells that `Declarations` then lends.
pub fn forms(text: &[u8], cells: &mut [u32]) -> Result<usize, Refusal>
    requires text_len_bound { length text.now ≤ text_limit }
    requires parameter_limit_in_bounds { cell_width * parameter_limit ≤ length cells.old }
    ensures { faults2 (items_of text.now) ≡ [] → FormedAs text.now cells.new result }
{
    let mut x = seen_from(Cursor { at: 0 }, text);
    let mut st = definition_automaton::start();
    let mut p = definition_automaton::nothing();
    while x.kind != Token::End {
        let act = definition_automaton::act(st.mode, st.context(), p.kind, x.kind);
        let is_stuck = act.is_none();
        if is_stuck {
            return Err(stuck(x.start));
        }
        definition_automaton::note(st, p, act, cells);
        st = st.acted(act, p.name.start as usize);
        let run = Span {
            start: x.start as u32,
            end: x.end as u32,
        };
        p = p.read(act, x.kind, run);
        x = seen_from(Cursor { at: x.end }, text);
    }
    finish(st, text.len())
}
