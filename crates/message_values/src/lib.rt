// What a reader decides at a value's token and at a struct's braces: each function renders a row of the decision table.
// s is the message from base on. It is short, and the rows so far are few (`Room`), so that no sum of places overflows.
#![tactic(auto)]

ghost use Rattle.std.specs.Prelude.{◌≡◌, ◌≢◌, OnErr, ◌+◌, ◌-◌, ◌≤◌, ◌<◌, length};
ghost use Rattle.numbers.specs.Limits.{message_limit};
ghost use Rattle.reading_rules.specs.Parse.{simple_at};
ghost use Rattle.message_tokens.specs.Cursor.{part};
ghost use Rattle.message_unknown.specs.Along.{tokens_at};
ghost use Rattle.message_lookup.specs.Questions.{schema_of_records, broken_number};
ghost use Rattle.message_frame.specs.Ends.{Room, EndsValue};
ghost use Rattle.message_values.specs.Values.{LeafAt, NoValue, OpenedAt, ShutAt};

use message_frame::{Done, Frame};
use message_rows::Row;
use message_tokens::{Cursor, TokenKind};
use numbers::{Refusal, Rule};
use table_records::Records;

// ---- values

// No value of the parameter can be.
pub fn no_value(s: &[u8], f: Frame) -> Result<Done, Refusal>
    requires { f.base + length s.now ≤ message_limit }
    ensures { NoValue s.now f result }
{
    let u = Cursor { at: f.at };
    let h = u.head(s);
    Err(Refusal {
        rule: message_frame::unfit(h.kind),
        place: f.base + h.start,
    })
}

// A token that was judged, from start to past.
fn leaf(
    rows: &mut [u32],
    f: Frame,
    judgement: Result<(), Rule>,
    start: usize,
    past: Cursor,
) -> Result<Done, Refusal>
    requires broken { OnErr judgement (broken_number judgement ≢ 0) }
    requires at_bound { (f.base + past.at ≤ message_limit) × (start ≤ past.at) }
    requires row_bound { (f.row < 4294967296) × (f.parent < 4294967296) × (f.parameter < 4294967296) × (f.index < 4294967296) }
    ensures { LeafAt f (broken_number judgement) start past.at rows.old rows.new result }
{
    if let Err(rule) = judgement {
        return Err(Refusal {
            rule,
            place: f.base + start,
        });
    }
    message_rows::put_row(
        rows,
        f.row,
        Row {
            parameter: f.parameter,
            parent: f.parent,
            start: f.base + start,
            end: f.base + past.at,
            index: f.index,
        },
    );
    Ok(Done {
        past,
        row: f.row + 1,
    })
}

// What stands between the quotes of the string from a to e.
fn between(s: &[u8], a: usize, e: usize) -> &[u8]
    requires { (a < e) × (e ≤ length s.now) }
    ensures { result.now ≡ part s.now (a + 1) (e - 1) }
{
    s.get(a + 1..e - 1).unwrap_or(&[])
}

// A value of a simple type, whose record is u.
pub fn simple(
    records: &Records,
    s: &[u8],
    rows: &mut [u32],
    f: Frame,
    u: usize,
) -> Result<Done, Refusal>
    requires room { Room f (length s.now) records.now.count }
    requires parameter_lt_n { f.parameter < records.now.count }
    ensures { EndsValue (simple_at (schema_of_records records.now) u (tokens_at f.base s.now f.at)) s.now f rows.old rows.new result }
{
    let c = Cursor { at: f.at };
    let h = c.head(s);
    let a = h.start;
    let past = h.past;
    let e = past.at;
    match h.kind {
        TokenKind::Word => leaf(
            rows,
            f,
            message_lookup::judge(records, u, &s[a..e], false),
            a,
            past,
        ),
        TokenKind::String => leaf(
            rows,
            f,
            message_lookup::judge(records, u, between(s, a, e), true),
            a,
            past,
        ),
        _ => Err(Refusal {
            rule: message_frame::unfit(h.kind),
            place: f.base + a,
        }),
    }
}

// ---- structs

// A brace: where it starts, and the cursor past it.
#[derive(Clone, Copy)]
pub struct Brace {
    pub start: usize,
    pub past: Cursor,
}

// The `{` of a struct.
pub fn open_brace(s: &[u8], f: Frame) -> Result<Brace, Refusal>
    requires { f.base + length s.now ≤ message_limit }
    ensures { OpenedAt s.now f result }
{
    let u = Cursor { at: f.at };
    let h = u.head(s);
    match h.kind {
        TokenKind::Opening => Ok(Brace {
            start: h.start,
            past: h.past,
        }),
        _ => Err(Refusal {
            rule: message_frame::unfit(h.kind),
            place: f.base + h.start,
        }),
    }
}

// The `}` after a body that ended at at, and the row over all from start on.
pub fn shut(
    s: &[u8],
    rows: &mut [u32],
    f: Frame,
    start: usize,
    at: usize,
    row: usize,
) -> Result<Done, Refusal>
    requires s_bound { (f.base + length s.now ≤ message_limit) × (start ≤ length s.now) }
    requires row_bound { (f.row < 4294967296) × (f.parent < 4294967296) × (f.parameter < 4294967296) × (f.index < 4294967296) }
    ensures { ShutAt s.now f start at row rows.old rows.new result }
{
    let u = Cursor { at };
    let h = u.head(s);
    let past = h.past;
    match h.kind {
        TokenKind::Closing => {
            message_rows::put_row(
                rows,
                f.row,
                Row {
                    parameter: f.parameter,
                    parent: f.parent,
                    start: f.base + start,
                    end: f.base + past.at,
                    index: f.index,
                },
            );
            Ok(Done { past, row })
        }
        _ => Err(Refusal {
            rule: Rule::MessageForms,
            place: f.base + h.start,
        }),
    }
}
