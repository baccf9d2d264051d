// What a reader decides after a value of a list, and of an int in plain digits at once, the row of which it writes.
// s is the message from base on. It is short, and the rows so far are few (`Room`), so that no sum of places overflows.
#![tactic(auto)]

ghost use Rattle.std.specs.Prelude.{◌≡◌, ◌+◌, ◌≤◌, ◌<◌, length, true, IfSome};
ghost use Rattle.numbers.specs.Limits.{message_limit};
ghost use Rattle.message_lookup.specs.Questions.{schema_of_records};
ghost use Rattle.message_lookup.specs.IntList.{IntsOf};
ghost use Rattle.message_frame.specs.Ends.{Room};
ghost use Rattle.message_lists.specs.Quickly.{Takes, int_row, QuickAt};
ghost use Rattle.message_lists.specs.Lists.{AfterAt};

use message_frame::Frame;
use message_lookup::Ints;
use message_rows::Row;
use message_tokens::{Cursor, Digits, TokenKind};
use numbers::{Refusal, Rule};
use table_records::Records;

// What follows the c-th value of the field q, which ends at v: the cursor past a comma, where another value is due.
pub fn after_value(
    records: &Records,
    s: &[u8],
    base: usize,
    q: usize,
    v: Cursor,
    c: usize,
) -> Result<Option<Cursor>, Refusal>
    requires { base + length s.now ≤ message_limit }
    ensures { AfterAt (schema_of_records records.now) s.now base q v.at c result }
{
    if v.lacks_comma(s) {
        if message_lookup::lo(records, q) <= c {
            return Ok(None);
        }
    }
    let h = v.head(s);
    let refusal = Refusal {
        rule: Rule::ValueCount,
        place: base + h.start,
    };
    match h.kind {
        TokenKind::Comma if message_lookup::may_grow(message_lookup::hi(records, q), c) => {
            Ok(Some(h.past))
        }
        TokenKind::Comma => Err(refusal),
        _ => {
            if message_lookup::lo(records, q) <= c {
                Ok(None)
            } else {
                Err(refusal)
            }
        }
    }
}

// A value of a list that is read, and the next row: On, up to the cursor past a comma, behind which another is due; Last, up
// to the cursor. A cursor that shares its place with no tag stays in one register, so no `Done` stands in it.
#[derive(Clone, Copy)]
pub enum Taken {
    On(Cursor, usize),
    Last(Cursor, usize),
}

// The packed digits d are a value of the list.
fn takes(e: Ints, d: u64) -> bool
    ensures { result ≡ true → Takes e d }
{
    (e.least <= d) & (d <= e.most)
}

// The row of an int that ends at end.
fn int_row(rows: &mut [u32], f: Frame, end: usize)
    requires end_bound { (f.base + end ≤ message_limit) × (f.at ≤ end) }
    requires row_bound { (f.row < 4294967296) × (f.parent < 4294967296) × (f.parameter < 4294967296) × (f.index < 4294967296) }
    ensures { rows.new ≡ int_row f end rows.old }
{
    message_rows::put_row(
        rows,
        f.row,
        Row {
            parameter: f.parameter,
            parent: f.parent,
            start: f.base + f.at,
            end: f.base + end,
            index: f.index,
        },
    );
}

// The value of a list of ints, where it is plain digits: On, where a comma follows at once and another value may; else Last,
// up to the digits' end, whatever follows. None, with nothing written, where a value has to be read.
pub fn quick_int(
    records: &Records,
    s: &[u8],
    rows: &mut [u32],
    f: Frame,
    ints: Option<Ints>,
) -> Option<Taken>
    requires room { Room f (length s.now) records.now.count }
    requires parameter_lt_n { f.parameter < records.now.count }
    requires ints_of { IfSome ints (λ e. IntsOf (schema_of_records records.now) f.parameter e) }
    ensures { QuickAt (schema_of_records records.now) s.now f rows.old rows.new result }
{
    let Some(e) = ints else {
        return None;
    };
    match message_tokens::digits_at(s, f.at) {
        Digits::Other => None,
        Digits::Before(end, d) => {
            if takes(e, d) & (f.index + 1 < e.hi) {
                int_row(rows, f, end);
                return Some(Taken::On(Cursor { at: end + 1 }, f.row + 1));
            }
            None
        }
        Digits::Number(end, d) => {
            if takes(e, d) {
                int_row(rows, f, end);
                return Some(Taken::Last(Cursor { at: end }, f.row + 1));
            }
            None
        }
    }
}
