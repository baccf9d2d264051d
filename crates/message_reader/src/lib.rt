// The readers of a message: body, list and value call each other, and fill rows into a lent slice.
// s is the message from base on, or a part of it that starts after a brace. It is short, and the rows so far are few
// (`Room`), so that no sum of places overflows.
#![tactic(auto)]

ghost use Rattle.std.specs.Prelude.{◌≡◌, true, List, [], ℕ, ◌+◌, ◌≤◌, ◌<◌, length, IfSome};
ghost use Rattle.numbers.specs.Limits.{message_limit};
ghost use Rattle.reading_rules.specs.Parse.{struct_at, whole_list, lists_at, body_at};
ghost use Rattle.table_tags.specs.Search.{Searchable};
ghost use Rattle.message_lookup.specs.Questions.{schema_of_records, untagged_in};
ghost use Rattle.message_lookup.specs.IntList.{IntsOf};
ghost use Rattle.message_frame.specs.Ends.{Room, Ends, EndsValue};
ghost use Rattle.message_reader.specs.Turning.{values_of, here, TakenAt, ElementAt, Bodying, PartAt, Marked, PlainAt, WholeAt, is_union, moved_of, next_of, field_of, under_of, inner_of, deeper_of, open_row};

use message_bodies::{Item, Start};
use message_choices::Choice;
use message_frame::{Done, Frame};
use message_lists::Taken;
use message_lookup::{Ints, Shape};
use message_rows::Row;
use message_tokens::Cursor;
use numbers::{Refusal, Rule};
use table_records::Records;

// ---- frames

// The same frame further on.
fn moved(f: Frame, v: Cursor, row: usize) -> Frame
    ensures { result ≡ moved_of f v.at row }
{
    Frame { at: v.at, row, ..f }
}

// The frame of a list's next value, under the row that the list stands under.
fn next_value(f: Frame, v: Cursor, row: usize, up: usize) -> Frame
    requires { f.index < 4294967296 }
    ensures { result ≡ next_of f v.at row up }
{
    Frame {
        at: v.at,
        row,
        parent: up,
        index: f.index + 1,
        ..f
    }
}

// The same frame for the first value of a field.
fn for_field(f: Frame, v: Cursor, q: usize) -> Frame
    ensures { result ≡ field_of f v.at q }
{
    Frame {
        at: v.at,
        parameter: q,
        index: 0, // each list counts anew
        ..f
    }
}

// The frame of what a choice holds, under the row that the choice has.
fn under(f: Frame, v: Cursor, q: usize) -> Frame
    requires { f.row < 4294967296 }
    ensures { result ≡ under_of f v.at q }
{
    Frame {
        at: v.at,
        row: f.row + 1,
        parameter: q,
        parent: f.row,
        index: 0, // an alternative stands in no list
        ..f
    }
}

// The frame of the body of u that starts after a brace, in the part from e on.
fn inner(f: Frame, e: usize, u: usize) -> Frame
    requires { (f.row < 4294967296) × (f.base + e ≤ message_limit) }
    ensures { result ≡ inner_of f e u }
{
    Frame {
        base: f.base + e,
        at: 0,
        row: f.row + 1,
        parameter: u,
        parent: f.row,
        index: 0,
        ..f
    }
}

// A body's frame for what stands in it: one brace less may open.
fn deeper(f: Frame) -> Frame
    requires { 0 < f.depth }
    ensures { result ≡ deeper_of f }
{
    Frame {
        depth: f.depth - 1,
        ..f
    }
}

// ---- values, down chains of choices

fn is_union(records: &Records, u: usize) -> bool
    ensures { result ≡ is_union ((schema_of_records records.now).kind u) }
{
    matches!(message_lookup::kind(records, u), Shape::Union)
}

// The two rows of a choice that is whole: the value's and the alternative's.
fn whole(rows: &mut [u32], f: Frame, q: usize, start: usize, past: Cursor) -> Done
    requires at_bound { (f.base + past.at ≤ message_limit) × (start ≤ past.at) }
    requires row_bound { (f.row < 65536) × (f.parent < 4294967296) × (f.parameter < 4294967296) × (f.index < 4294967296) × (q < 4294967296) }
    ensures { WholeAt f q start past.at rows.old rows.new result }
{
    let row = f.row;
    let end = f.base + past.at;
    message_rows::put_row(
        rows,
        row,
        Row {
            parameter: f.parameter,
            parent: f.parent,
            start: f.base + start,
            end,
            index: f.index,
        },
    );
    message_rows::put_row(
        rows,
        row + 1,
        Row {
            parameter: q,
            parent: row,
            start: f.base + start,
            end,
            index: 0, // the alternative's
        },
    );
    Done { past, row: row + 2 }
}

// A row of a choice whose end is not known yet.
fn open_row(rows: &mut [u32], f: Frame, start: usize)
    requires start_bound { f.base + start ≤ message_limit }
    requires row_bound { (f.row < 4294967296) × (f.parent < 4294967296) × (f.parameter < 4294967296) × (f.index < 4294967296) }
    ensures { rows.new ≡ open_row f start rows.old }
{
    message_rows::put_row(
        rows,
        f.row,
        Row {
            parameter: f.parameter,
            parent: f.parent,
            start: f.base + start,
            end: 0,
            index: f.index,
        },
    );
}

// Any value: a loop down a chain of choices, whose rows are neighbours with one end, then a value that is no choice.
#[cycle(reading)]
fn value(records: &Records, s: &[u8], rows: &mut [u32], f: Frame) -> Result<Done, Refusal>
    requires room { Room f (length s.now) records.now.count }
    requires searchable { Searchable records.now.table.now records.now.unpacked.now records.now.count }
    requires parameter_lt_n { f.parameter < records.now.count }
    ensures { EndsValue (values_of (schema_of_records records.now) f.depth f.parameter (here s.now f)) s.now f rows.old rows.new result }
{
    let mut g = f;
    loop {
        let u = message_lookup::core(records, g.parameter);
        if is_union(records, u) {
            match message_choices::choose(records, s, g, u)? {
                Choice::Deeper(q, a, v) => {
                    open_row(rows, g, a);
                    g = under(g, v, q);
                }
                Choice::Last(q, a, v) => {
                    let done = whole(rows, g, q, a, v);
                    message_rows::put_ends(rows, f.row, g.row, f.base + done.past.at);
                    return Ok(done);
                }
            }
        } else {
            let done = plain_value(records, s, rows, g, u)?;
            message_rows::put_ends(rows, f.row, g.row, f.base + done.past.at);
            return Ok(done);
        }
    }
}

// ---- values that are no choices

// A struct's value: the part after its brace is handed on to the reader of its body.
#[cycle(reading)]
fn braced(
    records: &Records,
    s: &[u8],
    rows: &mut [u32],
    f: Frame,
    u: usize,
) -> Result<Done, Refusal>
    requires room { Room f (length s.now) records.now.count }
    requires searchable { Searchable records.now.table.now records.now.unpacked.now records.now.count }
    requires parameter_lt_n { f.parameter < records.now.count }
    ensures { EndsValue (struct_at (body_at (schema_of_records records.now) f.depth true) u (here s.now f)) s.now f rows.old rows.new result }
{
    let brace = message_values::open_brace(s, f)?;
    let e = brace.past.at;
    let done = body(records, &s[e..], rows, inner(f, e, u), true)?;
    message_values::shut(s, rows, f, brace.start, e + done.past.at, done.row)
}

// A value of what is no union: f.parameter's, whose own kind is that of u.
#[cycle(reading)]
fn plain_value(
    records: &Records,
    s: &[u8],
    rows: &mut [u32],
    f: Frame,
    u: usize,
) -> Result<Done, Refusal>
    requires room { Room f (length s.now) records.now.count }
    requires searchable { Searchable records.now.table.now records.now.unpacked.now records.now.count }
    requires parameter_lt_n { f.parameter < records.now.count }
    requires u_value { u ≡ (schema_of_records records.now).core f.parameter }
    ensures { PlainAt (schema_of_records records.now) s.now f rows.old rows.new result }
{
    match message_lookup::kind(records, u) {
        Shape::Simple => message_values::simple(records, s, rows, f, u),
        Shape::Struct => braced(records, s, rows, f, u),
        _ => message_values::no_value(s, f),
    }
}

// ---- lists

// The value of a list, quickly where it is plain digits of a list of ints.
#[cycle(reading)]
fn list_value(
    records: &Records,
    s: &[u8],
    rows: &mut [u32],
    f: Frame,
    ints: Option<Ints>,
) -> Result<Taken, Refusal>
    requires room { Room f (length s.now) records.now.count }
    requires searchable { Searchable records.now.table.now records.now.unpacked.now records.now.count }
    requires parameter_lt_n { f.parameter < records.now.count }
    requires ints_of { IfSome ints (λ e. IntsOf (schema_of_records records.now) f.parameter e) }
    ensures { TakenAt (schema_of_records records.now) s.now f rows.old rows.new result }
{
    match message_lists::quick_int(records, s, rows, f, ints) {
        Some(taken) => Ok(taken),
        None => {
            let done = value(records, s, rows, f)?;
            Ok(Taken::Last(done.past, done.row))
        }
    }
}

// The value of a list, and what follows it.
#[cycle(reading)]
fn element(
    records: &Records,
    s: &[u8],
    rows: &mut [u32],
    f: Frame,
    ints: Option<Ints>,
) -> Result<Taken, Refusal>
    requires room { Room f (length s.now) records.now.count }
    requires searchable { Searchable records.now.table.now records.now.unpacked.now records.now.count }
    requires parameter_lt_n { f.parameter < records.now.count }
    requires ints_of { IfSome ints (λ e. IntsOf (schema_of_records records.now) f.parameter e) }
    ensures { ElementAt (schema_of_records records.now) s.now f rows.old rows.new result }
{
    match list_value(records, s, rows, f, ints)? {
        Taken::On(v, m) => Ok(Taken::On(v, m)),
        Taken::Last(v, m) => {
            match message_lists::after_value(records, s, f.base, f.parameter, v, f.index + 1)? {
                Some(w) => Ok(Taken::On(w, m)),
                None => Ok(Taken::Last(v, m)),
            }
        }
    }
}

// The whole list of a field, whose first value f is for.
#[cycle(reading)]
fn list(records: &Records, s: &[u8], rows: &mut [u32], f: Frame) -> Result<Done, Refusal>
    requires room { Room f (length s.now) records.now.count }
    requires searchable { Searchable records.now.table.now records.now.unpacked.now records.now.count }
    requires parameter_lt_n { (f.parameter < records.now.count) × (f.index ≡ 0) }
    ensures { Ends (whole_list (schema_of_records records.now) (values_of (schema_of_records records.now) f.depth) f.parameter (here s.now f)) s.now f rows.old rows.new 1 result }
{
    let ints = message_lookup::ints_of(records, f.parameter);
    let mut g = f;
    loop {
        match element(records, s, rows, g, ints)? {
            Taken::On(v, next) => {
                g = next_value(g, v, next, g.parent);
            }
            Taken::Last(past, row) => return Ok(Done { past, row }),
        }
    }
}

// ---- bodies

// What stands next in a body: the list of the field q, due at the cursor, after which the untagged fields from record i on
// are left; an item that is read, up to the cursor, the next row, and the record that the next tag is looked for from; or the
// body's end.
#[derive(Clone, Copy)]
enum Part {
    List(usize, Cursor, usize),
    On(Cursor, usize, usize),
    Done(Cursor, usize),
}

// One item after the untagged fields. Its field is marked. Its tag is looked for from a record on and round.
fn item(
    records: &Records,
    s: &[u8],
    rows: &mut [u32],
    f: Frame,
    inside: bool,
    seen: &mut [bool; numbers::PARAMETER_LIMIT],
    from: usize,
) -> Result<Part, Refusal>
    requires room { Room f (length s.now) records.now.count }
    requires searchable { Searchable records.now.table.now records.now.unpacked.now records.now.count }
    requires marked { Marked seen.old }
    ensures { (e : Frame) (before : List ℕ) → Bodying (schema_of_records records.now) s.now e f inside before rows.old seen.old [] → PartAt records.now s.now e f inside before rows.new seen.new result }
{
    match message_bodies::item_at(records, s, f, inside, seen, from)? {
        Item::End => Ok(Part::Done(Cursor { at: f.at }, f.row)),
        Item::Void(q, a, v) => {
            message_lookup::mark(seen, q);
            message_rows::put_row(
                rows,
                f.row,
                Row {
                    parameter: q,
                    parent: f.parent,
                    start: f.base + a,
                    end: f.base + v.at,
                    index: 0, // a void's
                },
            );
            Ok(Part::On(v, f.row + 1, q + 1))
        }
        Item::List(q, v) => {
            message_lookup::mark(seen, q);
            Ok(Part::List(q, v, records.count))
        }
        Item::Unknown(v) => Ok(Part::On(v, f.row, from)),
    }
}

// The list of the next untagged field from record i on, or the body's end in its place; where none is left, an item.
fn next_part(
    records: &Records,
    s: &[u8],
    rows: &mut [u32],
    f: Frame,
    inside: bool,
    seen: &mut [bool; numbers::PARAMETER_LIMIT],
    i: usize,
    from: usize,
) -> Result<Part, Refusal>
    requires room { Room f (length s.now) records.now.count }
    requires searchable { Searchable records.now.table.now records.now.unpacked.now records.now.count }
    requires marked { Marked seen.old }
    ensures { (e : Frame) (before : List ℕ) → Bodying (schema_of_records records.now) s.now e f inside before rows.old seen.old (untagged_in records.now f.parameter i) → PartAt records.now s.now e f inside before rows.new seen.new result }
{
    match message_lookup::next_untagged(records, f.parameter, i) {
        None => item(records, s, rows, f, inside, seen, from),
        Some(q) => {
            let v = Cursor { at: f.at };
            match message_bodies::field_at(records, s, for_field(f, v, q), inside)? {
                Start::List => Ok(Part::List(q, v, q + 1)),
                Start::End => Ok(Part::Done(v, f.row)),
            }
        }
    }
}

// The untagged fields' lists in order, then the items: one loop, so that one place calls `list`, which is then inlined.
// Each tag is looked for from behind the field found last, so that items in the table's order are found at once.
#[cycle(reading)]
fn fields(
    records: &Records,
    s: &[u8],
    rows: &mut [u32],
    f: Frame,
    inside: bool,
) -> Result<Done, Refusal>
    requires room { Room f (length s.now) records.now.count }
    requires searchable { Searchable records.now.table.now records.now.unpacked.now records.now.count }
    ensures { Ends (lists_at (schema_of_records records.now) (values_of (schema_of_records records.now) f.depth) inside f.parameter ((schema_of_records records.now).untagged f.parameter) (here s.now f)) s.now f rows.old rows.new 0 result }
{
    let mut seen = [false; numbers::PARAMETER_LIMIT];
    let mut g = f;
    let mut i: usize = 0;
    let mut from = f.parameter;
    loop {
        match next_part(records, s, rows, g, inside, &mut seen, i, from)? {
            Part::List(q, v, next) => {
                let due = for_field(g, v, q);
                let done = list(records, s, rows, due)?;
                g = moved(g, done.past, done.row);
                i = next;
                from = q + 1;
            }
            Part::On(v, m, next) => {
                g = moved(g, v, m);
                i = records.count;
                from = next;
            }
            Part::Done(past, row) => return Ok(Done { past, row }),
        }
    }
}

// The body of f.parameter, inside braces or the root's. Its refusal by `Depth` never shows where the braces are at most as deep as f.depth says.
#[cycle(reading)]
pub fn body(
    records: &Records,
    s: &[u8],
    rows: &mut [u32],
    f: Frame,
    inside: bool,
) -> Result<Done, Refusal>
    requires room { Room f (length s.now) records.now.count }
    requires searchable { Searchable records.now.table.now records.now.unpacked.now records.now.count }
    ensures { Ends (body_at (schema_of_records records.now) f.depth inside f.parameter (here s.now f)) s.now f rows.old rows.new 0 result }
{
    if f.depth == 0 {
        let u = Cursor { at: f.at };
        let h = u.head(s);
        return Err(Refusal {
            rule: Rule::Depth,
            place: f.base + h.start,
        });
    }
    fields(records, s, rows, deeper(f), inside)
}
