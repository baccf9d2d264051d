// What a message refused with 24, 27 or 30 lacks: the type or the range that is wanted at the place, or the fields that
// are missing.
// The reader answers a number and a place. To tell whose value or body it is, the message is cut at the place, its braces
// are closed, and it is read again by a relaxed table, whose rows say so. Up to the place both tables read the same.
#![tactic(auto)]

ghost use Rattle.std.specs.Prelude.{◌≡◌};
ghost use Rattle.text.specs.Text.{Added};
ghost use Rattle.table_records.specs.Shown.{held_record};
ghost use Rattle.cli_wanted.specs.Wanted.{resolved_in, type_of, is_choice, span_text, allowed_of, choice_text, wanted_text, wanted_range_text};

mod again;
mod relaxed;

use again::{body_row, due_at, read_cut};
use cli_report::Rows;
use cli_tables::{Tables, records_of};
use numbers::Rule;
use relaxed::relaxed;
use table_records::Records;
use text::Page;

// The record that has a parameter's kind, range and body: a reference's target, or its own.
fn resolved(records: &Records, p: usize) -> usize
    ensures { result ≡ resolved_in records.now.table.now records.now.unpacked.now p }
{
    if records.kind_at(p) == numbers::REFERENCE {
        return records.target_at(p);
    }
    p
}

// ---- 27

fn is_required(records: &Records, k: usize) -> bool {
    0 < records.lo_count_at(k) && !records.extension_at(k) && !records.plugin_at(k)
}

// Has the body of a row a value of parameter k?
fn is_given(rows: &Rows, body: usize, k: usize) -> bool {
    (0..rows.count).any(|i| {
        let row = rows.row(i);
        row.parent as usize == body && row.parameter as usize == k
    })
}

// Is parameter k a required field of record s that the body of a row has not?
fn is_missing(records: &Records, s: usize, rows: &Rows, body: usize, k: usize) -> bool {
    records.is_under(k, s) && is_required(records, k) && !is_given(rows, body, k)
}

// "missing: surveyed, d": the required fields of record s that the body of a row has not.
fn put_missing(page: &mut Page, records: &Records, s: usize, rows: &Rows, body: usize) {
    page.text(b"missing: ");
    let mut gap: &[u8] = b"";
    for k in 0..records.count {
        if is_missing(records, s, rows, body, k) {
            page.text(gap);
            page.text(records.label_at(k));
            gap = b", ";
        }
    }
    page.byte(b'\n');
}

fn say_missing(page: &mut Page, tables: Tables, message: &[u8], place: usize, numbers: &mut [u32]) {
    let mut buf = io::large_buffer();
    let relaxed = relaxed(tables.table, &mut buf);
    let rows = read_cut(relaxed, message, place, b"", numbers);
    let Some(body) = body_row(&rows, message, place) else {
        return;
    };
    let mut unpacked = [0u32; table_records::ALL_CELLS];
    let records = records_of(tables.named, &mut unpacked);
    let s = resolved(&records, rows.row(body).parameter as usize);
    put_missing(page, &records, s, &rows, body);
}

// ---- 24 and 30

// "int<1..99999>", "date".
fn put_type(page: &mut Page, records: &Records, t: usize)
    ensures { Added (type_of records.now.table.now records.now.unpacked.now t) page.old page.new }
{
    let kind = records.kind_at(t);
    cli_wording::put_kind(page, kind);
    if (kind < numbers::INT) | (numbers::UNQUOTED < kind) {
        return;
    }
    page.byte(b'<');
    cli_report::put_bounds(page, records.least_at(t), records.most_at(t));
    page.byte(b'>');
}

// Is a parameter the int that a union takes without a tag?
fn is_choice(records: &Records, p: usize) -> bool
    ensures { result ≡ is_choice records.now.table.now records.now.unpacked.now p }
{
    let parent = records.parent_at(p);
    records.untagged_at(p) & (records.kind_at(parent) == numbers::UNION)
}

// "1 to 99999".
fn put_span(page: &mut Page, records: &Records, t: usize)
    ensures { Added (span_text (held_record records.now t).least (held_record records.now t).most) page.old page.new }
{
    cli_report::put_int(page, records.least_at(t));
    page.text(b" to ");
    cli_report::put_int(page, records.most_at(t));
}

// What a type allows: ", from 1 to 99999", ", 1 to 8 bytes".
fn put_allowed(page: &mut Page, records: &Records, t: usize)
    ensures { Added (allowed_of records.now.table.now records.now.unpacked.now t) page.old page.new }
{
    match records.kind_at(t) {
        numbers::INT => {
            page.text(b", from ");
            put_span(page, records, t);
        }
        numbers::DATE => page.text(b", a day from 00010101 to 99991231"),
        numbers::TIME => page.text(b", from 000000 to 235959"),
        _ => {
            page.text(b", ");
            put_span(page, records, t);
            page.text(b" bytes");
        }
    }
}

// In place of a union's int a tag of the union can stand.
fn put_choice(page: &mut Page, choice: bool)
    ensures { Added (choice_text choice) page.old page.new }
{
    if choice {
        page.text(b", or a tag of the union\n");
    } else {
        page.byte(b'\n');
    }
}

// 24: "wanted: int<1..99999> id".
fn put_wanted(page: &mut Page, records: &Records, p: usize)
    ensures { Added (wanted_text records.now.table.now records.now.unpacked.now p) page.old page.new }
{
    page.text(b"wanted: ");
    put_type(page, records, resolved(records, p));
    page.byte(b' ');
    page.text(records.label_at(p));
    put_choice(page, is_choice(records, p));
}

// 30: "wanted: int id, from 1 to 99999".
fn put_wanted_range(page: &mut Page, records: &Records, p: usize)
    ensures { Added (wanted_range_text records.now.table.now records.now.unpacked.now p) page.old page.new }
{
    let t = resolved(records, p);
    page.text(b"wanted: ");
    cli_wording::put_kind(page, records.kind_at(t));
    page.byte(b' ');
    page.text(records.label_at(p));
    put_allowed(page, records, t);
    put_choice(page, is_choice(records, p));
}

// A void that takes the probing word is a union's, and says nothing of what else the union takes.
fn say_wanted(
    page: &mut Page,
    tables: Tables,
    message: &[u8],
    number: u32,
    place: usize,
    numbers: &mut [u32],
) {
    let mut buf = io::large_buffer();
    let relaxed = relaxed(tables.table, &mut buf);
    let Some(p) = due_at(relaxed, message, place, numbers) else {
        return;
    };
    let mut unpacked = [0u32; table_records::ALL_CELLS];
    let records = records_of(tables.named, &mut unpacked);
    if records.count <= p || records.kind_at(p) == numbers::VOID {
        return;
    }
    if number == Rule::ValueRange.number() {
        put_wanted_range(page, &records, p);
    } else {
        put_wanted(page, &records, p);
    }
}

// ---- all three

// Puts what more can be said of a refusal: nothing of a number that is none of the three. The labels are those of the
// table with names.
pub fn put_lacking(
    page: &mut Page,
    tables: Tables,
    message: &[u8],
    number: u32,
    place: usize,
    numbers: &mut [u32],
) {
    if number == Rule::FieldMissing.number() {
        say_missing(page, tables, message, place, numbers);
    } else if number == Rule::ValueForm.number() || number == Rule::ValueRange.number() {
        say_wanted(page, tables, message, number, place, numbers);
    }
}
