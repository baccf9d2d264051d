// A message read by a compiled table, and a row's bytes.
#![tactic(auto)]

ghost use Rattle.std.specs.Prelude.{◌≡◌, [], ◌≤◌, ◌<◌, length};
ghost use Rattle.numbers.specs.Limits.{message_limit, parameter_limit};
ghost use Rattle.table_records.specs.Shown.{held_records};
ghost use Rattle.table_tags.specs.Search.{Searchable};
ghost use Rattle.table_walk.specs.Walked.{Enough};
ghost use Rattle.message_rules.specs.RowBytes.{row_bytes, row_start, further};
ghost use Rattle.message_rules.specs.Rows.{Row};
ghost use Rattle.message_rules.specs.Verdict.{room_free, with_room, written, read_answer, rows_after};
ghost use Rattle.message_rules.specs.Promise.{ReadPromise};
ghost use Rattle.message.specs.Reads.{answer_of_read, root_frame, reading_of, RowsCounted, Fills};

use message_frame::Frame;
use message_rows::Row;
use numbers::{Refusal, Rule};
use table_records::Records;

// The empty part, at the message's start.
fn empty_part<'a>(message: &'a [u8]) -> &'a [u8]
    ensures ref_ptr_value { result.ref_ptr ≡ further message.entry.ref_ptr 0 }
    ensures result_value { result.now ≡ [] }
{
    &message[0..0]
}

// A row's part of the message itself, empty where the row or its span isn't there. Any row may be asked for.
pub fn row_bytes<'a>(message: &'a [u8], rows: &[u32], row: usize) -> &'a [u8]
    ensures result_value { result.now ≡ row_bytes message.now rows.now row }
    ensures ref_ptr_value { result.ref_ptr ≡ further message.entry.ref_ptr (row_start message.now rows.now row) }
{
    if rows.len() / numbers::ROW_WIDTH <= row {
        return empty_part(message);
    }
    let start = rows[numbers::ROW_WIDTH * row + numbers::ROW_START] as usize;
    let end = rows[numbers::ROW_WIDTH * row + numbers::ROW_END] as usize;
    if end < start {
        return empty_part(message);
    }
    if message.len() < end {
        return empty_part(message);
    }
    &message[start..end]
}

// How deep a reading goes: the root's body, and a body for each brace that may be open.
const DEPTH: usize = numbers::OPEN_LIMIT + 1;

// The frame of the root's body.
fn root() -> Frame
    ensures { result ≡ root_frame }
{
    Frame {
        base: 0,
        at: 0,
        row: 1,
        parameter: 0,
        parent: 0,
        index: 0,
        depth: DEPTH,
    }
}

// The first pass, over no rows: how many there are, or the refusal. The records are at most 256, as a table's are.
fn count(records: &Records, message: &[u8], rows: &mut [u32]) -> Result<usize, Refusal>
    requires message_len_bound { (length message.now ≤ message_limit) × (records.now.count ≤ parameter_limit) }
    requires searchable { Searchable records.now.table.now records.now.unpacked.now records.now.count }
    ensures rows_counted { RowsCounted (reading_of records.now message.now) result }
    ensures rows_unchanged { rows.new ≡ rows.old }
{
    let done = message_reader::body(records, message, &mut rows[0..0], root(), false)?;
    Ok(done.row)
}

// The second pass, which fills the rows.
fn fill(records: &Records, message: &[u8], rows: &mut [u32])
    requires message_len_bound { (length message.now ≤ message_limit) × (records.now.count ≤ parameter_limit) }
    requires searchable { Searchable records.now.table.now records.now.unpacked.now records.now.count }
    ensures { Fills (reading_of records.now message.now) rows.old rows.new }
{
    message_rows::put_row(
        rows,
        0,
        Row {
            parameter: 0,
            parent: numbers::NO_ROW,
            start: 0,
            end: message.len(),
            index: 0,
        },
    );
    let _ = message_reader::body(records, message, rows, root(), false);
}

// A message read by a table's records: 21, 22, then the leftmost of 23 to 28 and 30, then 29.
// The records are at most 256, as a table's are.
fn read_records(records: &Records, message: &[u8], rows: &mut [u32]) -> Result<usize, Refusal>
    requires { (records.now.count ≤ parameter_limit) × Searchable records.now.table.now records.now.unpacked.now records.now.count }
    ensures result_value { answer_of_read result ≡ with_room (length rows.old) (room_free (held_records records.now) message.now) }
    ensures rows_after { rows.new ≡ written rows.old (room_free (held_records records.now) message.now) }
{
    let is_long = numbers::MESSAGE_LIMIT < message.len();
    if is_long {
        return Err(Refusal {
            rule: Rule::MessageLength,
            place: numbers::MESSAGE_LIMIT,
        });
    }
    match message_tokens::scan_fault(message) {
        Some(place) => Err(Refusal {
            rule: Rule::MessageTokens,
            place,
        }),
        None => read_tokens(records, message, rows),
    }
}

// The same for a message that has no number 22.
fn read_tokens(records: &Records, message: &[u8], rows: &mut [u32]) -> Result<usize, Refusal>
    requires message_len_bound { (length message.now ≤ message_limit) × (records.now.count ≤ parameter_limit) }
    requires searchable { Searchable records.now.table.now records.now.unpacked.now records.now.count }
    ensures result_value { answer_of_read result ≡ with_room (length rows.old) (reading_of records.now message.now) }
    ensures rows_after { rows.new ≡ written rows.old (reading_of records.now message.now) }
{
    let m = count(records, message, rows)?;
    if rows.len() / numbers::ROW_WIDTH < m {
        return Err(Refusal {
            rule: Rule::RowRoom,
            place: m,
        });
    }
    fill(records, message, rows);
    Ok(m)
}

// The same with cells lent, which are enough for the table's records, and filled here for `Records`: number 20 first.
fn read_with(
    table: &[u8],
    unpacked: &mut [u32],
    message: &[u8],
    rows: &mut [u32],
) -> Result<usize, Refusal>
    requires { Enough (length table.now) (length unpacked.old) }
    ensures result_value { answer_of_read result ≡ read_answer table.now message.now (length rows.old) }
    ensures rows_after { rows.new ≡ rows_after table.now message.now rows.old }
{
    let Some(count) = table::checked(table, unpacked) else {
        return Err(Refusal {
            rule: Rule::Table,
            place: 0,
        });
    };
    read_records(
        &Records {
            table,
            unpacked,
            count,
        },
        message,
        rows,
    )
}

// Reads a message by a table. The answer and the lent numbers after are those of the definitions, and they mean what the
// paper asks: 20 exactly when no definition compiles to the table; accepted exactly when a lawful reading exists and its
// rows fit, with that reading's rows; never a second reading; 29 with the number of rows that don't fit; else no lawful reading.
pub fn read(table: &[u8], message: &[u8], rows: &mut [u32]) -> Result<usize, Refusal>
    ensures result_value { answer_of_read result ≡ read_answer table.now message.now (length rows.old) }
    ensures rows_after { rows.new ≡ rows_after table.now message.now rows.old }
    ensures read_promise { ReadPromise table.now message.now rows.old (answer_of_read result) rows.new }
{
    if table.len() <= table::FEW_BYTES {
        let mut few = [0u32; table::FEW_CELLS];
        return read_with(table, &mut few, message, rows);
    }
    let mut many = [0u32; table_records::ALL_CELLS];
    read_with(table, &mut many, message, rows)
}
