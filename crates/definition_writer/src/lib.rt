// Writes the records of the declarations into a table, and copies a table out.
#![tactic(auto)]

ghost use Rattle.std.specs.Prelude.{◌≡◌, [], ◌+◌, ◌≤◌, ◌%◌, eqb, length, take};
ghost use Rattle.std.proofs.lemmas.List.Edits.{sets};
ghost use Rattle.numbers.specs.Limits.{text_limit, parameter_limit};
ghost use Rattle.numbers.specs.LittleEndian.{put16, put32, signed};
ghost use Rattle.definition_rules.specs.Table.{flags_number};
ghost use Rattle.definition_cells.specs.Cells.{cell_at, tagged_cell, plugged_cell, extended_cell};
ghost use Rattle.definition_headings.specs.Heads.{label_at};
ghost use Rattle.definition_writer.specs.Written.{record_written, records_written, low16, cut_bytes, WroteRecords};

use definition_cells::Declarations;

// ---- numbers and bytes; nothing is written past the end

// Writes the low 16 bits of a number.
#[tactic(auto, using(crate::proofs::WriteLaws::set_two))]
fn put_cut(table: &mut [u8], at: usize, x: usize)
    ensures { table.new ≡ sets table.old at (put16 (low16 x) []) }
{
    numbers::put_u16(table, at, (x % 65536) as u16);
}

// Writes an i32 that is counted from the least.
#[tactic(auto, using(crate::proofs::WriteLaws::set_four))]
fn put_limit(table: &mut [u8], at: usize, v: u32)
    ensures { table.new ≡ sets table.old at (put32 (signed v) []) }
{
    numbers::put_int(table, at, v);
}

// Writes a row of bytes, one by one: for a copy at once C's memcpy would have to be there (include/lumas.h).
#[tactic(auto, using(classes::proofs::Stores::sets_more, classes::proofs::Stores::sets_out))]
fn put_bytes(table: &mut [u8], at: usize, s: &[u8])
    ensures { table.new ≡ sets table.old at s.now }
{
    if table.len() <= at {
        return;
    }
    for (i, b) in s.iter().enumerate() {
        numbers::set(table, at + i, *b);
    }
}

// ---- one record

// What each flag adds.
const EXTENSION: usize = numbers::EXTENSION as usize;

const PLUGIN: usize = numbers::PLUGIN as usize;

// Untagged, directly in an extension, plugin.
#[tactic(auto, unfolding(definition_rules::specs::Table::flags_number, definition_rules::specs::Table::bit))]
fn flags(noted: &Declarations, i: usize) -> usize
    ensures { result ≡ flags_number (eqb (cell_at noted.now.cells.now i tagged_cell) 1) (eqb (cell_at noted.now.cells.now i extended_cell) 1) (eqb (cell_at noted.now.cells.now i plugged_cell) 1) }
{
    let untagged = noted.cell(i, definition_cells::TAGGED) == definition_cells::TAGLESS;
    let extension = noted.cell(i, definition_cells::EXTENDED) == definition_cells::GIVEN;
    let plugin = noted.cell(i, definition_cells::PLUGGED) == definition_cells::GIVEN;
    usize::from(untagged) + EXTENSION * usize::from(extension) + PLUGIN * usize::from(plugin)
}

fn write_record(noted: &Declarations, i: usize, table: &mut [u8], at: usize)
    ensures { table.new ≡ sets table.old at (cut_bytes (record_written noted.now.text.now noted.now.cells.now noted.now.count i)) }
{
    if table.len() <= at {
        return;
    }
    let label = definition_headings::label(noted, i);
    let len = label.len() % 65536;
    let kind = definition_headings::kind(noted, i) as usize;
    let parent = noted.cell(i, definition_cells::PARENT) as usize;
    let flags = flags(noted, i);
    let counts = definition_headings::counts(noted, i);
    let lo = definition_headings::low(counts) as usize;
    let hi = definition_headings::high(counts) as usize;
    let limits = definition_headings::limits(noted, i);
    let least = definition_headings::low(limits);
    let most = definition_headings::high(limits);
    let target = definition_headings::target(noted, i);
    put_cut(table, at, numbers::RECORD_HEADER + len);
    put_cut(table, at + numbers::KIND_AT, kind);
    put_cut(table, at + numbers::PARENT_AT, parent);
    put_cut(table, at + numbers::FLAGS_AT, flags);
    put_cut(table, at + numbers::LO_COUNT_AT, lo);
    put_cut(table, at + numbers::HI_COUNT_AT, hi);
    put_limit(table, at + numbers::LEAST_AT, least);
    put_limit(table, at + numbers::MOST_AT, most);
    put_cut(table, at + numbers::TARGET_AT, target);
    put_cut(table, at + numbers::LABEL_LENGTH_AT, len);
    put_bytes(table, at + numbers::RECORD_HEADER, label);
}

// ---- all records

// How long a record is.
#[tactic(auto, using(crate::proofs::WriteLaws::label_within))]
fn record_length(noted: &Declarations, i: usize) -> usize
    requires { length noted.now.text.now ≤ text_limit }
    ensures { (result ≡ 24 + length (label_at noted.now.text.now noted.now.cells.now i)) × (result ≤ 65559) }
{
    numbers::RECORD_HEADER + definition_headings::label(noted, i).len()
}

// Writes the records one after the other; gives the length of all.
// The sizes are those that the first and the fourth refusal leave: with them the length is a number of 32 bits.
pub fn write_records(noted: &Declarations, table: &mut [u8]) -> usize
    requires { (noted.now.count ≤ parameter_limit) × (length noted.now.text.now ≤ text_limit) }
    ensures { WroteRecords (records_written noted.now.text.now noted.now.cells.now noted.now.count) result table.old table.new }
{
    let mut at = 0;
    for i in 0..noted.count {
        write_record(noted, i, table, at);
        at += record_length(noted, i);
    }
    at
}

// ---- out

// Copies the first len bytes of a table to the front of another.
pub fn copy_out(scratch: &[u8], len: usize, table: &mut [u8])
    ensures { table.new ≡ sets table.old 0 (take len scratch.now) }
{
    put_bytes(table, 0, classes::part(scratch, 0, len));
}
