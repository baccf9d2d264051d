// The relaxed table: every body may end early, every list may be short, and every simple value is a word or a string of
// any length. All that the table reads it reads with the same rows, and it is lawful too.
use table_records::Records;
use text::Page;

const WORD: u16 = numbers::UNQUOTED as u16;

// The whole range of ints, as bytes hold it.
const LEAST_INT: u32 = 0x8000_0000;

const MOST_INT: u32 = 0x7FFF_FFFF;

fn put_range(record: &mut [u8], least: u32, most: u32) {
    numbers::put_u32(record, numbers::LEAST_AT, least);
    numbers::put_u32(record, numbers::MOST_AT, most);
}

// The int that a union takes without a tag must stay an int.
fn relax_word(record: &mut [u8], is_choice: bool) {
    if is_choice {
        put_range(record, LEAST_INT, MOST_INT);
        return;
    }
    numbers::put_u16(record, numbers::KIND_AT, WORD);
    put_range(record, 1, numbers::LENGTH_LIMIT);
}

fn relax_kind(record: &mut [u8], kind: u32, is_choice: bool) {
    match kind {
        numbers::ASCII => put_range(record, 0, numbers::LENGTH_LIMIT),
        numbers::BOOL..=numbers::TIME => relax_word(record, is_choice),
        _ => {}
    }
}

// Relaxes record i, whose bytes are the first here.
fn relax_record(record: &mut [u8], records: &Records, i: usize) {
    // A struct's field may be absent.
    let is_field = records.kind_at(records.parent_at(i)) == numbers::STRUCT;
    if is_field {
        numbers::put_u16(record, numbers::LO_COUNT_AT, 0);
    }
    let is_choice = !is_field && records.untagged_at(i);
    relax_kind(record, records.kind_at(i), is_choice);
}

// Relaxes the records of a table, of which relaxed is a copy.
fn relax_records(relaxed: &mut [u8], records: &Records) {
    let mut at: usize = 0;
    for i in 0..records.count {
        if let Some(record) = relaxed.get_mut(at..) {
            relax_record(record, records, i);
        }
        let length = numbers::RECORD_HEADER.saturating_add(records.label_at(i).len());
        at = at.saturating_add(length);
    }
}

// The relaxed table.
pub fn relaxed<'a>(table: &[u8], buf: &'a mut [u8]) -> &'a [u8] {
    let mut unpacked = [0u32; table_records::ALL_CELLS];
    let records = cli_tables::records_of(table, &mut unpacked);
    let mut page = Page::new(buf);
    page.text(table);
    relax_records(page.out, &records);
    page.into_written()
}
