// A table for people to read: the records of a definition's table, with a field's name beside its tag where the two differ.
// No message is read by it; it is shown.
#![tactic(auto)]

ghost use Rattle.text.specs.Text.{Added};
ghost use Rattle.cli_names.specs.Labels.{shown_label};

use definition_cells::Declarations;
use table_records::Records;
use text::Page;

// A name, a tag and what stands between have no more bytes.
const LABEL_MOST: usize = 255;

// "NAME (TAG)", or the label alone where it is the name.
fn put_label(page: &mut Page, name: &[u8], label: &[u8])
    ensures { Added (shown_label name.now label.now) page.old page.new }
{
    if classes::same_bytes(name, label) {
        page.text(label);
        return;
    }
    page.text(name);
    page.text(b" (");
    page.text(label);
    page.text(b")");
}

// How many bytes the page has from a place on.
fn length_from(page: &Page, from: usize) -> u16 {
    page.at.saturating_sub(from).min(LABEL_MOST) as u16
}

// A record with its label as it is shown; head is its bytes before the label.
fn put_record(page: &mut Page, head: &[u8], name: &[u8], label: &[u8]) {
    let at = page.at;
    page.text(head);
    let from = page.at;
    put_label(page, name, label);
    let length = length_from(page, at);
    numbers::put_u16(page.out, at, length);
    let length = length_from(page, from);
    numbers::put_u16(
        page.out,
        at.saturating_add(numbers::LABEL_LENGTH_AT),
        length,
    );
}

fn put_records(page: &mut Page, records: &Records, noted: &Declarations) {
    let mut from: usize = 0;
    for i in 0..records.count {
        let behind = from.saturating_add(numbers::RECORD_HEADER);
        let head = classes::part(records.table, from, behind);
        let label = records.label_at(i);
        put_record(page, head, noted.run(i, definition_cells::NAME), label);
        from = behind.saturating_add(label.len());
    }
}

// The table with names, if the definition compiles to it.
fn put_with_names(page: &mut Page, table: &[u8], definition: &[u8]) -> Option<()> {
    if numbers::TEXT_LIMIT < definition.len() {
        return None;
    }
    let mut cells = [0u32; definition_cells::ALL_CELLS];
    let declared = definition_forms::forms(definition, &mut cells).ok()?;
    let mut unpacked = [0u32; table_records::ALL_CELLS];
    let count = table_walk::unpack(table, &mut unpacked)?;
    let records = Records {
        table,
        unpacked: &unpacked,
        count,
    };
    let noted = Declarations {
        text: definition,
        cells: &cells,
        count: declared,
    };
    put_records(page, &records, &noted);
    Some(())
}

// Puts the table that the definition compiles to, with names. Any other table is put as it is.
pub fn put_named(page: &mut Page, table: &[u8], definition: &[u8]) {
    if put_with_names(page, table, definition).is_none() {
        page.text(table);
    }
}
