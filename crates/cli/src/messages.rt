// read.
use cli_files::{Failed, load};
use cli_pages::{flush, flush_if_many, refuse, say};
use cli_report::{RowTable, Rows, Source};
use cli_tables::{Tables, records_of, tables_of_file};
use numbers::{Refusal, Rule};
use text::Page;

// A byte of a message begins at most one value and one alternative. So the rows, the root's included, are at
// most as many, and number 29 does not come up.
const ALL_ROWS: usize = numbers::ROW_WIDTH * (2 * numbers::MESSAGE_LIMIT + 1);

fn print_numbers(rt: HostRuntime, rows: &Rows, page: &mut Page) -> Result<(), Failed> {
    for i in 0..rows.count {
        cli_report::put_numbers(page, rows.row(i));
        flush_if_many(rt, page)?;
    }
    flush(rt, page)
}

fn print_rows(
    rt: HostRuntime,
    named: &[u8],
    rows: &Rows,
    message: &[u8],
    page: &mut Page,
) -> Result<(), Failed> {
    let mut unpacked = [0u32; table_records::ALL_CELLS];
    let records = records_of(named, &mut unpacked);
    let head = RowTable {
        records,
        rows: *rows,
        text: b"",
    };
    let widths = cli_report::widths(&head);
    cli_report::put_line(page, &head, 0, &widths);
    for i in 0..rows.count {
        let table = RowTable {
            records,
            rows: *rows,
            text: message::row_bytes(message, rows.numbers, i),
        };
        cli_report::put_line(page, &table, i + 1, &widths);
        flush_if_many(rt, page)?;
    }
    flush(rt, page)
}

// A line for each unknown item. There are no more of them than bytes.
fn say_unknown(rt: HostRuntime, source: &Source, rows: &Rows, page: &mut Page) {
    let mut reached = cli_unknown::begin();
    for _ in 0..source.bytes.len() {
        let Some(item) = cli_unknown::next(source.bytes, rows, reached) else {
            return;
        };
        let word = classes::part(source.bytes, item.start, item.end);
        cli_pages::say_unknown(rt, page, source, item.start, word);
        reached = item.past;
    }
}

// The rows are the result; what was passed over, and that all is accepted, are words to people.
fn accept(
    rt: HostRuntime,
    named: &[u8],
    source: &Source,
    rows: &Rows,
    page: &mut Page,
) -> Result<(), Failed> {
    print_rows(rt, named, rows, source.bytes, page)?;
    say_unknown(rt, source, rows, page);
    cli_wording::put_accepted(page, source.path, rows.count);
    say(rt, page);
    Ok(())
}

// The refusal, of the table or of the message, and what more can be said of it.
fn refuse_message(
    rt: HostRuntime,
    from: &[u8],
    tables: Tables,
    source: &Source,
    refusal: Refusal,
    numbers: &mut [u32],
    page: &mut Page,
) -> Failed {
    if refusal.rule == Rule::Table {
        let table = Source {
            path: from,
            bytes: tables.table,
        };
        return refuse(rt, page, &table, refusal);
    }
    let failed = refuse(rt, page, source, refusal);
    cli_wanted::put_lacking(
        page,
        tables,
        source.bytes,
        refusal.rule.number(),
        refusal.place,
        numbers,
    );
    say(rt, page);
    failed
}

fn read_message(
    rt: HostRuntime,
    from: &[u8],
    tables: Tables,
    source: &Source,
    is_plain: bool,
    page: &mut Page,
) -> Result<(), Failed> {
    let mut numbers = [0u32; ALL_ROWS];
    match message::read(tables.table, source.bytes, &mut numbers) {
        Ok(count) => {
            let rows = Rows {
                numbers: &numbers,
                count,
            };
            if is_plain {
                return print_numbers(rt, &rows, page);
            }
            accept(rt, tables.named, source, &rows, page)
        }
        Err(refusal) => Err(refuse_message(rt, from, tables, source, refusal, &mut numbers, page)),
    }
}

pub fn read_file(
    rt: HostRuntime,
    from: &[u8],
    path: &[u8],
    is_plain: bool,
    page: &mut Page,
) -> Result<(), Failed> {
    let mut table = io::large_buffer();
    let mut named = io::large_buffer();
    let tables = tables_of_file(rt, from, &mut table, &mut named, page)?;
    let mut message = io::large_buffer();
    let source = Source {
        path,
        bytes: load(rt, path, &mut message)?,
    };
    read_message(rt, from, tables, &source, is_plain, page)
}
