// The table of a file, or of bytes in hand; compile, show and check.
#![tactic(auto)]

ghost use Rattle.std.specs.Prelude.{◌≡◌, true, IfOk, length, take};
ghost use Rattle.definition_rules.specs.Compile.{compile_answer};
ghost use Rattle.cli_tables.specs.Made.{is_table, compiled_in, table_made, bytes_in};

use cli_files::{Failed, load, save};
use cli_pages::{flush, flush_if_many, refuse, say, unusable};
use cli_report::{RecordTable, Source};
use numbers::{Refusal, Rule};
use table_records::Records;
use text::Page;

// A table, and the same table with names.
#[derive(Clone, Copy)]
pub struct Tables<'a> {
    pub table: &'a [u8],
    pub named: &'a [u8],
}

// What a file is refused with whose bytes are no table.
const NO_TABLE: Refusal = Refusal {
    rule: Rule::Table,
    place: 0,
};

// Bytes with a byte 0 among them are taken as a table, any others as a definition. Every table has one.
fn is_table(bytes: &[u8]) -> bool
    ensures { result ≡ is_table bytes.now }
{
    bytes.contains(&0)
}

// A copy of some bytes.
fn copied<'a>(bytes: &[u8], to: &'a mut [u8]) -> &'a [u8]
    ensures { result.now ≡ take (length to.old) bytes.now }
{
    let mut page = Page::new(to);
    page.text(bytes);
    page.into_written()
}

// The table that a definition compiles to.
fn compiled<'a>(
    rt: HostRuntime,
    source: &Source,
    table: &'a mut [u8],
    page: &mut Page,
) -> Result<&'a [u8], Failed>
    ensures { bytes_in result (λ r. r.now) ≡ compiled_in source.now.bytes.now table.old (compile_answer source.now.bytes.now (length table.old)) }
{
    match definition::compile(source.bytes, table) {
        Ok(length) => Ok(classes::part(table, 0, length)),
        Err(refusal) => Err(refuse(rt, page, source, refusal)),
    }
}

// The table in a source, or the one that the definition there compiles to.
pub fn tables_of<'a>(
    rt: HostRuntime,
    source: &Source,
    table: &'a mut [u8],
    named: &'a mut [u8],
    page: &mut Page,
) -> Result<Tables<'a>, Failed>
    ensures made { bytes_in result (λ t. t.table.now) ≡ table_made source.now.bytes.now table.old }
    ensures bare { is_table source.now.bytes.now ≡ true → IfOk result (λ t. t.named.now ≡ take (length named.old) source.now.bytes.now) }
{
    if is_table(source.bytes) {
        return Ok(Tables {
            table: copied(source.bytes, table),
            named: copied(source.bytes, named),
        });
    }
    let table = compiled(rt, source, table, page)?;
    let mut names = Page::new(named);
    cli_names::put_named(&mut names, table, source.bytes);
    Ok(Tables {
        table,
        named: names.into_written(),
    })
}

// The table in a file, or the one that the definition there compiles to. What the file has is not kept.
pub fn tables_of_file<'a>(
    rt: HostRuntime,
    path: &[u8],
    table: &'a mut [u8],
    named: &'a mut [u8],
    page: &mut Page,
) -> Result<Tables<'a>, Failed> {
    let mut buf = io::large_buffer();
    let bytes = load(rt, path, &mut buf)?;
    if is_table(bytes) {
        return Ok(Tables {
            table: copied(bytes, table),
            named: copied(bytes, named),
        });
    }
    let table = compiled(rt, &Source { path, bytes }, table, page)?;
    let mut names = Page::new(named);
    cli_names::put_named(&mut names, table, bytes);
    Ok(Tables {
        table,
        named: names.into_written(),
    })
}

// The records of a table, unpacked into lent cells.
pub fn records_of<'t, 'c>(table: &'t [u8], unpacked: &'c mut [u32]) -> Records<'t, 'c> {
    let count = table_walk::unpack(table, unpacked).unwrap_or(0);
    Records {
        table,
        unpacked,
        count,
    }
}

// The line that says how large a file's table is.
fn put_table_size(page: &mut Page, path: &[u8], how: &[u8], table: &[u8]) {
    let mut unpacked = [0u32; table_records::ALL_CELLS];
    let records = records_of(table, &mut unpacked);
    cli_wording::put_size(page, path, how, records.count, table.len());
}

// ---- compile

// A file that has the definition's text, as the definition itself has, is not written over.
fn check_free(rt: HostRuntime, to: &[u8], definition: &[u8]) -> Result<(), Failed> {
    if !cli_files::has_bytes(rt, to) {
        return Ok(());
    }
    let mut buf = io::large_buffer();
    if load(rt, to, &mut buf)? != definition {
        return Ok(());
    }
    Err(unusable(
        rt,
        to,
        b": this is the definition or a copy of it, and is not overwritten\n",
    ))
}

pub fn compile_file(
    rt: HostRuntime,
    path: &[u8],
    to: &[u8],
    page: &mut Page,
) -> Result<(), Failed> {
    let mut buf = io::large_buffer();
    let bytes = load(rt, path, &mut buf)?;
    let mut table = io::large_buffer();
    let table = compiled(rt, &Source { path, bytes }, &mut table, page)?;
    check_free(rt, to, bytes)?;
    save(rt, to, table)?;
    put_table_size(page, to, b": a table of ", table);
    say(rt, page);
    Ok(())
}

// ---- show

fn print_records(rt: HostRuntime, table: &[u8], page: &mut Page) -> Result<(), Failed> {
    let mut unpacked = [0u32; table_records::ALL_CELLS];
    let records = records_of(table, &mut unpacked);
    let table = RecordTable { records };
    let widths = cli_report::widths(&table);
    for line in 0..=records.count {
        cli_report::put_line(page, &table, line, &widths);
        flush_if_many(rt, page)?;
    }
    flush(rt, page)
}

pub fn show_file(rt: HostRuntime, path: &[u8], page: &mut Page) -> Result<(), Failed> {
    let mut table = io::large_buffer();
    let mut named = io::large_buffer();
    let tables = tables_of_file(rt, path, &mut table, &mut named, page)?;
    if !table::table_ok(tables.table) {
        let source = Source {
            path,
            bytes: tables.table,
        };
        return Err(refuse(rt, page, &source, NO_TABLE));
    }
    print_records(rt, tables.named, page)
}

// ---- check

fn answer_size(
    rt: HostRuntime,
    path: &[u8],
    how: &[u8],
    table: &[u8],
    page: &mut Page,
) -> Result<(), Failed> {
    put_table_size(page, path, how, table);
    flush(rt, page)
}

fn check_table(rt: HostRuntime, source: &Source, page: &mut Page) -> Result<(), Failed> {
    if !table::table_ok(source.bytes) {
        return Err(refuse(rt, page, source, NO_TABLE));
    }
    answer_size(rt, source.path, b": a table of ", source.bytes, page)
}

fn check_definition(rt: HostRuntime, source: &Source, page: &mut Page) -> Result<(), Failed> {
    let mut table = io::large_buffer();
    let table = compiled(rt, source, &mut table, page)?;
    answer_size(rt, source.path, b": compiles to a table of ", table, page)
}

pub fn check_file(rt: HostRuntime, path: &[u8], page: &mut Page) -> Result<(), Failed> {
    let mut buf = io::large_buffer();
    let bytes = load(rt, path, &mut buf)?;
    let source = Source { path, bytes };
    if is_table(bytes) {
        return check_table(rt, &source, page);
    }
    check_definition(rt, &source, page)
}

#[cfg(test)]
mod tests {
    use super::*;

    // "struct r { void a as b; };" by docs/FORMAT.md, 3.1: its two records.
    const TABLE: [u8; 50] = [
        25, 0, 8, 0, 255, 255, 0, 0, 1, 0, 1, 0, 0, 0, 0, 0, 0, 0, 0, 0, 255, 255, 1, 0, b'r', 25,
        0, 1, 0, 0, 0, 0, 0, 1, 0, 1, 0, 0, 0, 0, 0, 0, 0, 0, 0, 255, 255, 1, 0, b'b',
    ];

    // The same with the field's name before its tag.
    const NAMED: [u8; 54] = [
        25, 0, 8, 0, 255, 255, 0, 0, 1, 0, 1, 0, 0, 0, 0, 0, 0, 0, 0, 0, 255, 255, 1, 0, b'r', 29,
        0, 1, 0, 0, 0, 0, 0, 1, 0, 1, 0, 0, 0, 0, 0, 0, 0, 0, 0, 255, 255, 5, 0, b'a', b' ', b'(',
        b'b', b')',
    ];

    #[test]
    fn tables_of_sources(rt: HostRuntime) {
        let text = b"struct r { void a as b; };";
        let sources: [(&[u8], usize, Option<(&[u8], &[u8])>); 5] = [
            (&TABLE, 54, Some((&TABLE, &TABLE))),
            (&TABLE, 40, Some((&TABLE[..40], &TABLE[..40]))),
            (text, 54, Some((&TABLE, &NAMED))),
            (text, 49, None),
            (b"struct r {}", 54, None),
        ];
        for (bytes, room, due) in sources {
            let source = Source { path: b"r", bytes };
            let mut table = [0; 54];
            let mut named = [0; 54];
            let mut page = [0; 256];
            let made = tables_of(
                rt,
                &source,
                &mut table[..room.min(54)],
                &mut named[..room.min(54)],
                &mut Page::new(&mut page),
            );
            match made {
                Ok(tables) => {
                    assert!(rt; due.is_some());
                    let (table, named) = due.unwrap_or((b"", b""));
                    assert_eq!(rt; tables.table, table);
                    assert_eq!(rt; tables.named, named);
                }
                Err(failed) => {
                    assert!(rt; due.is_none());
                    assert_eq!(rt; failed, Failed::Refused);
                }
            }
        }
    }
}
