// Rows and records as tables. Line 0 has the columns' heads, and line k + 1 has row or record k.
// A column is as wide as its widest cell; the last has no width and is not filled up.
ghost use Rattle.text.specs.Text.{Added};
ghost use Rattle.cli_report.specs.Shown.{int_text, bounds_text, numbers_text};

use crate::refusals::put_shown;
use crate::rows::{Row, Rows};
use cli_wording::put_kind;
use table_records::Records;
use text::Page;

const NO_ROW: u32 = numbers::NO_ROW as u32;

// No table has more columns with a width.
const COLUMNS: usize = 7;

// As much is shown of a struct or union; what is in it has rows of its own.
const GLANCE: usize = 40;

// The longest cell has a name and a tag of 63 bytes each.
const CELL: usize = 160;

// What stands in the lines of a table.
pub trait Table {
    // How many columns have a width.
    fn columns(&self) -> usize;

    // How many lines there are behind the heads.
    fn count(&self) -> usize;

    // A number stands on the right of its column, a word on the left.
    fn is_number(&self, column: usize) -> bool;

    fn head(&self, column: usize) -> &'static [u8];

    fn put_cell(&self, page: &mut Page, i: usize, column: usize);

    // The cell of the last column.
    fn put_last(&self, page: &mut Page, i: usize);
}

// ---- lines

// A cell, without the blanks beside it.
fn put_bare<T: Table>(page: &mut Page, table: &T, line: usize, column: usize) {
    if line == 0 {
        page.text(table.head(column));
    } else {
        table.put_cell(page, line - 1, column);
    }
}

fn put_spaces(page: &mut Page, count: usize) {
    for _ in 0..count {
        page.byte(b' ');
    }
}

// A cell, filled up to a width, and the gap to the next.
fn put_filled<T: Table>(page: &mut Page, table: &T, line: usize, column: usize, width: usize) {
    let mut buf = [0u8; CELL];
    let mut cell = Page {
        out: &mut buf,
        at: 0,
    };
    put_bare(&mut cell, table, line, column);
    let spaces = width.saturating_sub(cell.at);
    if table.is_number(column) {
        put_spaces(page, spaces);
        page.text(cell.written());
    } else {
        page.text(cell.written());
        put_spaces(page, spaces);
    }
    page.text(b"  ");
}

// How wide a column is.
fn width<T: Table>(table: &T, column: usize) -> usize {
    let mut buf = [0u8; CELL];
    let mut width = table.head(column).len();
    for i in 0..table.count() {
        let mut cell = Page {
            out: &mut buf,
            at: 0,
        };
        table.put_cell(&mut cell, i, column);
        width = width.max(cell.at);
    }
    width
}

// How wide the columns are.
pub fn widths<T: Table>(table: &T) -> [usize; COLUMNS] {
    let mut widths = [0; COLUMNS];
    for column in 0..table.columns().min(COLUMNS) {
        widths[column] = width(table, column);
    }
    widths
}

// A line of a table.
pub fn put_line<T: Table>(page: &mut Page, table: &T, line: usize, widths: &[usize; COLUMNS]) {
    let columns = table.columns();
    for column in 0..columns.min(COLUMNS) {
        put_filled(page, table, line, column, widths[column]);
    }
    if line == 0 {
        page.text(table.head(columns));
    } else {
        table.put_last(page, line - 1);
    }
    page.byte(b'\n');
}

// ---- cells

// A number, or a dash in place of the one that stands for none.
fn put_unless(page: &mut Page, n: u64, none: u64) {
    if n == none {
        page.byte(b'-');
    } else {
        page.decimal(n);
    }
}

// An i32 that is counted from the least.
pub fn put_int(page: &mut Page, n: u32)
    ensures { Added (int_text n) page.old page.new }
{
    if n < numbers::BIAS {
        page.byte(b'-');
        page.decimal((numbers::BIAS - n) as u64);
    } else {
        page.decimal((n - numbers::BIAS) as u64);
    }
}

// "LEAST..MOST".
pub fn put_bounds(page: &mut Page, least: u32, most: u32)
    ensures { Added (bounds_text least most) page.old page.new }
{
    put_int(page, least);
    page.text(b"..");
    put_int(page, most);
}

fn put_counts(page: &mut Page, lo: usize, hi: usize) {
    page.decimal(lo as u64);
    page.text(b"..");
    if hi == table_records::NO_LIMIT {
        page.byte(b'*');
    } else {
        page.decimal(hi as u64);
    }
}

// Ints and the two kinds of ascii have a range.
fn put_range(page: &mut Page, kind: u32, least: u32, most: u32) {
    match kind {
        numbers::INT | numbers::ASCII | numbers::UNQUOTED => put_bounds(page, least, most),
        _ => page.byte(b'-'),
    }
}

fn flags_text(flags: u32) -> &'static [u8] {
    match flags {
        0 => b"-",
        1 => b"untagged",
        2 => b"extension",
        3 => b"untagged,extension",
        4 => b"plugin",
        5 => b"untagged,plugin",
        6 => b"extension,plugin",
        7 => b"untagged,extension,plugin",
        _ => b"",
    }
}

// ---- records

// Number, kind, parent, flags, count, range, target, tag or name.
#[derive(Clone, Copy)]
pub struct RecordTable<'a> {
    pub records: Records<'a, 'a>,
}

impl Table for RecordTable<'_> {
    fn columns(&self) -> usize {
        7
    }

    fn count(&self) -> usize {
        self.records.count
    }

    fn is_number(&self, column: usize) -> bool {
        matches!(column, 0 | 2 | 6)
    }

    fn head(&self, column: usize) -> &'static [u8] {
        match column {
            0 => b"record",
            1 => b"kind",
            2 => b"parent",
            3 => b"flags",
            4 => b"count",
            5 => b"range",
            6 => b"target",
            _ => b"tag or name",
        }
    }

    fn put_cell(&self, page: &mut Page, i: usize, column: usize) {
        let r = &self.records;
        let none = numbers::NONE16 as u64;
        match column {
            0 => page.decimal(i as u64),
            1 => put_kind(page, r.kind_at(i)),
            2 => put_unless(page, r.parent_at(i) as u64, none),
            3 => page.text(flags_text(r.flags_at(i))),
            4 => put_counts(page, r.lo_count_at(i), r.hi_count_at(i)),
            5 => put_range(page, r.kind_at(i), r.least_at(i), r.most_at(i)),
            _ => put_unless(page, r.target_at(i) as u64, none),
        }
    }

    fn put_last(&self, page: &mut Page, i: usize) {
        put_shown(page, self.records.label_at(i));
    }
}

// ---- rows

// Row, tag or name of the parameter, parent row, span, index, and the row's bytes: those of the row whose line is put,
// which the caller sees to, as they have no part in the widths.
#[derive(Clone, Copy)]
pub struct RowTable<'t, 'c, 'r, 'm> {
    pub records: Records<'t, 'c>,
    pub rows: Rows<'r>,
    pub text: &'m [u8],
}

// Has a parameter's value parts with rows of their own?
fn has_parts(records: &Records, p: usize) -> bool {
    let kind = match records.kind_at(p) {
        numbers::REFERENCE => records.kind_at(records.target_at(p)),
        kind => kind,
    };
    matches!(kind, numbers::STRUCT | numbers::UNION)
}

impl Table for RowTable<'_, '_, '_, '_> {
    fn columns(&self) -> usize {
        6
    }

    fn count(&self) -> usize {
        self.rows.count
    }

    fn is_number(&self, column: usize) -> bool {
        column != 1
    }

    fn head(&self, column: usize) -> &'static [u8] {
        match column {
            0 => b"row",
            1 => b"parameter",
            2 => b"parent",
            3 => b"start",
            4 => b"end",
            5 => b"index",
            _ => b"text",
        }
    }

    fn put_cell(&self, page: &mut Page, i: usize, column: usize) {
        let row = self.rows.row(i);
        match column {
            0 => page.decimal(i as u64),
            1 => put_shown(page, self.records.label_at(row.parameter as usize)),
            2 => put_unless(page, row.parent as u64, NO_ROW as u64),
            3 => page.decimal(row.start as u64),
            4 => page.decimal(row.end as u64),
            _ => page.decimal(row.index as u64),
        }
    }

    // Of a row whose parts have rows of their own the first bytes are enough.
    fn put_last(&self, page: &mut Page, i: usize) {
        let p = self.rows.row(i).parameter as usize;
        if GLANCE < self.text.len() && has_parts(&self.records, p) {
            put_shown(page, classes::part(self.text, 0, GLANCE));
            page.text(b" ..");
        } else {
            put_shown(page, self.text);
        }
    }
}

// The numbers of a row, bare.
pub fn put_numbers(page: &mut Page, row: Row)
    ensures { Added (numbers_text row.parameter row.parent row.start row.end row.index) page.old page.new }
{
    page.decimal(row.parameter as u64);
    page.number(row.parent as u64);
    page.number(row.start as u64);
    page.number(row.end as u64);
    page.number(row.index as u64);
    page.byte(b'\n');
}
