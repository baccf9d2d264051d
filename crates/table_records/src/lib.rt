// Records of a compiled table. A table's records are unpacked once: their numbers are kept in lent cells, and read from
// there; specs/Stored says which cell holds what. Where a record's cells are not all there, or the record is past the
// limit, they count as 0.
#![tactic(auto)]

ghost use Rattle.std.specs.Prelude.{◌≡◌, ◌+◌, ◌*◌, ◌≤◌, ◌<◌, length};
ghost use Rattle.numbers.specs.Limits.{parameter_limit};
ghost use Rattle.numbers.specs.LittleEndian.{le16, le_int};
ghost use Rattle.reading_rules.specs.Schema.{is_under};
ghost use Rattle.definition_rules.specs.Table.{up_number};
ghost use Rattle.table_records.specs.Stored.{record_cells, cell_in, kept_in, Unpacked};
ghost use Rattle.table_records.specs.Cells.{cell_number};
ghost use Rattle.table_records.specs.Shown.{held_record};

// How many cells a record has.
pub const WIDTH: usize = 10;

// They are where its bytes begin, and its numbers in their order.
#[derive(Clone, Copy)]
enum RecordCell {
    Bytes,
    Kind,
    Parent,
    Flags,
    LoCount,
    HiCount,
    Least,
    Most,
    Target,
    LabelLength,
}

impl RecordCell {
    // Which of a record's cells it is.
    fn number(self) -> usize
        ensures { (result ≡ cell_number self) × (result < record_cells) }
    {
        self as usize
    }
}

// A hi count that sets no limit, as counts are given here.
pub const NO_LIMIT: usize = numbers::NO_LIMIT as usize;

// Cells for as many records as there may be.
pub const ALL_CELLS: usize = WIDTH * numbers::PARAMETER_LIMIT;

// The records of a table: its bytes, the cells that they are unpacked into, and how many they are. Whoever calls lends the
// cells, as no heap is used.
#[derive(Clone, Copy)]
pub struct Records<'t, 'c> {
    pub table: &'t [u8],
    pub unpacked: &'c [u32],
    pub count: usize,
}

// A cell of record i. The test is the same for all cells of a record, here and below, so that the compiler can
// make it once.
fn cell(unpacked: &[u32], i: usize, k: RecordCell) -> u32
    ensures { result ≡ cell_in unpacked.now i (cell_number k) }
{
    if numbers::PARAMETER_LIMIT <= i {
        return 0;
    }
    let at = WIDTH * i;
    if at + WIDTH <= unpacked.len() {
        return unpacked[at + k.number()];
    }
    0
}

// The number in two bytes that are there.
fn pair(table: &[u8], at: usize) -> u32
    requires { at + 2 ≤ length table.now }
    ensures { (result ≡ le16 table.now at) × (result < 65536) }
{
    u32::from(table[at]) + 256 * u32::from(table[at + 1])
}

// The i32 in four bytes that are there, counted from the least.
fn int(table: &[u8], at: usize) -> u32
    requires { at + 4 ≤ length table.now }
    ensures { result ≡ le_int table.now at }
{
    numbers::signed(pair(table, at) + 65536 * pair(table, at + 2))
}

// Keeps a number in a cell of record i, where its cells are there.
fn keep(unpacked: &mut [u32], i: usize, k: RecordCell, x: u32)
    ensures { unpacked.new ≡ kept_in unpacked.old i (cell_number k) x }
{
    if numbers::PARAMETER_LIMIT <= i {
        return;
    }
    let at = WIDTH * i;
    if at + WIDTH <= unpacked.len() {
        unpacked[at + k.number()] = x;
    }
}

// Unpacks the record whose bytes begin at a place into the cells of record i, where they are there. Its numbers are in
// the table, so none of them needs a test of its own. Table and cells stand apart until the cells are filled, here and where
// others fill them: `Records` lends filled ones.
pub fn unpack(table: &[u8], at: u32, unpacked: &mut [u32], i: usize)
    requires { at + 24 ≤ length table.now }
    ensures { i < parameter_limit → record_cells * (i + 1) ≤ length unpacked.old → Unpacked table.now at unpacked.old i unpacked.new }
{
    let from = at as usize;
    keep(unpacked, i, RecordCell::Bytes, at);
    keep(
        unpacked,
        i,
        RecordCell::Kind,
        pair(table, from + numbers::KIND_AT),
    );
    keep(
        unpacked,
        i,
        RecordCell::Parent,
        pair(table, from + numbers::PARENT_AT),
    );
    keep(
        unpacked,
        i,
        RecordCell::Flags,
        pair(table, from + numbers::FLAGS_AT),
    );
    keep(
        unpacked,
        i,
        RecordCell::LoCount,
        pair(table, from + numbers::LO_COUNT_AT),
    );
    keep(
        unpacked,
        i,
        RecordCell::HiCount,
        pair(table, from + numbers::HI_COUNT_AT),
    );
    keep(
        unpacked,
        i,
        RecordCell::Least,
        int(table, from + numbers::LEAST_AT),
    );
    keep(
        unpacked,
        i,
        RecordCell::Most,
        int(table, from + numbers::MOST_AT),
    );
    keep(
        unpacked,
        i,
        RecordCell::Target,
        pair(table, from + numbers::TARGET_AT),
    );
    keep(
        unpacked,
        i,
        RecordCell::LabelLength,
        pair(table, from + numbers::LABEL_LENGTH_AT),
    );
}

// The length that stands at a record's head.
pub fn length_at(table: &[u8], at: usize) -> usize
    requires { at + 2 ≤ length table.now }
    ensures { result ≡ le16 table.now at }
{
    pair(table, at) as usize
}

#[tactic(auto, unfolding(crate::specs::Stored::record_in, definition_rules::specs::Table::flag1, definition_rules::specs::Table::flag2, definition_rules::specs::Table::flag4))]
impl<'t> Records<'t, '_> {
    // Where the bytes of record i begin.
    pub fn place_at(&self, i: usize) -> usize
        ensures { result ≡ cell_in self.now.unpacked.now i 0 }
    {
        cell(self.unpacked, i, RecordCell::Bytes) as usize
    }

    // Kinds 1 to 10.
    pub fn kind_at(&self, i: usize) -> u32
        ensures { result ≡ (held_record self.now i).kind }
    {
        cell(self.unpacked, i, RecordCell::Kind)
    }

    // The parent's number, 65,535 for a top.
    pub fn parent_at(&self, i: usize) -> usize
        ensures { result ≡ up_number (held_record self.now i).parent }
    {
        cell(self.unpacked, i, RecordCell::Parent) as usize
    }

    // The record stands in the body of p.
    pub fn is_under(&self, i: usize, p: usize) -> bool
        ensures { result ≡ is_under p (held_record self.now i).parent }
    {
        let up = cell(self.unpacked, i, RecordCell::Parent) as usize;
        (up != numbers::NONE16) & (up == p)
    }

    // The flags, as one number.
    pub fn flags_at(&self, i: usize) -> u32
        ensures { result ≡ cell_in self.now.unpacked.now i 3 }
    {
        cell(self.unpacked, i, RecordCell::Flags)
    }

    pub fn untagged_at(&self, i: usize) -> bool
        ensures { result ≡ (held_record self.now i).untagged }
    {
        self.flags_at(i) % numbers::EXTENSION == numbers::UNTAGGED
    }

    pub fn extension_at(&self, i: usize) -> bool
        ensures { result ≡ (held_record self.now i).extension }
    {
        numbers::EXTENSION <= self.flags_at(i) % numbers::PLUGIN
    }

    pub fn plugin_at(&self, i: usize) -> bool
        ensures { result ≡ (held_record self.now i).plugin }
    {
        numbers::PLUGIN <= self.flags_at(i)
    }

    pub fn lo_count_at(&self, i: usize) -> usize
        ensures { result ≡ (held_record self.now i).lo_count }
    {
        cell(self.unpacked, i, RecordCell::LoCount) as usize
    }

    pub fn hi_count_at(&self, i: usize) -> usize
        ensures { result ≡ (held_record self.now i).hi_count }
    {
        cell(self.unpacked, i, RecordCell::HiCount) as usize
    }

    pub fn least_at(&self, i: usize) -> u32
        ensures { result ≡ (held_record self.now i).least }
    {
        cell(self.unpacked, i, RecordCell::Least)
    }

    pub fn most_at(&self, i: usize) -> u32
        ensures { result ≡ (held_record self.now i).most }
    {
        cell(self.unpacked, i, RecordCell::Most)
    }

    pub fn target_at(&self, i: usize) -> usize
        ensures { result ≡ (held_record self.now i).target }
    {
        cell(self.unpacked, i, RecordCell::Target) as usize
    }

    // The wire tag, or the name where untagged or top.
    pub fn label_at(&self, i: usize) -> &'t [u8]
        ensures { result.now ≡ (held_record self.now i).label }
    {
        let n = cell(self.unpacked, i, RecordCell::LabelLength) as usize;
        let from = cell(self.unpacked, i, RecordCell::Bytes) as usize + numbers::RECORD_HEADER;
        classes::part(self.table, from, from + n)
    }
}
