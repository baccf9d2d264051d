// The check behind number 20: whether some definition compiles to a table.
#![tactic(auto)]

ghost use Rattle.std.specs.Prelude.{◌≡◌, ◌+◌, ◌*◌, ◌≤◌, ◌<◌, length, true, ◌↔◌};
ghost use Rattle.numbers.specs.Limits.{parameter_limit};
ghost use Rattle.reading_rules.specs.Record.{AfterParents};
ghost use Rattle.definition_rules.specs.Faults.{tag_repeated};
ghost use Rattle.definition_rules.specs.Finite.{is_endless};
ghost use Rattle.table_rules.specs.Compilable.{Compilable};
ghost use Rattle.table_rules.specs.RecordRules.{none_broken, record_checks, record_rules, table_rules};
ghost use Rattle.table_records.specs.Stored.{Laid};
ghost use Rattle.table_records.specs.Shown.{held_record, held_records};
ghost use Rattle.table_walk.specs.Walked.{Enough};
ghost use Rattle.table.specs.Checks.{is_broken, Checked};

use table_records::Records;

// ---- the compiler's checks

// What the compiler asks of the record i alone, but for its tag and its values. Most are tagged fields, of which number 7
// says nothing.
#[tactic(auto, unfolding(crate::specs::Checks::is_broken))]
fn is_broken(records: &Records, i: usize) -> bool
    ensures { result ≡ is_broken (held_records records.now) i (held_record records.now i) }
{
    if table_checks::root_no_struct(records, i) {
        return true;
    }
    if table_checks::void_many(records, i) {
        return true;
    }
    if table_checks::is_tagged_field(records, i) {
        return false;
    }
    table_checks::rule7_broken(records, i)
}

fn none_broken(records: &Records) -> bool
    ensures { result ≡ none_broken (is_broken (held_records records.now)) 0 (held_records records.now) }
{
    !(0..records.count).any(|i| is_broken(records, i))
}

// No tag stands twice in its body, by a search for each.
fn tags_once_by_search(records: &Records) -> bool
    requires { Laid records.now.table.now records.now.unpacked.now records.now.count }
    ensures { result ≡ none_broken (tag_repeated (held_records records.now)) 0 (held_records records.now) }
{
    !(0..records.count).any(|i| table_tags::tag_again(records, i))
}

// The same, with a search only for tags whose key was met before.
fn tags_once_by_marks(records: &Records) -> bool
    requires { Laid records.now.table.now records.now.unpacked.now records.now.count }
    ensures { result ≡ none_broken (tag_repeated (held_records records.now)) 0 (held_records records.now) }
{
    let mut marks = [false; table_tags::MARKS];
    for i in 0..records.count {
        if table_tags::tag_again_marked(records, i, &mut marks) {
            return false;
        }
    }
    true
}

// No tag stands twice in its body. The marks pay where there are many records.
fn tags_once(records: &Records) -> bool
    requires { Laid records.now.table.now records.now.unpacked.now records.now.count }
    ensures { result ≡ none_broken (tag_repeated (held_records records.now)) 0 (held_records records.now) }
{
    if records.count <= FEW_RECORDS {
        return tags_once_by_search(records);
    }
    tags_once_by_marks(records)
}

fn none_endless(records: &Records, have: &[bool]) -> bool
    ensures { result ≡ none_broken (is_endless have.now) 0 (held_records records.now) }
{
    !(0..records.count).any(|i| table_checks::is_endless(records, have, i))
}

fn checks_fine(records: &Records) -> bool
    requires { (records.now.count ≤ parameter_limit) × Laid records.now.table.now records.now.unpacked.now records.now.count }
    ensures { AfterParents (held_records records.now) → result ≡ record_checks (held_records records.now) }
{
    if !none_broken(records) {
        return false;
    }
    if !tags_once(records) {
        return false;
    }
    if table_checks::only_structs(records) {
        return true;
    }
    let mut have = [false; numbers::PARAMETER_LIMIT];
    let mut rest = [false; numbers::PARAMETER_LIMIT];
    table_checks::finites(records, &mut have, &mut rest);
    none_endless(records, &have)
}

fn rules(records: &Records) -> bool
    requires { (records.now.count ≤ parameter_limit) × Laid records.now.table.now records.now.unpacked.now records.now.count }
    ensures { result ≡ record_rules parameter_limit (held_records records.now) }
{
    if records.count == 0 {
        return false;
    }
    if !table_order::ordered(records) {
        return false;
    }
    if !table_fields::every_fine(records) {
        return false;
    }
    if !table_fields::all_new(records) {
        return false;
    }
    checks_fine(records)
}

// ---- a table's bytes

// The records of a table that some definition compiles to, unpacked; of another table it says so. The cells are enough for
// the table's records, and filled here for `Records`.
pub fn checked(table: &[u8], unpacked: &mut [u32]) -> Option<usize>
    requires { Enough (length table.now) (length unpacked.old) }
    ensures { Checked table.now unpacked.new result }
{
    let count = table_walk::unpack(table, unpacked)?;
    let records = Records {
        table,
        unpacked,
        count,
    };
    if rules(&records) {
        return Some(count);
    }
    None
}

fn passes(table: &[u8], unpacked: &mut [u32]) -> bool
    requires { Enough (length table.now) (length unpacked.old) }
    ensures { result ≡ table_rules parameter_limit table.now }
{
    checked(table, unpacked).is_some()
}

// A small table, the records that it can hold, each with a label of one byte or more, and the cells for them.
const FEW_RECORDS: usize = 16;

pub const FEW_BYTES: usize = FEW_RECORDS * (numbers::RECORD_HEADER + 1);

pub const FEW_CELLS: usize = table_records::WIDTH * FEW_RECORDS;

// Some definition compiles to the table: the record rules hold, which is to say that there are a text and a room with which
// compiling gives these very bytes.
pub fn table_ok(table: &[u8]) -> bool
    ensures rules { result ≡ table_rules parameter_limit table.now }
    ensures compilable { (result ≡ true) ↔ Compilable table.now }
{
    if table.len() <= FEW_BYTES {
        let mut few = [0u32; FEW_CELLS];
        return passes(table, &mut few);
    }
    let mut many = [0u32; table_records::ALL_CELLS];
    passes(table, &mut many)
}
