// The search for a tag, from record to record by the lengths at their heads; and tags that stand twice.
#![tactic(auto)]

ghost use Rattle.std.specs.Prelude.{◌≡◌, ◌+◌, ◌-◌, ◌<◌, length};
ghost use Rattle.reading_rules.specs.Schema.{is_tagged_as, first_where};
ghost use Rattle.definition_rules.specs.Faults.{tag_repeated};
ghost use Rattle.table_records.specs.Stored.{records_from, Laid};
ghost use Rattle.table_records.specs.Shown.{held_record, held_records};
ghost use Rattle.table_tags.specs.Search.{found_of, searched, Searchable};
ghost use Rattle.table_tags.specs.Keys.{tag_marks, tag_key, MarkedBefore};

use table_records::Records;

// ---- the search

// The record i, with this label, is a field of p with the word as its wire tag. The bytes are compared only where length
// and last byte agree.
fn is_tagged_as(records: &Records, p: usize, word: &[u8], i: usize, label: &[u8]) -> bool
    requires { label.now ≡ (held_record records.now i).label }
    ensures { result ≡ is_tagged_as p word.now (held_record records.now i) }
{
    if label.len() != word.len() {
        return false;
    }
    if classes::last_byte(label) != classes::last_byte(word) {
        return false;
    }
    if !records.is_under(i, p) {
        return false;
    }
    if records.untagged_at(i) {
        return false;
    }
    classes::same_before_last(label, word)
}

// The first record from one on, before end, that is a field of p with this wire tag: from each to the next by its length.
fn search(records: &Records, p: usize, word: &[u8], from: usize, end: usize) -> Option<usize>
    requires { Laid records.now.table.now records.now.unpacked.now end }
    ensures { found_of result ≡ first_where (is_tagged_as p word.now) from (records_from records.now.table.now records.now.unpacked.now (end - from) from) }
{
    let mut at = records.place_at(from);
    for i in from..end {
        let size = table_records::length_at(records.table, at);
        let label = &records.table[at + numbers::RECORD_HEADER..at + size];
        if is_tagged_as(records, p, word, i, label) {
            return Some(i);
        }
        at += size;
    }
    None
}

// The field or alternative of p with this wire tag, looked for from a record on to the last, and then from p's own record on.
// It may start at any record, as the tag stands once in p's body.
pub fn find(records: &Records, p: usize, word: &[u8], from: usize) -> Option<usize>
    requires { Searchable records.now.table.now records.now.unpacked.now records.now.count }
    ensures { found_of result ≡ searched records.now.table.now records.now.unpacked.now records.now.count p word.now }
{
    if records.count < from {
        return search(records, p, word, p, records.count);
    }
    // `or_else` would need the contract of search again, on its closure.
    match search(records, p, word, from, records.count) {
        Some(q) => Some(q),
        None => search(records, p, word, p, from),
    }
}

// ---- tags that stand twice

// The wire tag of record i stands before in its body.
pub fn tag_again(records: &Records, i: usize) -> bool
    requires { (i < records.now.count) × Laid records.now.table.now records.now.unpacked.now records.now.count }
    ensures { result ≡ tag_repeated (held_records records.now) i (held_record records.now i) }
{
    if records.untagged_at(i) {
        return false;
    }
    let p = records.parent_at(i);
    if p == numbers::NONE16 {
        return false;
    }
    search(records, p, records.label_at(i), 0, i).is_some()
}

// How many marks there are: four for each record that there may be, so that few tags of a table share one.
pub const MARKS: usize = 4 * numbers::PARAMETER_LIMIT;

// How far apart a byte more or less sets two keys.
const SPREAD: usize = 37;

// The key of a label in the body of p: the number of its mark.
fn key(p: usize, label: &[u8]) -> usize
    ensures { result ≡ tag_key p label.now }
{
    let mut k = p % MARKS;
    for b in label {
        k = (SPREAD * k + usize::from(*b)) % MARKS;
    }
    k
}

// The wire tag of record i stands before in its body, where the keys of all records before are marked; its own is marked
// too. A tag whose key is new is new, so a search is needed only where it is not.
pub fn tag_again_marked(records: &Records, i: usize, marks: &mut [bool]) -> bool
    requires i_lt_n { (i < records.now.count) × Laid records.now.table.now records.now.unpacked.now records.now.count }
    requires marked_before { MarkedBefore records.now.table.now records.now.unpacked.now i marks.old }
    ensures value { result ≡ tag_repeated (held_records records.now) i (held_record records.now i) }
    ensures marked_before_2 { MarkedBefore records.now.table.now records.now.unpacked.now (i + 1) marks.new }
{
    let k = key(records.parent_at(i), records.label_at(i));
    let old = numbers::get_or(marks, k, false);
    numbers::set(marks, k, true);
    if old {
        return tag_again(records, i);
    }
    false
}
