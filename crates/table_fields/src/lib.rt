// The rules for one record, and for the names that a table shows.
#![tactic(auto)]

ghost use Rattle.std.specs.Prelude.{◌≡◌, not, ◌&&◌, ◌+◌, ◌-◌, ◌<◌};
ghost use Rattle.definition_rules.specs.Faults.{is_union_at, same_key, is_new_key};
ghost use Rattle.table_rules.specs.RecordRules.{kinds_of_records, is_single_value, counts_fine, range_fine, is_top_at, target_fine, shows_name, label_fine, top_fine, record_fine, every_record, shown_names, all_new};
ghost use Rattle.table_records.specs.Stored.{records_from};
ghost use Rattle.table_records.specs.Shown.{held_record, held_records};
ghost use Rattle.table_fields.specs.Keys.{label_key};

use table_records::Records;

// The largest count.
const COUNT_LIMIT: usize = numbers::COUNT_LIMIT as usize;

// ---- one record

#[tactic(auto, using(crate::proofs::Single::union_in, crate::proofs::Single::union_past))]
fn is_union(records: &Records, p: usize) -> bool
    ensures { result ≡ is_union_at (kinds_of_records (held_records records.now)) p }
{
    if p < records.count {
        return records.kind_at(p) == numbers::UNION;
    }
    false
}

// A top or an alternative.
#[tactic(auto, using(crate::proofs::Single::single_top, crate::proofs::Single::single_under))]
fn is_single(records: &Records, i: usize) -> bool
    ensures { result ≡ is_single_value (is_union_at (kinds_of_records (held_records records.now))) (held_record records.now i).parent }
{
    if table_checks::is_top(records, i) {
        return true;
    }
    is_union(records, records.parent_at(i))
}

#[tactic(auto, unfolding(table_rules::specs::RecordRules::counts_fine))]
fn counts_fine(records: &Records, i: usize) -> bool
    ensures { result ≡ counts_fine (is_union_at (kinds_of_records (held_records records.now))) (held_record records.now i) }
{
    let lo = records.lo_count_at(i);
    let hi = records.hi_count_at(i);
    let single = (lo == 1) & (hi == 1);
    (lo <= COUNT_LIMIT)
        & ((1 <= hi)
            & ((lo <= hi) & ((hi <= table_records::NO_LIMIT) & (!is_single(records, i) | single))))
}

#[tactic(auto, unfolding(table_rules::specs::RecordRules::range_fine))]
fn range_fine(records: &Records, i: usize) -> bool
    ensures { result ≡ range_fine (held_record records.now i) }
{
    let k = records.kind_at(i);
    let a = records.least_at(i);
    let b = records.most_at(i);
    (definition_words::kind_least(k) <= a) & ((a <= b) & (b <= definition_words::kind_most(k)))
}

#[tactic(auto, using(crate::proofs::Single::top_in, crate::proofs::Single::top_past))]
fn is_top_at(records: &Records, i: usize) -> bool
    ensures { result ≡ is_top_at (held_records records.now) i }
{
    if i < records.count {
        return table_checks::is_top(records, i);
    }
    false
}

#[tactic(auto, unfolding(table_rules::specs::RecordRules::target_fine, classes::specs::Lists::pick))]
fn target_fine(records: &Records, i: usize) -> bool
    ensures { result ≡ target_fine (held_records records.now) (held_record records.now i) }
{
    let t = records.target_at(i);
    if records.kind_at(i) == numbers::REFERENCE {
        return is_top_at(records, t);
    }
    t == numbers::NONE16
}

// Tops and untagged fields.
#[tactic(auto, unfolding(table_rules::specs::RecordRules::shows_name))]
fn shows_name(records: &Records, i: usize) -> bool
    ensures { result ≡ shows_name (held_record records.now i) }
{
    table_checks::is_top(records, i) | records.untagged_at(i)
}

#[tactic(auto, unfolding(table_rules::specs::RecordRules::label_fine, classes::specs::Lists::pick))]
fn label_fine(records: &Records, i: usize) -> bool
    ensures { result ≡ label_fine (held_record records.now i) }
{
    let label = records.label_at(i);
    if shows_name(records, i) {
        return definition_words::name_form(label);
    }
    definition_words::tag_form(label)
}

#[tactic(auto, unfolding(table_rules::specs::RecordRules::top_fine))]
fn top_fine(records: &Records, i: usize) -> bool
    ensures { result ≡ top_fine (held_record records.now i) }
{
    !table_checks::is_top(records, i)
        | (!records.untagged_at(i)
            & (!records.plugin_at(i) & (records.kind_at(i) != numbers::REFERENCE)))
}

#[tactic(auto, unfolding(table_rules::specs::RecordRules::record_fine))]
fn record_fine(records: &Records, i: usize) -> bool
    ensures { result ≡ record_fine (held_records records.now) (is_union_at (kinds_of_records (held_records records.now))) (held_record records.now i) }
{
    let k = records.kind_at(i);
    if k < numbers::VOID {
        return false;
    }
    if numbers::REFERENCE < k {
        return false;
    }
    if !counts_fine(records, i) {
        return false;
    }
    if !range_fine(records, i) {
        return false;
    }
    if !target_fine(records, i) {
        return false;
    }
    if !label_fine(records, i) {
        return false;
    }
    top_fine(records, i)
}

pub fn every_fine(records: &Records) -> bool
    ensures { result ≡ every_record (record_fine (held_records records.now) (is_union_at (kinds_of_records (held_records records.now)))) (held_records records.now) }
{
    (0..records.count).all(|i| record_fine(records, i))
}

// ---- shown names

// j shows the name that i shows, in the same body or both as tops.
#[tactic(auto, unfolding(definition_rules::specs::Faults::same_key))]
fn same_name(records: &Records, i: usize, j: usize) -> bool
    ensures { result ≡ (shows_name (held_record records.now j) && same_key (label_key (held_record records.now i)) (label_key (held_record records.now j))) }
{
    if !shows_name(records, j) {
        return false;
    }
    if !table_checks::beside(records, j, i) {
        return false;
    }
    classes::same_bytes(records.label_at(i), records.label_at(j))
}

// No record from a place on shows the name of i.
fn is_new(records: &Records, i: usize, from: usize) -> bool
    ensures { result ≡ is_new_key (label_key (held_record records.now i)) (shown_names (records_from records.now.table.now records.now.unpacked.now (records.now.count - from) from)) }
{
    // A copy, so that its parts are at hand in each turn.
    let records = *records;
    !(from..records.count).any(|j| same_name(&records, i, j))
}

// The name that i shows is shown again after it.
fn shown_again(records: &Records, i: usize) -> bool
    requires { i < records.now.count }
    ensures { result ≡ (shows_name (held_record records.now i) && not (is_new_key (label_key (held_record records.now i)) (shown_names (records_from records.now.table.now records.now.unpacked.now (records.now.count - (i + 1)) (i + 1))))) }
{
    // Always below: so the sum is a number that fits.
    let count = records.count;
    (i < count) & shows_name(records, i) && !is_new(records, i, i + 1)
}

pub fn all_new(records: &Records) -> bool
    ensures { result ≡ all_new (shown_names (held_records records.now)) }
{
    !(0..records.count).any(|i| shown_again(records, i))
}
