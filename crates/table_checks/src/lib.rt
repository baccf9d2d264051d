// The checks of a definition that read only records. In all of them i is the number of the record that is judged.
#![tactic(auto)]

ghost use Rattle.std.specs.Prelude.{◌≡◌, Bool, true, false, List, ◌≤◌, length, get_or};
ghost use Rattle.reading_rules.specs.Record.{is_top, AfterParents};
ghost use Rattle.definition_rules.specs.Finite.{can_do_without, ends_needs, is_endless};
ghost use Rattle.definition_rules.specs.Faults.{void_many, parent_kind, beside as is_beside, misplaced_field, misplaced_alternative, misplaced_untagged, number_tag, void_top, plugin_undotted, rule7_broken, root_no_struct};
ghost use Rattle.table_records.specs.Shown.{held_record, held_records};
ghost use Rattle.table_checks.specs.Sweeps.{step_by, is_newly_finite, add_if, step_with, gathered, Over, Swept, HasFinites, AllFinite};

use table_records::Records;

// ---- parents

#[tactic(auto, using(crate::proofs::Parents::top_is))]
pub fn is_top(records: &Records, i: usize) -> bool
    ensures { result ≡ is_top (held_record records.now i).parent }
{
    records.parent_at(i) == numbers::NONE16
}

// j stands in i's body, or both are tops.
#[tactic(auto, using(crate::proofs::Parents::beside_is))]
pub fn beside(records: &Records, i: usize, j: usize) -> bool
    ensures { result ≡ is_beside (held_record records.now i) (held_record records.now j) }
{
    records.parent_at(j) == records.parent_at(i)
}

// The enclosing record's kind; 0 for a top.
#[tactic(auto, using(crate::proofs::Parents::kind_top, crate::proofs::Parents::kind_past, crate::proofs::Parents::kind_of_lem))]
fn parent_kind(records: &Records, i: usize) -> u32
    ensures { result ≡ parent_kind (held_records records.now) (held_record records.now i).parent }
{
    let p = records.parent_at(i);
    if p == numbers::NONE16 {
        return 0;
    }
    if records.count <= p {
        return numbers::VOID;
    }
    records.kind_at(p)
}

// ---- number 6

// A void that may stand more than once.
#[tactic(auto, unfolding(definition_rules::specs::Faults::void_many))]
pub fn void_many(records: &Records, i: usize) -> bool
    ensures { result ≡ void_many i (held_record records.now i) }
{
    (records.kind_at(i) == numbers::VOID) & (1 < records.hi_count_at(i))
}

// ---- number 7, by the clauses of docs/FORMAT.md (2.2)

// An untagged field of a struct that can't stand there.
#[tactic(auto, unfolding(definition_rules::specs::Faults::misplaced_field))]
fn misplaced_field(records: &Records, i: usize) -> bool
    ensures { result ≡ misplaced_field (held_records records.now) i (held_record records.now i) }
{
    if records.extension_at(i) { // clause b
        return true;
    }
    if records.kind_at(i) == numbers::VOID {
        return true;
    }
    (0..i.min(records.count)).any(|j| beside(records, i, j) & !records.untagged_at(j))
}

// An untagged alternative that can't stand there.
#[tactic(auto, unfolding(definition_rules::specs::Faults::misplaced_alternative))]
fn misplaced_alternative(records: &Records, i: usize) -> bool
    ensures { result ≡ misplaced_alternative (held_records records.now) i (held_record records.now i) }
{
    if records.extension_at(i) { // clause f
        return true;
    }
    if records.kind_at(i) != numbers::INT {
        return true;
    }
    (0..i.min(records.count)).any(|j| beside(records, i, j))
}

#[tactic(auto, unfolding(definition_rules::specs::Faults::misplaced_untagged, classes::specs::Lists::pick))]
fn misplaced_untagged(records: &Records, i: usize) -> bool
    ensures { result ≡ misplaced_untagged (held_records records.now) i (held_record records.now i) }
{
    if !records.untagged_at(i) {
        return false;
    }
    if parent_kind(records, i) == numbers::UNION {
        return misplaced_alternative(records, i);
    }
    misplaced_field(records, i)
}

// An alternative whose tag looks like an int, beside an untagged one.
#[tactic(auto, unfolding(definition_rules::specs::Faults::number_tag))]
fn number_tag(records: &Records, i: usize) -> bool
    ensures { result ≡ number_tag (held_records records.now) i (held_record records.now i) }
{
    if parent_kind(records, i) != numbers::UNION {
        return false;
    }
    if records.untagged_at(i) {
        return false;
    }
    if !numbers::is_int_like(records.label_at(i)) {
        return false;
    }
    (0..records.count).any(|j| beside(records, i, j) & records.untagged_at(j))
}

#[tactic(auto, unfolding(definition_rules::specs::Faults::void_top))]
fn void_top(records: &Records, i: usize) -> bool
    ensures { result ≡ void_top (held_record records.now i) }
{
    is_top(records, i) & (records.kind_at(i) == numbers::VOID)
}

// A plugin without a tag that has a dot.
#[tactic(auto, unfolding(definition_rules::specs::Faults::plugin_undotted))]
fn plugin_undotted(records: &Records, i: usize) -> bool
    ensures { result ≡ plugin_undotted (held_record records.now i) }
{
    if !records.plugin_at(i) {
        return false;
    }
    if records.untagged_at(i) {
        return true;
    }
    !definition_words::has_dot(records.label_at(i))
}

// A tagged field of a struct, and no plugin: no rule of number 7 speaks of it.
#[tactic(auto, using(crate::proofs::Any::tagged_field))]
pub fn is_tagged_field(records: &Records, i: usize) -> bool
    ensures { result ≡ true → rule7_broken (held_records records.now) i (held_record records.now i) ≡ false }
{
    if records.untagged_at(i) {
        return false;
    }
    if records.plugin_at(i) {
        return false;
    }
    parent_kind(records, i) == numbers::STRUCT
}

#[tactic(auto, unfolding(definition_rules::specs::Faults::rule7_broken))]
pub fn rule7_broken(records: &Records, i: usize) -> bool
    ensures { result ≡ rule7_broken (held_records records.now) i (held_record records.now i) }
{
    if misplaced_untagged(records, i) {
        return true;
    }
    if number_tag(records, i) {
        return true;
    }
    void_top(records, i) | plugin_undotted(records, i)
}

// ---- number 9

#[tactic(auto, unfolding(definition_rules::specs::Faults::root_no_struct))]
pub fn root_no_struct(records: &Records, i: usize) -> bool
    ensures { result ≡ root_no_struct i (held_record records.now i) }
{
    if i == 0 {
        return records.kind_at(i) != numbers::STRUCT;
    }
    false
}

// ---- number 10

#[tactic(auto, unfolding(definition_rules::specs::Finite::can_do_without))]
fn can_do_without(records: &Records, i: usize) -> bool
    ensures { result ≡ can_do_without (held_record records.now i) }
{
    (records.lo_count_at(i) == 0) | records.extension_at(i) | records.plugin_at(i)
}

#[tactic(auto, unfolding(definition_rules::specs::Finite::ends_needs))]
fn ends_needs(records: &Records, i: usize) -> bool
    ensures { result ≡ ends_needs (held_record records.now i) }
{
    records.untagged_at(i) & (records.lo_count_at(i) == 0)
}

// What the body of each record comes to before any record of it is looked at: a struct asks for nothing yet, a union has no choice.
fn begin(records: &Records, rest: &mut [bool])
    requires { records.now.count ≤ length rest.old }
    ensures { (have : List Bool) → Over records.now.table.now records.now.unpacked.now records.now.count have records.now.count rest.new }
{
    for i in 0..records.count {
        rest[i] = records.kind_at(i) != numbers::UNION;
    }
}

// A step gives the record i a value, where rest has what its body comes to.
#[tactic(auto, unfolding(crate::specs::Sweeps::step_by, classes::specs::Lists::pick))]
fn has_value(records: &Records, have: &[bool], rest: &[bool], i: usize) -> bool
    ensures { result ≡ step_by have.now (get_or rest.now i false) (held_record records.now i) }
{
    let k = records.kind_at(i);
    if k == numbers::STRUCT {
        return numbers::get_or(rest, i, false);
    }
    if k == numbers::UNION {
        return numbers::get_or(rest, i, false);
    }
    if k == numbers::REFERENCE {
        let t = records.target_at(i);
        return numbers::get_or(have, t, false);
    }
    true
}

// Adds i where a step gives it a value, and says whether it was added.
#[tactic(auto, unfolding(crate::specs::Sweeps::is_newly_finite, crate::specs::Sweeps::add_if, classes::specs::Lists::pick))]
fn add_if(records: &Records, have: &mut [bool], rest: &[bool], i: usize) -> bool
    ensures value { result ≡ is_newly_finite have.old (get_or rest.now i false) i (held_record records.now i) }
    ensures have_after { have.new ≡ add_if (is_newly_finite have.old (get_or rest.now i false) i (held_record records.now i)) have.old i }
{
    if numbers::get_or(have, i, false) {
        return false;
    }
    if has_value(records, have, rest, i) {
        numbers::set(have, i, true);
        return true;
    }
    false
}

// What a step gives the record p by i, which stands in its body, and by those after i, which give it rest.
#[tactic(auto, unfolding(crate::specs::Sweeps::step_with, classes::specs::Lists::pick))]
fn joined(records: &Records, have: &[bool], p: usize, i: usize, rest: bool) -> bool
    ensures { result ≡ step_with have.now (held_record records.now p).kind i (held_record records.now i) rest }
{
    let k = records.kind_at(p);
    if k == numbers::STRUCT {
        return ends_needs(records, i)
            | ((can_do_without(records, i) | numbers::get_or(have, i, false)) & rest);
    }
    if k == numbers::UNION {
        return numbers::get_or(have, i, false) | rest;
    }
    rest
}

// Joins i to what rest has for the record that i stands in.
#[tactic(auto, using(crate::proofs::Parents::parent_top, crate::proofs::Parents::parent_under), unfolding(crate::specs::Sweeps::gathered))]
fn join(records: &Records, have: &[bool], rest: &mut [bool], i: usize)
    ensures { rest.new ≡ gathered records.now.table.now records.now.unpacked.now have.now i (held_record records.now i).parent rest.old }
{
    let p = records.parent_at(i);
    if p == numbers::NONE16 {
        return;
    }
    let after = numbers::get_or(rest, p, false);
    let mark = joined(records, have, p, i, after);
    numbers::set(rest, p, mark);
}

// A sweep in place, from the last record to the first, and whether it added any. A body's records stand after its own, so that
// rest has the whole body when its record is met.
fn sweep(records: &Records, have: &mut [bool], rest: &mut [bool]) -> bool
    requires { records.now.count ≤ length rest.old }
    ensures { AfterParents (held_records records.now) → Swept (held_records records.now) have.old have.new result }
{
    begin(records, rest);
    let mut more = false;
    for i in (0..records.count).rev() {
        more |= add_if(records, have, rest, i);
        join(records, have, rest, i);
    }
    more
}

// Which records have a finite value, if there is room for all: sweeps in place until nothing changes, or as many as records.
pub fn finites(records: &Records, have: &mut [bool], rest: &mut [bool])
    ensures { AfterParents (held_records records.now) → records.now.count ≤ length have.old → records.now.count ≤ length rest.old → HasFinites (held_records records.now) have.new }
{
    if have.len() < records.count {
        return;
    }
    if rest.len() < records.count {
        return;
    }
    have.fill(false);
    for _ in 0..records.count {
        let is_done = !sweep(records, have, rest);
        if is_done {
            return;
        }
    }
}

#[tactic(auto, unfolding(definition_rules::specs::Finite::is_endless, definition_rules::specs::Words::kind_is_compound))]
pub fn is_endless(records: &Records, have: &[bool], i: usize) -> bool
    ensures { result ≡ is_endless have.now i (held_record records.now i) }
{
    let k = records.kind_at(i);
    (numbers::STRUCT <= k) & (k <= numbers::UNION) & !numbers::get_or(have, i, false)
}

// No record is a union or a reference, so that each has a finite value: the records of a struct's body stand after it.
pub fn only_structs(records: &Records) -> bool
    ensures { AfterParents (held_records records.now) → result ≡ true → AllFinite (held_records records.now) }
{
    (0..records.count).all(|i| records.kind_at(i) < numbers::UNION)
}
