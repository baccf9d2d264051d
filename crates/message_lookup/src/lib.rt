// The questions that a reading asks of a table: each is answered from its records; a number past them is the blank record's.
#![tactic(auto)]

ghost use Rattle.std.specs.Prelude.{◌≡◌, ◌≢◌, OnErr, true, false, ℕ, ◌+◌, ◌-◌, ◌<◌, length, set, IfSome};
ghost use Rattle.classes.specs.Bytes.{between};
ghost use Rattle.numbers.specs.Limits.{bias};
ghost use Rattle.calendar.specs.Calendar.{date_form, date_within, time_form, time_within};
ghost use Rattle.reading_rules.specs.Token.{word, string};
ghost use Rattle.reading_rules.specs.Value.{is_bool, form_then_range, value_number};
ghost use Rattle.reading_rules.specs.Record.{record_at};
ghost use Rattle.reading_rules.specs.Schema.{is_void, is_untagged_of, is_tagged_of, first};
ghost use Rattle.reading_rules.specs.Parse.{may_grow};
ghost use Rattle.table_records.specs.Shown.{held_record, held_records};
ghost use Rattle.table_tags.specs.Search.{found_of, Searchable};
ghost use Rattle.message_lookup.specs.Questions.{schema_of_records, untagged_in, shape_of, broken_number, text_token, length_lies, int_lies};
ghost use Rattle.message_lookup.specs.Seen.{is_required_of, is_missing, complete_from};
ghost use Rattle.message_lookup.specs.IntList.{IntsOf};

use numbers::Rule;
use table_records::Records;

// The bias and the largest number of a range, as places are counted.
const ZERO: usize = numbers::BIAS as usize;

const LARGEST: usize = numbers::INT_MOST as usize;

// How a parameter's values are read.
#[derive(Clone, Copy, Debug, PartialEq, Eq)]
pub enum Shape {
    Void,
    Simple,
    Struct,
    Union,
    Reference,
}

// ---- one parameter

// The kind's number.
#[tactic(auto, using(table_records::proofs::Laws::record_past, table_records::proofs::Laws::record_at_lem), unfolding(reading_rules::specs::Record::blank))]
pub fn kind_number(records: &Records, p: usize) -> u32
    ensures { result ≡ (record_at (held_records records.now) p).kind }
{
    if records.count <= p {
        return numbers::VOID;
    }
    records.kind_at(p)
}

#[tactic(auto, unfolding(reading_rules::specs::Schema::schema_of, reading_rules::specs::Schema::kind_of))]
pub fn kind(records: &Records, p: usize) -> Shape
    ensures { shape_of result ≡ (schema_of_records records.now).kind p }
{
    let number = kind_number(records, p);
    match number {
        numbers::VOID => Shape::Void,
        numbers::STRUCT => Shape::Struct,
        numbers::UNION => Shape::Union,
        numbers::REFERENCE => Shape::Reference,
        _ => Shape::Simple,
    }
}

#[tactic(auto, using(crate::proofs::Steps::void_number), unfolding(reading_rules::specs::Schema::schema_of))]
pub fn is_void(records: &Records, p: usize) -> bool
    ensures { result ≡ is_void ((schema_of_records records.now).kind p) }
{
    kind_number(records, p) == numbers::VOID
}

// A reference's target, else the parameter itself.
pub fn core(records: &Records, p: usize) -> usize
    ensures { result ≡ (schema_of_records records.now).core p }
{
    if records.count <= p {
        return p;
    }
    if records.kind_at(p) == numbers::REFERENCE {
        return records.target_at(p);
    }
    p
}

// This and `hi` stay two: one function of both would take the count that it reads as a closure, and be no shorter.
#[tactic(auto, using(table_records::proofs::Laws::record_past, table_records::proofs::Laws::record_at_lem), unfolding(reading_rules::specs::Record::blank, reading_rules::specs::Schema::schema_of))]
pub fn lo(records: &Records, p: usize) -> usize
    ensures { result ≡ (schema_of_records records.now).lo p }
{
    if records.count <= p {
        return 1;
    }
    records.lo_count_at(p)
}

// 65,535 is no limit.
#[tactic(auto, using(table_records::proofs::Laws::record_past, table_records::proofs::Laws::record_at_lem), unfolding(reading_rules::specs::Record::blank, reading_rules::specs::Schema::schema_of))]
pub fn hi(records: &Records, p: usize) -> usize
    ensures { result ≡ (schema_of_records records.now).hi p }
{
    if records.count <= p {
        return 1;
    }
    records.hi_count_at(p)
}

// A list of c values may have one more.
#[tactic(auto, unfolding(reading_rules::specs::Parse::may_grow))]
pub fn may_grow(hi: usize, c: usize) -> bool
    ensures { result ≡ may_grow hi c }
{
    (hi == table_records::NO_LIMIT) | (c < hi)
}

// What a list of ints takes, in packed digits: from least to most; fewer than hi values may have one more.
#[derive(Clone, Copy)]
pub struct Ints {
    pub least: u64,
    pub most: u64,
    pub hi: usize,
}

// How far a number that is counted from the least i32 lies above 0.
fn above_zero(x: u32) -> u32
    ensures { result ≡ x - bias }
{
    if x < numbers::BIAS {
        return 0;
    }
    x - numbers::BIAS
}

// How many values a list may have, where no limit is more than any list has.
#[tactic(auto, using(crate::proofs::IntLists::no_limit_lem, crate::proofs::IntLists::under_limit))]
fn most_values(hi: usize) -> usize
    ensures { (c : ℕ) → c < result → may_grow hi c ≡ true }
{
    if hi == table_records::NO_LIMIT {
        return LARGEST;
    }
    hi
}

// What the list of p takes, where it is one of ints, of which some may be natural numbers.
pub fn ints_of(records: &Records, p: usize) -> Option<Ints>
    ensures { IfSome result (λ e. IntsOf (schema_of_records records.now) p e) }
{
    let u = core(records, p);
    if records.count <= u {
        return None;
    }
    if records.kind_at(u) != numbers::INT {
        return None;
    }
    let most = records.most_at(u);
    if most < numbers::BIAS {
        return None;
    }
    Some(Ints {
        least: numbers::packed(above_zero(records.least_at(u))),
        most: numbers::packed(above_zero(most)),
        hi: most_values(hi(records, p)),
    })
}

// ---- the fields of p

fn is_untagged_of(records: &Records, p: usize, i: usize) -> bool
    ensures { result ≡ is_untagged_of p (held_record records.now i) }
{
    if records.is_under(i, p) {
        return records.untagged_at(i);
    }
    false
}

fn is_tagged_of(records: &Records, p: usize, i: usize) -> bool
    ensures { result ≡ is_tagged_of p (held_record records.now i) }
{
    if records.is_under(i, p) {
        return !records.untagged_at(i);
    }
    false
}

// The first untagged field from record i on.
pub fn next_untagged(records: &Records, p: usize, i: usize) -> Option<usize>
    ensures { found_of result ≡ first (untagged_in records.now p i) }
{
    for at in i..records.count {
        if is_untagged_of(records, p, at) {
            return Some(at);
        }
    }
    None
}

// The untagged int of a union.
#[tactic(auto, unfolding(reading_rules::specs::Schema::schema_of))]
pub fn bare(records: &Records, p: usize) -> Option<usize>
    ensures { found_of result ≡ (schema_of_records records.now).bare p }
{
    next_untagged(records, p, 0)
}

// The tag search: the field or alternative of p with this wire tag, looked for from a record on and round. Made again by a
// match: handed on as it is, the reader's loop over ints is compiled into slower code (docs/PERFORMANCE.md).
#[tactic(auto, unfolding(reading_rules::specs::Schema::schema_of))]
pub fn find(records: &Records, p: usize, word: &[u8], from: usize) -> Option<usize>
    requires { Searchable records.now.table.now records.now.unpacked.now records.now.count }
    ensures { found_of result ≡ (schema_of_records records.now).find p word.now }
{
    match table_tags::find(records, p, word, from) {
        None => None,
        Some(q) => Some(q),
    }
}

// ---- the fields that have appeared

pub fn mark(seen: &mut [bool], k: usize)
    ensures { seen.new ≡ set seen.old k true }
{
    numbers::set(seen, k, true);
}

fn is_required_of(records: &Records, p: usize, i: usize) -> bool
    ensures { result ≡ is_required_of p (held_record records.now i) }
{
    if is_tagged_of(records, p, i) {
        return !(records.extension_at(i) | records.plugin_at(i) | (records.lo_count_at(i) == 0));
    }
    false
}

fn is_missing(records: &Records, p: usize, seen: &[bool], i: usize) -> bool
    ensures { result ≡ is_missing p seen.now i (held_record records.now i) }
{
    if numbers::get_or(seen, i, false) {
        return false;
    }
    is_required_of(records, p, i)
}

// Every required tagged field of p has a mark.
pub fn complete(records: &Records, p: usize, seen: &[bool]) -> bool
    ensures { result ≡ complete_from p seen.now 0 (held_records records.now) }
{
    for i in 0..records.count {
        if is_missing(records, p, seen, i) {
            return false;
        }
    }
    true
}

// ---- values

// Whether the form is right and the value lies in its range; else what is wrong, the form first.
#[tactic(auto, unfolding(reading_rules::specs::Value::form_then_range))]
fn form_then_range(form: bool, within: bool) -> Result<(), Rule>
    ensures number { broken_number result ≡ form_then_range form within }
    ensures broken { OnErr result (broken_number result ≢ 0) }
{
    match (form, within) {
        (false, _) => Err(Rule::ValueForm),
        (true, false) => Err(Rule::ValueRange),
        (true, true) => Ok(()),
    }
}

#[tactic(auto, unfolding(reading_rules::specs::Value::is_bool))]
fn is_bool(text: &[u8]) -> bool
    ensures { result ≡ is_bool text.now }
{
    (text == b"true".as_slice()) | (text == b"false".as_slice())
}

// The text's length lies in the range, which is counted from the least i32.
fn length_within(text: &[u8], least: u32, most: u32) -> bool
    ensures { result ≡ between least most (bias + length text.now) }
{
    let n = text.len();
    if LARGEST < n {
        return false;
    }
    (least as usize <= ZERO + n) & (ZERO + n <= most as usize)
}

fn length_in_range(records: &Records, q: usize, text: &[u8]) -> bool
    ensures { result ≡ length_lies (held_record records.now q) text.now }
{
    length_within(text, records.least_at(q), records.most_at(q))
}

fn int_in_range(records: &Records, q: usize, text: &[u8]) -> bool
    ensures { result ≡ int_lies (held_record records.now q) text.now }
{
    numbers::int_within(text, records.least_at(q), records.most_at(q))
}

// A date: eight digits, then a day of the calendar.
// This and `judge_time` stay two: one of both would take both tests as closures, the second with what it requires, and be longer.
fn judge_date(text: &[u8]) -> Result<(), Rule>
    ensures number { broken_number result ≡ form_then_range (date_form text.now) (date_within text.now) }
    ensures broken { OnErr result (broken_number result ≢ 0) }
{
    if calendar::date_form(text) {
        form_then_range(true, calendar::date_within(text))
    } else {
        Err(Rule::ValueForm)
    }
}

// A time: six digits, then a time of the day.
fn judge_time(text: &[u8]) -> Result<(), Rule>
    ensures number { broken_number result ≡ form_then_range (time_form text.now) (time_within text.now) }
    ensures broken { OnErr result (broken_number result ≢ 0) }
{
    if calendar::time_form(text) {
        form_then_range(true, calendar::time_within(text))
    } else {
        Err(Rule::ValueForm)
    }
}

// The value rule of each kind, for a word.
fn judge_word(records: &Records, q: usize, text: &[u8]) -> Result<(), Rule>
    ensures number { broken_number result ≡ value_number (held_record records.now q) (word text.now) }
    ensures broken { OnErr result (broken_number result ≢ 0) }
{
    let kind = records.kind_at(q);
    match kind {
        numbers::BOOL => form_then_range(is_bool(text), true),
        numbers::INT => form_then_range(numbers::is_int(text), int_in_range(records, q, text)),
        numbers::UNQUOTED => form_then_range(true, length_in_range(records, q, text)),
        numbers::DATE => judge_date(text),
        numbers::TIME => judge_time(text),
        _ => Err(Rule::ValueForm),
    }
}

// The same for a string, without its quotes: only an ascii takes one.
fn judge_string(records: &Records, q: usize, text: &[u8]) -> Result<(), Rule>
    ensures number { broken_number result ≡ value_number (held_record records.now q) (string text.now) }
    ensures broken { OnErr result (broken_number result ≢ 0) }
{
    form_then_range(
        records.kind_at(q) == numbers::ASCII,
        length_in_range(records, q, text),
    )
}

// Whether a word, or a string without its quotes, is a value of the parameter q; else the rule that it breaks.
pub fn judge(records: &Records, q: usize, text: &[u8], quoted: bool) -> Result<(), Rule>
    ensures number { broken_number result ≡ (schema_of_records records.now).judge q (text_token quoted text.now) }
    ensures broken { OnErr result (broken_number result ≢ 0) }
{
    if records.count <= q {
        return Err(Rule::ValueForm);
    }
    if quoted {
        return judge_string(records, q, text);
    }
    judge_word(records, q, text)
}
