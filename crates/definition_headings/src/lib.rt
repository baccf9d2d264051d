// What a declaration's heading says: kind, limits, counts, label, target.
#![tactic(auto)]

ghost use Rattle.std.specs.Prelude.{◌≡◌};
ghost use Rattle.numbers.specs.Range.{low_of, high_of};
ghost use Rattle.numbers.specs.Answers.{range_of, side_of};
ghost use Rattle.definition_rules.specs.Records.{find_top};
ghost use Rattle.definition_headings.specs.Heads.{declared_kind, limits_at, counts_at, label_at, is_named_at, names_from, target_at};

use definition_cells::Declarations;
use numbers::Range;

// 1 to 9 for a type keyword, 10 for a reference.
pub fn kind(noted: &Declarations, i: usize) -> u32
    ensures { result ≡ declared_kind noted.now.text.now noted.now.cells.now i }
{
    definition_words::kind_of_run(noted.run(i, definition_cells::TYPE))
}

// The range of an int or a length, given or by default.
#[tactic(auto, unfolding(definition_rules::specs::Records::limits_of, definition_cells::specs::Cells::maybe_run_at, classes::specs::Lists::pick))]
pub fn limits(noted: &Declarations, i: usize) -> Option<Range>
    ensures { range_of result ≡ limits_at noted.now.text.now noted.now.cells.now i }
{
    if noted.cell(i, definition_cells::RANGED) == definition_cells::GIVEN {
        return numbers::read_int_range(noted.run(i, definition_cells::RANGE));
    }
    let kind = kind(noted, i);
    Some(Range {
        low: definition_words::kind_least(kind),
        high: definition_words::kind_most(kind),
    })
}

// The cardinality, given or 1..1.
#[tactic(auto, unfolding(definition_rules::specs::Records::count_range_of, definition_cells::specs::Cells::maybe_run_at, classes::specs::Lists::pick))]
pub fn counts(noted: &Declarations, i: usize) -> Option<Range>
    ensures { range_of result ≡ counts_at noted.now.text.now noted.now.cells.now i }
{
    if noted.cell(i, definition_cells::CARDED) == definition_cells::GIVEN {
        return numbers::read_count_range(noted.run(i, definition_cells::CARD));
    }
    Some(Range { low: 1, high: 1 })
}

// A range's numbers, 0 where it could not be read: two functions, as one would take the field as a closure and be longer.
#[tactic(auto, unfolding(numbers::specs::Range::low_of))]
pub fn low(range: Option<Range>) -> u32
    ensures { result ≡ low_of (range_of range) }
{
    range.map_or(0, |r| r.low)
}

#[tactic(auto, unfolding(numbers::specs::Range::high_of))]
pub fn high(range: Option<Range>) -> u32
    ensures { result ≡ high_of (range_of range) }
{
    range.map_or(0, |r| r.high)
}

// The wire tag, or the name where untagged or top.
#[tactic(auto, unfolding(definition_rules::specs::Records::label_of, definition_cells::specs::Cells::tag_at, classes::specs::Lists::pick))]
pub fn label<'t>(noted: &Declarations<'t, '_>, i: usize) -> &'t [u8]
    ensures { result.now ≡ label_at noted.now.text.now noted.now.cells.now i }
{
    let tag = noted.cell(i, definition_cells::TAGGED);
    if tag == definition_cells::OWN_NAME {
        return noted.run(i, definition_cells::NAME);
    }
    if tag == definition_cells::TAGLESS {
        return noted.run(i, definition_cells::NAME);
    }
    noted.run(i, definition_cells::TAG)
}

// Declaration j is a top with the name w.
fn is_named(noted: &Declarations, j: usize, w: &[u8]) -> bool
    ensures { result ≡ is_named_at noted.now.text.now noted.now.cells.now j w.now }
{
    if noted.cell(j, definition_cells::PARENT) == definition_cells::NO_PARENT {
        return classes::same_bytes(noted.run(j, definition_cells::NAME), w);
    }
    false
}

// The number of the top with the name w.
fn find_top(noted: &Declarations, w: &[u8]) -> Option<usize>
    ensures { side_of result ≡ find_top (names_from noted.now.text.now noted.now.cells.now noted.now.count 0) 0 w.now }
{
    // A copy, so that its parts are at hand in each turn.
    let noted = *noted;
    (0..noted.count).find(|j| is_named(&noted, *j, w))
}

// The number of the top that a reference names, else 65,535, which is what a table holds for none (`target_of`).
pub fn target(noted: &Declarations, i: usize) -> usize
    ensures { result ≡ target_at noted.now.text.now noted.now.cells.now noted.now.count i }
{
    if kind(noted, i) != numbers::REFERENCE {
        return numbers::NONE16;
    }
    find_top(noted, noted.run(i, definition_cells::TYPE)).unwrap_or(numbers::NONE16)
}
