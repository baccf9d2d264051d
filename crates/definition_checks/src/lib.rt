// The checks of a definition that go by declarations: forms of names and tags (5), ranges (6), names twice (8), references (9).
#![tactic(auto)]

ghost use Rattle.std.specs.Prelude.{◌≡◌, not, []};
ghost use Rattle.numbers.specs.Answers.{range_of};
ghost use Rattle.definition_rules.specs.Declarations.{declarations_of};
ghost use Rattle.definition_rules.specs.Records.{top_names, records_of};
ghost use Rattle.definition_rules.specs.Faults.{name_broken, reference_broken, tag_broken, within_kind, count_fine, is_new_key, range_broken, spots_where, repeated_names, dangling as dangling_of, faults5, faults6};
ghost use Rattle.definition_cells.specs.Places.{spot_of, least_place};
ghost use Rattle.definition_cells.specs.Shown.{declared_at, declared};
ghost use Rattle.definition_checks.specs.Checks.{form_fault, on_alternative, card_broken, range_fault, key_at, keys_below, same_key_at, repeat_fault, dangling_fault};

use definition_cells::Declarations;
use numbers::Range;

// ---- 5: forms

#[tactic(auto, unfolding(definition_cells::specs::Places::spot_of, definition_rules::specs::Faults::name_broken, definition_cells::specs::Cells::noted_at))]
fn name_form_fault(noted: &Declarations, i: usize) -> Option<usize>
    ensures { result ≡ spot_of name_broken (λ s. s.name_at) (declared_at noted.now i) }
{
    let broken = !definition_words::name_form(noted.run(i, definition_cells::NAME));
    definition_cells::at_if(broken, noted.cell(i, definition_cells::NAME))
}

#[tactic(auto, unfolding(definition_cells::specs::Places::spot_of, definition_rules::specs::Faults::reference_broken, definition_rules::specs::Words::is_reference, definition_cells::specs::Cells::noted_at, classes::specs::Lists::pick))]
fn reference_form_fault(noted: &Declarations, i: usize) -> Option<usize>
    ensures { result ≡ spot_of reference_broken (λ s. s.type_at) (declared_at noted.now i) }
{
    let run = noted.run(i, definition_cells::TYPE);
    if definition_words::kind_of_run(run) == numbers::REFERENCE {
        let broken = !definition_words::name_form(run);
        return definition_cells::at_if(broken, noted.cell(i, definition_cells::TYPE));
    }
    None
}

#[tactic(auto, unfolding(definition_cells::specs::Places::spot_of, definition_rules::specs::Faults::tag_broken, definition_rules::specs::Faults::tag_broken_in, definition_cells::specs::Cells::noted_at, definition_cells::specs::Cells::tag_at, classes::specs::Lists::pick))]
fn tag_form_fault(noted: &Declarations, i: usize) -> Option<usize>
    ensures { result ≡ spot_of tag_broken (λ s. s.tag_at) (declared_at noted.now i) }
{
    let tag = noted.cell(i, definition_cells::TAGGED);
    if tag == definition_cells::OWN_NAME {
        return None;
    }
    if tag == definition_cells::TAGLESS {
        return None;
    }
    let broken = !definition_words::tag_form(noted.run(i, definition_cells::TAG));
    definition_cells::at_if(broken, noted.cell(i, definition_cells::TAG))
}

#[tactic(auto, unfolding(crate::specs::Checks::form_fault))]
fn form_fault(noted: &Declarations, i: usize) -> Option<usize>
    ensures { result ≡ form_fault noted.now.text.now noted.now.cells.now i }
{
    let name = name_form_fault(noted, i);
    let reference = reference_form_fault(noted, i);
    let tag = tag_form_fault(noted, i);
    definition_cells::lesser(name, definition_cells::lesser(reference, tag))
}

// ---- 6: ranges

#[tactic(auto, unfolding(definition_rules::specs::Faults::within_kind))]
fn within_kind(k: u32, range: Option<Range>) -> bool
    ensures { result ≡ within_kind k (range_of range) }
{
    match range {
        Some(r) => {
            (definition_words::kind_least(k) <= r.low)
                & (r.low <= r.high)
                & (r.high <= definition_words::kind_most(k))
        }
        None => false,
    }
}

#[tactic(auto, unfolding(definition_cells::specs::Places::spot_of, definition_rules::specs::Faults::range_broken, definition_cells::specs::Cells::noted_at))]
fn limits_fault(noted: &Declarations, i: usize) -> Option<usize>
    ensures { result ≡ spot_of range_broken (λ s. s.range_at) (declared_at noted.now i) }
{
    let broken = !within_kind(
        definition_headings::kind(noted, i),
        definition_headings::limits(noted, i),
    );
    definition_cells::at_if(broken, noted.cell(i, definition_cells::RANGE))
}

#[tactic(auto, unfolding(definition_rules::specs::Faults::count_fine))]
fn count_fine(range: Option<Range>) -> bool
    ensures { result ≡ count_fine (range_of range) }
{
    match range {
        Some(r) => (r.low <= numbers::COUNT_LIMIT) & (1 <= r.high) & (r.low <= r.high),
        None => false,
    }
}

// A cardinality is given at a field of a union.
fn on_alternative(noted: &Declarations, i: usize) -> bool
    ensures { result ≡ on_alternative noted.now.text.now noted.now.cells.now noted.now.count i }
{
    let parent = noted.cell(i, definition_cells::PARENT) as usize;
    if parent == numbers::NONE16 {
        return false;
    }
    if noted.count <= parent {
        return false;
    }
    if definition_headings::kind(noted, parent) != numbers::UNION {
        return false;
    }
    noted.cell(i, definition_cells::CARDED) == definition_cells::GIVEN
}

fn card_broken(noted: &Declarations, i: usize) -> bool
    ensures { result ≡ card_broken noted.now.text.now noted.now.cells.now noted.now.count i }
{
    let counts = definition_headings::counts(noted, i);
    let broken = !count_fine(counts);
    let many = (definition_headings::kind(noted, i) == numbers::VOID)
        & (1 < definition_headings::high(counts));
    broken | (many | on_alternative(noted, i))
}

#[tactic(auto, unfolding(crate::specs::Checks::range_fault))]
fn range_fault(noted: &Declarations, i: usize) -> Option<usize>
    ensures { result ≡ range_fault noted.now.text.now noted.now.cells.now noted.now.count i }
{
    let broken = card_broken(noted, i);
    let card = definition_cells::at_if(broken, noted.cell(i, definition_cells::CARD));
    definition_cells::lesser(limits_fault(noted, i), card)
}

// ---- 8: one name twice in a body or among the tops

fn same_key(noted: &Declarations, i: usize, j: usize) -> bool
    ensures { result ≡ same_key_at noted.now.text.now noted.now.cells.now i j }
{
    if noted.cell(i, definition_cells::PARENT) == noted.cell(j, definition_cells::PARENT) {
        return classes::same_bytes(
            noted.run(i, definition_cells::NAME),
            noted.run(j, definition_cells::NAME),
        );
    }
    false
}

// The name stands at an earlier declaration of the same body.
fn is_repeated(noted: &Declarations, i: usize) -> bool
    ensures { result ≡ not (is_new_key (key_at noted.now.text.now noted.now.cells.now i) (keys_below noted.now.text.now noted.now.cells.now i)) }
{
    // A copy, so that its parts are at hand in each turn.
    let noted = *noted;
    for j in (0..i).rev() {
        if same_key(&noted, i, j) {
            return true;
        }
    }
    false
}

#[tactic(auto, unfolding(crate::specs::Checks::repeat_fault))]
fn repeat_fault(noted: &Declarations, i: usize) -> Option<usize>
    ensures { result ≡ repeat_fault noted.now.text.now noted.now.cells.now i }
{
    let again = is_repeated(noted, i);
    definition_cells::at_if(again, noted.cell(i, definition_cells::NAME))
}

// ---- 9: a reference to no top

fn dangling_fault(noted: &Declarations, i: usize) -> Option<usize>
    ensures { result ≡ dangling_fault noted.now.text.now noted.now.cells.now noted.now.count i }
{
    let lost = (definition_headings::kind(noted, i) == numbers::REFERENCE)
        & (definition_headings::target(noted, i) == numbers::NONE16);
    definition_cells::at_if(lost, noted.cell(i, definition_cells::TYPE))
}

// ---- over all declarations

// Number 5: the least place of a broken name, reference or tag.
pub fn broken_form(noted: &Declarations) -> Option<usize>
    ensures { result ≡ least_place (faults5 (declared noted.now)) }
{
    definition_cells::least_fault(noted.count, |i| form_fault(noted, i))
}

// Number 6: the least place of a broken range or cardinality.
pub fn broken_range(noted: &Declarations) -> Option<usize>
    ensures { result ≡ least_place (faults6 (records_of (declarations_of (declared noted.now))) (declared noted.now)) }
{
    definition_cells::least_fault(noted.count, |i| range_fault(noted, i))
}

// Number 8, names: the least place of a name that stands before in its body or among the tops.
pub fn repeated_name(noted: &Declarations) -> Option<usize>
    ensures { result ≡ least_place (repeated_names [] (declared noted.now)) }
{
    definition_cells::least_fault(noted.count, |i| repeat_fault(noted, i))
}

// Number 9, references: the least place of a reference to no top.
pub fn dangling(noted: &Declarations) -> Option<usize>
    ensures { result ≡ least_place (spots_where (dangling_of (top_names (declarations_of (declared noted.now)))) (λ s. s.type_at) (declared noted.now)) }
{
    definition_cells::least_fault(noted.count, |i| dangling_fault(noted, i))
}
