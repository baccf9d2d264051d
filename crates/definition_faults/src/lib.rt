// The least places of the faults that records alone show: numbers 7, 9 for the root and 10; 8 for tags.
#![tactic(auto)]

ghost use Rattle.std.specs.Prelude.{◌≡◌};
ghost use Rattle.definition_rules.specs.Faults.{rule7_broken, root_no_struct};
ghost use Rattle.definition_rules.specs.Finite.{is_endless};
ghost use Rattle.definition_cells.specs.Places.{least_from};
ghost use Rattle.table_records.specs.Stored.{Laid};
ghost use Rattle.table_records.specs.Shown.{held_records};
ghost use Rattle.definition_faults.specs.RecordFaults.{name_fault, tag_fault};

use definition_cells::Declarations;
use table_records::Records;

// Number 7: the least place of the name of a parameter that is not placed as it may be.
pub fn misplaced(noted: &Declarations, records: &Records) -> Option<usize>
    ensures { result ≡ least_from (name_fault (rule7_broken (held_records records.now)) noted.now.cells.now records.now) records.now.count 0 }
{
    definition_cells::least_fault(records.count, |i| {
        definition_cells::at_if(
            table_checks::rule7_broken(records, i),
            noted.cell(i, definition_cells::NAME),
        )
    })
}

// Number 8, tags: the least place of one that stands before in its body.
pub fn repeated_tag(noted: &Declarations, records: &Records) -> Option<usize>
    requires { Laid records.now.table.now records.now.unpacked.now records.now.count }
    ensures { result ≡ least_from (tag_fault noted.now.cells.now records.now) records.now.count 0 }
{
    let mut least = None;
    let mut marks = [false; table_tags::MARKS];
    for i in 0..records.count {
        let again = table_tags::tag_again_marked(records, i, &mut marks);
        let tag = noted.cell(i, definition_cells::TAG);
        least = definition_cells::lesser(least, definition_cells::at_if(again, tag));
    }
    least
}

// Number 9: the place of the root's name, where it is no struct.
pub fn root_no_struct(noted: &Declarations, records: &Records) -> Option<usize>
    ensures { result ≡ least_from (name_fault root_no_struct noted.now.cells.now records.now) records.now.count 0 }
{
    definition_cells::least_fault(records.count, |i| {
        definition_cells::at_if(
            table_checks::root_no_struct(records, i),
            noted.cell(i, definition_cells::NAME),
        )
    })
}

// Number 10: the least place of the name of a struct or union without a finite value; have says who has one.
pub fn endless(noted: &Declarations, records: &Records, have: &[bool]) -> Option<usize>
    ensures { result ≡ least_from (name_fault (is_endless have.now) noted.now.cells.now records.now) records.now.count 0 }
{
    definition_cells::least_fault(records.count, |i| {
        definition_cells::at_if(
            table_checks::is_endless(records, have, i),
            noted.cell(i, definition_cells::NAME),
        )
    })
}
