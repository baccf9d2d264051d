// The definition compiler: from a definition's text to its table.
#![tactic(auto)]

ghost use Rattle.std.specs.Prelude.{◌≡◌, List, ℕ, ◌≤◌, ◌<◌, length};
ghost use Rattle.numbers.specs.Limits.{parameter_limit, text_limit};
ghost use Rattle.reading_rules.specs.Record.{Record, Before, AfterParents};
ghost use Rattle.definition_rules.specs.Table.{number_up, just, decode};
ghost use Rattle.definition_rules.specs.Compile.{first_fault, answer_with_room, lent_after, compile_answer, table_after};
ghost use Rattle.definition_rules.specs.Stuck.{StuckPromise};
ghost use Rattle.table_rules.specs.Endless.{EndlessPromise};
ghost use Rattle.definition_cells.specs.Cells.{cell_at, parent_cell};
ghost use Rattle.definition_cells.specs.Shown.{declared};
ghost use Rattle.table_records.specs.Stored.{Laid};
ghost use Rattle.table_records.specs.Shown.{held_records};
ghost use Rattle.definition.specs.Answers.{answer_of_compile, refused_at, stop_finding, checks7to10, verdict_from};

use definition_cells::Declarations;
use numbers::{Refusal, Rule};
use table_records::Records;

// A byte more than the longest record has, and room for all records.
const RECORD_ROOM: usize = numbers::RECORD_HEADER + numbers::LABEL_LIMIT + 1;

const SCRATCH: usize = RECORD_ROOM * numbers::PARAMETER_LIMIT;

// A rule is broken where it has a place.
fn refuse(rule: Rule, place: Option<usize>) -> Result<(), Refusal>
    ensures { result ≡ refused_at rule place }
{
    match place {
        Some(place) => Err(Refusal { rule, place }),
        None => Ok(()),
    }
}

// Numbers 7 to 10, over the declarations and the records that were written for them.
fn record_fault(noted: &Declarations, records: &Records) -> Result<(), Refusal>
    requires { (records.now.count ≤ parameter_limit) × Laid records.now.table.now records.now.unpacked.now records.now.count }
    ensures { noted.now.count ≡ records.now.count → AfterParents (held_records records.now) → stop_finding result ≡ first_fault (checks7to10 (held_records records.now) (declared noted.now)) }
{
    let placed = definition_faults::misplaced(noted, records);
    refuse(Rule::Placement, placed)?;
    let names = definition_checks::repeated_name(noted);
    let tags = definition_faults::repeated_tag(noted, records);
    refuse(Rule::LabelTwice, definition_cells::lesser(names, tags))?;
    let root = definition_faults::root_no_struct(noted, records);
    let lost = definition_checks::dangling(noted);
    refuse(Rule::Target, definition_cells::lesser(root, lost))?;
    let mut have = [false; numbers::PARAMETER_LIMIT];
    let mut rest = [false; numbers::PARAMETER_LIMIT];
    table_checks::finites(records, &mut have, &mut rest);
    refuse(
        Rule::Endless,
        definition_faults::endless(noted, records, &have),
    )
}

// The same, over the table in which the records were written. A table of these records is walked to its end.
fn written_fault(noted: &Declarations, table: &[u8]) -> Result<(), Refusal>
    requires { noted.now.count ≤ parameter_limit }
    ensures { (rs : List Record) → decode table.now ≡ just rs → length rs ≡ noted.now.count → AfterParents rs → stop_finding result ≡ first_fault (checks7to10 rs (declared noted.now)) }
{
    let mut unpacked = [0; table_records::ALL_CELLS];
    match table_walk::unpack(table, &mut unpacked) {
        Some(count) => record_fault(
            noted,
            &Records {
                table,
                unpacked: &unpacked,
                count,
            },
        ),
        None => Ok(()),
    }
}

// From the declarations to the table: numbers 5 to 11. The records are written into scratch space first,
// so that the lent table is touched only when nothing can be refused any more.
fn compile_declarations(noted: &Declarations, table: &mut [u8]) -> Result<usize, Refusal>
    requires n_le_parameter_limit { (noted.now.count ≤ parameter_limit) × (length noted.now.text.now ≤ text_limit) }
    requires by_index { (i : ℕ) → i < noted.now.count → Before i (number_up (cell_at noted.now.cells.now i parent_cell)) }
    ensures result_value { answer_of_compile result ≡ answer_with_room (length table.old) (verdict_from noted.now.text.now noted.now.cells.now noted.now.count) }
    ensures table_after { table.new ≡ lent_after (verdict_from noted.now.text.now noted.now.cells.now noted.now.count) table.old }
{
    refuse(Rule::LabelForm, definition_checks::broken_form(noted))?;
    refuse(Rule::RangeForm, definition_checks::broken_range(noted))?;
    let mut scratch = [0; SCRATCH];
    let len = definition_writer::write_records(noted, &mut scratch);
    written_fault(noted, classes::part(&scratch, 0, len))?;
    let lacks_room = table.len() < len;
    if lacks_room {
        return Err(Refusal {
            rule: Rule::TableRoom,
            place: len,
        });
    }
    definition_writer::copy_out(&scratch, len, table);
    Ok(len)
}

// Compiles a definition into the lent table: the table's length, or the rule that is broken and where. The answer and the lent
// bytes after are those of the definitions. A text free of 1 and 2 is refused with 3 exactly when its tokens don't fit the forms,
// at the first that can't go on; one free of every fault before 10 is refused as endless exactly when one of its structs or
// unions has no lawful value, at its name.
pub fn compile(text: &[u8], table: &mut [u8]) -> Result<usize, Refusal>
    ensures result_value { answer_of_compile result ≡ compile_answer text.now (length table.old) }
    ensures table_after { table.new ≡ table_after text.now table.old }
    ensures stuck_promise { StuckPromise text.now (answer_of_compile result) }
    ensures endless_promise { EndlessPromise text.now (answer_of_compile result) }
{
    let is_long = numbers::TEXT_LIMIT < text.len();
    if is_long {
        return Err(Refusal {
            rule: Rule::DefinitionLength,
            place: numbers::TEXT_LIMIT,
        });
    }
    refuse(Rule::DefinitionTokens, definition_scanner::scan_fault(text))?;
    let mut cells = [0; definition_cells::ALL_CELLS];
    match definition_forms::forms(text, &mut cells) {
        Ok(count) => compile_declarations(
            &Declarations {
                text,
                cells: &cells,
                count,
            },
            table,
        ),
        Err(refusal) => Err(refusal),
    }
}
