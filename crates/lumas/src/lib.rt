// The functions for programs in C and Rust (include/lumas.h). None keeps anything between calls.
//
// A number is the paper's, 0 for success, and one value goes with it through the last pointer.
#![tactic(auto)]

ghost use Rattle.std.specs.Prelude.{◌≡◌, true, ◌↔◌, ◌≤◌, length};
ghost use Rattle.numbers.specs.Limits.{parameter_limit};
ghost use Rattle.definition_rules.specs.Compile.{number_of_compile, compile_answer, table_after};
ghost use Rattle.definition_rules.specs.Stuck.{StuckPromise};
ghost use Rattle.table_rules.specs.Endless.{EndlessPromise};
ghost use Rattle.table_rules.specs.Compilable.{Compilable};
ghost use Rattle.table_rules.specs.RecordRules.{table_rules};
ghost use Rattle.message_rules.specs.Verdict.{number_of_read, read_answer, rows_after};
ghost use Rattle.message_rules.specs.Promise.{ReadPromise};
ghost use Rattle.lumas.specs.Told.{number_told, value_told, table_most, compile_value, compile_heard, read_value, read_heard, RowPart};

use numbers::Refusal;

const SUCCESS: u32 = 0;

// Tells an answer: its number, and through value what it counts, or the refusal's place.
fn told(answer: Result<usize, Refusal>, value: &mut usize) -> u32
    ensures number { result ≡ number_told answer }
    ensures value_after { value.new ≡ value_told answer }
{
    match answer {
        Ok(amount) => {
            *value = amount;
            SUCCESS
        }
        Err(refusal) => {
            *value = refusal.place;
            refusal.rule.number()
        }
    }
}

// Compiles a definition into the lent table. The value is the table's length, or the refusal's place.
// Where as much is lent as the longest table has, it is never refused for its length.
#[unsafe(no_mangle)]
pub extern "C" fn lumas_compile(text: &[u8], table: &mut [u8], value: &mut usize) -> u32
    ensures number { result ≡ number_of_compile (compile_answer text.now (length table.old)) }
    ensures value_after { value.new ≡ compile_value (compile_answer text.now (length table.old)) }
    ensures table_after { table.new ≡ table_after text.now table.old }
    ensures heard { compile_heard result value.new ≡ compile_answer text.now (length table.old) }
    ensures stuck_promise { StuckPromise text.now (compile_heard result value.new) }
    ensures endless_promise { EndlessPromise text.now (compile_heard result value.new) }
    ensures fits { table_most ≤ length table.old → result ≡ 11 → ⊥ }
{
    told(definition::compile(text, table), value)
}

// Whether some definition compiles to the table.
#[unsafe(no_mangle)]
pub extern "C" fn lumas_table_ok(table: &[u8]) -> bool
    ensures rules { result ≡ table_rules parameter_limit table.now }
    ensures compilable { (result ≡ true) ↔ Compilable table.now }
{
    table::table_ok(table)
}

// Reads a message by a table into the lent numbers. The value is the number of rows, or the refusal's place.
#[unsafe(no_mangle)]
pub extern "C" fn lumas_read(
    table: &[u8],
    message: &[u8],
    rows: &mut [u32],
    value: &mut usize,
) -> u32
    ensures number { result ≡ number_of_read (read_answer table.now message.now (length rows.old)) }
    ensures value_after { value.new ≡ read_value (read_answer table.now message.now (length rows.old)) }
    ensures rows_after { rows.new ≡ rows_after table.now message.now rows.old }
    ensures heard { read_heard result value.new ≡ read_answer table.now message.now (length rows.old) }
    ensures read_promise { ReadPromise table.now message.now rows.old (read_heard result value.new) rows.new }
{
    told(message::read(table, message, rows), value)
}

// The number of a row's bytes, and where in the message they start: 0 and 0 where there are none.
#[unsafe(no_mangle)]
pub extern "C" fn lumas_row(message: &[u8], rows: &[u32], row: usize, start: &mut usize) -> usize
    ensures { RowPart message.now rows.now row start.new result }
{
    let count = message::row_bytes(message, rows, row).len();
    if count == 0 {
        *start = 0;
        return 0;
    }
    *start = rows[numbers::ROW_WIDTH * row + numbers::ROW_START] as usize;
    count
}
