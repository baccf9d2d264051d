// The walk over a table's records, by their lengths.
#![tactic(auto)]

ghost use Rattle.std.specs.Prelude.{length};
ghost use Rattle.table_walk.specs.Walked.{TellsLength, Enough, Walked};

// One past the flags that a record may have.
const FLAGS_END: u16 = numbers::FLAGS_END as u16;

// The length of the whole record that begins at a place, if one does.
fn length_at(table: &[u8], at: usize) -> Option<usize>
    ensures { TellsLength table.now at result }
{
    let left = table.len().saturating_sub(at);
    let is_cut = left < numbers::RECORD_HEADER;
    if is_cut {
        return None;
    }
    let size = usize::from(numbers::u16_at(table, at));
    let label = usize::from(numbers::u16_at(table, at + numbers::LABEL_LENGTH_AT));
    if size != numbers::RECORD_HEADER + label {
        return None;
    }
    if FLAGS_END <= numbers::u16_at(table, at + numbers::FLAGS_AT) {
        return None;
    }
    if left < size {
        return None;
    }
    Some(size)
}

// Unpacks the records of a table, if there is room for them all, and says how many they are; none where its bytes are no
// whole records, or over 256. It fills the cells that `Records` then lends.
pub fn unpack(table: &[u8], unpacked: &mut [u32]) -> Option<usize>
    ensures { Enough (length table.now) (length unpacked.old) → Walked table.now unpacked.new result }
{
    let mut n: usize = 0;
    let mut at: usize = 0;
    // No index: a record's length says where the next one begins.
    while at < table.len() {
        if n == numbers::PARAMETER_LIMIT {
            return None;
        }
        let size = length_at(table, at)?;
        table_records::unpack(table, at as u32, unpacked, n);
        n += 1;
        at += size;
    }
    Some(n)
}
